//! Runs feeds with a journal and, where figures are asked for, with a board: the run publishes its entries on the
//! board, and a reader looks at the board once after the run.
ghost use Rattle.std.specs.Prelude.{◌≡◌, ◌↔◌, IfOk, IfErr, OnOk, length};
ghost use Rattle.cmd_run.specs.declared.fault.RunCause.TheVariants.{BadOptions};
ghost use Rattle.cmd_options.specs.Options.{MayRun};
ghost use Rattle.cmd_dispatch.specs.RunCalls.{run_call};
ghost use Rattle.cmd_dispatch.specs.Runs.{outcome, HasRun, HasFailed};
ghost use Rattle.mon_engine.specs.Figures.{figures};
ghost use Rattle.mon_engine.specs.Step.{meaning};
ghost use Rattle.gateway.specs.Watched.{IsWatched, figures_in};

use cmd_dispatch::{Board, BoardWriter, Feed, RunReport, run, run_watched};
use cmd_options::Options;
use cmd_run::RunFault;
use cmd_types::Memory;
use mon_engine::Figures;
use mon_inventory::Inventory;
use std::alloc::Global;
use std::sync::Wait;
use std::thread::Threads;

/// The board on which a run published its entries, and the figures that a reader saw there after the run.
#[derive(Drop)]
pub struct Watched {
    pub board: BoardWriter,
    pub figures: Figures,
}

/// The report or the fault of a run, and its board with the figures where figures are asked for.
#[derive(Drop)]
pub struct WatchedRun {
    pub run: Result<RunReport, RunFault>,
    pub watched: Option<Watched>,
}

impl WatchedRun {
    /// The figures; `None` where they are not asked for.
    pub fn figures(&self) -> Option<Figures>
        ensures { result ≡ figures_in self.now.watched }
    {
        match &self.watched {
            Some(watched) => Some(watched.figures),
            None => None,
        }
    }
}

/// Makes a reader of the board, looks once, and gathers the reader again. Returns the figures; the board is unchanged.
/// Fails if memory runs out.
fn seen_on(board: &mut BoardWriter) -> Result<Figures, Memory>
    ensures same { board.new ≡ board.old }
    ensures seen { IfOk result (λ f. f ≡ figures (meaning board.old.inventory board.old.published)) }
{
    let mut reader = board.reader()?;
    let figures = reader.look();
    board.gather(reader);
    Ok(figures)
}

/// Runs feeds to their end with a journal. Where figures are asked for, the run publishes on a board, and a reader of
/// the board looks once after the run. Prints nothing.
///
/// # Errors
/// Out of memory for the board or its reader. A fault of the run is part of the result, [`WatchedRun`].
pub fn run_asked<F: Feed, R: Threads + Wait + Sync>(
    rt: &R,
    alloc: Global,
    inventory: Inventory,
    readers: Vec<F>,
    options: Options,
) -> Result<WatchedRun, Memory>
    ensures ran { IfOk result (λ x. IfOk x.run (λ r. HasRun (run_call F.remaining F.fails F.fills options.run readers.items inventory) (outcome r))) }
    ensures may_run { IfOk result (λ x. OnOk x.run (MayRun (length readers.items) options.run)) }
    ensures bad_options { IfOk result (λ x. IfErr x.run (λ e. (e.cause ≡ BadOptions) ↔ (MayRun (length readers.items) options.run → ⊥))) }
    ensures fault { IfOk result (λ x. IfErr x.run (λ e. HasFailed (run_call F.remaining F.fails F.fills options.run readers.items inventory) e.cause e.journal.entries e.senders.items)) }
    ensures watched { IfOk result (λ x. IsWatched options.asked.figures inventory x.run x.watched) }
{
    if options.asked.figures {
        let mut board = Board::create(alloc, &inventory)?;
        let run = run_watched(rt, alloc, inventory, readers, options.run, &mut board);
        let figures = seen_on(&mut board)?;
        let watched = Some(Watched { board, figures });
        return Ok(WatchedRun { run, watched });
    }
    let run = run(rt, alloc, inventory, readers, options.run);
    Ok(WatchedRun { run, watched: None })
}
