//! A run that follows feeds, whether it keeps its commands or not: the call, the number of the clock feed, and for each
//! feed its reader and its attendant. A run opens feeds, and writes only to the error stream.
ghost use Rattle.std.specs.Prelude.{◌≡◌, ◌+◌, true, not, All, IfOk, IfErr, OnOk, OnErr, length, map};
ghost use Rattle.mon_engine.specs.Telling.{is_clock};
ghost use Rattle.std.specs.List.{range_with_len};
ghost use Rattle.std.specs.Io.KnownBytes.{Keeps};
ghost use Rattle.cmd_answer.specs.Stops.{StopsOpening};
ghost use Rattle.cmd_dispatch.specs.Tellings.{AppendsBeginning};
ghost use Rattle.cmd_live.specs.Runs.{count_with, start_line};

use crate::care::Care;
use crate::live::{
    Attending, FeedSystem, InventoryWatch, OpenFeeds, Opening, Signal, Source, Ticking, open_feeds,
};
use crate::numbered::Numbered;
use crate::start::{Known, Start};
use cmd_answer::{FilesStop, FollowLine, write_text};
use cmd_dispatch::Feeding;
use cmd_ledger::is_clock;
use cmd_options::FollowCall;
use cmd_types::Memory;
use std::alloc::Global;
use std::io::{Read, Write};
use std::marker::Send;
use std::rt::Files;

/// A call that follows feeds, with the system on which it runs and its allocator.
#[derive(Drop)]
pub struct Call<'a, R> {
    pub rt: &'a R,
    pub alloc: Global,
    /// The call that the program's arguments spell.
    pub asked: &'a FollowCall<'a>,
}

/// A run of a call that follows feeds. Each of its feeds has a number.
#[derive(Drop)]
pub struct Run<'a, R: Files> {
    pub call: &'a Call<'a, R>,
    /// The number of the clock feed; `None` where there is none.
    pub clock: Option<u16>,
    /// The state that the threads of the run share.
    pub signal: Signal<'a, R>,
}

impl<'a, R: Files> Run<'a, R> {
    /// A run of `call` over `feeds`, which the call names, in order of the feeds' numbers. `clock` is the number of the
    /// clock feed. Opens nothing. Fails if memory runs out.
    pub fn new(
        call: &'a Call<'a, R>,
        feeds: &[Numbered<'a>],
        clock: Option<u16>,
    ) -> Result<Run<'a, R>, Memory>
        ensures call { IfOk result (λ run. run.call.now ≡ call.now) }
        ensures clock { IfOk result (λ run. run.clock ≡ clock) }
        ensures gates { IfOk result (λ run. map (λ g. g.path.now) run.signal.gates.items ≡ map (λ f. f.path.now) feeds.now) }
    {
        Ok(Run {
            call,
            clock,
            signal: Signal::new(call.alloc, feeds, call.asked.following.verbose)?,
        })
    }

    /// A value for each feed of the run, in order of the feeds' numbers: a value of `given` for each feed that the call
    /// names, and `of_clock` for the clock feed, if there is one. Fails if memory runs out.
    fn with_clock<T: Drop>(&self, given: Vec<T>, of_clock: T) -> Result<Vec<T>, Memory>
        ensures { IfOk result (λ all. length all.items ≡ count_with self.now.clock (length given.items)) }
    {
        let Some(clock) = self.clock else {
            return Ok(given);
        };
        let mut all = given;
        let number = usize::from(clock).min(all.len());
        all.insert(number, of_clock)?;
        Ok(all)
    }

    /// The properties of the feed `number` for its attendant. `starts` has the start of each feed of the run.
    fn care_of(&self, starts: &[Start], number: usize) -> Care
        ensures feed { result.feed ≡ number }
        ensures given { result.is_given ≡ not (is_clock self.now.clock number) }
    {
        let following = self.call.asked.following;
        let is_given = !is_clock(self.clock, number);
        Care {
            feed: number as u64,
            is_given,
            prints_ending: !following.drain || !is_given,
            ahead: following.ahead,
            passed: match starts.get(number) {
                Some(start) => start.lines(),
                None => 0,
            },
        }
    }
}

impl<'a, R: FeedSystem> Run<'a, R> {
    /// The attendants of `feeds` feeds, in order of the feeds' numbers. They have written nothing yet. Fails if memory
    /// runs out.
    fn attendants(&'a self, starts: &[Start], feeds: usize) -> Result<Vec<Attending<'a, R>>, Memory>
        ensures count { IfOk result (λ v. length v.items ≡ feeds) }
        ensures nothing { IfOk result (λ v. All (λ a. (a.is_clean ≡ true) × (a.first.value ≡ a.refusals)) v.items) }
        ensures numbers { IfOk result (λ v. map (λ a. a.care.feed) v.items ≡ range_with_len 0 feeds) }
    {
        let Call { rt, alloc, .. } = *self.call;
        let mut attendants = Vec::with_capacity(alloc, feeds)?;
        for feed in 0..feeds {
            let care = self.care_of(starts, feed);
            attendants.push_reserved(Attending::new(rt, alloc, &self.signal, care));
        }
        Ok(attendants)
    }

    /// Opens the feeds that the call names, in order of their numbers, and finds where the reading of each begins.
    /// `known` has the journaled commands of each, and is empty where nothing is kept; `input` is the program's input.
    /// Writes to no file.
    ///
    /// # Errors
    /// [`FilesStop::Open`] with the path of the first feed that cannot be opened, or
    /// [`Stop::Memory`](cmd_answer::Stop::Memory).
    pub fn open<I: Read + Drop>(
        &'a self,
        known: &[Known<'_>],
        input: I,
    ) -> Result<OpenFeeds<'a, R, I>, FilesStop<'a>>
        ensures one_each { IfOk result (λ o. length o.sources.items ≡ length self.now.signal.gates.items) }
        ensures starts { IfOk result (λ o. length o.starts.items ≡ length self.now.signal.gates.items) }
        ensures stops { IfErr result (StopsOpening (map (λ g. g.path.now) self.now.signal.gates.items)) }
    {
        let Call { rt, alloc, asked } = *self.call;
        let opening = Opening {
            rt,
            alloc,
            signal: &self.signal,
            drain: asked.following.drain,
            known,
        };
        open_feeds(&opening, &self.signal.gates, input)
    }
}

impl<'a, R: FeedSystem + Sync> Run<'a, R>
where
    R::File: Send,
    R::Dir: Send,
    R::Stream: Send,
{
    /// The feeds of the run as a `Feeding`: the reader and the attendant of each, in order of the feeds' numbers, and
    /// the run's options. `opened` has the feeds that the call names. Where the run can be renewed and `inventory_text`
    /// is given, the text under which it applies its commands, the clock feed watches the file of the inventory. Reads
    /// and writes nothing. Fails if memory runs out.
    pub fn feeds<I: Read + Send + Drop>(
        &'a self,
        opened: OpenFeeds<'a, R, I>,
        inventory_text: Option<&'a [u8]>,
    ) -> Result<Feeding<Source<'a, R, I>, Attending<'a, R>>, Memory>
        ensures all { IfOk result (λ fed. length fed.readers.items ≡ count_with self.now.clock (length opened.entry.sources.items)) }
        ensures one_each { IfOk result (λ fed. length fed.attendants.items ≡ length fed.readers.items) }
        ensures nothing { IfOk result (λ fed. All (λ a. (a.is_clean ≡ true) × (a.first.value ≡ a.refusals)) fed.attendants.items) }
        ensures numbers { IfOk result (λ fed. map (λ a. a.care.feed) fed.attendants.items ≡ range_with_len 0 (length fed.readers.items)) }
        ensures options { IfOk result (λ fed. fed.options ≡ self.now.call.now.asked.now.run) }
    {
        let OpenFeeds { sources, starts } = opened;
        let Call { rt, alloc, asked } = *self.call;
        let watch = match inventory_text {
            Some(text) if self.signal.renewal.is_possible() => {
                let signal = &self.signal;
                Some(InventoryWatch::new(rt, alloc, signal, asked.inventory, text))
            }
            _ => None,
        };
        let ticking = Ticking::new(rt, alloc, &self.signal, asked.following.clock, watch);
        let readers = self.with_clock(sources, Source::Ticking(ticking))?;
        let starts = self.with_clock(starts, Start::FIRST)?;
        let attendants = self.attendants(&starts, readers.len())?;
        Ok(Feeding {
            readers,
            attendants,
            options: asked.run,
        })
    }
}

/// Writes to the error stream that a run begins over `feeds` feeds, after `entries` entries, with the monitor's clock
/// in seconds. If memory runs out, fails and writes nothing. A failed write is no error.
pub fn print_start<E: Write>(
    alloc: Global,
    feeds: usize,
    entries: u64,
    clock: u64,
    errors: &mut E,
) -> Result<(), Memory>
    ensures printed { OnOk result (AppendsBeginning (E.contents errors.old) (E.contents errors.new) (start_line feeds entries clock)) }
    ensures nothing { OnErr result (Keeps (E.contents errors.old) (E.contents errors.new)) }
{
    let line = FollowLine::Following {
        feeds: feeds as u64,
        entries,
        clock,
    };
    let line = line.text(alloc)?;
    // The feeds are followed even where the error stream takes no line.
    let _ = write_text(errors, line.as_bytes());
    Ok(())
}
