//! The body of a sender's thread: it reads its feed piece by piece, sends the commands, many in a message, passes the
//! refused lines to its reporter, and sends its close mark at the end. An item is a command or a refused line. An error
//! is a `SenderStop`: memory runs out, or the queue refuses. `send_made` is the body for a feed that makes its
//! commands.
ghost use Rattle.std.specs.Prelude.{◌≡◌, ◌≤◌, ◌+◌, ◌++◌, [], ◌∷◌, ◌<◌, true, false, ℕ, List, IfOk, OnOk, OnErr, length};
ghost use Rattle.cmd_lines.specs.declared.item.Item.{Item};
ghost use Rattle.cmd_lines.specs.declared.phase.Phase.TheVariants.{Open};
ghost use Rattle.cmd_lines.specs.Items.{known, items_so_far};
ghost use Rattle.cmd_lines.specs.Reader.{Stands};
ghost use Rattle.cmd_dispatch.specs.Delivered.{items_by};
ghost use Rattle.cmd_types.specs.Spelling.{Timed};
ghost use Rattle.cmd_queue.specs.Sides.{with_commands};
ghost use Rattle.cmd_dispatch.specs.Planned.{IsPlannedBy};
ghost use Rattle.cmd_dispatch.specs.Sends.{HasSent, KeepsPlan, ReadsInPlan, HasKept, HasPassedOn, HasBegun, HasRead, HasClosed, HasLeft, HasRoom, IsReading, IsCovered, HasReadText, IsPartRead, IsSame, IsWithin, ahead};

use crate::feed::Feed;
use crate::making::send_made;
use crate::reading::Reading;
use crate::reporter::Reporter;
use crate::stop::SenderStop;
use cmd_lines::{Lines, MOST_FED, Put, text_that_grows};
use cmd_queue::{ClosedSender, MOST_TOGETHER, SenderSide};
use cmd_run::Ending;
use cmd_types::Stamped;
use std::alloc::Global;
use std::mem;
use std::sync::Wait;

/// A sender that has sent nothing: its side of the queue, its feed, the limits of its reads, and its reporter.
#[derive(Drop)]
pub(crate) struct Sender<F: Feed, P: Reporter> {
    pub side: SenderSide,
    pub feed: F,
    pub reading: Reading,
    pub report: P,
}

/// A sender that reads its feed. `gathered` has the commands of its next message, which are not sent yet.
#[derive(Drop)]
pub(crate) struct Sending<P: Reporter> {
    side: SenderSide,
    gathered: Vec<Stamped>,
    lines: Lines,
    report: P,
}

/// Ends the text of `lines`: as a text that broke off for `ReadFailed` and `TooManyReads`, else as a whole text.
fn end_text(lines: &mut Lines, how: Ending)
    requires { lines.old.phase ≡ Open }
    ensures stands { (f : List ℕ) (g : List Item) → Stands lines.old f g → Stands lines.new f g }
    ensures items { (f : List ℕ) → known lines.new.phase f ≡ items_by how f }
    ensures pending { lines.new.pending ≡ lines.old.pending }
    ensures fed { lines.new.fed ≡ lines.old.fed }
{
    match how {
        Ending::ReadFailed | Ending::TooManyReads => lines.cut_off(),
        Ending::Whole | Ending::Memory | Ending::QueueRefused => lines.finish(),
    }
}

impl<P: Reporter> Sending<P> {
    /// Sends the gathered commands in one message; does nothing where there are none. If the queue refuses, they remain
    /// gathered.
    fn send_gathered<W: Wait>(&mut self, rt: &W, alloc: Global) -> Result<(), SenderStop>
        requires within { IsWithin self.old }
        ensures same { IsSame P.has_taken self.old self.new }
        ensures within { IsWithin self.new }
        ensures sent { OnOk result (self.new.gathered.items ≡ []) }
    {
        if self.gathered.is_empty() {
            return Ok(());
        }
        let gathered = mem::replace(&mut self.gathered, Vec::new(alloc));
        match self.side.submit_many(rt, gathered) {
            Ok(_) => Ok(()),
            Err(back) => {
                self.gathered = back;
                Err(SenderStop::QueueRefused)
            }
        }
    }

    /// Makes room for one more gathered command: sends the gathered commands where they fill a message, and reserves
    /// memory. After an error no command is lost.
    fn make_room<W: Wait>(&mut self, rt: &W, alloc: Global) -> Result<(), SenderStop>
        requires within { IsWithin self.old }
        ensures same { IsSame P.has_taken self.old self.new }
        ensures within { IsWithin self.new }
        ensures room { OnOk result (HasRoom self.new) }
    {
        if self.gathered.len() == MOST_TOGETHER {
            self.send_gathered(rt, alloc)?;
        }
        let more = MOST_TOGETHER - self.gathered.len();
        self.gathered.reserve_exact(more)?;
        Ok(())
    }

    /// Where the last gathered command has to wait, sends the commands before it and waits. After an error, which may
    /// be that of the wait, only the command that had to wait is dropped.
    fn hold_back<W: Wait>(&mut self, rt: &W, alloc: Global) -> Result<(), SenderStop>
        requires within { IsWithin self.old }
        ensures same { OnOk result (IsSame P.has_taken self.old self.new) }
        ensures dropped { OnErr result ((before : List Timed) (last : Timed) → self.old.gathered.items ≡ before ++ last ∷ [] → (ahead self.new ≡ with_commands self.old.side before) × HasKept (P.has_taken self.old.report) (P.has_taken self.new.report)) }
        ensures side { ((ahead self.new).queue ≡ (ahead self.old).queue) × ((ahead self.new).sender ≡ (ahead self.old).sender) }
        ensures within { IsWithin self.new }
        ensures phase { (self.new.lines ≡ self.old.lines) }
    {
        let Some(last) = self.gathered.last() else {
            return Ok(());
        };
        let time = last.time();
        if !self.report.must_wait(time) {
            return Ok(());
        }
        let Some(held) = self.gathered.pop() else {
            return Ok(());
        };
        self.send_gathered(rt, alloc)?;
        let line = self.lines.first_waiting().saturating_sub(1);
        self.report.wait_for(time, line)?;
        self.gathered.reserve_exact(MOST_TOGETHER)?;
        self.gathered.push_reserved(held);
        Ok(())
    }

    /// Passes on the next item: passes a refused line to the reporter, or gathers a command, after blocking while it
    /// must wait. Returns whether there was an item. After an error the item is neither gathered nor reported.
    fn pass_next<W: Wait>(&mut self, rt: &W, alloc: Global) -> Result<bool, SenderStop>
        requires room { HasRoom self.old }
        requires covered { IsCovered self.old.lines (ahead self.old) }
        requires few { self.old.lines.fed ≤ MOST_FED }
        requires planned { KeepsPlan self.old.lines (ahead self.old) (P.has_taken self.old.report) }
        ensures passed { IfOk result (λ more. more ≡ true → (item : Item)
            × ((f : List ℕ) (g : List Item) → Stands self.old.lines f g → Stands self.new.lines f (g ++ item ∷ []))
            × ((g : List Item) → HasPassedOn g (ahead self.old) (P.has_taken self.old.report) → HasPassedOn (g ++ item ∷ []) (ahead self.new) (P.has_taken self.new.report))) }
        ensures falls { IfOk result (λ more. more ≡ true → length self.new.lines.pending < length self.old.lines.pending) }
        ensures none { IfOk result (λ more. more ≡ false → ((f : List ℕ) (g : List Item) → Stands self.old.lines f g → known self.old.lines.phase f ≡ g)
            × (self.new.lines ≡ self.old.lines) × (ahead self.new ≡ ahead self.old) × HasKept (P.has_taken self.old.report) (P.has_taken self.new.report)) }
        ensures stopped { OnErr result ((ahead self.new ≡ ahead self.old) × HasKept (P.has_taken self.old.report) (P.has_taken self.new.report)) }
        ensures side { ((ahead self.new).queue ≡ (ahead self.old).queue) × ((ahead self.new).sender ≡ (ahead self.old).sender) }
        ensures few { length (ahead self.new).list ≤ length (ahead self.old).list + 1 }
        ensures within { IsWithin self.new }
        ensures phase { self.new.lines.phase ≡ self.old.lines.phase }
        ensures fed { self.new.lines.fed ≡ self.old.lines.fed }
    {
        match self.lines.next_into(alloc, &mut self.gathered)? {
            Some(Put::Command) => {
                self.hold_back(rt, alloc)?;
                Ok(true)
            }
            Some(Put::Refused { line, fault }) => {
                self.report.refuse(line, fault)?;
                Ok(true)
            }
            None => Ok(false),
        }
    }

    /// Passes on all items that the text so far determines. Room for a command is made before each item. After an error
    /// some of these items, in order, were passed on.
    fn pass_on_known<W: Wait>(&mut self, rt: &W, alloc: Global) -> Result<(), SenderStop>
        requires covered { IsCovered self.old.lines (ahead self.old) }
        requires few { self.old.lines.fed ≤ MOST_FED }
        requires within { IsWithin self.old }
        requires planned { KeepsPlan self.old.lines (ahead self.old) (P.has_taken self.old.report) }
        ensures passed { OnOk result ((f : List ℕ) (g : List Item) → Stands self.old.lines f g → HasPassedOn g (ahead self.old) (P.has_taken self.old.report)
            → Stands self.new.lines f (known self.old.lines.phase f) × HasPassedOn (known self.old.lines.phase f) (ahead self.new) (P.has_taken self.new.report)) }
        ensures begun { (f : List ℕ) (g : List Item) → Stands self.old.lines f g → HasPassedOn g (ahead self.old) (P.has_taken self.old.report)
            → HasBegun (known self.old.lines.phase f) (ahead self.new) (P.has_taken self.new.report) }
        ensures side { ((ahead self.new).queue ≡ (ahead self.old).queue) × ((ahead self.new).sender ≡ (ahead self.old).sender) }
        ensures within { IsWithin self.new }
        ensures covered { OnOk result (IsCovered self.new.lines (ahead self.new)) }
        ensures phase { OnOk result (self.new.lines.phase ≡ self.old.lines.phase) }
        ensures fed { OnOk result (self.new.lines.fed ≡ self.old.lines.fed) }
    {
        self.make_room(rt, alloc)?;
        'items: while self.pass_next(rt, alloc)? {
            self.make_room(rt, alloc)?;
        }
        Ok(())
    }

    /// Takes the next piece of the feed: passes on its items, and sends all gathered commands, since the next read may
    /// wait. After an error some items, in order, were passed on.
    fn take<W: Wait>(&mut self, rt: &W, alloc: Global, piece: &[u8]) -> Result<(), SenderStop>
        requires opened { self.old.lines.phase ≡ Open }
        requires covered { IsCovered self.old.lines (ahead self.old) }
        requires few { self.old.lines.fed + length piece.now ≤ MOST_FED }
        requires within { IsWithin self.old }
        requires planned { ReadsInPlan (λ f. items_so_far (f ++ piece.now)) self.old.lines (ahead self.old) (P.has_taken self.old.report) }
        ensures reading { OnOk result ((f : List ℕ) → IsReading f self.old.lines (ahead self.old) (P.has_taken self.old.report)
            → IsReading (f ++ piece.now) self.new.lines (ahead self.new) (P.has_taken self.new.report)) }
        ensures begun { (f : List ℕ) → IsReading f self.old.lines (ahead self.old) (P.has_taken self.old.report)
            → HasBegun (items_so_far (f ++ piece.now)) (ahead self.new) (P.has_taken self.new.report) }
        ensures side { ((ahead self.new).queue ≡ (ahead self.old).queue) × ((ahead self.new).sender ≡ (ahead self.old).sender) }
        ensures within { IsWithin self.new }
        ensures opened { OnOk result (self.new.lines.phase ≡ Open) }
        ensures sent { OnOk result (self.new.gathered.items ≡ []) }
        ensures covered { OnOk result (IsCovered self.new.lines (ahead self.new)) }
        ensures fed { OnOk result (self.new.lines.fed ≡ self.old.lines.fed + length piece.now) }
    {
        self.lines.feed(alloc, piece)?;
        self.pass_on_known(rt, alloc)?;
        self.send_gathered(rt, alloc)
    }

    /// Ends the text as `how` says, and passes on the items that the ended text determines. After an error some of
    /// these items, in order, were passed on.
    fn end<W: Wait>(&mut self, rt: &W, alloc: Global, how: Ending) -> Result<(), SenderStop>
        requires opened { self.old.lines.phase ≡ Open }
        requires covered { IsCovered self.old.lines (ahead self.old) }
        requires few { self.old.lines.fed ≤ MOST_FED }
        requires within { IsWithin self.old }
        requires planned { ReadsInPlan (items_by how) self.old.lines (ahead self.old) (P.has_taken self.old.report) }
        ensures passed { OnOk result ((f : List ℕ) → IsReading f self.old.lines (ahead self.old) (P.has_taken self.old.report)
            → HasPassedOn (items_by how f) (ahead self.new) (P.has_taken self.new.report)) }
        ensures begun { (f : List ℕ) → IsReading f self.old.lines (ahead self.old) (P.has_taken self.old.report)
            → HasBegun (items_by how f) (ahead self.new) (P.has_taken self.new.report) }
        ensures side { ((ahead self.new).queue ≡ (ahead self.old).queue) × ((ahead self.new).sender ≡ (ahead self.old).sender) }
        ensures within { IsWithin self.new }
        ensures fed { OnOk result (self.new.lines.fed ≡ self.old.lines.fed) }
    {
        end_text(&mut self.lines, how);
        self.pass_on_known(rt, alloc)
    }

    /// Reads the feed piece by piece and passes on its items, up to its end, a failed read, or the most reads, and
    /// returns which of these it was. After an error some items, in order, were passed on.
    fn read_text<F: Feed, W: Wait>(
        &mut self,
        rt: &W,
        alloc: Global,
        feed: &mut F,
        reading: Reading,
    ) -> Result<Ending, SenderStop>
        requires opened { self.old.lines.phase ≡ Open }
        requires nothing_fed { self.old.lines.fed ≡ 0 }
        requires nothing_yet { IsReading [] self.old.lines (ahead self.old) (P.has_taken self.old.report) }
        requires covered { IsCovered self.old.lines (ahead self.old) }
        requires within { IsWithin self.old }
        requires planned { IsPlannedBy (F.remaining feed.old) (ahead self.old) }
        // By the bytes that the feed has before and after: no byte of a read is lost.
        ensures read { IfOk result (λ how. HasReadText (F.remaining feed.old) (F.remaining feed.new) (F.fails feed.old) (F.fills feed.old) reading.piece reading.reads how self.new.lines (ahead self.new) (P.has_taken self.new.report)) }
        ensures begun { OnErr result (IsPartRead (F.remaining feed.old) (F.remaining feed.new) (F.fails feed.old) reading.piece reading.reads (ahead self.new) (P.has_taken self.new.report)) }
        ensures side { ((ahead self.new).queue ≡ (ahead self.old).queue) × ((ahead self.new).sender ≡ (ahead self.old).sender) }
        ensures within { IsWithin self.new }
        ensures opened { OnOk result (self.new.lines.phase ≡ Open) }
        ensures covered { OnOk result (IsCovered self.new.lines (ahead self.new)) }
    {
        // For the proof alone, at no cost when it runs: the items of a text are among those of a longer one.
        text_that_grows();
        let mut buffer = Vec::from_elem(alloc, 0u8, reading.piece)?;
        'reads: for _ in 0..reading.reads {
            match feed.read(rt, &mut buffer) {
                Ok(0) => return Ok(Ending::Whole),
                Ok(count) => self.take(rt, alloc, &buffer[..count])?,
                Err(_) => return Ok(Ending::ReadFailed),
            }
        }
        Ok(Ending::TooManyReads)
    }

    /// Reads the feed to its end, or until it breaks off, and passes on all items of its text, also those of its end.
    /// Returns the ending. After an error some of these items, in order, were passed on.
    fn read_all<F: Feed, W: Wait>(
        &mut self,
        rt: &W,
        alloc: Global,
        feed: &mut F,
        reading: Reading,
    ) -> Result<Ending, SenderStop>
        requires opened { self.old.lines.phase ≡ Open }
        requires nothing_fed { self.old.lines.fed ≡ 0 }
        requires nothing_yet { IsReading [] self.old.lines (ahead self.old) (P.has_taken self.old.report) }
        requires covered { IsCovered self.old.lines (ahead self.old) }
        requires within { IsWithin self.old }
        requires planned { IsPlannedBy (F.remaining feed.old) (ahead self.old) }
        ensures read { IfOk result (λ how. HasRead (F.remaining feed.old) (F.remaining feed.new) (F.fails feed.old) (F.fills feed.old) reading.piece reading.reads how (ahead self.new) (P.has_taken self.new.report)) }
        ensures begun { IsPartRead (F.remaining feed.old) (F.remaining feed.new) (F.fails feed.old) reading.piece reading.reads (ahead self.new) (P.has_taken self.new.report) }
        ensures side { ((ahead self.new).queue ≡ (ahead self.old).queue) × ((ahead self.new).sender ≡ (ahead self.old).sender) }
        ensures within { IsWithin self.new }
    {
        // As in `read_text`.
        text_that_grows();
        let how = self.read_text(rt, alloc, feed, reading)?;
        self.end(rt, alloc, how)?;
        Ok(how)
    }

    /// Sends the gathered commands and then the close mark, and ends the report with `ending`. Where the queue refuses,
    /// no mark is sent, and the report ends with `QueueRefused`.
    fn close<W: Wait>(mut self, rt: &W, alloc: Global, ending: Ending) -> (ClosedSender, P)
        requires within { IsWithin self }
        ensures { HasClosed (ahead self) (P.has_taken self.report) ending result.0 (P.view result.1) (P.has_taken result.1) }
    {
        match self.send_gathered(rt, alloc) {
            Ok(()) => {
                let Sending { side, report, .. } = self;
                send_mark(rt, side, report, ending)
            }
            Err(_) => self.leave(),
        }
    }

    /// Leaves the queue without a close mark, drops the gathered commands, and ends the report with `QueueRefused`.
    fn leave(self) -> (ClosedSender, P)
        ensures { HasLeft (ahead self) (P.has_taken self.report) result.0 (P.view result.1) (P.has_taken result.1) }
    {
        let Sending { side, report, .. } = self;
        leave(side, report)
    }
}

/// Leaves the queue without a close mark, and ends the report with `QueueRefused`; no commands are gathered.
pub(crate) fn leave<P: Reporter>(side: SenderSide, mut report: P) -> (ClosedSender, P)
    ensures { HasLeft side (P.has_taken report) result.0 (P.view result.1) (P.has_taken result.1) }
{
    report.end(side.sent(), Ending::QueueRefused);
    (side.leave(), report)
}

/// Sends the close mark of a side that has sent all its commands, and ends the report with `ending`. Where the queue
/// refuses, no mark is sent, and the report ends with `QueueRefused`.
pub(crate) fn send_mark<P: Reporter, W: Wait>(
    rt: &W,
    side: SenderSide,
    mut report: P,
    ending: Ending,
) -> (ClosedSender, P)
    ensures { HasClosed side (P.has_taken report) ending result.0 (P.view result.1) (P.has_taken result.1) }
{
    let accepted = side.sent();
    match side.close(rt) {
        Ok(end) => {
            report.end(accepted, ending);
            (end, report)
        }
        Err(side) => leave(side, report),
    }
}

/// Sends the commands that a feed's text spells, or that the feed makes, and then the close mark; returns the sender's
/// end, the report and the feed. If memory runs out, sends the gathered commands and the mark at once, with the ending
/// `Memory`. Where the queue refuses, sends no mark.
pub(crate) fn send_all<F: Feed, P: Reporter, W: Wait>(
    rt: &W,
    alloc: Global,
    sender: Sender<F, P>,
) -> (ClosedSender, P, F)
    requires new { sender.side.list ≡ [] }
    requires planned { IsPlannedBy (F.remaining sender.feed) sender.side }
    requires none_taken { P.has_taken sender.report [] }
    ensures { HasSent (F.remaining sender.feed) (F.remaining result.2) (F.fails sender.feed) (F.fills sender.feed) sender.reading.piece sender.reading.reads sender.side.queue sender.side.sender result.0 (P.view result.1) (P.has_taken result.1) }
{
    let Sender {
        side,
        mut feed,
        reading,
        report,
    } = sender;
    if feed.makes() {
        let (end, report) = send_made(rt, side, &mut feed, report, reading);
        return (end, report, feed);
    }
    let mut sending = Sending {
        side,
        gathered: Vec::new(alloc),
        lines: Lines::new(alloc),
        report,
    };
    match sending.read_all(rt, alloc, &mut feed, reading) {
        Ok(ending) => {
            let (end, report) = sending.close(rt, alloc, ending);
            (end, report, feed)
        }
        Err(SenderStop::Memory) => {
            let (end, report) = sending.close(rt, alloc, Ending::Memory);
            (end, report, feed)
        }
        Err(SenderStop::QueueRefused) => {
            let (end, report) = sending.leave();
            (end, report, feed)
        }
    }
}
