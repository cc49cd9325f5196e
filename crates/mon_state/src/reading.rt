//! Reads a state: first its parts, line by line, and then the monitor that resumes from them. Each `read_..` of lines
//! moves the cursor after the lines that it read.
ghost use Rattle.std.specs.Prelude.{◌≡◌, ◌≢◌, [], false, length, map, Ok, IfOk, IfErr, OnOk};
ghost use Rattle.std.specs.Result.{IsErrAnd};
ghost use Rattle.mon_engine.specs.Saved.{IsSaved};
ghost use Rattle.mon_state.specs.State.{text_of};
ghost use Rattle.mon_state.specs.Upgrade.{upgraded_object, upgrade, IsStateText};
ghost use Rattle.mon_state.specs.Version.{IsOfUnknownVersion};
ghost use Rattle.mon_state.specs.Answers.{ReadsBack};
ghost use Rattle.mon_state.specs.Faults.{IsOtherText, IsStateFault};
ghost use Rattle.mon_state.specs.declared.fault.StateCause.{StateCause as ACause};
ghost use Rattle.mon_state.specs.declared.version.StateVersion.TheVariants.{One};
ghost use Rattle.mon_state.specs.Reading.{many_at, next_known, next_switch, next_comment, next_downtime, version_at, world_at};
ghost use Rattle.mon_state.specs.Cursors.{Gives};

use crate::cursor::Cursor;
use crate::fault::{StateCause, StateFault};
use crate::lines::{read_comment, read_downtime, read_known, read_program, read_switch};
use crate::owed_lines::read_all_owed;
use crate::places::{Counts, difference, line_at};
use crate::version::{StateVersion, read_heading};
use crate::writing::put_state;
use mon_downtime::Downtime;
use mon_engine::{Monitor, Object, Parts, ResumeFault};
use mon_inventory::Inventory;
use mon_notes::Comment;
use mon_notify::ContactSwitch;
use std::alloc::Global;

/// Reads the lines of all objects in a text of this version with this clock, in the order of the inventory, and moves
/// the cursor after them.
fn read_objects(
    alloc: Global,
    cursor: &mut Cursor<'_>,
    version: StateVersion,
    clock: u64,
    inventory: &Inventory,
) -> Result<Vec<Object>, StateCause>
    ensures read { Gives (λ os. (os.items, cursor.new.rest)) cursor.new.last result (many_at (next_known version clock inventory.now.objects) (length inventory.now.objects) [] cursor.old.rest) }
    ensures first { version ≡ One → IfOk result (λ os. map (upgraded_object clock) os.items ≡ os.items) }
    ensures as_many { IfOk result (λ os. length os.items ≡ length inventory.now.objects) }
{
    let mut objects = Vec::new(alloc);
    for spec in inventory.objects() {
        objects.push(read_known(alloc, cursor, version, clock, spec)?)?;
    }
    Ok(objects)
}

/// Reads the lines of all contacts, in the order of the inventory, and moves the cursor after them.
fn read_contacts(
    alloc: Global,
    cursor: &mut Cursor<'_>,
    inventory: &Inventory,
) -> Result<Vec<ContactSwitch>, StateCause>
    ensures { Gives (λ cs. (cs.items, cursor.new.rest)) cursor.new.last result (many_at (next_switch inventory.now.contacts) (length inventory.now.contacts) [] cursor.old.rest) }
{
    let mut contacts = Vec::new(alloc);
    for spec in inventory.contacts() {
        contacts.push(read_switch(cursor, spec)?)?;
    }
    Ok(contacts)
}

/// Reads the lines of `count` comments, and moves the cursor after them.
fn read_comments(
    alloc: Global,
    cursor: &mut Cursor<'_>,
    inventory: &Inventory,
    count: u64,
) -> Result<Vec<Comment>, StateCause>
    ensures { Gives (λ cs. (cs.items, cursor.new.rest)) cursor.new.last result (many_at (next_comment inventory.now.objects) count [] cursor.old.rest) }
{
    let mut comments = Vec::new(alloc);
    for _ in 0..count {
        comments.push(read_comment(alloc, cursor, inventory)?)?;
    }
    Ok(comments)
}

/// Reads the lines of `count` downtimes, and moves the cursor after them.
fn read_downtimes(
    alloc: Global,
    cursor: &mut Cursor<'_>,
    inventory: &Inventory,
    count: u64,
) -> Result<Vec<Downtime>, StateCause>
    ensures { Gives (λ ds. (ds.items, cursor.new.rest)) cursor.new.last result (many_at (next_downtime inventory.now.objects) count [] cursor.old.rest) }
{
    let mut downtimes = Vec::new(alloc);
    for _ in 0..count {
        downtimes.push(read_downtime(alloc, cursor, inventory)?)?;
    }
    Ok(downtimes)
}

/// Reads the parts from the text of a state of this version after its heading, up to its line `end`, which is not read
/// here. Whether the parts fit the inventory is not tested here.
#[tactic(auto, unfolding(crate::specs::Reading::world_at, crate::specs::Upgrade::upgrade))]
fn read_parts(
    alloc: Global,
    cursor: &mut Cursor<'_>,
    version: StateVersion,
    inventory: &Inventory,
) -> Result<Parts, StateCause>
    ensures read { Gives (λ p. p) cursor.new.last result (world_at version inventory.now cursor.old.rest) }
    ensures first { version ≡ One → IfOk result (λ p. upgrade inventory.now p ≡ p) }
{
    let clock = cursor.count(b"clock;")?;
    let before = cursor.count(b"entries;")?;
    let program = read_program(cursor)?;
    let objects = read_objects(alloc, cursor, version, clock, inventory)?;
    let contacts = read_contacts(alloc, cursor, inventory)?;
    cursor.expect(b"comments;")?;
    let last_comment = cursor.number(b';')?;
    let count = cursor.number(b'\n')?;
    let comments = read_comments(alloc, cursor, inventory, count)?;
    let count = cursor.count(b"downtimes;")?;
    let downtimes = read_downtimes(alloc, cursor, inventory, count)?;
    let owed = read_all_owed(alloc, cursor, version, inventory, &objects)?;
    Ok(Parts {
        clock,
        before,
        program,
        objects,
        contacts,
        owed,
        last_comment,
        comments,
        downtimes,
    })
}

/// Writes the state of the monitor in this version and compares it with `text`. Returns the first line that differs with
/// `NotAsWritten`; if memory runs out, `Memory` with line 1.
fn compare_with_text(
    alloc: Global,
    version: StateVersion,
    monitor: &Monitor,
    text: &[u8],
) -> Result<(), StateFault>
    requires { monitor.now.broken ≡ false }
    ensures ok { OnOk result (text.now ≡ text_of version monitor.now.inventory monitor.now.world) }
    ensures err { IfErr result (λ f. f.cause ≢ ACause.Memory → text.now ≢ text_of version monitor.now.inventory monitor.now.world) }
    ensures first { IfErr result (λ f. IsOtherText (text_of version monitor.now.inventory monitor.now.world) text.now f) }
    ensures known { IfErr result (λ f. f.cause ≢ ACause.UnknownVersion) }
{
    let mut written = Vec::new(alloc);
    if put_state(&mut written, version, monitor).is_err() {
        return Err(StateFault {
            line: 1,
            cause: StateCause::Memory,
        });
    }
    if written.as_slice() == text {
        return Ok(());
    }
    Err(StateFault {
        line: line_at(text, difference(text, &written)),
        cause: StateCause::NotAsWritten,
    })
}

/// Reads a state, as [`write_state`](crate::write_state) writes it, and makes the monitor of the inventory that resumes
/// from it: it counts its entries from 0, and lists no rejection and no notice (profile). A state of version 1 is read
/// too: its objects were never checked, and their last change was at its clock; with the option `recover_the_told` the
/// ends of problems are owed as [`presumed_owed`](mon_engine::presumed_owed) says. Any other text is refused, with the
/// line in which the first faulty field begins; else with the line of the first part that does not fit the inventory
/// (see [`Misfit`](mon_engine::Misfit)); else with the first line that would be written differently. After an error the
/// inventory is dropped. The memory that the call takes is linear in the length of the text, and for a text of version
/// 1 also in the size of the inventory.
///
/// # Errors
/// The line, counted from 1, and the [`StateCause`]; it is [`StateCause::Memory`] if memory runs out, which happens
/// only after a heading of a known version.
///
/// ```
/// // state: what write_state wrote of a monitor of INVENTORY
/// let inventory = Inventory::parse(alloc, INVENTORY)?;
/// let Ok(monitor) = read_state(alloc, inventory, &state) else {
///     return Err(Fail::new("it was written so"));
/// };
/// assert_eq!(rt; monitor.applied(), 0);
/// ```
pub fn read_state(alloc: Global, inventory: Inventory, text: &[u8]) -> Result<Monitor, StateFault>
    // The cause `UnknownVersion` is returned for a heading with the number of no version, and for no other text.
    ensures version { IfErr result (λ f. f.cause ≡ ACause.UnknownVersion → IsOfUnknownVersion text.now) }
    ensures unknown { IsOfUnknownVersion text.now → IsErrAnd result (λ f. f.cause ≡ ACause.UnknownVersion) }
    ensures inventory { IfOk result (λ m. m.inventory ≡ inventory) }
    // No other text is read.
    ensures text { IfOk result (λ m. IsStateText inventory text.now m.world) }
    ensures saved { IfOk result (λ m. IsSaved inventory m.world) }
    ensures anew { IfOk result (λ m. m.world.entries ≡ 0) }
    ensures applied { IfOk result (λ m. m.applied ≡ 0) }
    ensures whole { IfOk result (λ m. m.broken ≡ false) }
    // What is written is read back.
    ensures back { ReadsBack inventory text.now result }
    // The fault is the first of the text.
    ensures first { IfErr result (λ f. IsStateFault inventory text.now f) }
{
    match read_heading(text) {
        Ok((version, rest)) => read_behind(alloc, inventory, text, version, rest),
        Err(cause) => Err(StateFault { line: 1, cause }),
    }
}

/// Reads a state of this version; `text` is its whole text, and `rest` the text after its heading. For its results see
/// [`read_state`].
fn read_behind(
    alloc: Global,
    inventory: Inventory,
    text: &[u8],
    version: StateVersion,
    rest: &[u8],
) -> Result<Monitor, StateFault>
    requires { version_at text.now ≡ Ok (version, rest.now) }
    ensures known { IfErr result (λ f. f.cause ≢ ACause.UnknownVersion) }
    ensures inventory { IfOk result (λ m. m.inventory ≡ inventory) }
    ensures text { IfOk result (λ m. IsStateText inventory text.now m.world) }
    ensures saved { IfOk result (λ m. IsSaved inventory m.world) }
    ensures anew { IfOk result (λ m. m.world.entries ≡ 0) }
    ensures applied { IfOk result (λ m. m.applied ≡ 0) }
    ensures whole { IfOk result (λ m. m.broken ≡ false) }
    ensures back { ReadsBack inventory text.now result }
    ensures first { IfErr result (λ f. IsStateFault inventory text.now f) }
{
    let objects = inventory.object_count();
    let contacts = inventory.contact_count();
    let mut cursor = Cursor::new(rest);
    let parts = match read_parts(alloc, &mut cursor, version, &inventory) {
        Ok(parts) => parts,
        Err(cause) => {
            let read = text.len().saturating_sub(cursor.last_left());
            return Err(StateFault {
                line: line_at(text, read),
                cause,
            });
        }
    };
    let counts = Counts {
        objects,
        contacts,
        comments: parts.comments.len(),
        downtimes: parts.downtimes.len(),
    };
    let monitor = match Monitor::resume(alloc, inventory, parts) {
        Ok(monitor) => monitor,
        Err(ResumeFault::Memory) => {
            return Err(StateFault {
                line: 1,
                cause: StateCause::Memory,
            });
        }
        Err(ResumeFault::Misfit(misfit)) => {
            return Err(StateFault {
                line: counts.line_of(misfit),
                cause: StateCause::BadValue,
            });
        }
    };
    compare_with_text(alloc, version, &monitor, text)?;
    Ok(monitor)
}
