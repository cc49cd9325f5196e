//! The lines of the program, the objects, the contacts, the comments and the downtimes, each read from its first byte
//! to its line feed. Each `read_..` moves the cursor after the bytes that it read. Where it returns an error, the
//! cursor is in the line with the fault or after it.
ghost use Rattle.std.specs.Prelude.{◌≡◌, ◌<◌, ◌^◌, IfOk, length};
ghost use Rattle.mon_state.specs.Reading.{names_at, object_at, head_of, moments_at, known_at, switch_at, said_at, comment_at, downtime_at, program_at};
ghost use Rattle.mon_state.specs.declared.version.StateVersion.TheVariants.{One};
ghost use Rattle.mon_state.specs.Upgrade.{upgraded, upgraded_object};
ghost use Rattle.mon_state.specs.Cursors.{Gives};

use crate::cursor::Cursor;
use crate::fault::StateCause;
use crate::version::StateVersion;
use cmd_types::Text;
use mon_checks::Status;
use mon_downtime::{Downtime, Plan, Times};
use mon_engine::{Moments, Object, Program};
use mon_inventory::{ContactSpec, Inventory, ObjectSpec};
use mon_notes::{BoxedText, Comment};
use mon_notify::ContactSwitch;
use std::alloc::Global;

/// Moves after the names of this object, with which the unread bytes have to begin.
#[tactic(auto, unfolding(crate::specs::Reading::names_at))]
pub fn read_names(cursor: &mut Cursor<'_>, spec: &ObjectSpec) -> Result<(), StateCause>
    ensures { Gives (λ _. cursor.new.rest) cursor.new.last result (names_at spec.now cursor.old.rest) }
{
    cursor.name(spec.host.as_bytes())?;
    match &spec.service {
        None => cursor.name(b""),
        Some(name) => cursor.name(name.as_bytes()),
    }
}

/// Reads the index of an object, and moves after the names of that object, which have to follow. Returns `BadValue`
/// where no object has the index.
#[tactic(auto, unfolding(crate::specs::Reading::object_at))]
fn read_object(cursor: &mut Cursor<'_>, inventory: &Inventory) -> Result<u16, StateCause>
    ensures { Gives (λ n. (n, cursor.new.rest)) cursor.new.last result (object_at inventory.now.objects cursor.old.rest) }
{
    let object = cursor.small(65_535, b';')?;
    match inventory.objects().get(object as usize) {
        None => Err(StateCause::BadValue),
        Some(spec) => {
            read_names(cursor, spec)?;
            Ok(object as u16)
        }
    }
}

/// Moves after the word and the names with which the line of this object begins.
fn read_head(cursor: &mut Cursor<'_>, spec: &ObjectSpec) -> Result<(), StateCause>
    ensures { Gives (λ _. cursor.new.rest) cursor.new.last result (head_of spec.now.host spec.now.service cursor.old.rest) }
{
    match &spec.service {
        None => {
            cursor.expect(b"host;")?;
            cursor.name(spec.host.as_bytes())
        }
        Some(name) => {
            cursor.expect(b"service;")?;
            cursor.name(spec.host.as_bytes())?;
            cursor.name(name.as_bytes())
        }
    }
}

/// The moments that an object in this status gets from a text of version 1 with this clock: it was never checked, and
/// its last change was at the clock.
fn upgraded(clock: u64, status: Status) -> Moments
    ensures { result ≡ upgraded clock status }
{
    Moments {
        checked: None,
        changed: clock,
        since: if status.code != 0 && status.hard {
            Some(clock)
        } else {
            None
        },
    }
}

/// Reads the moments of an object in this status; any of them may be empty except that of the last change. A text of
/// version 1 has no such fields: its moments follow from its clock.
#[tactic(auto, unfolding(crate::specs::Reading::moments_at))]
fn read_moments(
    cursor: &mut Cursor<'_>,
    version: StateVersion,
    clock: u64,
    status: Status,
) -> Result<Moments, StateCause>
    ensures read { Gives (λ m. (m, cursor.new.rest)) cursor.new.last result (moments_at version clock status cursor.old.rest) }
    ensures first { version ≡ One → IfOk result (λ m. m ≡ upgraded clock status) }
{
    match version {
        StateVersion::One => Ok(upgraded(clock, status)),
        StateVersion::Two => {
            let checked = cursor.optional(b';')?;
            let changed = cursor.number(b';')?;
            let since = cursor.optional(b';')?;
            Ok(Moments {
                checked,
                changed,
                since,
            })
        }
    }
}

/// Reads the line of a host or a service in a text of this version with this clock. The line has to have the names in
/// this line of the inventory. Whether its state fits that line is not tested here.
#[tactic(auto, unfolding(crate::specs::Reading::known_at))]
pub fn read_known(
    alloc: Global,
    cursor: &mut Cursor<'_>,
    version: StateVersion,
    clock: u64,
    spec: &ObjectSpec,
) -> Result<Object, StateCause>
    ensures read { Gives (λ o. (o, cursor.new.rest)) cursor.new.last result (known_at version clock spec.now cursor.old.rest) }
    ensures first { version ≡ One → IfOk result (λ o. upgraded_object clock o ≡ o) }
{
    read_head(cursor, spec)?;
    let code = cursor.small(255, b';')?;
    let hard = cursor.flag(b';')?;
    let attempt = cursor.number(b';')?;
    let acknowledgement = cursor.acknowledgement()?;
    let number = cursor.number(b';')?;
    let last = cursor.optional(b';')?;
    let notified = cursor.optional_code(b';')?;
    let not_before = cursor.optional(b';')?;
    let notify = cursor.flag(b';')?;
    let passive = cursor.flag(b';')?;
    let status = Status {
        service: spec.service.is_some(),
        code: code as u8,
        hard,
        attempt,
    };
    let moments = read_moments(cursor, version, clock, status)?;
    let output = cursor.field(b'\n')?;
    Ok(Object {
        status,
        moments,
        output: Text::from_slice(alloc, output)?,
        acknowledgement,
        number,
        last,
        notified,
        not_before,
        notify,
        passive,
    })
}

/// Reads the line of a contact, which has to have the name in this line of the inventory.
#[tactic(auto, unfolding(crate::specs::Reading::switch_at))]
pub fn read_switch(cursor: &mut Cursor<'_>, spec: &ContactSpec) -> Result<ContactSwitch, StateCause>
    ensures { Gives (λ s. (s, cursor.new.rest)) cursor.new.last result (switch_at spec.now cursor.old.rest) }
{
    cursor.expect(b"contact;")?;
    cursor.name(spec.name.as_bytes())?;
    let host = cursor.flag(b';')?;
    let service = cursor.flag(b'\n')?;
    Ok(ContactSwitch { host, service })
}

/// Reads the line of the program's three switches.
#[tactic(auto, unfolding(crate::specs::Reading::program_at))]
pub fn read_program(cursor: &mut Cursor<'_>) -> Result<Program, StateCause>
    ensures { Gives (λ p. (p, cursor.new.rest)) cursor.new.last result (program_at cursor.old.rest) }
{
    cursor.expect(b"program;")?;
    let notifications = cursor.flag(b';')?;
    let passive_host = cursor.flag(b';')?;
    let passive_service = cursor.flag(b'\n')?;
    Ok(Program {
        notifications,
        passive_host,
        passive_service,
    })
}

/// The author and the text of a comment or a downtime.
#[derive(Drop)]
struct AuthorText {
    author: Text,
    text: Text,
}

/// Reads an author and a text, which are the last two fields of a line.
#[tactic(auto, unfolding(crate::specs::Reading::said_at))]
fn read_said(alloc: Global, cursor: &mut Cursor<'_>) -> Result<AuthorText, StateCause>
    ensures { Gives (λ s. (s, cursor.new.rest)) cursor.new.last result (said_at cursor.old.rest) }
{
    let author = cursor.word()?;
    let text = cursor.field(b'\n')?;
    Ok(AuthorText {
        author: Text::from_slice(alloc, author)?,
        text: Text::from_slice(alloc, text)?,
    })
}

/// Reads the line of a comment; its object has to be in the inventory, under the names of the line. The order of the
/// ids is not tested here.
#[tactic(auto, unfolding(crate::specs::Reading::comment_at))]
pub fn read_comment(
    alloc: Global,
    cursor: &mut Cursor<'_>,
    inventory: &Inventory,
) -> Result<Comment, StateCause>
    ensures { Gives (λ c. (c, cursor.new.rest)) cursor.new.last result (comment_at inventory.now.objects cursor.old.rest) }
{
    cursor.expect(b"comment;")?;
    let id = cursor.number(b';')?;
    let object = read_object(cursor, inventory)?;
    let ack = cursor.flag(b';')?;
    let persistent = cursor.flag(b';')?;
    let time = cursor.number(b';')?;
    let said = read_said(alloc, cursor)?;
    Ok(Comment {
        id,
        object,
        ack,
        persistent,
        time,
        author: BoxedText::new(alloc, said.author)?,
        text: BoxedText::new(alloc, said.text)?,
    })
}

/// Reads the line of a downtime; its object has to be in the inventory, under the names of the line. The order of the
/// ids is not tested here.
#[tactic(auto, unfolding(crate::specs::Reading::downtime_at))]
pub fn read_downtime(
    alloc: Global,
    cursor: &mut Cursor<'_>,
    inventory: &Inventory,
) -> Result<Downtime, StateCause>
    ensures { Gives (λ d. (d, cursor.new.rest)) cursor.new.last result (downtime_at inventory.now.objects cursor.old.rest) }
{
    cursor.expect(b"downtime;")?;
    let id = cursor.number(b';')?;
    let object = read_object(cursor, inventory)?;
    let start_time = cursor.number(b';')?;
    let end_time = cursor.number(b';')?;
    let fixed = cursor.flag(b';')?;
    let trigger_id = cursor.number(b';')?;
    let duration = cursor.number(b';')?;
    let entered = cursor.number(b';')?;
    let fate = cursor.fate()?;
    let said = read_said(alloc, cursor)?;
    Ok(Downtime {
        id,
        object,
        plan: Plan {
            times: Times {
                start_time,
                end_time,
                fixed,
                trigger_id,
                duration,
            },
            author: said.author,
            text: said.text,
        },
        entered,
        fate,
    })
}
