//! Writes the state of a monitor: a line for each fact, in the order of `specs/State.antt`. Each `put_..` appends to
//! `out`; if memory runs out, a part of its lines is in `out`, and `write_state` removes that part.
ghost use Rattle.std.specs.Prelude.{◌≡◌, ◌++◌, ◌<◌, false, OnOk, OnErr, All, Some, length};
ghost use Rattle.std.specs.List.{flat_map};
ghost use Rattle.cmd_types.specs.Growth.{Grows};
ghost use Rattle.mon_engine.specs.Report.{clock_line, program_line};
ghost use Rattle.mon_downtime.specs.Events.{active_since};
ghost use Rattle.mon_state.specs.State.{heading_line, entries_line, comments_line, comment_line_of, comment_line, fate_word, active_until, downtimes_line, downtime_line_of, downtime_line, end_line, line_count, text_of, state_text};

use crate::appending::{put, service_name};
use crate::named_lines::{put_contacts, put_objects};
use crate::owed_lines::{owed_count, put_all_owed};
use crate::version::StateVersion;
use cmd_types::Memory;
use mon_downtime::{Downtime, Fate};
use mon_engine::{Field, Monitor, Program};
use mon_inventory::{Inventory, ObjectSpec};
use mon_notes::Comment;

/// Appends the line of a comment on the object with this line of the inventory.
fn put_comment_on<'a>(
    out: &mut Vec<u8>,
    spec: &'a ObjectSpec,
    comment: &'a Comment,
) -> Result<(), Memory>
    ensures ok { OnOk result (out.new.items ≡ out.old.items ++ comment_line_of comment.now (Some spec.now)) }
    ensures grown { Grows out.old.items out.new.items }
{
    put(
        out,
        b"comment",
        &[
            Field::Number(comment.id),
            Field::Number(u64::from(comment.object)),
            Field::Bytes(spec.host.as_bytes()),
            Field::Bytes(service_name(spec)),
            Field::Flag(comment.ack),
            Field::Flag(comment.persistent),
            Field::Number(comment.time),
            Field::Bytes(comment.author.as_bytes()),
            Field::Bytes(comment.text.as_bytes()),
        ],
    )
}

/// Appends the line of a comment, for which it looks up the object in the inventory.
#[tactic(auto, unfolding(crate::specs::State::comment_line))]
fn put_comment(out: &mut Vec<u8>, inventory: &Inventory, comment: &Comment) -> Result<(), Memory>
    requires { comment.now.object < length inventory.now.objects }
    ensures ok { OnOk result (out.new.items ≡ out.old.items ++ comment_line inventory.now.objects comment.now) }
    ensures grown { Grows out.old.items out.new.items }
{
    put_comment_on(out, inventory.object(comment.object), comment)
}

/// Appends the lines of these comments, in order.
fn put_comments(
    out: &mut Vec<u8>,
    inventory: &Inventory,
    comments: &[Comment],
) -> Result<(), Memory>
    requires { All (λ c. c.object < length inventory.now.objects) comments.now }
    ensures ok { OnOk result (out.new.items ≡ out.old.items ++ flat_map (comment_line inventory.now.objects) comments.now) }
    ensures grown { Grows out.old.items out.new.items }
{
    for comment in comments {
        put_comment(out, inventory, comment)?;
    }
    Ok(())
}

/// The word of a downtime's fate.
fn fate_word(fate: Fate) -> &'static [u8]
    ensures { result.now ≡ fate_word fate }
{
    match fate {
        Fate::Pending => b"pending",
        Fate::Active { .. } => b"active",
        Fate::Over => b"over",
    }
}

/// The second since which a downtime is active; `None` where it is not active.
fn active_since(fate: Fate) -> Option<u64>
    ensures { result ≡ active_since fate }
{
    match fate {
        Fate::Active { since, .. } => Some(since),
        _ => None,
    }
}

/// The second until which a downtime is active; `None` where it is not active.
fn active_until(fate: Fate) -> Option<u64>
    ensures { result ≡ active_until fate }
{
    match fate {
        Fate::Active { until, .. } => Some(until),
        _ => None,
    }
}

/// Appends the line of a downtime of the object with this line of the inventory.
fn put_downtime_on<'a>(
    out: &mut Vec<u8>,
    spec: &'a ObjectSpec,
    downtime: &'a Downtime,
) -> Result<(), Memory>
    ensures ok { OnOk result (out.new.items ≡ out.old.items ++ downtime_line_of downtime.now (Some spec.now)) }
    ensures grown { Grows out.old.items out.new.items }
{
    put(
        out,
        b"downtime",
        &[
            Field::Number(downtime.id),
            Field::Number(u64::from(downtime.object)),
            Field::Bytes(spec.host.as_bytes()),
            Field::Bytes(service_name(spec)),
            Field::Number(downtime.plan.times.start_time),
            Field::Number(downtime.plan.times.end_time),
            Field::Flag(downtime.plan.times.fixed),
            Field::Number(downtime.plan.times.trigger_id),
            Field::Number(downtime.plan.times.duration),
            Field::Number(downtime.entered),
            Field::Bytes(fate_word(downtime.fate)),
            Field::optional(active_since(downtime.fate)),
            Field::optional(active_until(downtime.fate)),
            Field::Bytes(downtime.plan.author.as_bytes()),
            Field::Bytes(downtime.plan.text.as_bytes()),
        ],
    )
}

/// Appends the line of a downtime, for which it looks up the object in the inventory.
#[tactic(auto, unfolding(crate::specs::State::downtime_line))]
fn put_downtime(out: &mut Vec<u8>, inventory: &Inventory, downtime: &Downtime) -> Result<(), Memory>
    requires { downtime.now.object < length inventory.now.objects }
    ensures ok { OnOk result (out.new.items ≡ out.old.items ++ downtime_line inventory.now.objects downtime.now) }
    ensures grown { Grows out.old.items out.new.items }
{
    put_downtime_on(out, inventory.object(downtime.object), downtime)
}

/// Appends the lines of these downtimes, in order.
fn put_downtimes(
    out: &mut Vec<u8>,
    inventory: &Inventory,
    downtimes: &[Downtime],
) -> Result<(), Memory>
    requires { All (λ d. d.object < length inventory.now.objects) downtimes.now }
    ensures ok { OnOk result (out.new.items ≡ out.old.items ++ flat_map (downtime_line inventory.now.objects) downtimes.now) }
    ensures grown { Grows out.old.items out.new.items }
{
    for downtime in downtimes {
        put_downtime(out, inventory, downtime)?;
    }
    Ok(())
}

/// Appends the heading, and the lines of the clock, of the entries and of the program.
fn put_head(
    out: &mut Vec<u8>,
    version: StateVersion,
    clock: u64,
    entries: u64,
    program: Program,
) -> Result<(), Memory>
    ensures ok { OnOk result (out.new.items ≡ out.old.items ++ heading_line version ++ clock_line clock ++ entries_line entries ++ program_line program) }
    ensures grown { Grows out.old.items out.new.items }
{
    put(out, b"state", &[Field::Number(version.number())])?;
    put(out, b"clock", &[Field::Number(clock)])?;
    put(out, b"entries", &[Field::Number(entries)])?;
    put(
        out,
        b"program",
        &[
            Field::Flag(program.notifications),
            Field::Flag(program.passive_host),
            Field::Flag(program.passive_service),
        ],
    )
}

/// Appends the line `comments`, with the greatest id and the count, and the lines of the comments.
fn put_notes(
    out: &mut Vec<u8>,
    inventory: &Inventory,
    last_id: u64,
    comments: &[Comment],
) -> Result<(), Memory>
    requires { All (λ c. c.object < length inventory.now.objects) comments.now }
    ensures ok { OnOk result (out.new.items ≡ out.old.items ++ comments_line (record { comments = comments.now; last_id = last_id }) ++ flat_map (comment_line inventory.now.objects) comments.now) }
    ensures grown { Grows out.old.items out.new.items }
{
    put(
        out,
        b"comments",
        &[Field::Number(last_id), Field::Number(comments.len() as u64)],
    )?;
    put_comments(out, inventory, comments)
}

/// Appends the line `downtimes`, with the count, and the lines of the downtimes.
fn put_schedule(
    out: &mut Vec<u8>,
    inventory: &Inventory,
    downtimes: &[Downtime],
) -> Result<(), Memory>
    requires { All (λ d. d.object < length inventory.now.objects) downtimes.now }
    ensures ok { OnOk result (out.new.items ≡ out.old.items ++ downtimes_line downtimes.now ++ flat_map (downtime_line inventory.now.objects) downtimes.now) }
    ensures grown { Grows out.old.items out.new.items }
{
    put(out, b"downtimes", &[Field::Number(downtimes.len() as u64)])?;
    put_downtimes(out, inventory, downtimes)
}

/// The number of lines of the state in this version before the line `end`.
fn line_count(version: StateVersion, monitor: &Monitor) -> u64
    requires { monitor.now.broken ≡ false }
    ensures { result ≡ line_count version monitor.now.inventory monitor.now.world }
{
    // For the proof alone, at the cost of one getter: its contract bounds the comments and downtimes, so that the sum
    // does not overflow.
    let _entries = monitor.entries_ever();
    let inventory = monitor.inventory();
    let named = u64::from(inventory.object_count()) + u64::from(inventory.contact_count());
    let owed = u64::from(owed_count(version, inventory));
    // The 6 other lines: `state`, `clock`, `entries`, `program`, `comments` and `downtimes`.
    6 + named + monitor.comments().len() as u64 + monitor.downtimes().len() as u64 + owed
}

/// Appends all lines of the state in this version, from the heading to the line `end`.
#[tactic(auto, unfolding(crate::specs::State::text_of))]
pub fn put_state(out: &mut Vec<u8>, version: StateVersion, monitor: &Monitor) -> Result<(), Memory>
    requires { monitor.now.broken ≡ false }
    ensures ok { OnOk result (out.new.items ≡ out.old.items ++ text_of version monitor.now.inventory monitor.now.world) }
    ensures grown { Grows out.old.items out.new.items }
{
    let inventory = monitor.inventory();
    let entries = monitor.entries_ever();
    let count = line_count(version, monitor);
    put_head(out, version, monitor.clock(), entries, monitor.program())?;
    put_objects(out, version, inventory, monitor.objects())?;
    put_contacts(out, inventory, monitor.contacts())?;
    put_notes(out, inventory, monitor.last_comment(), monitor.comments())?;
    put_schedule(out, inventory, monitor.downtimes())?;
    put_all_owed(out, version, inventory, monitor.owed())?;
    put(out, b"end", &[Field::Number(count)])
}

/// Appends the state of a monitor (profile). Requires that the monitor is not
/// [`is_broken`](mon_engine::Monitor::is_broken). Rejections and notices that it has not printed yet are not part of
/// the state: a monitor that has [printed](mon_engine::Monitor::tell) all is read back whole by
/// [`read_state`](crate::read_state). If memory runs out, `out` is unchanged.
///
/// ```
/// // INVENTORY: the text of an inventory with the host web
/// let inventory = Inventory::parse(alloc, INVENTORY)?;
/// let monitor = Monitor::new(alloc, inventory)?;
/// let mut state = Vec::new(alloc);
/// assert!(rt; !monitor.is_broken());
/// write_state(&monitor, &mut state)?;
/// assert!(rt; state.starts_with(b"state;2\nclock;0\n"));
/// ```
pub fn write_state(monitor: &Monitor, out: &mut Vec<u8>) -> Result<(), Memory>
    requires { monitor.now.broken ≡ false }
    ensures ok { OnOk result (out.new.items ≡ out.old.items ++ state_text monitor.now.inventory monitor.now.world) }
    ensures err { OnErr result (out.new.items ≡ out.old.items) }
{
    let len = out.len();
    if let Err(refusal) = put_state(out, StateVersion::Two, monitor) {
        out.truncate(len);
        return Err(refusal);
    }
    Ok(())
}
