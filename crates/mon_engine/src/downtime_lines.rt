//! The lines of downtimes in the report; a downtime that is over has no line. Each `put_..` appends to `out`; if memory
//! runs out, a part of the lines is in `out`.
ghost use Rattle.std.specs.Prelude.{◌≡◌, ◌<◌, ◌++◌, [], ◌∷◌, OnOk, All, length, codes};
ghost use Rattle.std.specs.Fmt.{decimal};
ghost use Rattle.std.specs.List.{flat_map};
ghost use Rattle.std.specs.Option.{option_map};
ghost use Rattle.cmd_types.specs.Growth.{Grows};
ghost use Rattle.mon_engine.specs.Report.{downtime_line, downtime_line_on, fate_fields};

use crate::lines::{Field, put_whole};
use cmd_types::Memory;
use mon_downtime::{Downtime, Fate};
use mon_inventory::Inventory;

/// The part of a downtime's line that depends on its fate: a word, and the first and the last second.
#[derive(Clone, Copy)]
struct Shown {
    word: &'static [u8],
    first: u64,
    last: u64,
}

/// The word and the two moments of a downtime's line: its window while it is pending, its first and last second while
/// it is active. `None` where the downtime is over.
fn shown_fate(downtime: &Downtime) -> Option<Shown>
    ensures { option_map (λ s. s.word.now ∷ decimal s.first ∷ decimal s.last ∷ []) result ≡ fate_fields downtime.now downtime.now.fate }
{
    match downtime.fate {
        Fate::Pending => Some(Shown {
            word: b"pending",
            first: downtime.plan.times.start_time,
            last: downtime.plan.times.end_time,
        }),
        Fate::Active { since, until } => Some(Shown {
            word: b"active",
            first: since,
            last: until,
        }),
        Fate::Over => None,
    }
}

/// Appends the line of a downtime, with these names of its object; appends nothing where the downtime is over.
fn put_downtime_on<'a>(
    out: &mut Vec<u8>,
    downtime: &'a Downtime,
    host: &'a [u8],
    service: &'a [u8],
) -> Result<(), Memory>
    ensures ok { OnOk result (out.new.items ≡ out.old.items ++ downtime_line_on downtime.now host.now service.now (fate_fields downtime.now downtime.now.fate)) }
    ensures grown { Grows out.old.items out.new.items }
{
    let Some(fate) = shown_fate(downtime) else {
        return Ok(());
    };
    put_whole(
        out,
        b"downtime",
        &[
            Field::Number(downtime.id),
            Field::Bytes(host),
            Field::Bytes(service),
            Field::Bytes(fate.word),
            Field::Number(fate.first),
            Field::Number(fate.last),
            Field::Flag(downtime.plan.times.fixed),
            Field::Number(downtime.plan.times.trigger_id),
            Field::Number(downtime.plan.times.duration),
            Field::Bytes(downtime.plan.author.as_bytes()),
            Field::Bytes(downtime.plan.text.as_bytes()),
        ],
    )
}

/// Appends the line of a downtime, for which it looks up the object; appends nothing where the downtime is over.
#[tactic(auto, unfolding(crate::specs::Report::downtime_line))]
fn put_downtime(out: &mut Vec<u8>, inventory: &Inventory, downtime: &Downtime) -> Result<(), Memory>
    requires { downtime.now.object < length inventory.now.objects }
    ensures ok { OnOk result (out.new.items ≡ out.old.items ++ downtime_line inventory.now.objects downtime.now) }
    ensures grown { Grows out.old.items out.new.items }
{
    let spec = inventory.object(downtime.object);
    match &spec.service {
        None => put_downtime_on(out, downtime, spec.host.as_bytes(), b""),
        Some(name) => put_downtime_on(out, downtime, spec.host.as_bytes(), name.as_bytes()),
    }
}

/// Appends the lines of these downtimes, in order; a downtime that is over has no line. If memory runs out, a part of
/// the lines is in `out`.
pub fn put_downtimes(
    out: &mut Vec<u8>,
    inventory: &Inventory,
    downtimes: &[Downtime],
) -> Result<(), Memory>
    requires { All (λ d. d.object < length inventory.now.objects) downtimes.now }
    ensures ok { OnOk result (out.new.items ≡ out.old.items ++ flat_map (downtime_line inventory.now.objects) downtimes.now) }
    ensures grown { Grows out.old.items out.new.items }
{
    for downtime in downtimes {
        put_downtime(out, inventory, downtime)?;
    }
    Ok(())
}
