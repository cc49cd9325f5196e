//! The lines of who is owed the end of each object's problem, written and read. Where the inventory has the option
//! `recover_the_told`, a text of version 2 has one for each object, in order of the inventory; no other text has such a
//! line. Each `put_..` appends to `out`; if memory runs out, a part of the lines is in `out`. Each `read_..` moves the
//! cursor after the bytes that it read.
ghost use Rattle.std.specs.Prelude.{◌≡◌, ◌++◌, ◌<◌, ◌==◌, [], Some, count_by, length, map, IfOk, OnOk};
ghost use Rattle.std.specs.Fmt.{decimal};
ghost use Rattle.cmd_types.specs.Growth.{Grows};
ghost use Rattle.mon_engine.specs.Owed.{presumed};
ghost use Rattle.mon_engine.specs.Report.{each_index, fields_text};
ghost use Rattle.mon_state.specs.State.{tells_owed, owed_count, owed_line_of, owed_line};
ghost use Rattle.mon_state.specs.Reading.{many_at, next_index, owed_at, next_owed, all_owed_at};
ghost use Rattle.mon_state.specs.declared.version.StateVersion.TheVariants.{One};
ghost use Rattle.mon_state.specs.Cursors.{Gives};

use crate::appending::service_name;
use crate::cursor::Cursor;
use crate::fault::StateCause;
use crate::lines::read_names;
use crate::version::StateVersion;
use cmd_types::{Memory, Numbers};
use mon_engine::{Field, Object, Owed, first_owed, presumed_owed, put_fields, put_word};
use mon_inventory::{Inventory, ObjectSpec};
use std::alloc::Global;

/// Whether a text of this version has the lines.
fn tells_owed(version: StateVersion, inventory: &Inventory) -> bool
    ensures { result ≡ tells_owed version inventory.now }
{
    match version {
        StateVersion::One => false,
        StateVersion::Two => inventory.recovers_the_told(),
    }
}

/// The number of the lines in a text of this version.
pub fn owed_count(version: StateVersion, inventory: &Inventory) -> u16
    ensures { result ≡ owed_count version inventory.now }
{
    if tells_owed(version, inventory) {
        inventory.object_count()
    } else {
        0
    }
}

/// Appends these numbers as fields, each with a semicolon before it.
fn put_numbers(out: &mut Vec<u8>, numbers: &[u16]) -> Result<(), Memory>
    ensures ok { OnOk result (out.new.items ≡ out.old.items ++ fields_text (map decimal numbers.now)) }
    ensures grown { Grows out.old.items out.new.items }
{
    for number in numbers {
        put_fields(out, &[Field::Number(u64::from(*number))])?;
    }
    Ok(())
}

/// Appends the line of the object with this line of the inventory.
fn put_owed_of(out: &mut Vec<u8>, spec: &ObjectSpec, owed: &Owed) -> Result<(), Memory>
    ensures ok { OnOk result (out.new.items ≡ out.old.items ++ owed_line_of (Some spec.now) (Some owed.now)) }
    ensures grown { Grows out.old.items out.new.items }
{
    put_word(
        out,
        b"owed",
        &[
            Field::Bytes(spec.host.as_bytes()),
            Field::Bytes(service_name(spec)),
            Field::Number(owed.number),
        ],
    )?;
    put_numbers(out, owed.contacts.as_slice())?;
    put_fields(out, &[Field::Bytes(b"")])?;
    out.push(b'\n')?;
    Ok(())
}

/// Appends the line of the object at the index `object`.
#[tactic(auto, unfolding(crate::specs::State::owed_line))]
fn put_owed(
    out: &mut Vec<u8>,
    inventory: &Inventory,
    owed: &[Owed],
    object: u16,
) -> Result<(), Memory>
    requires spec { object < length inventory.now.objects }
    requires known { object < length owed.now }
    ensures ok { OnOk result (out.new.items ≡ out.old.items ++ owed_line inventory.now.objects owed.now object) }
    ensures grown { Grows out.old.items out.new.items }
{
    put_owed_of(out, inventory.object(object), &owed[object as usize])
}

/// Appends the lines that a text of this version has.
pub fn put_all_owed(
    out: &mut Vec<u8>,
    version: StateVersion,
    inventory: &Inventory,
    owed: &[Owed],
) -> Result<(), Memory>
    requires { length owed.now ≡ length inventory.now.objects }
    ensures ok { OnOk result (out.new.items ≡ out.old.items ++ each_index (owed_line inventory.now.objects owed.now) (owed_count version inventory.now)) }
    ensures grown { Grows out.old.items out.new.items }
{
    for object in 0..owed_count(version, inventory) {
        put_owed(out, inventory, owed, object)?;
    }
    Ok(())
}

/// The number of semicolons.
fn semicolons(bytes: &[u8]) -> u64
    ensures { result ≡ count_by (λ b. b == 59) bytes.now }
{
    let mut count = 0u64;
    for byte in bytes {
        if *byte == b';' {
            count += 1;
        }
    }
    count
}

/// Reads the indices of `count` contacts, each with a semicolon after it. Whether the inventory has these contacts is
/// not tested here.
fn read_owing(alloc: Global, cursor: &mut Cursor<'_>, count: u64) -> Result<Vec<u16>, StateCause>
    ensures { Gives (λ cs. (cs.items, cursor.new.rest)) cursor.new.last result (many_at next_index count [] cursor.old.rest) }
{
    let mut contacts = Vec::new(alloc);
    for _ in 0..count {
        contacts.push(cursor.small(65_535, b';')? as u16)?;
    }
    Ok(contacts)
}

/// Reads the line of the object with this line of the inventory, whose names it must have.
#[tactic(auto, unfolding(crate::specs::Reading::owed_at, crate::specs::Reading::contacts_left))]
fn read_owed(alloc: Global, cursor: &mut Cursor<'_>, spec: &ObjectSpec) -> Result<Owed, StateCause>
    ensures { Gives (λ x. (x, cursor.new.rest)) cursor.new.last result (owed_at spec.now cursor.old.rest) }
{
    cursor.expect(b"owed;")?;
    read_names(cursor, spec)?;
    let number = cursor.number(b';')?;
    let count = semicolons(cursor.line());
    let contacts = read_owing(alloc, cursor, count)?;
    cursor.expect(b"\n")?;
    Ok(Owed {
        contacts: Numbers::new(contacts),
        number,
    })
}

/// Reads the lines of all objects, in order of the inventory.
fn read_each_owed(
    alloc: Global,
    cursor: &mut Cursor<'_>,
    inventory: &Inventory,
) -> Result<Vec<Owed>, StateCause>
    ensures { Gives (λ xs. (xs.items, cursor.new.rest)) cursor.new.last result (many_at (next_owed inventory.now.objects) (length inventory.now.objects) [] cursor.old.rest) }
{
    let mut owed = Vec::new(alloc);
    for spec in inventory.objects() {
        owed.push(read_owed(alloc, cursor, spec)?)?;
    }
    Ok(owed)
}

/// Reads the lines that a text of this version has. Where it has none, nothing is read: in version 1 it is presumed
/// from the states of the objects who is owed an end, and else nobody is.
#[tactic(auto, unfolding(crate::specs::Reading::all_owed_at))]
pub fn read_all_owed(
    alloc: Global,
    cursor: &mut Cursor<'_>,
    version: StateVersion,
    inventory: &Inventory,
    objects: &[Object],
) -> Result<Vec<Owed>, StateCause>
    requires { length objects.now ≡ length inventory.now.objects }
    ensures read { Gives (λ xs. (xs.items, cursor.new.rest)) cursor.new.last result (all_owed_at version inventory.now objects.now cursor.old.rest) }
    ensures first { version ≡ One → IfOk result (λ xs. xs.items ≡ presumed inventory.now objects.now) }
{
    match version {
        StateVersion::One => Ok(presumed_owed(alloc, inventory, objects)?),
        StateVersion::Two => {
            if !tells_owed(version, inventory) {
                return Ok(first_owed(alloc, inventory)?);
            }
            read_each_owed(alloc, cursor, inventory)
        }
    }
}
