//! The lines of the objects and contacts of the inventory. Each `put_..` appends to `out`; if memory runs out, a part
//! of the lines is in `out`.
ghost use Rattle.std.specs.Prelude.{◌≡◌, ◌++◌, ◌∷◌, [], ◌<◌, OnOk, Some, length};
ghost use Rattle.cmd_types.specs.Growth.{Grows};
ghost use Rattle.mon_engine.specs.Report.{fields_text, contact_line, contact_line_of, each_index};
ghost use Rattle.mon_state.specs.State.{status_fields, notice_fields, moment_fields, known_fields, host_or_service_line, object_line};

use crate::appending::{optional_code, put};
use crate::version::StateVersion;
use cmd_types::Memory;
use mon_engine::{Field, Moments, Object, acknowledgement_text, put_fields, put_word};
use mon_inventory::{ContactSpec, Inventory, ObjectSpec};
use mon_notify::ContactSwitch;

/// Appends the moments of an object as fields, each with a semicolon before it; version 1 has none.
fn put_moments(out: &mut Vec<u8>, version: StateVersion, moments: Moments) -> Result<(), Memory>
    ensures ok { OnOk result (out.new.items ≡ out.old.items ++ fields_text (moment_fields version moments)) }
    ensures grown { Grows out.old.items out.new.items }
{
    match version {
        StateVersion::One => Ok(()),
        StateVersion::Two => put_fields(
            out,
            &[
                Field::optional(moments.checked),
                Field::Number(moments.changed),
                Field::optional(moments.since),
            ],
        ),
    }
}

/// Appends the fields of an object's status and acknowledgement, each with a semicolon before it.
fn put_status(out: &mut Vec<u8>, object: &Object) -> Result<(), Memory>
    ensures ok { OnOk result (out.new.items ≡ out.old.items ++ fields_text (status_fields object.now)) }
    ensures grown { Grows out.old.items out.new.items }
{
    put_fields(
        out,
        &[
            Field::Number(u64::from(object.status.code)),
            Field::Flag(object.status.hard),
            Field::Number(object.status.attempt),
            Field::Bytes(acknowledgement_text(object.acknowledgement)),
        ],
    )
}

/// Appends the fields on an object's notices and its two switches, each with a semicolon before it.
fn put_notified(out: &mut Vec<u8>, object: &Object) -> Result<(), Memory>
    ensures ok { OnOk result (out.new.items ≡ out.old.items ++ fields_text (notice_fields object.now)) }
    ensures grown { Grows out.old.items out.new.items }
{
    put_fields(
        out,
        &[
            Field::Number(object.number),
            Field::optional(object.last),
            optional_code(object.notified),
            Field::optional(object.not_before),
            Field::Flag(object.notify),
            Field::Flag(object.passive),
        ],
    )
}

/// Appends the fields of an object's state, each with a semicolon before it, and a line feed.
fn put_known(out: &mut Vec<u8>, version: StateVersion, object: &Object) -> Result<(), Memory>
    ensures ok { OnOk result (out.new.items ≡ out.old.items ++ (fields_text (known_fields version object.now) ++ 10 ∷ [])) }
    ensures grown { Grows out.old.items out.new.items }
{
    put_status(out, object)?;
    put_notified(out, object)?;
    put_moments(out, version, object.moments)?;
    put_fields(out, &[Field::Bytes(object.output.as_bytes())])?;
    out.push(b'\n')?;
    Ok(())
}

/// Appends the line of a host or a service with this line of the inventory.
fn put_known_line(
    out: &mut Vec<u8>,
    version: StateVersion,
    spec: &ObjectSpec,
    object: &Object,
) -> Result<(), Memory>
    ensures ok { OnOk result (out.new.items ≡ out.old.items ++ host_or_service_line version spec.now.host spec.now.service object.now) }
    ensures grown { Grows out.old.items out.new.items }
{
    match &spec.service {
        None => {
            put_word(out, b"host", &[Field::Bytes(spec.host.as_bytes())])?;
            put_known(out, version, object)
        }
        Some(name) => {
            put_word(
                out,
                b"service",
                &[
                    Field::Bytes(spec.host.as_bytes()),
                    Field::Bytes(name.as_bytes()),
                ],
            )?;
            put_known(out, version, object)
        }
    }
}

/// Appends the line for the object at the index `object`.
#[tactic(auto, unfolding(crate::specs::State::object_line))]
fn put_object(
    out: &mut Vec<u8>,
    version: StateVersion,
    inventory: &Inventory,
    objects: &[Object],
    object: u16,
) -> Result<(), Memory>
    requires spec { object < length inventory.now.objects }
    requires known { object < length objects.now }
    ensures ok { OnOk result (out.new.items ≡ out.old.items ++ object_line version inventory.now.objects objects.now object) }
    ensures grown { Grows out.old.items out.new.items }
{
    put_known_line(
        out,
        version,
        inventory.object(object),
        &objects[object as usize],
    )
}

/// Appends the lines of the state for all objects in this version, in order of the inventory. If memory runs out, a
/// part of the lines is in `out`.
pub fn put_objects(
    out: &mut Vec<u8>,
    version: StateVersion,
    inventory: &Inventory,
    objects: &[Object],
) -> Result<(), Memory>
    requires { length objects.now ≡ length inventory.now.objects }
    ensures ok { OnOk result (out.new.items ≡ out.old.items ++ each_index (object_line version inventory.now.objects objects.now) (length inventory.now.objects)) }
    ensures grown { Grows out.old.items out.new.items }
{
    for object in 0..inventory.object_count() {
        put_object(out, version, inventory, objects, object)?;
    }
    Ok(())
}

/// Appends the line of `contact`, with its two switches.
fn put_switch(out: &mut Vec<u8>, contact: &ContactSpec, switch: ContactSwitch) -> Result<(), Memory>
    ensures ok { OnOk result (out.new.items ≡ out.old.items ++ contact_line_of (Some contact.now) (Some switch)) }
    ensures grown { Grows out.old.items out.new.items }
{
    put(
        out,
        b"contact",
        &[
            Field::Bytes(contact.name.as_bytes()),
            Field::Flag(switch.host),
            Field::Flag(switch.service),
        ],
    )
}

/// Appends the line for the contact at the index `contact`.
fn put_contact(
    out: &mut Vec<u8>,
    inventory: &Inventory,
    contacts: &[ContactSwitch],
    contact: u16,
) -> Result<(), Memory>
    requires spec { contact < length inventory.now.contacts }
    requires known { contact < length contacts.now }
    ensures ok { OnOk result (out.new.items ≡ out.old.items ++ contact_line inventory.now.contacts contacts.now contact) }
    ensures grown { Grows out.old.items out.new.items }
{
    put_switch(out, inventory.contact(contact), contacts[contact as usize])
}

/// Appends the lines of the state for all contacts, in order of the inventory. If memory runs out, a part of the lines
/// is in `out`.
pub fn put_contacts(
    out: &mut Vec<u8>,
    inventory: &Inventory,
    contacts: &[ContactSwitch],
) -> Result<(), Memory>
    requires { length contacts.now ≡ length inventory.now.contacts }
    ensures ok { OnOk result (out.new.items ≡ out.old.items ++ each_index (contact_line inventory.now.contacts contacts.now) (length inventory.now.contacts)) }
    ensures grown { Grows out.old.items out.new.items }
{
    for contact in 0..inventory.contact_count() {
        put_contact(out, inventory, contacts, contact)?;
    }
    Ok(())
}
