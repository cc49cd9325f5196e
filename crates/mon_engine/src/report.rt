//! The report on the state: one line for each fact, in the order of `specs/Report.antt`. Each `put_..` appends to `out`
//! and changes nothing else; if memory runs out, a part of its lines is in `out`.
ghost use Rattle.std.specs.Prelude.{◌≡◌, ◌<◌, ◌++◌, [], ◌∷◌, OnOk, All, length, Some};
ghost use Rattle.std.specs.List.{flat_map};
ghost use Rattle.cmd_types.specs.Growth.{Grows};
ghost use Rattle.mon_notes.specs.declared.comment.Comment.{Comment};
ghost use Rattle.mon_engine.specs.Words.{state_text, type_text, acknowledgement_text, kind_text};
ghost use Rattle.mon_engine.specs.Report.{clock_line, program_line, object_line_by, object_line, contact_line, contact_line_of, comment_line, comment_line_of, rejected_line, downtime_line, each_index, fields_text, state_fields, comment_line_on, notice_line, report};
ghost use Rattle.mon_engine.specs.Sound.{IsWorld};

use crate::downtime_lines::put_downtimes;
use crate::lines::{Field, put_fields, put_whole, put_word};
use crate::notice_lines::put_notices;
use crate::object::Object;
use crate::outcome::Rejection;
use crate::state::State;
use crate::switches::Program;
use crate::words::{acknowledgement_text, kind_text, state_text, type_text};
use cmd_types::Memory;
use mon_downtime::Downtimes;
use mon_inventory::{ContactSpec, Inventory, ObjectSpec};
use mon_notes::Comment;
use mon_notify::ContactSwitch;
use std::alloc::Global;

/// Appends the line of the clock, in seconds. If memory runs out, a beginning of the line is in `out`.
pub fn put_clock(out: &mut Vec<u8>, clock: u64) -> Result<(), Memory>
    ensures ok { OnOk result (out.new.items ≡ out.old.items ++ clock_line clock) }
    ensures grown { Grows out.old.items out.new.items }
{
    put_whole(out, b"clock", &[Field::Number(clock)])
}

/// Appends the line of the program's three switches. If memory runs out, a beginning of the line is in `out`.
pub fn put_program(out: &mut Vec<u8>, program: Program) -> Result<(), Memory>
    ensures ok { OnOk result (out.new.items ≡ out.old.items ++ program_line program) }
    ensures grown { Grows out.old.items out.new.items }
{
    put_whole(
        out,
        b"program",
        &[
            Field::Flag(program.notifications),
            Field::Flag(program.passive_host),
            Field::Flag(program.passive_service),
        ],
    )
}

/// Appends the fields of an object's state, each with a semicolon before it, and a line feed.
fn put_state(out: &mut Vec<u8>, object: &Object, depth: u64) -> Result<(), Memory>
    ensures ok { OnOk result (out.new.items ≡ out.old.items ++ fields_text (state_fields object.now depth) ++ 10 ∷ []) }
    ensures grown { Grows out.old.items out.new.items }
{
    put_fields(
        out,
        &[
            Field::Bytes(state_text(object.status.service, object.status.code)),
            Field::Bytes(type_text(object.status.hard)),
            Field::Number(object.status.attempt),
            Field::Bytes(acknowledgement_text(object.acknowledgement)),
            Field::Number(depth),
            Field::Number(object.number),
            Field::Flag(object.notify),
            Field::Flag(object.passive),
            Field::Bytes(object.output.as_bytes()),
        ],
    )?;
    out.push(b'\n')?;
    Ok(())
}

/// Appends the line of a host or a service; `depth` is the number of its active downtimes.
fn put_object(
    out: &mut Vec<u8>,
    spec: &ObjectSpec,
    object: &Object,
    depth: u64,
) -> Result<(), Memory>
    ensures ok { OnOk result (out.new.items ≡ out.old.items ++ object_line_by spec.now.host spec.now.service object.now depth) }
    ensures grown { Grows out.old.items out.new.items }
{
    match &spec.service {
        None => {
            put_word(out, b"host", &[Field::Bytes(spec.host.as_bytes())])?;
            put_state(out, object, depth)
        }
        Some(name) => {
            put_word(
                out,
                b"service",
                &[
                    Field::Bytes(spec.host.as_bytes()),
                    Field::Bytes(name.as_bytes()),
                ],
            )?;
            put_state(out, object, depth)
        }
    }
}

/// Appends the line of a contact, with its two switches.
fn put_contact(
    out: &mut Vec<u8>,
    contact: &ContactSpec,
    switch: ContactSwitch,
) -> Result<(), Memory>
    ensures ok { OnOk result (out.new.items ≡ out.old.items ++ contact_line_of (Some contact.now) (Some switch)) }
    ensures grown { Grows out.old.items out.new.items }
{
    put_whole(
        out,
        b"contact",
        &[
            Field::Bytes(contact.name.as_bytes()),
            Field::Flag(switch.host),
            Field::Flag(switch.service),
        ],
    )
}

/// Appends the line of a comment, with these names of its object; `service` is empty for a host.
fn put_comment_on<'a>(
    out: &mut Vec<u8>,
    comment: &'a Comment,
    host: &'a [u8],
    service: &'a [u8],
) -> Result<(), Memory>
    ensures ok { OnOk result (out.new.items ≡ out.old.items ++ comment_line_on comment.now host.now service.now) }
    ensures grown { Grows out.old.items out.new.items }
{
    put_whole(
        out,
        b"comment",
        &[
            Field::Number(comment.id),
            Field::Bytes(host),
            Field::Bytes(service),
            Field::Bytes(kind_text(comment.ack)),
            Field::Flag(comment.persistent),
            Field::Number(comment.time),
            Field::Bytes(comment.author.as_bytes()),
            Field::Bytes(comment.text.as_bytes()),
        ],
    )
}

/// Appends the line of a comment on the object with this line of the inventory.
fn put_comment<'a>(
    out: &mut Vec<u8>,
    comment: &'a Comment,
    spec: &'a ObjectSpec,
) -> Result<(), Memory>
    ensures ok { OnOk result (out.new.items ≡ out.old.items ++ comment_line_of comment.now (Some spec.now)) }
    ensures grown { Grows out.old.items out.new.items }
{
    match &spec.service {
        None => put_comment_on(out, comment, spec.host.as_bytes(), b""),
        Some(name) => put_comment_on(out, comment, spec.host.as_bytes(), name.as_bytes()),
    }
}

/// Appends the line of a rejected entry: its sender, its place, and the number of the reason.
#[tactic(auto, unfolding(crate::specs::Report::rejected_line))]
fn put_rejection(out: &mut Vec<u8>, rejection: &Rejection) -> Result<(), Memory>
    ensures ok { OnOk result (out.new.items ≡ out.old.items ++ rejected_line rejection.now) }
    ensures grown { Grows out.old.items out.new.items }
{
    put_whole(
        out,
        b"rejected",
        &[
            Field::Number(u64::from(rejection.sender)),
            Field::Number(rejection.place),
            Field::Number(rejection.reason.number()),
        ],
    )
}

/// Appends the line of the object at the index `object`.
#[tactic(auto, unfolding(crate::specs::Report::object_line))]
pub fn put_object_at(
    out: &mut Vec<u8>,
    inventory: &Inventory,
    objects: &[Object],
    downtimes: &Downtimes,
    object: u16,
) -> Result<(), Memory>
    requires object { object < length inventory.now.objects }
    requires known { length objects.now ≡ length inventory.now.objects }
    ensures ok { OnOk result (out.new.items ≡ out.old.items ++ object_line inventory.now.objects objects.now downtimes.now object) }
    ensures grown { Grows out.old.items out.new.items }
{
    put_object(
        out,
        inventory.object(object),
        &objects[object as usize],
        downtimes.depth(object),
    )
}

/// Appends the lines of all objects, in order of the inventory. If memory runs out, a part of the lines is in `out`.
pub fn put_objects(
    out: &mut Vec<u8>,
    inventory: &Inventory,
    objects: &[Object],
    downtimes: &Downtimes,
) -> Result<(), Memory>
    requires { length objects.now ≡ length inventory.now.objects }
    ensures ok { OnOk result (out.new.items ≡ out.old.items ++ each_index (object_line inventory.now.objects objects.now downtimes.now) (length inventory.now.objects)) }
    ensures grown { Grows out.old.items out.new.items }
{
    for object in 0..inventory.object_count() {
        put_object_at(out, inventory, objects, downtimes, object)?;
    }
    Ok(())
}

/// Appends the line of the contact at the index `contact`.
#[tactic(auto, unfolding(crate::specs::Report::contact_line))]
fn put_contact_at(
    out: &mut Vec<u8>,
    inventory: &Inventory,
    switches: &[ContactSwitch],
    contact: u16,
) -> Result<(), Memory>
    requires contact { contact < length inventory.now.contacts }
    requires known { length switches.now ≡ length inventory.now.contacts }
    ensures ok { OnOk result (out.new.items ≡ out.old.items ++ contact_line inventory.now.contacts switches.now contact) }
    ensures grown { Grows out.old.items out.new.items }
{
    put_contact(out, inventory.contact(contact), switches[contact as usize])
}

/// Appends the lines of all contacts, in order of the inventory. If memory runs out, a part of the lines is in `out`.
pub fn put_contacts(
    out: &mut Vec<u8>,
    inventory: &Inventory,
    switches: &[ContactSwitch],
) -> Result<(), Memory>
    requires { length switches.now ≡ length inventory.now.contacts }
    ensures ok { OnOk result (out.new.items ≡ out.old.items ++ each_index (contact_line inventory.now.contacts switches.now) (length inventory.now.contacts)) }
    ensures grown { Grows out.old.items out.new.items }
{
    for contact in 0..inventory.contact_count() {
        put_contact_at(out, inventory, switches, contact)?;
    }
    Ok(())
}

/// Appends the line of a comment, for which it looks up the object in the inventory.
#[tactic(auto, unfolding(crate::specs::Report::comment_line))]
fn put_comment_of(out: &mut Vec<u8>, inventory: &Inventory, comment: &Comment) -> Result<(), Memory>
    requires { comment.now.object < length inventory.now.objects }
    ensures ok { OnOk result (out.new.items ≡ out.old.items ++ comment_line inventory.now.objects comment.now) }
    ensures grown { Grows out.old.items out.new.items }
{
    put_comment(out, comment, inventory.object(comment.object))
}

/// Appends the lines of these comments, in order. If memory runs out, a part of the lines is in `out`.
pub fn put_comments(
    out: &mut Vec<u8>,
    inventory: &Inventory,
    comments: &[Comment],
) -> Result<(), Memory>
    requires { All (λ c. c.object < length inventory.now.objects) comments.now }
    ensures ok { OnOk result (out.new.items ≡ out.old.items ++ flat_map (comment_line inventory.now.objects) comments.now) }
    ensures grown { Grows out.old.items out.new.items }
{
    for comment in comments {
        put_comment_of(out, inventory, comment)?;
    }
    Ok(())
}

/// Appends the lines of these rejected entries, in order. If memory runs out, a part of the lines is in `out`.
pub fn put_rejections(out: &mut Vec<u8>, rejections: &[Rejection]) -> Result<(), Memory>
    ensures ok { OnOk result (out.new.items ≡ out.old.items ++ flat_map rejected_line rejections.now) }
    ensures grown { Grows out.old.items out.new.items }
{
    for rejection in rejections {
        put_rejection(out, rejection)?;
    }
    Ok(())
}

impl State {
    /// Appends the lines of the present state: the clock, the program, the objects and the contacts.
    fn put_states(&self, inventory: &Inventory, out: &mut Vec<u8>) -> Result<(), Memory>
        requires { IsWorld inventory.now self.now }
        ensures ok { OnOk result (out.new.items ≡ out.old.items ++ clock_line self.now.clock ++ program_line self.now.program ++ each_index (object_line inventory.now.objects self.now.objects self.now.downtimes) (length inventory.now.objects) ++ each_index (contact_line inventory.now.contacts self.now.contacts) (length inventory.now.contacts)) }
        ensures grown { Grows out.old.items out.new.items }
    {
        put_clock(out, self.clock)?;
        put_program(out, self.program)?;
        put_objects(out, inventory, self.objects.as_slice(), &self.downtimes)?;
        put_contacts(out, inventory, &self.contacts)
    }

    /// Appends the lines of the lists: comments, downtimes that are not over, rejections, notices.
    pub fn put_lists(
        &self,
        alloc: Global,
        inventory: &Inventory,
        out: &mut Vec<u8>,
    ) -> Result<(), Memory>
        requires { IsWorld inventory.now self.now }
        ensures ok { OnOk result (out.new.items ≡ out.old.items ++ flat_map (comment_line inventory.now.objects) self.now.notes.comments ++ flat_map (downtime_line inventory.now.objects) self.now.downtimes ++ flat_map rejected_line self.now.rejections ++ flat_map (notice_line inventory.now) self.now.notices) }
        ensures grown { Grows out.old.items out.new.items }
    {
        put_comments(out, inventory, self.notes.list())?;
        put_downtimes(out, inventory, self.downtimes.list())?;
        put_rejections(out, &self.rejections)?;
        put_notices(alloc, out, inventory, &self.notices)
    }

    /// Appends the whole report: the lines of the present state, and then those of the lists.
    #[tactic(auto, unfolding(crate::specs::Report::report))]
    pub fn put_report(
        &self,
        alloc: Global,
        inventory: &Inventory,
        out: &mut Vec<u8>,
    ) -> Result<(), Memory>
        requires { IsWorld inventory.now self.now }
        ensures ok { OnOk result (out.new.items ≡ out.old.items ++ report inventory.now self.now) }
        ensures grown { Grows out.old.items out.new.items }
    {
        self.put_states(inventory, out)?;
        self.put_lists(alloc, inventory, out)
    }
}
