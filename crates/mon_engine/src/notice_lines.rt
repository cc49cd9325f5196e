//! The lines of notices in the report. Each `put_..` appends to `out`; if memory runs out, a part of the lines is in
//! `out`.
ghost use Rattle.std.specs.Prelude.{◌≡◌, ◌<◌, ◌++◌, IfOk, OnOk, All, length};
ghost use Rattle.std.specs.List.{flat_map};
ghost use Rattle.cmd_types.specs.Growth.{Grows};
ghost use Rattle.mon_engine.specs.Words.{state_text, word_text};
ghost use Rattle.mon_engine.specs.Report.{contact_name, comma_name, names_text, notice_line, notice_line_on};
ghost use Rattle.mon_engine.specs.Sound.{IsNoticeOf};

use crate::lines::{Field, put_whole};
use crate::notice::{Notice, Subject};
use crate::words::{state_text, word_text};
use cmd_types::Memory;
use mon_inventory::Inventory;
use std::alloc::Global;

/// Appends the name of the contact at this index. If memory runs out, `out` is unchanged.
fn put_name(out: &mut Vec<u8>, inventory: &Inventory, contact: u16) -> Result<(), Memory>
    requires { contact < length inventory.now.contacts }
    ensures { OnOk result (out.new.items ≡ out.old.items ++ contact_name inventory.now.contacts contact) }
{
    out.extend_from_slice(inventory.contact(contact).name.as_bytes())
}

/// Appends the names of these contacts, each with a comma before it.
fn put_more_names(out: &mut Vec<u8>, inventory: &Inventory, contacts: &[u16]) -> Result<(), Memory>
    requires { All (λ c. c < length inventory.now.contacts) contacts.now }
    ensures { OnOk result (out.new.items ≡ out.old.items ++ flat_map (comma_name inventory.now.contacts) contacts.now) }
{
    for contact in contacts {
        out.push(b',')?;
        put_name(out, inventory, *contact)?;
    }
    Ok(())
}

/// Makes the text of the names of these contacts, joined by commas; empty where there is no contact.
fn names_text(alloc: Global, inventory: &Inventory, contacts: &[u16]) -> Result<Vec<u8>, Memory>
    requires { All (λ c. c < length inventory.now.contacts) contacts.now }
    ensures { IfOk result (λ names. names.items ≡ names_text inventory.now.contacts contacts.now) }
{
    let mut names = Vec::new(alloc);
    if let [first, rest @ ..] = contacts {
        put_name(&mut names, inventory, *first)?;
        put_more_names(&mut names, inventory, rest)?;
    }
    Ok(names)
}

/// The names in the line of a notice: those of its object, `service` being empty for a host, and those of its contacts,
/// joined by commas.
#[derive(Clone, Copy)]
struct NoticeNames<'a> {
    host: &'a [u8],
    service: &'a [u8],
    contacts: &'a [u8],
}

/// Appends the line of a notice, with these names.
fn put_notice_on(
    out: &mut Vec<u8>,
    subject: Subject,
    is_service: bool,
    names: NoticeNames<'_>,
) -> Result<(), Memory>
    ensures ok { OnOk result (out.new.items ≡ out.old.items ++ notice_line_on subject names.entry.host.now names.entry.service.now is_service names.entry.contacts.now) }
    ensures grown { Grows out.old.items out.new.items }
{
    put_whole(
        out,
        b"notice",
        &[
            Field::Number(subject.moment),
            Field::Bytes(word_text(subject.word)),
            Field::Bytes(names.host),
            Field::Bytes(names.service),
            Field::Bytes(state_text(is_service, subject.code)),
            Field::Number(subject.number),
            Field::Bytes(names.contacts),
        ],
    )
}

/// Appends the line of a notice, for which it looks up the names of its object and contacts. If memory runs out, a
/// beginning of the line is in `out`.
#[tactic(auto, unfolding(crate::specs::Report::notice_line))]
fn put_notice(
    alloc: Global,
    out: &mut Vec<u8>,
    inventory: &Inventory,
    notice: &Notice,
) -> Result<(), Memory>
    requires { IsNoticeOf inventory.now notice.now }
    ensures ok { OnOk result (out.new.items ≡ out.old.items ++ notice_line inventory.now notice.now) }
    ensures grown { Grows out.old.items out.new.items }
{
    let contacts = names_text(alloc, inventory, notice.contacts.as_slice())?;
    let spec = inventory.object(notice.subject.object);
    let host = spec.host.as_bytes();
    match &spec.service {
        None => {
            let names = NoticeNames {
                host,
                service: b"",
                contacts: &contacts,
            };
            put_notice_on(out, notice.subject, false, names)
        }
        Some(name) => {
            let names = NoticeNames {
                host,
                service: name.as_bytes(),
                contacts: &contacts,
            };
            put_notice_on(out, notice.subject, true, names)
        }
    }
}

/// Appends the lines of these notices, in order. If memory runs out, a part of the lines is in `out`.
pub fn put_notices(
    alloc: Global,
    out: &mut Vec<u8>,
    inventory: &Inventory,
    notices: &[Notice],
) -> Result<(), Memory>
    requires { All (IsNoticeOf inventory.now) notices.now }
    ensures ok { OnOk result (out.new.items ≡ out.old.items ++ flat_map (notice_line inventory.now) notices.now) }
    ensures grown { Grows out.old.items out.new.items }
{
    for notice in notices {
        put_notice(alloc, out, inventory, notice)?;
    }
    Ok(())
}
