//! A comment as it was entered, and the groups of comments that are removed together.
ghost use Rattle.std.specs.Prelude.{◌≡◌};
ghost use Rattle.mon_notes.specs.Listed.{goes};

use crate::boxed::BoxedText;

/// A comment on a host or a service (External Commands).
///
/// Ids count from 1, objects from 0. `ack` is true for the comment of an acknowledgement. `persistent` is true for a
/// comment that remains when the program restarts or its acknowledgement is removed. The time is in seconds. The texts
/// are in boxes, so that to move a comment moves 40 bytes.
///
/// ```
/// let mut notes = Notes::new(alloc);
/// let author = Text::new(Vec::from_slice(alloc, b"ann")?);
/// let text = Text::new(Vec::from_slice(alloc, b"new disk")?);
/// let id = notes.add(alloc, 0, false, true, 100, author, text)?;
/// let Some(comment) = notes.find(id) else {
///     return Err(Fail::new("the comment is there"));
/// };
/// assert_eq!(rt; comment.text.as_bytes(), b"new disk".as_slice());
/// ```
#[derive(Drop)]
pub struct Comment {
    pub id: u64,
    pub object: u16,
    pub ack: bool,
    pub persistent: bool,
    pub time: u64,
    pub author: BoxedText,
    pub text: BoxedText,
}

/// Comments that are removed together.
#[derive(Clone, Copy)]
pub enum Group {
    /// All comments of an object.
    Object(u16),
    /// The comments of the object's acknowledgements that are not persistent.
    Acknowledged(u16),
    /// All comments that are not persistent.
    Transient,
}

/// Whether the comment is one of the group.
pub fn goes(c: &Comment, group: Group) -> bool
    ensures { result ≡ goes group c.now }
{
    match group {
        Group::Object(object) => c.object == object,
        Group::Acknowledged(object) => c.object == object && c.ack && !c.persistent,
        Group::Transient => !c.persistent,
    }
}
