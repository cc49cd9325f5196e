//! The comments in order of their ids, and the calls that add and remove them. If memory runs out, `add` leaves the
//! comments unchanged. No call reads the objects or their acknowledgements.
ghost use Rattle.std.specs.Prelude.{ℕ, ◌≡◌, ◌+◌, ◌-◌, ◌<◌, ◌^◌, ◌==◌, ◌&&◌, [], not, filter, IfOk, OnOk, OnErr, is_some};
ghost use Rattle.std.specs.Option.{option_copied};
ghost use Rattle.mon_notes.specs.Listed.{goes, has, AreAmong};
ghost use Rattle.mon_notes.specs.Comments.{AreAscending, CommentList, IsCommentList, comment_of, kept, without, without_object, without_acknowledged, without_transient, with_comment};

use crate::boxed::BoxedText;
use crate::comment::{Comment, Group, goes};
use crate::lists::{Lists, lists_of};
use crate::row::CommentRow;
use crate::search::{find_comment, place_of};
use cmd_types::{Memory, Text};
use std::alloc::Global;
use std::marker::Model;

/// The comments that are not removed, in order of their ids, and the greatest id ever assigned.
///
/// ```
/// let mut notes = Notes::new(alloc);
/// let author = Text::new(Vec::from_slice(alloc, b"ann")?);
/// let text = Text::new(Vec::from_slice(alloc, b"on it")?);
/// let id = notes.add(alloc, 0, true, false, 100, author, text)?;
/// assert_eq!(rt; id, 1);
/// notes.drop_acknowledged(0);
/// assert!(rt; notes.list().is_empty());
/// assert_eq!(rt; notes.last_id(), 1);
/// ```
#[derive(Drop)]
pub struct Notes {
    row: CommentRow,
    lists: Lists,
    last_id: u64,
}

impl Model for Notes {
    ghost use Rattle.mon_notes.specs.Comments.{CommentList, IsCommentList};
    ghost use Rattle.mon_notes.specs.Listed.{IsNotes};

    ghost Value = { CommentList };

    ghost view = { λ a. record { comments = a.row; last_id = a.last_id } };

    ghost invariant = { λ a. IsNotes a.row a.lists a.last_id };
}

/// Removes the comment with this id from the row, if the row has it and it is of the group.
fn drop_one(row: &mut CommentRow, id: u64, group: Group)
    requires { AreAscending 0 row.old }
    ensures { row.new ≡ filter (λ c. not ((c.id == id) && goes group c)) row.old }
{
    if let Some(at) = place_of(row.as_slice(), id) {
        if goes(&row.as_slice()[at], group) {
            row.take_out(at);
        }
    }
}

/// Removes the comments with these ids from the row, each if the row has it and it is of the group.
fn drop_each(row: &mut CommentRow, ids: &[u64], group: Group)
    requires { AreAscending 0 row.old }
    ensures { row.new ≡ filter (λ c. not (has ids.now c.id && goes group c)) row.old }
{
    for id in ids {
        drop_one(row, *id, group);
    }
}

/// The greatest number of listed ids whose comments are removed one by one (a choice); for more ids, all comments are
/// walked once.
const FEW: usize = 16;

/// Removes the comments of the group from the row; their ids are among `listed`.
fn drop_group(row: &mut CommentRow, listed: &[u64], group: Group)
    requires ascending { AreAscending 0 row.old }
    requires among { AreAmong group listed.now row.old }
    ensures { row.new ≡ filter (λ c. not (goes group c)) row.old }
{
    if listed.len() > FEW {
        row.remove_matching(group);
    } else {
        drop_each(row, listed, group);
    }
}

impl Notes {
    /// Makes an empty list, with no id assigned yet. Takes no memory.
    pub fn new(alloc: Global) -> Notes
        ensures comments { result.comments ≡ [] }
        ensures last_id { result.last_id ≡ 0 }
    {
        Notes {
            row: CommentRow::new(alloc),
            lists: Lists::new(alloc),
            last_id: 0,
        }
    }

    /// Makes the list of these comments; `last_id` is the greatest id ever assigned. Requires that
    /// [`misplaced`](crate::misplaced) returns `None` for them. If memory runs out, the comments are dropped.
    ///
    /// ```
    /// let notes = Notes::restore(alloc, Vec::new(alloc), 7)?;
    /// assert_eq!(rt; notes.last_id(), 7);
    /// ```
    pub fn restore(alloc: Global, comments: Vec<Comment>, last_id: u64) -> Result<Notes, Memory>
        requires { IsCommentList (record { comments = comments.items; last_id = last_id }) }
        ensures comments { IfOk result (λ n. n.comments ≡ comments.items) }
        ensures last_id { IfOk result (λ n. n.last_id ≡ last_id) }
    {
        let lists = lists_of(alloc, &comments)?;
        Ok(Notes {
            row: CommentRow::of(comments),
            lists,
            last_id,
        })
    }

    /// Returns the comments in order of their ids, and drops everything else. [`restore`](Notes::restore) makes the
    /// same list from them and `last_id`. Takes no memory.
    ///
    /// ```
    /// let notes = Notes::restore(alloc, Vec::new(alloc), 7)?;
    /// assert_eq!(rt; notes.into_list().len(), 0);
    /// ```
    pub fn into_list(self) -> Vec<Comment>
        ensures { result.items ≡ self.comments }
    {
        self.row.into_list()
    }

    /// The comments in order of their ids: each id is above the one before, and none is above `last_id`.
    pub fn list(&self) -> &[Comment]
        ensures comments { result.now ≡ self.now.comments }
        ensures ids { IsCommentList self.now }
    {
        self.row.as_slice()
    }

    /// The greatest id assigned so far, even if its comment was removed; 0 at first.
    pub fn last_id(&self) -> u64
        ensures { result ≡ self.now.last_id }
    {
        self.last_id
    }

    /// The comment with this id, found by binary search; `None` where no comment has the id.
    pub fn find(&self, id: u64) -> Option<&Comment>
        ensures { option_copied result ≡ comment_of self.now.comments id }
    {
        find_comment(self.row.as_slice(), id)
    }

    /// Adds a comment on an object, entered at the second `time`, with the next id, and returns that id (External
    /// Commands: the commands that add comments or acknowledge). If memory runs out, the comments are unchanged, and
    /// the texts are dropped. Requires that [`last_id`](Notes::last_id) is at most 2^64 - 2.
    pub fn add(
        &mut self,
        alloc: Global,
        object: u16,
        ack: bool,
        persistent: bool,
        time: u64,
        author: Text,
        text: Text,
    ) -> Result<u64, Memory>
        requires room { self.old.last_id < 2 ^ 64 - 1 }
        ensures id { IfOk result (λ id. id ≡ self.old.last_id + 1) }
        ensures ok { OnOk result (self.new ≡ with_comment self.old object ack persistent time author text) }
        ensures err { OnErr result (self.new ≡ self.old) }
    {
        let id = self.last_id + 1;
        // Room comes first, so that no id is listed without its comment.
        self.row.reserve_one()?;
        let comment = Comment {
            id,
            object,
            ack,
            persistent,
            time,
            author: BoxedText::new(alloc, author)?,
            text: BoxedText::new(alloc, text)?,
        };
        self.lists.add(alloc, &comment, self.row.as_slice())?;
        self.row.push(comment)?;
        self.last_id = id;
        Ok(id)
    }

    /// Removes the comment with this id, and returns whether there was one (External Commands: DEL_HOST_COMMENT,
    /// DEL_SVC_COMMENT). Where there was none, nothing changes. The greatest id is unchanged. Takes no memory.
    pub fn remove(&mut self, id: u64) -> bool
        ensures was { result ≡ is_some (comment_of self.old.comments id) }
        ensures left { self.new ≡ without id self.old }
    {
        match place_of(self.row.as_slice(), id) {
            None => false,
            Some(at) => {
                self.row.take_out(at);
                true
            }
        }
    }

    /// Removes the comments of the group, and clears the list of their ids.
    fn drop_all(&mut self, group: Group)
        ensures { self.new ≡ kept (λ c. not (goes group c)) self.old }
    {
        drop_group(&mut self.row, self.lists.of(group), group);
        self.lists.clear(group);
    }

    /// Removes all comments of an object (External Commands: DEL_ALL_HOST_COMMENTS, DEL_ALL_SVC_COMMENTS). The greatest
    /// id is unchanged. Takes no memory.
    pub fn remove_all(&mut self, object: u16)
        ensures { self.new ≡ without_object object self.old }
    {
        self.drop_all(Group::Object(object));
    }

    /// Removes the comments of the object's acknowledgements that are not persistent (profile). The greatest id is
    /// unchanged. Takes no memory.
    pub fn drop_acknowledged(&mut self, object: u16)
        ensures { self.new ≡ without_acknowledged object self.old }
    {
        self.drop_all(Group::Acknowledged(object));
    }

    /// Removes all comments that are not persistent, comments of acknowledgements included (profile). The greatest id
    /// is unchanged. Takes no memory.
    pub fn drop_transient(&mut self)
        ensures { self.new ≡ without_transient self.old }
    {
        self.drop_all(Group::Transient);
    }
}
