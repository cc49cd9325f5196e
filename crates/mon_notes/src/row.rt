//! The comments, side by side in one list, so that they can be lent as a slice. They begin at the index `start`:
//! removing one near the front moves the comments before it and raises `start`, so that removing the oldest does not
//! move all others each time. No call changes a comment or the order.
ghost use Rattle.std.specs.Prelude.{◌≡◌, ◌<◌, ◌≤◌, ◌++◌, ◌∷◌, [], not, length, drop, vec_len, OnOk, OnErr};
ghost use Rattle.std.specs.List.{remove, filter};
ghost use Rattle.mon_notes.specs.Listed.{goes};

use crate::comment::{Comment, Group, goes};
use cmd_types::Memory;
use std::alloc::Global;
use std::marker::Model;

/// The comments from the index `start` on. The entries before `start` are removed comments; `settle` drops them.
#[derive(Drop)]
pub struct CommentRow {
    comments: Vec<Comment>,
    start: usize,
}

impl Model for CommentRow {
    ghost use Rattle.std.specs.Prelude.{◌≤◌, List, length, drop};
    ghost use Rattle.mon_notes.specs.declared.comment.Comment.{Comment};

    ghost Value = { List Comment };

    ghost view = { λ r. drop r.start r.comments.items };

    ghost invariant = { λ r. r.start ≤ length r.comments.items };
}

/// Drops the first `count` comments of the list in place; the others keep their order. Takes no memory.
fn drop_front(comments: &mut Vec<Comment>, count: usize)
    requires { count ≤ vec_len comments.old }
    ensures { comments.new.items ≡ drop count comments.old.items }
{
    let left = comments.len() - count;
    comments.rotate_left(count);
    comments.truncate(left);
}

impl CommentRow {
    /// Makes a row without comments. Takes no memory.
    pub fn new(alloc: Global) -> CommentRow
        ensures { result ≡ [] }
    {
        CommentRow {
            comments: Vec::new(alloc),
            start: 0,
        }
    }

    /// Makes the row of these comments. Takes no memory.
    pub fn of(comments: Vec<Comment>) -> CommentRow
        ensures { result ≡ comments.items }
    {
        CommentRow { comments, start: 0 }
    }

    /// Returns the comments of the row, in order, and drops the removed ones. Takes no memory.
    pub fn into_list(self) -> Vec<Comment>
        ensures { result.items ≡ self }
    {
        let CommentRow {
            mut comments,
            start,
        } = self;
        drop_front(&mut comments, start);
        comments
    }

    /// The comments of the row, in order.
    pub fn as_slice(&self) -> &[Comment]
        ensures { result.now ≡ self.now }
    {
        &self.comments[self.start..]
    }

    /// Makes room for one more comment. The row is unchanged, also if memory runs out.
    pub fn reserve_one(&mut self) -> Result<(), Memory>
        ensures { self.new ≡ self.old }
    {
        self.comments.reserve(1)?;
        Ok(())
    }

    /// Appends a comment. If memory runs out, the row is unchanged and the comment is dropped.
    pub fn push(&mut self, comment: Comment) -> Result<(), Memory>
        ensures ok { OnOk result (self.new ≡ self.old ++ comment ∷ []) }
        ensures err { OnErr result (self.new ≡ self.old) }
    {
        self.comments.push(comment)?;
        Ok(())
    }

    /// Removes the comment at the index `at` of the row, by moving the comments before it.
    fn take_forward(&mut self, at: usize)
        requires { at < length self.old }
        ensures { self.new ≡ remove self.old at }
    {
        let place = self.start + at;
        self.comments[self.start..place + 1].rotate_right(1);
        self.start += 1;
    }

    /// Removes the comment at the index `at` of the row, by moving the comments after it.
    fn take_back(&mut self, at: usize)
        requires { at < length self.old }
        ensures { self.new ≡ remove self.old at }
    {
        let _gone = self.comments.remove(self.start + at);
    }

    /// Drops the entries before `start`, if they outnumber the comments of the row. The row is unchanged.
    fn settle(&mut self)
        ensures { self.new ≡ self.old }
    {
        if self.start > self.comments.len() - self.start {
            drop_front(&mut self.comments, self.start);
            self.start = 0;
        }
    }

    /// Removes the comment at the index `at` of the row, by moving the comments on the shorter side. Takes no memory.
    pub fn take_out(&mut self, at: usize)
        requires { at < length self.old }
        ensures { self.new ≡ remove self.old at }
    {
        let count = self.comments.len() - self.start;
        if at >= count / 2 {
            self.take_back(at);
        } else {
            self.take_forward(at);
        }
        self.settle();
    }

    /// Removes the comments of the group, in one pass over all comments. Takes no memory.
    pub fn remove_matching(&mut self, group: Group)
        ensures { self.new ≡ filter (λ c. not (goes group c)) self.old }
    {
        drop_front(&mut self.comments, self.start);
        self.start = 0;
        self.comments.retain(|c| !goes(c, group));
    }
}
