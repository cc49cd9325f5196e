//! The lists of ids of each group of comments.
ghost use Rattle.std.specs.Prelude.{◌≡◌, ◌⊎◌, [], true, IfOk, OnOk};
ghost use Rattle.mon_notes.specs.declared.comment.Group.{Group};
ghost use Rattle.mon_notes.specs.Comments.{AreAscending};
ghost use Rattle.mon_notes.specs.Listed.{goes, has, ids_of, AreListed, IsTransient, KeepsThere};

use crate::comment::{Comment, Group};
use crate::ids::{IdList, Ids};
use cmd_types::Memory;
use std::alloc::Global;
use std::marker::Model;

/// The ids of the comments of each group.
#[derive(Drop)]
pub struct Lists {
    objects: Ids,
    acknowledged: Ids,
    transient: IdList,
}

impl Model for Lists {
    ghost use Rattle.mon_notes.specs.Listed.{Listing};

    ghost Value = { Listing };

    ghost view = { λ l. record { objects = l.objects; acknowledged = l.acknowledged; transient = l.transient } };
}

impl Lists {
    /// Makes the lists for no comments. Takes no memory.
    pub fn new(alloc: Global) -> Lists
        ensures { (g : Group) → ids_of result g ≡ [] }
    {
        Lists {
            objects: Ids::new(alloc),
            acknowledged: Ids::new(alloc),
            transient: IdList::new(alloc),
        }
    }

    /// The ids listed for a group, ids of removed comments included.
    pub fn of(&self, group: Group) -> &[u64]
        ensures { result.now ≡ ids_of self.now group }
    {
        match group {
            Group::Object(object) => self.objects.of(object),
            Group::Acknowledged(object) => self.acknowledged.of(object),
            Group::Transient => self.transient.as_slice(),
        }
    }

    /// Lists a comment for the groups of comments that are not persistent, if it is not.
    fn add_transient(
        &mut self,
        alloc: Global,
        comment: &Comment,
        there: &[Comment],
    ) -> Result<(), Memory>
        requires { AreAscending 0 there.now }
        ensures kept { (g : Group) → KeepsThere there.now (ids_of self.old g) (ids_of self.new g) }
        ensures objects { self.new.objects ≡ self.old.objects }
        ensures ok { OnOk result ((g : Group) → IsTransient g → goes g comment.now ≡ true → has (ids_of self.new g) comment.now.id ≡ true) }
    {
        if comment.persistent {
            return Ok(());
        }
        self.transient.push(comment.id, there)?;
        if comment.ack {
            return self
                .acknowledged
                .add(alloc, comment.object, comment.id, there);
        }
        Ok(())
    }

    /// Lists a comment for each of its groups. If memory runs out, it may be listed for some of them. Each comment of
    /// `there` remains listed either way.
    pub fn add(&mut self, alloc: Global, comment: &Comment, there: &[Comment]) -> Result<(), Memory>
        requires { AreAscending 0 there.now }
        ensures kept { (g : Group) → KeepsThere there.now (ids_of self.old g) (ids_of self.new g) }
        ensures ok { OnOk result ((g : Group) → goes g comment.now ≡ true → has (ids_of self.new g) comment.now.id ≡ true) }
    {
        self.objects.add(alloc, comment.object, comment.id, there)?;
        self.add_transient(alloc, comment, there)
    }

    /// Drops all ids of a group, whose comments were removed. Takes no memory.
    pub fn clear(&mut self, group: Group)
        ensures { (g : Group) → (ids_of self.new g ≡ ids_of self.old g) ⊎ (g ≡ group) }
    {
        match group {
            Group::Object(object) => self.objects.clear(object),
            Group::Acknowledged(object) => self.acknowledged.clear(object),
            Group::Transient => self.transient.clear(),
        }
    }
}

/// Makes the lists of these comments. If memory runs out, the lists are dropped.
pub fn lists_of(alloc: Global, comments: &[Comment]) -> Result<Lists, Memory>
    requires { AreAscending 0 comments.now }
    ensures { IfOk result (λ lists. AreListed lists comments.now) }
{
    let mut lists = Lists::new(alloc);
    for place in 0..comments.len() {
        lists.add(alloc, &comments[place], &comments[..place])?;
    }
    Ok(lists)
}
