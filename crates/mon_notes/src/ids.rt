//! Lists of comments' ids, so that the comments of a group are found without a walk over all. A list has the id of each
//! comment of the group; it may also have ids of removed comments, until the list is full or cleared.
ghost use Rattle.std.specs.Prelude.{◌≡◌, ◌==◌, ◌<◌, [], ℕ, true, length, get_or, cond, is_some, OnOk};
ghost use Rattle.std.specs.List.{filter};
ghost use Rattle.mon_notes.specs.Comments.{AreAscending, comment_of};
ghost use Rattle.mon_notes.specs.Listed.{has, KeepsThere};

use crate::comment::Comment;
use crate::search::is_there;
use cmd_types::Memory;
use std::alloc::Global;
use std::marker::Model;

/// The ids of comments, in order of their entry; ids of removed comments may be among them.
#[derive(Drop)]
pub struct IdList {
    ids: Vec<u64>,
}

impl Model for IdList {
    ghost use Rattle.std.specs.Prelude.{List, ℕ};

    ghost Value = { List ℕ };

    ghost view = { λ l. l.ids.items };
}

impl IdList {
    /// Makes an empty list. Takes no memory.
    pub fn new(alloc: Global) -> IdList
        ensures { result ≡ [] }
    {
        IdList {
            ids: Vec::new(alloc),
        }
    }

    /// All ids of the list, ids of removed comments included.
    pub fn as_slice(&self) -> &[u64]
        ensures { result.now ≡ self.now }
    {
        &self.ids
    }

    /// Drops the ids whose comments are not among `there`. Takes no memory.
    fn keep_there(&mut self, there: &[Comment])
        requires { AreAscending 0 there.now }
        ensures { self.new ≡ filter (λ id. is_some (comment_of there.now id)) self.old }
    {
        self.ids.retain(|id| is_there(there, *id));
    }

    /// Makes room for one more id. Where the list is full, first drops the ids whose comments are not among `there`. No
    /// id of a comment of `there` is dropped, also if memory runs out.
    fn make_room(&mut self, there: &[Comment]) -> Result<(), Memory>
        requires { AreAscending 0 there.now }
        ensures { KeepsThere there.now self.old self.new }
    {
        if self.ids.len() < self.ids.capacity() {
            return Ok(());
        }
        self.keep_there(there);
        self.ids.reserve(self.ids.len() + 1)
    }

    /// Appends an id. If memory runs out, the id is not appended. No id of a comment of `there` is dropped either way.
    pub fn push(&mut self, id: u64, there: &[Comment]) -> Result<(), Memory>
        requires { AreAscending 0 there.now }
        ensures ok { OnOk result (has self.new id ≡ true) }
        ensures kept { KeepsThere there.now self.old self.new }
    {
        self.make_room(there)?;
        self.ids.push(id)?;
        Ok(())
    }

    /// Drops all ids. Takes no memory.
    pub fn clear(&mut self)
        ensures { self.new ≡ [] }
    {
        self.ids.clear();
    }
}

/// A list of ids for each object, at its index, up to the greatest index with which `add` was called.
#[derive(Drop)]
pub struct Ids {
    lists: Vec<IdList>,
}

impl Model for Ids {
    ghost use Rattle.std.specs.Prelude.{List, ℕ};

    ghost Value = { List (List ℕ) };

    ghost view = { λ i. i.lists.items };
}

impl Ids {
    /// Makes the lists for no comments: no object has a list. Takes no memory.
    pub fn new(alloc: Global) -> Ids
        ensures { result ≡ [] }
    {
        Ids {
            lists: Vec::new(alloc),
        }
    }

    /// The ids listed for an object, ids of removed comments included; empty where the object has no list.
    pub fn of(&self, object: u16) -> &[u64]
        ensures { result.now ≡ get_or self.now object [] }
    {
        match self.lists.get(object as usize) {
            Some(list) => list.as_slice(),
            None => &[],
        }
    }

    /// Makes an empty list for `object` and for each object before it that has no list. No id changes, also if memory
    /// runs out.
    fn make_list(&mut self, alloc: Global, object: u16) -> Result<(), Memory>
        ensures same { (o : ℕ) → get_or self.new o [] ≡ get_or self.old o [] }
        ensures ok { OnOk result (object < length self.new) }
    {
        for _ in self.lists.len()..object as usize + 1 {
            self.lists.push(IdList::new(alloc))?;
        }
        Ok(())
    }

    /// Appends an id to the list of an object. If memory runs out, the id is not appended. No id of a comment of `there`
    /// is dropped either way.
    pub fn add(
        &mut self,
        alloc: Global,
        object: u16,
        id: u64,
        there: &[Comment],
    ) -> Result<(), Memory>
        requires { AreAscending 0 there.now }
        ensures kept { (o : ℕ) → KeepsThere there.now (get_or self.old o []) (get_or self.new o []) }
        ensures ok { OnOk result (has (get_or self.new object []) id ≡ true) }
    {
        self.make_list(alloc, object)?;
        self.lists[object as usize].push(id, there)
    }

    /// Drops all ids of an object. Takes no memory.
    pub fn clear(&mut self, object: u16)
        ensures { (o : ℕ) → get_or self.new o [] ≡ cond (o == object) [] (get_or self.old o []) }
    {
        if let Some(list) = self.lists.get_mut(object as usize) {
            list.clear();
        }
    }
}
