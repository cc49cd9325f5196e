//! A set of contacts of an inventory, as one mark for each contact. With it the contacts of many escalations are found
//! by one pass over all contacts, each once.
ghost use Rattle.std.specs.Prelude.{◌≡◌, ℕ, ◌<◌, ◌||◌, false, length, IfOk};
ghost use Rattle.mon_notify.specs.Escalations.{has_contact};
ghost use Rattle.mon_notify.specs.Places.{is_named};

use cmd_types::Memory;
use std::alloc::Global;

/// A mark for each contact, in order of their indices: whether the contact is in the set (is named).
#[derive(Drop)]
pub struct Named {
    marks: Vec<bool>,
}

impl Named {
    /// Makes the marks of `count` contacts, all unset. The only error is that memory ran out.
    pub fn none(alloc: Global, count: u16) -> Result<Named, Memory>
        ensures count { IfOk result (λ n. length n.marks.items ≡ count) }
        ensures none { IfOk result (λ n. (c : ℕ) → is_named n c ≡ false) }
    {
        let mut marks = Vec::new(alloc);
        marks.resize(count as usize, false)?;
        Ok(Named { marks })
    }

    /// Whether a contact is marked; false where it has no mark.
    pub fn has(&self, contact: u16) -> bool
        ensures { result ≡ is_named self.now contact }
    {
        self.marks.get(contact as usize).copied().unwrap_or(false)
    }

    /// Marks these contacts; no mark is removed. A contact whose index has no mark is skipped. Takes no memory.
    pub fn add(&mut self, contacts: &[u16])
        ensures count { length self.new.marks.items ≡ length self.old.marks.items }
        ensures named { (c : ℕ) → c < length self.old.marks.items → is_named self.new c ≡ (is_named self.old c || has_contact c contacts.now) }
    {
        for contact in contacts {
            if (*contact as usize) < self.marks.len() {
                self.marks[*contact as usize] = true;
            }
        }
    }
}
