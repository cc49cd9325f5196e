//! A list of the numbers of objects, contacts or escalations, which only grows.

ghost use Rattle.std.specs.Prelude.{◌≡◌, [], ◌∷◌, ◌++◌, OnOk, OnErr, List, ℕ};

use crate::memory::Memory;
use std::alloc::Global;
use std::marker::Model;

/// A list of the numbers of objects, contacts or escalations, each counted from 0.
///
/// ```
/// let mut numbers = Numbers::new(Vec::new(alloc));
/// numbers.push(alloc, 7)?;
/// numbers.push(alloc, 0)?;
/// assert_eq!(rt; numbers.as_slice(), [7, 0].as_slice());
/// ```
#[derive(Debug, Drop)]
pub struct Numbers {
    numbers: Vec<u16>,
}

impl Model for Numbers {
    ghost Value = { List ℕ };

    ghost view = { λ n. n.numbers.items };
}

impl Numbers {
    /// The list of `numbers`, in order, which are moved and not copied. Takes no memory.
    pub fn new(numbers: Vec<u16>) -> Numbers
        ensures { result ≡ numbers.items }
    {
        Numbers { numbers }
    }

    /// Appends the number `index`. If memory runs out, the list is unchanged.
    pub fn push(&mut self, _alloc: Global, index: u16) -> Result<(), Memory>
        ensures ok { OnOk result (self.new ≡ self.old ++ index ∷ []) }
        ensures err { OnErr result (self.new ≡ self.old) }
    {
        self.numbers.push(index)?;
        Ok(())
    }

    /// The numbers in order.
    pub fn as_slice(&self) -> &[u16]
        ensures { result.now ≡ self.now }
    {
        &self.numbers
    }
}
