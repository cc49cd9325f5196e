//! A cache that guesses, without a search, which object has the names of a look-up: a table with one slot for each
//! value of a 14-bit hash. Where several objects share a slot, it holds the last of them. The caller compares the names
//! of the guessed object, so that no contract mentions the table.
use crate::records::ObjectSpec;
use std::alloc::Global;

/// The number of slots of the table, 2^14: a choice, about four times the greatest number of objects. A slot is the
/// upper 14 bits of a 64-bit hash.
const PLACES: usize = 16_384;

/// The table: each slot has the index of an object, or 0 where no object has the slot. It is empty if memory ran out.
#[derive(Drop)]
pub struct Guesses {
    objects: Vec<u16>,
}

/// The 64-bit FNV-1a hash of `bytes`, continued from the hash `start`. The factor is the prime of FNV-1a.
fn mixed(start: u64, bytes: &[u8]) -> u64 {
    let mut number = start;
    for byte in bytes {
        number = (number ^ u64::from(*byte)).wrapping_mul(0x100_0000_01b3);
    }
    number
}

/// The slot of a host, for which `service` is empty, or of a service. The hash of the names begins with the offset
/// basis of FNV-1a.
fn place_of(host: &[u8], service: &[u8]) -> usize {
    let number = mixed(mixed(0xcbf2_9ce4_8422_2325, host), service);
    (number >> 50) as usize
}

impl Guesses {
    /// Makes the table of these objects. If memory runs out, returns an empty table, which guesses nothing.
    pub fn new(alloc: Global, objects: &[ObjectSpec]) -> Guesses {
        let mut guesses = match Vec::from_elem(alloc, 0u16, PLACES) {
            Ok(places) => places,
            Err(_) => Vec::new(alloc),
        };
        for (number, object) in (0u16..).zip(objects) {
            let service = match &object.service {
                Some(service) => service.as_bytes(),
                None => b"",
            };
            if let Some(guess) = guesses.get_mut(place_of(object.host.as_bytes(), service)) {
                *guess = number;
            }
        }
        Guesses { objects: guesses }
    }

    /// The index of an object that may have these names; `None` where the table is empty. `service` is empty for a
    /// host.
    pub fn at(&self, host: &[u8], service: &[u8]) -> Option<u16> {
        self.objects.get(place_of(host, service)).copied()
    }
}
