//! Line numbers for faults: the line of a byte, the first byte at which two texts differ, and the line of a part of a
//! state.
ghost use Rattle.std.specs.Prelude.{◌≡◌, ◌<◌, ◌^◌};
ghost use Rattle.mon_state.specs.Faults.{line_at, difference, line_of_part};

use mon_engine::Misfit;

/// The number, from 1, of the line with the byte at the index `place`.
pub fn line_at(text: &[u8], place: usize) -> u64
    ensures { result ≡ line_at text.now place }
{
    let before = text.get(..place).unwrap_or(text);
    let mut line = 1u64;
    for byte in before {
        if *byte == b'\n' {
            line += 1;
        }
    }
    line
}

/// The first index at which two texts differ; the length of the shorter text where it is a prefix of the other.
pub fn difference(text: &[u8], other: &[u8]) -> usize
    ensures { result ≡ difference text.now other.now }
{
    let shorter = text.len().min(other.len());
    for place in 0..shorter {
        if text[place] != other[place] {
            return place;
        }
    }
    shorter
}

/// The number of lines before the objects: heading, clock, entries and program (`specs/State.antt`).
const HEAD: u64 = 4;

/// How many objects, contacts, comments and downtimes a state has.
#[derive(Clone, Copy)]
pub struct Counts {
    pub objects: u16,
    pub contacts: u16,
    pub comments: usize,
    pub downtimes: usize,
}

impl Counts {
    /// The number, from 1, of the line with this part of such a state. Requires that this number fits into 64 bits, as
    /// it does for the first misfit of a state.
    pub fn line_of(self, part: Misfit) -> u64
        requires { line_of_part self.objects self.contacts self.comments self.downtimes part < 2 ^ 64 }
        ensures { result ≡ line_of_part self.objects self.contacts self.comments self.downtimes part }
    {
        let contacts = HEAD + 1 + u64::from(self.objects);
        let comments = contacts + u64::from(self.contacts);
        match part {
            Misfit::Clock => 2,
            Misfit::Before => 3,
            Misfit::Object(place) => HEAD + 1 + place as u64,
            Misfit::Contacts => contacts,
            Misfit::LastComment => comments,
            Misfit::Comment(place) => comments + 1 + place as u64,
            Misfit::Downtimes => comments + 1 + self.comments as u64,
            Misfit::Downtime(place) => comments + 2 + self.comments as u64 + place as u64,
            Misfit::Owed(place) => {
                comments + 2 + self.comments as u64 + self.downtimes as u64 + place as u64
            }
        }
    }
}
