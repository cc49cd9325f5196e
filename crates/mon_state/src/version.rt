//! The versions of the text of a state, and the heading `state;N` that names the version by its number N.
ghost use Rattle.std.specs.Prelude.{◌≡◌};
ghost use Rattle.mon_state.specs.Version.{version_number, version_of};
ghost use Rattle.mon_state.specs.Reading.{version_at};
ghost use Rattle.mon_state.specs.Cursors.{GivesAlways};

use crate::cursor::rest_after;
use crate::fault::StateCause;
use crate::number::number_of;
use cmd_types::cut;

/// The version of the text of a state (profile).
///
/// See the example of [`StateFault`].
#[derive(Clone, Copy)]
pub enum StateVersion {
    /// Without the moments of objects, and without who is owed the end of a problem;
    /// [`write_state`](crate::write_state) never writes this version.
    One,
    /// With the moments of objects, and, where the inventory has the option `recover_the_told`, with who is owed the
    /// end of each object's problem; [`write_state`](crate::write_state) writes this version.
    Two,
}

/// All versions.
const VERSIONS: [StateVersion; 2] = [StateVersion::One, StateVersion::Two];

impl StateVersion {
    /// The number of this version in the heading.
    pub fn number(self) -> u64
        ensures { result ≡ version_number self }
    {
        match self {
            StateVersion::One => 1,
            StateVersion::Two => 2,
        }
    }

    /// The version with this number; `None` where no version has the number. Takes no memory.
    #[tactic(auto, unfolding(crate::specs::Version::version_of))]
    pub fn of_number(number: u64) -> Option<StateVersion>
        ensures { result ≡ version_of number }
    {
        VERSIONS
            .iter()
            .copied()
            .find(|version| version.number() == number)
    }
}

/// Reads the heading of a text, and returns the version and the text after the heading. Returns `UnknownVersion` where
/// no version has the number in the heading, and `BadLine` where the text begins otherwise. Takes no memory.
#[tactic(auto, unfolding(crate::specs::Reading::version_at, crate::specs::Reading::expect_at, crate::specs::Reading::number_at, crate::specs::Reading::field_at))]
pub fn read_heading(text: &[u8]) -> Result<(StateVersion, &[u8]), StateCause>
    ensures { GivesAlways (λ h. (h.0, h.1.now)) result (version_at text.now) }
{
    let Some(named) = rest_after(text, b"state;") else {
        return Err(StateCause::BadLine);
    };
    let (field, behind) = cut(b'\n', named);
    let Some(rest) = behind else {
        return Err(StateCause::BadLine);
    };
    let Some(number) = number_of(field) else {
        return Err(StateCause::BadLine);
    };
    match StateVersion::of_number(number) {
        None => Err(StateCause::UnknownVersion),
        Some(version) => Ok((version, rest)),
    }
}
