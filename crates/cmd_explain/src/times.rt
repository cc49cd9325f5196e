//! Reads the line of the status on the moments of an object: what withholds the notice of its problem. A law in `laws`
//! says that each word for it is found, so none can be missing here.
ghost use Rattle.std.specs.Prelude.{◌≡◌};
ghost use Rattle.std.specs.Option.{option_copied};
ghost use Rattle.cmd_explain.specs.Times.{is_moment, behind_moment, withheld_of, times_of};

use cmd_types::cut;
use mon_engine::{Withheld, withheld_text};

/// All that can withhold a notice, and `None` for nothing.
const WITHHELD: [Option<Withheld>; 13] = [
    None,
    Some(Withheld::Program),
    Some(Withheld::Switch),
    Some(Withheld::Downtime),
    Some(Withheld::Host),
    Some(Withheld::Letter),
    Some(Withheld::Acknowledged),
    Some(Withheld::Soft),
    Some(Withheld::NotBefore),
    Some(Withheld::Interval),
    Some(Withheld::Delay),
    Some(Withheld::Settle),
    Some(Withheld::Nobody),
];

/// Whether the text is a moment of the status: digits alone, or no bytes.
fn is_moment(text: &[u8]) -> bool
    ensures { result ≡ is_moment text.now }
{
    text.iter().all(|byte| byte.is_ascii_digit())
}

/// The text after a moment and its semicolon; `None` where the text does not begin with them.
fn behind_moment(text: &[u8]) -> Option<&[u8]>
    ensures { option_copied result ≡ behind_moment text.now }
{
    let (moment, rest) = cut(b';', text);
    if is_moment(moment) { rest } else { None }
}

/// What withholds a notice, by its word in the status; `None` where no value has this word.
#[tactic(auto, unfolding(crate::specs::Times::withheld_of))]
fn withheld_of(word: &[u8]) -> Option<Option<Withheld>>
    ensures { result ≡ withheld_of word.now }
{
    WITHHELD
        .iter()
        .copied()
        .find(|withheld| withheld_text(*withheld) == word)
}

/// What withholds a notice by the line `times;CHECKED;CHANGED;SINCE;LAST;WITHHELD`; `None` for any other line.
pub fn times_of(line: &[u8]) -> Option<Option<Withheld>>
    ensures { result ≡ times_of line.now }
{
    let checked = line.strip_prefix(b"times;".as_slice())?;
    let changed = behind_moment(checked)?;
    let since = behind_moment(changed)?;
    let last = behind_moment(since)?;
    let word = behind_moment(last)?;
    withheld_of(word)
}
