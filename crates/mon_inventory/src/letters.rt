//! Option letters, and comma lists of them: which letters a list names, and whether an item of a list is not allowed.
//! Nothing is changed and no memory is taken.
ghost use Rattle.std.specs.Prelude.{◌≡◌, [], ◌∷◌};
ghost use Rattle.mon_inventory.specs.Line.{has_item, has_other_item, letters};
ghost use Rattle.mon_inventory.specs.Seen.{named_too, options_of};

use crate::items::first_item;
use cmd_types::cut;

/// The notification options of an object, a contact or an escalation: for which states and events notices go out
/// (Notifications; profile). `w` is WARNING, `u` UNKNOWN or UNREACHABLE, `c` CRITICAL, `d` DOWN, `r` a recovery, and
/// `s` a downtime.
///
/// See the example of [`ContactSpec`].
#[derive(Clone, Copy)]
pub struct Letters {
    pub w: bool,
    pub u: bool,
    pub c: bool,
    pub d: bool,
    pub r: bool,
    pub s: bool,
}

/// No letter.
const NO_LETTERS: Letters = Letters {
    w: false,
    u: false,
    c: false,
    d: false,
    r: false,
    s: false,
};

/// `letters` with the letter of `item` added; unchanged where `item` is no letter.
fn with_item(letters: Letters, item: &[u8]) -> Letters
    ensures { result ≡ named_too letters (item.now ∷ []) }
{
    Letters {
        w: letters.w | (b"w".as_slice() == item),
        u: letters.u | (b"u".as_slice() == item),
        c: letters.c | (b"c".as_slice() == item),
        d: letters.d | (b"d".as_slice() == item),
        r: letters.r | (b"r".as_slice() == item),
        s: letters.s | (b"s".as_slice() == item),
    }
}

/// The letters that a comma list names. A repeated letter counts once; an item that is no letter is skipped.
pub fn letters_named(text: &[u8]) -> Letters
    ensures { result ≡ letters text.now }
{
    let mut letters = NO_LETTERS;
    let mut rest = first_item(text);
    'items: while let Some(items) = rest {
        let (item, after) = cut(b',', items);
        letters = with_item(letters, item);
        rest = after;
    }
    letters
}

/// Whose options a comma list has; this decides which letters are allowed.
#[derive(Clone, Copy)]
pub enum OptionsOf {
    Host,
    Service,
    EscalatedHost,
    EscalatedService,
}

impl OptionsOf {
    /// Whether `item` is a letter that is allowed in these options.
    #[tactic(auto, unfolding(crate::specs::Texts::items))]
    fn has(self, item: &[u8]) -> bool
        ensures { result ≡ has_item item.now (options_of self) }
    {
        match self {
            OptionsOf::Host => matches!(item, b"d" | b"u" | b"r" | b"s"),
            OptionsOf::Service => matches!(item, b"w" | b"u" | b"c" | b"r" | b"s"),
            OptionsOf::EscalatedHost => matches!(item, b"d" | b"u" | b"r"),
            OptionsOf::EscalatedService => matches!(item, b"w" | b"u" | b"c" | b"r"),
        }
    }
}

/// Whether an item of a comma list is anything but a letter that is allowed.
pub fn has_other_item(allowed: OptionsOf, text: &[u8]) -> bool
    ensures { result ≡ has_other_item (options_of allowed) text.now }
{
    let mut rest = first_item(text);
    'items: while let Some(items) = rest {
        let (item, after) = cut(b',', items);
        if !allowed.has(item) {
            return true;
        }
        rest = after;
    }
    false
}
