//! The letters of options: the letter of a state, and whether options have a letter. No call takes memory.
ghost use Rattle.std.specs.Prelude.{◌≡◌};
ghost use Rattle.mon_notify.specs.Letters.{letter_of, has_letter};

use mon_inventory::Letters;

/// The state or event that a notice is about, as the options of objects, contacts and escalations name it
/// (Notifications).
///
/// See the example of [`letter_of`].
#[derive(Clone, Copy, Debug, PartialEq, Eq)]
pub enum Letter {
    /// A service is WARNING.
    W,
    /// A service is UNKNOWN or a host is UNREACHABLE.
    U,
    /// A service is CRITICAL.
    C,
    /// A host is DOWN.
    D,
    /// A recovery.
    R,
    /// A downtime.
    S,
}

/// The letter of a state: of a service where `service` is true, else of a host (Notifications). A service has code 0
/// OK, 1 WARNING, 2 CRITICAL or 3 UNKNOWN; a host has code 0 UP, 1 DOWN or 2 UNREACHABLE. Code 0 gives `R`, the letter
/// of a recovery. A greater code than these gives `U`.
///
/// ```
/// assert_eq!(rt; letter_of(true, 2), Letter::C);
/// assert_eq!(rt; letter_of(false, 1), Letter::D);
/// ```
pub fn letter_of(service: bool, code: u8) -> Letter
    ensures { result ≡ letter_of service code }
{
    match (service, code) {
        (_, 0) => Letter::R,
        (true, 1) => Letter::W,
        (true, 2) => Letter::C,
        (false, 1) => Letter::D,
        _ => Letter::U,
    }
}

/// Whether these options of an object, a contact or an escalation have the letter.
///
/// ```
/// // FIVE_LINES: two contacts, the host web, its service http and an escalation of http to bob
/// let inventory = Inventory::parse(alloc, FIVE_LINES)?;
/// let [web, ..] = inventory.objects() else {
///     return Err(Fail::new("some objects"));
/// };
/// assert!(rt; has_letter(web.letters, Letter::D));
/// assert!(rt; !has_letter(web.letters, Letter::C));
/// ```
pub fn has_letter(letters: Letters, letter: Letter) -> bool
    ensures { result ≡ has_letter letters letter }
{
    match letter {
        Letter::W => letters.w,
        Letter::U => letters.u,
        Letter::C => letters.c,
        Letter::D => letters.d,
        Letter::R => letters.r,
        Letter::S => letters.s,
    }
}
