//! The words of the report for states, acknowledgements, comments and notices. Nothing here takes memory.
ghost use Rattle.std.specs.Prelude.{◌≡◌};
ghost use Rattle.mon_engine.specs.Words.{state_text, type_text, acknowledgement_text, kind_text, word_text, withheld_text};

use crate::notice::Word;
use crate::object::Acknowledgement;
use crate::withheld::Withheld;

/// The word of the report for the code of a host or, where `service` is true, of a service (State Types).
pub fn state_text(service: bool, code: u8) -> &'static [u8]
    ensures { result.now ≡ state_text service code }
{
    match (service, code) {
        (false, 0) => b"UP",
        (false, 1) => b"DOWN",
        (false, _) => b"UNREACHABLE",
        (true, 0) => b"OK",
        (true, 1) => b"WARNING",
        (true, 2) => b"CRITICAL",
        (true, _) => b"UNKNOWN",
    }
}

/// The word of the report for a hard or a soft state.
pub fn type_text(hard: bool) -> &'static [u8]
    ensures { result.now ≡ type_text hard }
{
    if hard { b"HARD" } else { b"SOFT" }
}

/// The digit of the report for an acknowledgement: 0 where there is none, 1 for normal, 2 for sticky.
///
/// See the example of [`put_line`].
pub fn acknowledgement_text(acknowledgement: Acknowledgement) -> &'static [u8]
    ensures { result.now ≡ acknowledgement_text acknowledgement }
{
    match acknowledgement {
        Acknowledgement::Unacknowledged => b"0",
        Acknowledgement::Normal => b"1",
        Acknowledgement::Sticky => b"2",
    }
}

/// The word of the report for a comment: `ack` for one of an acknowledgement, else `user`.
pub fn kind_text(ack: bool) -> &'static [u8]
    ensures { result.now ≡ kind_text ack }
{
    if ack { b"ack" } else { b"user" }
}

/// The word of the report for the event or command of a notice.
pub fn word_text(word: Word) -> &'static [u8]
    ensures { result.now ≡ word_text word }
{
    match word {
        Word::Problem => b"PROBLEM",
        Word::Recovery => b"RECOVERY",
        Word::Acknowledgement => b"ACKNOWLEDGEMENT",
        Word::DowntimeStart => b"DOWNTIMESTART",
        Word::DowntimeEnd => b"DOWNTIMEEND",
        Word::DowntimeCancelled => b"DOWNTIMECANCELLED",
        Word::Custom => b"CUSTOM",
    }
}

/// The word of the status for what holds a PROBLEM notice back (profile); empty for `None`.
///
/// See the example of [`put_line`].
pub fn withheld_text(withheld: Option<Withheld>) -> &'static [u8]
    ensures { result.now ≡ withheld_text withheld }
{
    match withheld {
        None => b"",
        Some(Withheld::Program) => b"program",
        Some(Withheld::Switch) => b"switch",
        Some(Withheld::Downtime) => b"downtime",
        Some(Withheld::Host) => b"host",
        Some(Withheld::Letter) => b"letter",
        Some(Withheld::Acknowledged) => b"acknowledged",
        Some(Withheld::Soft) => b"soft",
        Some(Withheld::NotBefore) => b"not_before",
        Some(Withheld::Interval) => b"interval",
        Some(Withheld::Delay) => b"delay",
        Some(Withheld::Settle) => b"settle",
        Some(Withheld::Nobody) => b"nobody",
    }
}
