//! One field of a line: whether it is a number or an option's value, and the value itself. Nothing is changed and no
//! memory is taken.
ghost use Rattle.std.specs.Prelude.{◌≡◌, true};
ghost use Rattle.cmd_types.specs.Digits.{is_number};
ghost use Rattle.mon_inventory.specs.Line.{value_of, is_positive, is_on, is_switch};

use cmd_types::number_of;

/// Whether a field is a number: decimal digits whose value is in the range of a command's numbers.
#[tactic(auto, unfolding(cmd_types::specs::Digits::number_of))]
pub fn is_number(text: &[u8]) -> bool
    ensures { result ≡ is_number text.now }
{
    number_of(text).is_some()
}

/// Whether a field is a number of at least 1, as a `max_check_attempts` and a first notification delay have to be.
#[tactic(auto, unfolding(cmd_types::specs::Digits::number_of))]
pub fn is_positive(text: &[u8]) -> bool
    ensures { result ≡ is_positive text.now }
{
    match number_of(text) {
        Some(number) => number >= 1,
        None => false,
    }
}

/// The value of a field. Requires that [`is_number`] holds of the field.
#[tactic(auto, unfolding(cmd_types::specs::Digits::number_of))]
pub fn value_of(text: &[u8]) -> u64
    requires { is_number text.now ≡ true }
    ensures { result ≡ value_of text.now }
{
    number_of(text).unwrap_or(0)
}

/// Whether the value of an option is `1`, which turns the option on.
pub fn is_on(value: &[u8]) -> bool
    ensures { result ≡ is_on value.now }
{
    value == b"1".as_slice()
}

/// Whether a field may be the value of an option: whether it is `0` or `1`.
pub fn is_switch(value: &[u8]) -> bool
    ensures { result ≡ is_switch value.now }
{
    value == b"0".as_slice() || is_on(value)
}
