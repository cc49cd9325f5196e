//! The arguments of a command: the values that each kind allows, and how an argument is written into a line. A `put`
//! function only appends to the line.

ghost use Rattle.std.specs.Prelude.{◌≡◌, ◌≤◌, ◌++◌, ◌↔◌, OnOk, OnErr, IsTrue, length};
ghost use Rattle.std.specs.Fmt.{decimal};
ghost use Rattle.cmd_types.specs.Bytes.{Lacks, without_returns};
ghost use Rattle.cmd_types.specs.Growth.{Grows};
ghost use Rattle.cmd_types.specs.Spelling.{IsWellFormed, IsName, Fits, AllFit, text_of, texts};
ghost use Rattle.cmd_types.specs.Arguments.{view, shown};

use crate::bytes::{has_no_return, lacks};
use crate::command::Command;
use crate::limits::{GREATEST_NUMBER, LONGEST_LINE};
use crate::memory::Memory;
use crate::text::Text;
use itoa::Buffer;

/// The number of decimal digits of `n`, 1 to 20.
fn decimal_len(n: u64) -> usize
    ensures digits { result ≡ length (decimal n) }
    ensures few { result ≤ 20 }
{
    let mut buffer = Buffer::new();
    buffer.format(n).len()
}

/// Appends the decimal digits of `n` to `line`. If memory runs out, `line` is unchanged.
pub fn put_decimal(line: &mut Vec<u8>, n: u64) -> Result<(), Memory>
    ensures ok { OnOk result (line.new.items ≡ line.old.items ++ decimal n) }
    ensures err { OnErr result (line.new.items ≡ line.old.items) }
{
    let mut buffer = Buffer::new();
    line.extend_from_slice(buffer.format(n).as_bytes())
}

/// Whether the bytes may be a name: at least one byte, no semicolon, no line feed, and no carriage return at the end.
fn is_name(bytes: &[u8]) -> bool
    ensures { IsTrue result ↔ IsName bytes.now }
{
    !bytes.is_empty() && lacks(b';', bytes) && lacks(b'\n', bytes) && has_no_return(bytes)
}

/// Whether the bytes may be an author: no semicolon and no line feed.
fn is_author(bytes: &[u8]) -> bool
    ensures { IsTrue result ↔ (Lacks 59 bytes.now × Lacks 10 bytes.now) }
{
    lacks(b';', bytes) && lacks(b'\n', bytes)
}

/// Whether the bytes may be a text argument (`Rest`): no line feed, and no carriage return at the end.
fn is_rest(bytes: &[u8]) -> bool
    ensures { IsTrue result ↔ (Lacks 10 bytes.now × (without_returns bytes.now ≡ bytes.now)) }
{
    lacks(b'\n', bytes) && has_no_return(bytes)
}

/// What a name in a command denotes.
#[derive(Clone, Copy)]
pub enum NameRole {
    Host,
    Service,
    Contact,
}

/// An argument of a command: its kind and its value. A `Rest` is free text, and always the last argument. A `Code`
/// carries the greatest code that its command allows.
#[derive(Clone, Copy)]
pub enum Argument<'a> {
    Name(NameRole, &'a Text),
    Author(&'a Text),
    Rest(&'a Text),
    Flag(bool),
    Number(u64),
    Code { code: u8, greatest: u8 },
}

/// The greatest number of arguments of a command: `SCHEDULE_SVC_DOWNTIME` has 9 (External Commands).
const MOST_ARGUMENTS: usize = 9;

/// The arguments of a command in order, followed by `None` at all further indices.
pub type Arguments<'a> = [Option<Argument<'a>>; MOST_ARGUMENTS];

impl Argument<'_> {
    /// Whether the argument's kind allows its value: a name, an author or a text argument without forbidden bytes, a
    /// number of at most `GREATEST_NUMBER`, a code of at most `greatest`, and any flag.
    fn fits(&self) -> bool
        ensures { IsTrue result ↔ Fits (view self.now) }
    {
        match self {
            Argument::Name(_, text) => is_name(text.as_bytes()),
            Argument::Author(text) => is_author(text.as_bytes()),
            Argument::Rest(text) => is_rest(text.as_bytes()),
            Argument::Flag(_) => true,
            Argument::Number(n) => *n <= GREATEST_NUMBER,
            Argument::Code { code, greatest } => code <= greatest,
        }
    }

    /// The number of bytes that [`put`](Argument::put) appends for this argument.
    fn text_len(&self) -> usize
        ensures { result ≡ length (text_of (view self.now)) }
    {
        match self {
            Argument::Name(_, text) | Argument::Author(text) | Argument::Rest(text) => {
                text.as_bytes().len()
            }
            Argument::Flag(_) => 1,
            Argument::Number(n) => decimal_len(*n),
            Argument::Code { code, .. } => decimal_len(u64::from(*code)),
        }
    }

    /// Appends the argument to `line` as the canonical line spells it, without the semicolon before it. If memory runs
    /// out, `line` is unchanged.
    fn put(&self, line: &mut Vec<u8>) -> Result<(), Memory>
        ensures ok { OnOk result (line.new.items ≡ line.old.items ++ text_of (view self.now)) }
        ensures err { OnErr result (line.new.items ≡ line.old.items) }
    {
        match self {
            Argument::Name(_, text) | Argument::Author(text) | Argument::Rest(text) => {
                line.extend_from_slice(text.as_bytes())
            }
            Argument::Flag(on) => line.extend_from_slice(if *on { b"1" } else { b"0" }),
            Argument::Number(n) => put_decimal(line, *n),
            Argument::Code { code, .. } => put_decimal(line, u64::from(*code)),
        }
    }
}

/// Appends each argument in order, with a semicolon before it. If memory runs out, a prefix of these bytes is appended.
pub fn put_arguments(line: &mut Vec<u8>, arguments: &[Option<Argument<'_>>]) -> Result<(), Memory>
    ensures ok { OnOk result (line.new.items ≡ line.old.items ++ texts (shown arguments.now)) }
    ensures grown { Grows line.old.items line.new.items }
{
    for argument in arguments {
        if let Some(argument) = argument {
            line.push(b';')?;
            argument.put(line)?;
        }
    }
    Ok(())
}

/// Whether each argument's kind allows its value, and the arguments, each with the semicolon before it, have at most
/// `room` bytes together.
fn all_fit(arguments: &[Option<Argument<'_>>], mut room: usize) -> bool
    ensures { IsTrue result ↔ (AllFit (shown arguments.now) × (length (texts (shown arguments.now)) ≤ room)) }
{
    for argument in arguments {
        if let Some(argument) = argument {
            let len = argument.text_len();
            if len >= room || !argument.fits() {
                return false;
            }
            room -= len + 1;
        }
    }
    true
}

/// Whether the command with its time in seconds is well formed: the time and each argument are in range, and the
/// canonical line has at most `LONGEST_LINE` bytes.
pub fn fits(time: u64, command: &Command) -> bool
    ensures { IsTrue result ↔ IsWellFormed (record { time = time; command = command.now }) }
{
    if time > GREATEST_NUMBER {
        return false;
    }
    let head = 3 + decimal_len(time) + command.name().text().len();
    all_fit(&command.arguments(), LONGEST_LINE - head)
}
