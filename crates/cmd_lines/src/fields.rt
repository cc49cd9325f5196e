//! Reads the arguments of a line one after another. Each call takes one argument off the unread bytes, which are
//! borrowed from the line, so no call takes memory. A `LineFault` has the number of its argument, from 1.

ghost use Rattle.std.specs.Prelude.{◌≡◌};
ghost use Rattle.cmd_lines.specs.Reading.{Gives, opened, field, name_at, rest_at, number_at, flag_at, code_at};

use crate::fault::LineFault;
use crate::split::split_before;
use cmd_types::{number_of, without_returns};

/// The unread arguments of a line. After a fault no further argument is read.
#[derive(Drop)]
pub struct Fields<'a> {
    rest: &'a [u8],
}

impl<'a> Fields<'a> {
    /// Begins to read arguments from `rest`: the bytes of a line after the name of its command.
    pub fn new(rest: &'a [u8]) -> Fields<'a>
        ensures { result.rest.now ≡ rest.now }
    {
        Fields { rest }
    }

    /// The bytes after the semicolon that opens argument `n`; `Missing` where there is no semicolon.
    #[tactic(auto, unfolding(crate::specs::Reading::opened))]
    fn opened(&self, n: u8) -> Result<&'a [u8], LineFault>
        ensures { Gives (λ x. x.now) result (opened n self.now.rest.now) }
    {
        match self.rest {
            [b';', text @ ..] => Ok(text),
            _ => Err(LineFault::Missing(n)),
        }
    }

    /// Takes the bytes of argument `n`, up to the next semicolon; there may be none. Returns `Missing`, and takes
    /// nothing, where no semicolon opens the argument.
    #[tactic(auto, unfolding(crate::specs::Reading::field))]
    pub fn field(&mut self, n: u8) -> Result<&'a [u8], LineFault>
        ensures { Gives (λ x. (x.now, self.new.rest.now)) result (field n self.old.rest.now) }
    {
        let text = self.opened(n)?;
        let (front, back) = split_before(b';', text);
        self.rest = back;
        Ok(front)
    }

    /// Takes argument `n` as a name, without the carriage returns at its end. The error is `Missing` or `EmptyName`.
    #[tactic(auto, unfolding(crate::specs::Reading::name_at))]
    pub fn name(&mut self, n: u8) -> Result<&'a [u8], LineFault>
        ensures { Gives (λ x. (x.now, self.new.rest.now)) result (name_at n self.old.rest.now) }
    {
        let name = without_returns(self.field(n)?);
        if name.is_empty() {
            return Err(LineFault::EmptyName(n));
        }
        Ok(name)
    }

    /// Takes all unread bytes as argument `n`, semicolons included. Returns `Missing`, and takes nothing, where no
    /// semicolon opens the argument.
    #[tactic(auto, unfolding(crate::specs::Reading::rest_at))]
    pub fn rest(&mut self, n: u8) -> Result<&'a [u8], LineFault>
        ensures { Gives (λ x. (x.now, self.new.rest.now)) result (rest_at n self.old.rest.now) }
    {
        let text = self.opened(n)?;
        self.rest = &[];
        Ok(text)
    }

    /// Takes argument `n` as a number: a time in seconds, an id or a count. The error is `Missing` or `BadNumber`.
    #[tactic(auto, unfolding(crate::specs::Reading::number_at))]
    pub fn number(&mut self, n: u8) -> Result<u64, LineFault>
        ensures { Gives (λ x. (x, self.new.rest.now)) result (number_at n self.old.rest.now) }
    {
        let text = self.field(n)?;
        number_of(text).ok_or(LineFault::BadNumber(n))
    }

    /// Takes argument `n` as a flag: a number, off for 0 and on for any other. The error is `Missing` or `BadNumber`.
    #[tactic(auto, unfolding(crate::specs::Reading::flag_at))]
    pub fn flag(&mut self, n: u8) -> Result<bool, LineFault>
        ensures { Gives (λ x. (x, self.new.rest.now)) result (flag_at n self.old.rest.now) }
    {
        let number = self.number(n)?;
        Ok(number != 0)
    }

    /// Takes argument `n` as the code of a check result, 0 to `greatest`. The error is `Missing` or `BadNumber`.
    #[tactic(auto, unfolding(crate::specs::Reading::code_at))]
    pub fn code(&mut self, greatest: u8, n: u8) -> Result<u8, LineFault>
        ensures { Gives (λ x. (x, self.new.rest.now)) result (code_at greatest n self.old.rest.now) }
    {
        let number = self.number(n)?;
        if number > u64::from(greatest) {
            return Err(LineFault::BadNumber(n));
        }
        Ok(number as u8)
    }
}
