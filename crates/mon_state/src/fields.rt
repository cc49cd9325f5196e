//! The fields of a line, by their kinds. Each method reads the next field and moves the cursor after the byte that ends
//! the field (`end`), even if the field is faulty. Where there is no such byte, the method returns `BadLine` and the
//! unread bytes are unchanged.
ghost use Rattle.std.specs.Prelude.{◌≡◌, ◌≤◌, IfOk};
ghost use Rattle.mon_state.specs.Reading.{number_at, small_at, optional_of, optional_at, optional_code_at, flag_of, flag_at, acknowledgement_of, acknowledgement_at, active_at, inactive_at, fate_at, name_at, count_at};
ghost use Rattle.mon_state.specs.Cursors.{Gives};

use crate::cursor::Cursor;
use crate::fault::StateCause;
use crate::number::number_of;
use mon_downtime::Fate;
use mon_engine::Acknowledgement;

/// The flag in a field that is `0` or `1`; `None` for any other field.
fn flag_of(field: &[u8]) -> Option<bool>
    ensures { result ≡ flag_of field.now }
{
    match field {
        b"0" => Some(false),
        b"1" => Some(true),
        _ => None,
    }
}

/// The acknowledgement in a field: 0 for unacknowledged, 1 for normal, 2 for sticky; `None` for any other field.
fn acknowledgement_of(field: &[u8]) -> Option<Acknowledgement>
    ensures { result ≡ acknowledgement_of field.now }
{
    match field {
        b"0" => Some(Acknowledgement::Unacknowledged),
        b"1" => Some(Acknowledgement::Normal),
        b"2" => Some(Acknowledgement::Sticky),
        _ => None,
    }
}

/// The optional number in a field: `Some(None)` for an empty field, and `None` where the field is not a number.
#[tactic(auto, unfolding(crate::specs::Reading::optional_of))]
fn optional_of(field: &[u8]) -> Option<Option<u64>>
    ensures { result ≡ optional_of field.now }
{
    if field.is_empty() {
        return Some(None);
    }
    number_of(field).map(Some)
}

impl Cursor<'_> {
    /// Reads a number; returns `BadLine` where the field is not a number.
    #[tactic(auto, unfolding(crate::specs::Reading::number_at))]
    pub fn number(&mut self, end: u8) -> Result<u64, StateCause>
        ensures read { Gives (λ n. (n, self.new.rest)) self.new.last result (number_at end self.old.rest) }
        ensures at { self.new.last ≡ self.old.rest }
    {
        let field = self.field(end)?;
        match number_of(field) {
            None => Err(StateCause::BadLine),
            Some(n) => Ok(n),
        }
    }

    /// Reads a number of at most `most`; returns `BadLine` where the field is not a number, and `BadValue` where it is
    /// above `most`.
    #[tactic(auto, unfolding(crate::specs::Reading::small_at))]
    pub fn small(&mut self, most: u64, end: u8) -> Result<u64, StateCause>
        ensures read { Gives (λ n. (n, self.new.rest)) self.new.last result (small_at most end self.old.rest) }
        ensures at { self.new.last ≡ self.old.rest }
        ensures small { IfOk result (λ n. n ≤ most) }
    {
        let n = self.number(end)?;
        if n > most {
            return Err(StateCause::BadValue);
        }
        Ok(n)
    }

    /// Reads an optional number, `None` for an empty field; returns `BadLine` where the field is neither empty nor a
    /// number.
    #[tactic(auto, unfolding(crate::specs::Reading::optional_at))]
    pub fn optional(&mut self, end: u8) -> Result<Option<u64>, StateCause>
        ensures read { Gives (λ n. (n, self.new.rest)) self.new.last result (optional_at end self.old.rest) }
        ensures at { self.new.last ≡ self.old.rest }
    {
        let field = self.field(end)?;
        match optional_of(field) {
            None => Err(StateCause::BadLine),
            Some(n) => Ok(n),
        }
    }

    /// Reads an optional code, `None` for an empty field; returns `BadLine` where the field is neither empty nor a
    /// number, and `BadValue` above 255.
    #[tactic(auto, unfolding(crate::specs::Reading::optional_code_at))]
    pub fn optional_code(&mut self, end: u8) -> Result<Option<u8>, StateCause>
        ensures { Gives (λ n. (n, self.new.rest)) self.new.last result (optional_code_at end self.old.rest) }
    {
        match self.optional(end)? {
            None => Ok(None),
            Some(n) => {
                if n > 255 {
                    return Err(StateCause::BadValue);
                }
                Ok(Some(n as u8))
            }
        }
    }

    /// Reads a flag, 0 or 1; returns `BadLine` for another field.
    #[tactic(auto, unfolding(crate::specs::Reading::flag_at))]
    pub fn flag(&mut self, end: u8) -> Result<bool, StateCause>
        ensures { Gives (λ on. (on, self.new.rest)) self.new.last result (flag_at end self.old.rest) }
    {
        let field = self.field(end)?;
        match flag_of(field) {
            None => Err(StateCause::BadLine),
            Some(on) => Ok(on),
        }
    }

    /// Reads the field of an acknowledgement, which a semicolon ends; returns `BadLine` for another field.
    #[tactic(auto, unfolding(crate::specs::Reading::acknowledgement_at))]
    pub fn acknowledgement(&mut self) -> Result<Acknowledgement, StateCause>
        ensures { Gives (λ a. (a, self.new.rest)) self.new.last result (acknowledgement_at self.old.rest) }
    {
        let field = self.field(b';')?;
        match acknowledgement_of(field) {
            None => Err(StateCause::BadLine),
            Some(acknowledgement) => Ok(acknowledgement),
        }
    }

    /// Reads the two moments of an active downtime. After an error the cursor may be after the first moment.
    #[tactic(auto, unfolding(crate::specs::Reading::active_at))]
    fn active(&mut self) -> Result<Fate, StateCause>
        ensures { Gives (λ f. (f, self.new.rest)) self.new.last result (active_at self.old.rest) }
    {
        let since = self.number(b';')?;
        let until = self.number(b';')?;
        Ok(Fate::Active { since, until })
    }

    /// Reads the two fields of moments after this fate, each of which may be empty. After an error the cursor may be
    /// after the first field.
    #[tactic(auto, unfolding(crate::specs::Reading::inactive_at))]
    fn inactive(&mut self, fate: Fate) -> Result<Fate, StateCause>
        ensures { Gives (λ f. (f, self.new.rest)) self.new.last result (inactive_at fate self.old.rest) }
    {
        self.optional(b';')?;
        self.optional(b';')?;
        Ok(fate)
    }

    /// Reads the three fields of a downtime's fate: its word and two moments, which are empty unless the downtime is
    /// active. After an error the cursor may be after some of the fields.
    #[tactic(auto, unfolding(crate::specs::Reading::fate_at))]
    pub fn fate(&mut self) -> Result<Fate, StateCause>
        ensures { Gives (λ f. (f, self.new.rest)) self.new.last result (fate_at self.old.rest) }
    {
        let word = self.word()?;
        if word == b"pending".as_slice() {
            self.inactive(Fate::Pending)
        } else if word == b"over".as_slice() {
            self.inactive(Fate::Over)
        } else if word == b"active".as_slice() {
            self.active()
        } else {
            Err(StateCause::BadLine)
        }
    }

    /// Moves after this name and a semicolon; returns `BadLine` where the unread bytes do not begin with them. Where
    /// only the semicolon is missing, the cursor is after the name.
    pub fn name(&mut self, name: &[u8]) -> Result<(), StateCause>
        ensures { Gives (λ _. self.new.rest) self.new.last result (name_at name.now self.old.rest) }
    {
        self.expect(name)?;
        self.expect(b";")
    }

    /// Moves after `word`, and reads the number that ends the line. Where it returns an error, the cursor may be after
    /// the word.
    #[tactic(auto, unfolding(crate::specs::Reading::count_at))]
    pub fn count(&mut self, word: &[u8]) -> Result<u64, StateCause>
        ensures { Gives (λ n. (n, self.new.rest)) self.new.last result (count_at word.now self.old.rest) }
    {
        self.expect(word)?;
        self.number(b'\n')
    }
}
