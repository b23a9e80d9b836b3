//! Constants, labels and repeats (ANSI X3.9-1978, sections 3.4, 4.3 and 9). One that is out of range is told, and kept as 0.

ghost use Rattle.std.specs.Prelude.{◌≡◌, ◌||◌, pos};
ghost use Rattle.f77_parse.specs.Keeping.{constant_in, is_great_number, label_in, is_no_label, repeat_in, is_no_repeat, label_kept, signed_kept, truth_kept, constant_kept, value_kept};
ghost use Rattle.f77_parse.specs.Answers.{Gives, Shortens};

use crate::reader::Reader;
use f77_expr::{GREATEST_CONSTANT, ReadEnd};
use f77_tree::{InitValue, Lit};

/// The greatest label.
const LAST_LABEL: u32 = 99999;

impl<'a> Reader<'a> {
    /// A number that is no greater than the greatest constant.
    fn constant_of(&mut self, number: u32) -> i32
        ensures value { result ≡ pos (constant_in number) }
        ensures bad { self.new.is_bad ≡ (self.old.is_bad || is_great_number number) }
        ensures rest { self.new.rest.now ≡ self.old.rest.now }
    {
        let is_great = number > GREATEST_CONSTANT;
        self.tell(is_great);
        if is_great { 0 } else { number as i32 }
    }

    /// A label is from 1 to 99999.
    fn label_of(&mut self, number: u32) -> u32
        ensures value { result ≡ label_in number }
        ensures bad { self.new.is_bad ≡ (self.old.is_bad || is_no_label number) }
        ensures rest { self.new.rest.now ≡ self.old.rest.now }
    {
        let is_none = number == 0 || number > LAST_LABEL;
        self.tell(is_none);
        if is_none { 0 } else { number }
    }

    /// A repeat is from 1 to the greatest constant.
    fn repeat_of(&mut self, number: u32) -> u32
        ensures value { result ≡ repeat_in number }
        ensures bad { self.new.is_bad ≡ (self.old.is_bad || is_no_repeat number) }
        ensures rest { self.new.rest.now ≡ self.old.rest.now }
    {
        let is_none = number == 0 || number > GREATEST_CONSTANT;
        self.tell(is_none);
        if is_none { 0 } else { number }
    }

    /// A label.
    #[tactic(auto, unfolding(crate::specs::Keeping::label_kept))]
    pub(crate) fn label(&mut self) -> Result<u32, ReadEnd>
        ensures gives { Gives (label_kept self.old.is_bad self.old.rest.now) result self.new.is_bad self.new.rest.now }
        ensures shorter { Shortens result self.old.rest.now self.new.rest.now }
    {
        let number = self.number()?;
        Ok(self.label_of(number))
    }

    /// A number with a sign or without.
    #[tactic(auto, unfolding(crate::specs::Keeping::signed_kept))]
    pub(crate) fn signed(&mut self) -> Result<i32, ReadEnd>
        ensures gives { Gives (signed_kept self.old.is_bad self.old.rest.now) result self.new.is_bad self.new.rest.now }
        ensures shorter { Shortens result self.old.rest.now self.new.rest.now }
    {
        if self.passes(b"-") {
            let number = self.number()?;
            return Ok(0 - self.constant_of(number));
        }
        self.skips(b"+");
        let number = self.number()?;
        Ok(self.constant_of(number))
    }

    /// A logical constant.
    #[tactic(auto, unfolding(crate::specs::Keeping::truth_kept))]
    fn truth(&mut self) -> Result<bool, ReadEnd>
        ensures gives { Gives (truth_kept self.old.is_bad self.old.rest.now) result self.new.is_bad self.new.rest.now }
        ensures shorter { Shortens result self.old.rest.now self.new.rest.now }
    {
        if self.passes(b".TRUE.") {
            return Ok(true);
        }
        self.wants(b".FALSE.")?;
        Ok(false)
    }

    /// A constant. One that begins with a point is a logical one.
    #[tactic(auto, unfolding(crate::specs::Keeping::constant_kept))]
    fn constant(&mut self) -> Result<Lit, ReadEnd>
        ensures gives { Gives (constant_kept self.old.is_bad self.old.rest.now) result self.new.is_bad self.new.rest.now }
        ensures shorter { Shortens result self.old.rest.now self.new.rest.now }
    {
        if self.is_at(b'.') {
            Ok(Lit::Truth(self.truth()?))
        } else {
            Ok(Lit::Int(self.signed()?))
        }
    }

    /// A constant of DATA, alone or repeated. Digits before an asterisk are a repeat, and others are the constant.
    #[tactic(auto, unfolding(crate::specs::Keeping::value_kept))]
    pub(crate) fn value(&mut self) -> Result<InitValue, ReadEnd>
        ensures gives { Gives (value_kept self.old.is_bad self.old.rest.now) result self.new.is_bad self.new.rest.now }
        ensures shorter { Shortens result self.old.rest.now self.new.rest.now }
    {
        if !self.is_at_digit() {
            return Ok(InitValue {
                times: 1,
                value: self.constant()?,
            });
        }
        let number = self.number()?;
        if self.passes(b"*") {
            Ok(InitValue {
                times: self.repeat_of(number),
                value: self.constant()?,
            })
        } else {
            Ok(InitValue {
                times: 1,
                value: Lit::Int(self.constant_of(number)),
            })
        }
    }
}
