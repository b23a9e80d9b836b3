//! What is left of a text that is being read.

ghost use Rattle.std.specs.Prelude.{◌≡◌, ◌<◌, ◌+◌, ◌++◌, ◌∷◌, [], true, Some, None, All, IfOk, IfSome, OnOk, MatchBool, length, take, drop, is_some, option_map};
ghost use Rattle.std.specs.Bool.{OnTrue};
ghost use Rattle.std.specs.Fmt.{decimal, signed_decimal};
ghost use Rattle.printed_graphs.specs.Printable.{AreShort};
ghost use Rattle.printed_graphs.specs.Words.{numbers_text, field_text, sign_text};
ghost use Rattle.printed_graphs.specs.Reading.{Gives, Passes, PassesInMemory, begins_with, after_numbers, after_signed, fits_signed, is_word_char, word_length, after_word, digit_at, long_number_at, number_at, after_number, field_at};

use crate::fault::Stop;
use std::alloc::Global;

/// What is left of a text. After a failure it stands in the line that could not be read.
#[derive(Drop)]
pub(crate) struct Cursor<'a> {
    pub(crate) rest: &'a [u8],
}

impl<'a> Cursor<'a> {
    /// Passes these bytes, if they come next.
    pub(crate) fn takes(&mut self, word: &[u8]) -> bool
        ensures text { MatchBool result (self.old.rest.now ≡ word.now ++ self.new.rest.now) (self.new.rest.now ≡ self.old.rest.now) }
        ensures after { MatchBool result (after_word word.now self.old.rest.now ≡ Some self.new.rest.now) (after_word word.now self.old.rest.now ≡ None) }
    {
        match self.rest.strip_prefix(word) {
            Some(rest) => {
                self.rest = rest;
                true
            }
            None => false,
        }
    }

    /// Passes these bytes, which have to come next.
    pub(crate) fn passes(&mut self, word: &[u8]) -> Result<(), Stop>
        ensures text { OnOk result (self.old.rest.now ≡ word.now ++ self.new.rest.now) }
        ensures after { Passes result self.new.rest.now (after_word word.now self.old.rest.now) }
    {
        if self.takes(word) {
            Ok(())
        } else {
            Err(Stop::Unread)
        }
    }

    /// Whether these bytes come next.
    pub(crate) fn is_at(&self, word: &[u8]) -> bool
        ensures { result ≡ begins_with word.now self.now.rest.now }
    {
        let mut ahead = Cursor { rest: self.rest };
        ahead.takes(word)
    }

    /// Whether a digit comes next.
    #[tactic(auto, unfolding(crate::specs::Reading::digit_at))]
    pub(crate) fn is_at_digit(&self) -> bool
        ensures some { OnTrue result (0 < length self.now.rest.now) }
        ensures begin { result ≡ is_some (digit_at self.now.rest.now) }
    {
        match self.rest.first() {
            Some(c) => c.is_ascii_digit(),
            None => false,
        }
    }

    /// A number of up to 64 bits in decimal, without needless zeros.
    pub(crate) fn long_number(&mut self) -> Result<u64, Stop>
        ensures text { IfOk result (λ n. self.old.rest.now ≡ decimal n ++ self.new.rest.now) }
        ensures after { Gives result self.new.rest.now (long_number_at self.old.rest.now) }
    {
        match number_at(self.rest) {
            Some((n, rest)) => {
                self.rest = rest;
                Ok(n)
            }
            None => Err(Stop::Unread),
        }
    }

    /// A number of up to 32 bits.
    #[tactic(auto, unfolding(crate::specs::Reading::number_at))]
    pub(crate) fn number(&mut self) -> Result<u32, Stop>
        ensures text { IfOk result (λ n. self.old.rest.now ≡ decimal n ++ self.new.rest.now) }
        ensures after { Gives result self.new.rest.now (number_at self.old.rest.now) }
    {
        let n = self.long_number()?;
        match u32::try_from(n) {
            Ok(n) => Ok(n),
            Err(_) => Err(Stop::Unread),
        }
    }

    /// Passes a number, which has to be this one.
    #[tactic(auto, unfolding(crate::specs::Reading::after_number))]
    pub(crate) fn expects(&mut self, n: u32) -> Result<(), Stop>
        ensures text { OnOk result (self.old.rest.now ≡ decimal n ++ self.new.rest.now) }
        ensures after { Passes result self.new.rest.now (after_number n self.old.rest.now) }
    {
        if self.number()? == n {
            Ok(())
        } else {
            Err(Stop::Unread)
        }
    }

    /// A number after a blank.
    #[tactic(auto, unfolding(crate::specs::Reading::field_at))]
    pub(crate) fn field(&mut self) -> Result<u32, Stop>
        ensures text { IfOk result (λ n. self.old.rest.now ≡ field_text n ++ self.new.rest.now) }
        ensures after { Gives result self.new.rest.now (field_at self.old.rest.now) }
    {
        self.passes(b" ")?;
        self.number()
    }

    /// A word of the machine, a negative one after a minus sign.
    pub(crate) fn signed_number(&mut self) -> Result<i32, Stop>
        ensures text { IfOk result (λ z. self.old.rest.now ≡ signed_decimal z ++ self.new.rest.now) }
        ensures after { Passes result self.new.rest.now (after_signed self.old.rest.now) }
    {
        let is_negative = self.takes(b"-");
        let n = self.number()?;
        match signed(is_negative, n) {
            Some(z) => Ok(z),
            None => Err(Stop::Unread),
        }
    }

    /// All letters and digits that come next.
    pub(crate) fn word(&mut self) -> &'a [u8]
        ensures text { self.old.rest.now ≡ result.now ++ self.new.rest.now }
        ensures word { result.now ≡ take (word_length self.old.rest.now) self.old.rest.now }
        ensures after { self.new.rest.now ≡ drop (word_length self.old.rest.now) self.old.rest.now }
        ensures letters { All (λ c. is_word_char c ≡ true) result.now }
    {
        let end = word_length(self.rest);
        let word = &self.rest[..end];
        self.rest = &self.rest[end..];
        word
    }

    /// All numbers that come next, each after a blank.
    pub(crate) fn numbers(&mut self, alloc: Global) -> Result<Vec<u32>, Stop>
        ensures text { IfOk result (λ v. self.old.rest.now ≡ numbers_text v.items ++ self.new.rest.now) }
        ensures after { PassesInMemory result self.new.rest.now (after_numbers self.old.rest.now) }
        ensures short { IfOk result (λ v. AreShort v.items) }
    {
        let mut all = Vec::new(alloc);
        while self.takes(b" ") {
            all.push(self.number()?)?;
        }
        Ok(all)
    }
}

// How many letters and digits a text begins with.
fn word_length(text: &[u8]) -> usize
    ensures length { result ≡ word_length text.now }
    ensures within { result < length text.now + 1 }
{
    let mut end = 0;
    for c in text {
        if !is_word_char(*c) {
            return end;
        }
        end += 1;
    }
    end
}

// A capital letter or a digit.
fn is_word_char(c: u8) -> bool
    ensures { result ≡ is_word_char c }
{
    c.is_ascii_uppercase() || c.is_ascii_digit()
}

// The number with this sign, where it is a word and no negative zero.
fn signed(is_negative: bool, n: u32) -> Option<i32>
    ensures text { IfSome result (λ z. signed_decimal z ≡ sign_text is_negative ++ decimal n) }
    ensures variant { is_some result ≡ fits_signed is_negative n }
{
    let z = if is_negative {
        -i64::from(n)
    } else {
        i64::from(n)
    };
    if is_negative && n == 0 {
        return None;
    }
    i32::try_from(z).ok()
}

// The first digit of a text, as a number, and what follows it.
#[tactic(auto, unfolding(crate::specs::Reading::digit_at))]
fn digit_at(text: &[u8]) -> Option<(u8, &[u8])>
    ensures text { IfSome result (λ r. (r.0 < 10) × (text.now ≡ (48 + r.0) ∷ r.1.now)) }
    ensures after { option_map (λ r. (r.0, r.1.now)) result ≡ digit_at text.now }
{
    match text {
        [c, rest @ ..] if c.is_ascii_digit() => Some((*c - b'0', rest)),
        _ => None,
    }
}

// The number that a text begins with, and what follows it. A zero is a number by itself.
fn number_at(text: &[u8]) -> Option<(u64, &[u8])>
    ensures text { IfSome result (λ r. text.now ≡ decimal r.0 ++ r.1.now) }
    ensures after { option_map (λ r. (r.0, r.1.now)) result ≡ long_number_at text.now }
{
    let (first, mut rest) = digit_at(text)?;
    let mut n = u64::from(first);
    while n > 0 {
        match digit_at(rest) {
            Some((d, after)) => {
                n = n.checked_mul(10)?.checked_add(u64::from(d))?;
                rest = after;
            }
            None => return Some((n, rest)),
        }
    }
    Some((n, rest))
}
