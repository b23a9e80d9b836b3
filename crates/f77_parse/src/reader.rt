//! A reader of the text of one statement. It never goes back, and nothing is read twice.

ghost use Rattle.std.specs.Prelude.{◌≡◌, ◌≤◌, ◌<◌, ◌+◌, ◌-◌, ◌||◌, ◌&&◌, nat_lt, length, [], drop, take_while, true, false, Some, None, MatchBool, IfOk};
ghost use Rattle.f77_tree.specs.Name.{is_figure};
ghost use Rattle.f77_expr.specs.Reader.{after_prefix as spec_after_prefix};
ghost use Rattle.f77_parse.specs.Parts.{after_comma};
ghost use Rattle.f77_parse.specs.Keeping.{wanted, skipped, begins, number_kept, name_kept, letter_kept, character_kept, few_digits_kept, expression_kept};
ghost use Rattle.f77_parse.specs.Answers.{Gives, Passes, Shortens};

use df_sequence::CharList;
use f77_expr::{
    ReadEnd, after_prefix, bounded_number, digits_of, is_letter, read_expr, symbolic_of,
};
use f77_tree::{Name, RawExpr};
use std::alloc::Global;

/// STOP shows at most this many digits.
const MOST_DIGITS: usize = 5;

/// A text that is being read.
#[derive(Drop)]
pub(crate) struct Reader<'a> {
    text: &'a CharList,
    /// What is left of the text.
    rest: &'a [u8],
    /// Whether a constant, a label or a repeat that was read is out of range.
    is_bad: bool,
    ghost is_end: { rest.now ≡ drop (length text.now - length rest.now) text.now },
    ghost shorter: { length rest.now ≤ length text.now },
    ghost room: { length text.now < 4294967296 },
}

impl<'a> Reader<'a> {
    /// A reader at the begin of a text.
    pub(crate) fn new(text: &'a CharList) -> Reader<'a>
        ensures rest { result.rest.now ≡ text.now }
        ensures good { result.is_bad ≡ false }
    {
        Reader {
            text,
            rest: text.as_bytes(),
            is_bad: false,
        }
    }

    /// Whether a constant, a label or a repeat that was read is out of range.
    pub(crate) fn is_bad(&self) -> bool
        ensures { result ≡ self.now.is_bad }
    {
        self.is_bad
    }

    /// Tells whether what was read is out of range.
    pub(crate) fn tell(&mut self, is_bad: bool)
        ensures bad { self.new.is_bad ≡ (self.old.is_bad || is_bad) }
        ensures rest { self.new.rest.now ≡ self.old.rest.now }
    {
        self.is_bad = self.is_bad || is_bad;
    }

    /// Passes so many characters.
    fn skip(&mut self, n: usize)
        requires { n ≤ length self.old.rest.now }
        ensures rest { self.new.rest.now ≡ drop n self.old.rest.now }
        ensures same { self.new.is_bad ≡ self.old.is_bad }
        ensures text { self.new.text.now ≡ self.old.text.now }
    {
        self.rest = &self.rest[n..];
    }

    /// Whether nothing is left.
    pub(crate) fn is_at_end(&self) -> bool
        ensures { MatchBool result (self.now.rest.now ≡ []) (0 < length self.now.rest.now) }
    {
        self.rest.is_empty()
    }

    /// Whether this character is the next one.
    pub(crate) fn is_at(&self, c: u8) -> bool
        ensures { result ≡ begins c self.now.rest.now }
    {
        match self.rest.first() {
            Some(first) => *first == c,
            None => false,
        }
    }

    /// Whether the next character is a digit.
    pub(crate) fn is_at_digit(&self) -> bool
        ensures { result ≡ nat_lt 0 (length (take_while is_figure self.now.rest.now)) }
    {
        !digits_of(self.rest).is_empty()
    }

    /// Passes these characters, if they are the next ones.
    pub(crate) fn passes(&mut self, prefix: &[u8]) -> bool
        ensures rest { Passes (spec_after_prefix prefix.now self.old.rest.now) result self.old.rest.now self.new.rest.now }
        ensures same { self.new.is_bad ≡ self.old.is_bad }
        ensures shorter { MatchBool result (length self.new.rest.now + length prefix.now ≤ length self.old.rest.now) (length self.new.rest.now ≤ length self.old.rest.now) }
    {
        match after_prefix(self.rest, prefix) {
            Some(rest) => {
                self.skip(self.rest.len() - rest.len());
                true
            }
            None => false,
        }
    }

    /// Passes these characters, if they are the next ones, and tells nothing of it.
    pub(crate) fn skips(&mut self, prefix: &[u8])
        ensures rest { self.new.rest.now ≡ skipped (spec_after_prefix prefix.now self.old.rest.now) self.old.rest.now }
        ensures same { self.new.is_bad ≡ self.old.is_bad }
        ensures shorter { length self.new.rest.now ≤ length self.old.rest.now }
    {
        if self.passes(prefix) {
            return;
        }
    }

    /// Passes these characters, which have to be the next ones.
    #[tactic(auto, unfolding(crate::specs::Keeping::wanted))]
    pub(crate) fn wants(&mut self, prefix: &[u8]) -> Result<(), ReadEnd>
        ensures gives { Gives (wanted prefix.now self.old.is_bad self.old.rest.now) result self.new.is_bad self.new.rest.now }
        ensures shorter { IfOk result (λ found. length self.new.rest.now + length prefix.now ≤ length self.old.rest.now) }
    {
        if self.passes(prefix) {
            Ok(())
        } else {
            Err(ReadEnd::NoForm)
        }
    }

    /// Passes a comma that stands between two items of a list. One before a stroke stands before a block of COMMON.
    pub(crate) fn passes_comma(&mut self) -> bool
        ensures rest { Passes (after_comma self.old.rest.now) result self.old.rest.now self.new.rest.now }
        ensures same { self.new.is_bad ≡ self.old.is_bad }
        ensures shorter { MatchBool result (length self.new.rest.now < length self.old.rest.now) (length self.new.rest.now ≤ length self.old.rest.now) }
    {
        if self.rest.is_empty() || self.rest[0] != b',' {
            return false;
        }
        if self.rest.len() > 1 && self.rest[1] == b'/' {
            return false;
        }
        self.skip(1);
        true
    }

    /// Digits, as the number that they write, or one more than the greatest constant where that is less.
    #[tactic(auto, unfolding(crate::specs::Keeping::number_kept))]
    pub(crate) fn number(&mut self) -> Result<u32, ReadEnd>
        ensures gives { Gives (number_kept self.old.is_bad self.old.rest.now) result self.new.is_bad self.new.rest.now }
        ensures shorter { Shortens result self.old.rest.now self.new.rest.now }
    {
        let digits = digits_of(self.rest);
        if digits.is_empty() {
            return Err(ReadEnd::NoForm);
        }
        self.skip(digits.len());
        Ok(bounded_number(digits) as u32)
    }

    /// At most five digits.
    #[tactic(auto, unfolding(crate::specs::Keeping::few_digits_kept))]
    pub(crate) fn few_digits(&mut self) -> Result<(), ReadEnd>
        ensures gives { Gives (few_digits_kept self.old.is_bad self.old.rest.now) result self.new.is_bad self.new.rest.now }
        ensures shorter { Shortens result self.old.rest.now self.new.rest.now }
    {
        let n = digits_of(self.rest).len();
        if n == 0 || n > MOST_DIGITS {
            return Err(ReadEnd::NoForm);
        }
        self.skip(n);
        Ok(())
    }

    /// An expression, as long as it can be.
    #[tactic(auto, unfolding(crate::specs::Keeping::expression_kept))]
    pub(crate) fn expression(&mut self, alloc: Global) -> Result<RawExpr, ReadEnd>
        ensures gives { Gives (expression_kept self.old.is_bad self.old.rest.now) result self.new.is_bad self.new.rest.now }
        ensures shorter { Shortens result self.old.rest.now self.new.rest.now }
    {
        let from = self.text.len() - self.rest.len() as u32;
        let read = read_expr(alloc, self.text, from)?;
        self.skip((read.next - from) as usize);
        self.tell(read.has_great_constant);
        Ok(read.expr)
    }

    /// All letters and digits that come first, as a name.
    #[tactic(auto, unfolding(crate::specs::Keeping::name_kept))]
    pub(crate) fn name(&mut self) -> Result<Name, ReadEnd>
        ensures gives { Gives (name_kept self.old.is_bad self.old.rest.now) result self.new.is_bad self.new.rest.now }
        ensures shorter { Shortens result self.old.rest.now self.new.rest.now }
    {
        let prefix = symbolic_of(self.rest);
        match Name::new(prefix) {
            Some(name) => {
                self.skip(prefix.len());
                Ok(name)
            }
            None => Err(ReadEnd::NoForm),
        }
    }

    /// A letter.
    #[tactic(auto, unfolding(crate::specs::Keeping::letter_kept))]
    pub(crate) fn letter(&mut self) -> Result<u8, ReadEnd>
        ensures gives { Gives (letter_kept self.old.is_bad self.old.rest.now) result self.new.is_bad self.new.rest.now }
        ensures shorter { Shortens result self.old.rest.now self.new.rest.now }
    {
        match self.rest.first() {
            Some(c) if is_letter(*c) => {
                let c = *c;
                self.skip(1);
                Ok(c)
            }
            _ => Err(ReadEnd::NoForm),
        }
    }

    /// The next character, whichever it is.
    #[tactic(auto, unfolding(crate::specs::Keeping::character_kept))]
    pub(crate) fn character(&mut self) -> Result<u8, ReadEnd>
        ensures gives { Gives (character_kept self.old.is_bad self.old.rest.now) result self.new.is_bad self.new.rest.now }
        ensures shorter { Shortens result self.old.rest.now self.new.rest.now }
    {
        match self.rest.first() {
            Some(c) => {
                let c = *c;
                self.skip(1);
                Ok(c)
            }
            None => Err(ReadEnd::NoForm),
        }
    }
}
