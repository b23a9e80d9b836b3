//! The statement that is being read, one line after another.

ghost use Rattle.std.specs.Prelude.{◌≡◌, ◌+◌, ◌-◌, ◌<◌, ◌≤◌, [], ◌∷◌, length, drop, replicate, OnOk};
ghost use Rattle.std.specs.Option.{option_to_list};
ghost use Rattle.fixed_form.specs.Columns.{card, statement_field as spec_statement_field};
ghost use Rattle.fixed_form.specs.Statement.{kept as spec_kept, inside_after as spec_inside_after};
ghost use Rattle.fixed_form.specs.OpenStmt.{begun, with_characters};

use df_sequence::{CharList, NoMemory};
use std::alloc::Global;

/// A statement whose last line may be still to come.
#[derive(Drop)]
pub(crate) struct OpenStmt {
    pub(crate) label: u32,
    pub(crate) line: u32,
    /// The text of the lines so far.
    pub(crate) text: CharList,
    /// Whether the last character constant so far is still open.
    pub(crate) is_inside: bool,
    /// How many continuation lines there are so far.
    pub(crate) continuations: u32,
}

/// What a character gives to the text.
fn kept(is_inside: bool, character: u8) -> Option<u8>
    ensures { option_to_list result ≡ spec_kept is_inside character }
{
    if is_inside {
        Some(character)
    } else if character == b' ' {
        None
    } else {
        Some(character.to_ascii_uppercase())
    }
}

/// Whether a character constant is open after a character.
fn inside_after(is_inside: bool, character: u8) -> bool
    ensures { result ≡ spec_inside_after is_inside character }
{
    if character == b'\'' {
        !is_inside
    } else {
        is_inside
    }
}

/// Columns 7 to 72, as far as the line has them.
fn statement_field(columns: &[u8]) -> &[u8]
    requires { length columns.now ≤ 72 }
    ensures field { result.now ≡ drop 6 columns.now }
    ensures len { length result.now ≡ length columns.now - 6 }
{
    if columns.len() < 6 {
        &columns[columns.len()..]
    } else {
        &columns[6..]
    }
}

impl OpenStmt {
    /// A statement without characters.
    pub(crate) fn new(alloc: Global, label: u32, line: u32) -> OpenStmt
        ensures { result ≡ begun label line }
    {
        OpenStmt {
            label,
            line,
            text: CharList::new(alloc),
            is_inside: false,
            continuations: 0,
        }
    }

    /// Goes on with a character.
    fn put(&mut self, character: u8) -> Result<(), NoMemory>
        requires { length self.old.text < 4294967295 }
        ensures { OnOk result (self.new ≡ with_characters self.old (character ∷ [])) }
    {
        let is_inside = inside_after(self.is_inside, character);
        if let Some(c) = kept(self.is_inside, character) {
            self.text.push(c)?;
        }
        self.is_inside = is_inside;
        Ok(())
    }

    /// Goes on with characters.
    #[tactic(auto, using(crate::proofs::Texts::put_next, crate::proofs::Texts::put_last, crate::proofs::Texts::put_length))]
    fn put_all(&mut self, characters: &[u8]) -> Result<(), NoMemory>
        requires { length self.old.text + length characters.now < 4294967296 }
        ensures { OnOk result (self.new ≡ with_characters self.old characters.now) }
    {
        for c in characters {
            self.put(*c)?;
        }
        Ok(())
    }

    /// Goes on with n blanks, of which none is kept outside of a character constant.
    #[tactic(auto, using(crate::proofs::Texts::put_none))]
    fn put_blanks(&mut self, n: usize) -> Result<(), NoMemory>
        requires { length self.old.text + n < 4294967296 }
        ensures { OnOk result (self.new ≡ with_characters self.old (replicate n 32)) }
    {
        if !self.is_inside {
            return Ok(());
        }
        for i in 0..n {
            self.put(b' ')?;
        }
        Ok(())
    }

    /// Goes on with columns 7 to 72 of a line.
    pub(crate) fn add(&mut self, columns: &[u8]) -> Result<(), NoMemory>
        requires short { length columns.now ≤ 72 }
        requires room { length self.old.text + 66 < 4294967296 }
        ensures { OnOk result (self.new ≡ with_characters self.old (spec_statement_field (card columns.now))) }
    {
        let field = statement_field(columns);
        self.put_all(field)?;
        self.put_blanks(66 - field.len())?;
        Ok(())
    }

    /// Goes on with a continuation line.
    pub(crate) fn go_on(&mut self, columns: &[u8]) -> Result<(), NoMemory>
        requires short { length columns.now ≤ 72 }
        requires room { length self.old.text + 66 < 4294967296 }
        requires count { self.old.continuations < 4294967295 }
        ensures { OnOk result (self.new ≡ record (with_characters self.old (spec_statement_field (card columns.now))) { continuations = self.old.continuations + 1 }) }
    {
        self.add(columns)?;
        self.continuations += 1;
        Ok(())
    }
}
