//! Texts that are told by number.

ghost use Rattle.std.specs.Prelude.{ℕ, List, Some};
ghost use Rattle.std.specs.Fmt.{WritesOnOk};
ghost use Rattle.graph_pictures.specs.Numbers.{numbered};

use std::fmt;

/// What has a text for each number.
pub trait Numbered {
    /// The text of a number.
    ghost text: { Self → ℕ → List ℕ };

    /// Writes the text of a number.
    fn put<W: fmt::Write>(&self, number: usize, f: &mut fmt::Formatter<W>) -> fmt::Result
        ensures { WritesOnOk W.write_str_gives f.old result (text self.now number) f.new };
}

/// The texts of so many numbers, from 0 on.
#[derive(Clone, Copy)]
pub struct UpTo<'a, T>(pub &'a T, pub usize);

impl<T: Numbered> fmt::Display for UpTo<'_, T> {
    ghost output = { λ u. Some (numbered (T.text u.0.now) u.1) };

    #[tactic(auto, using(crate::proofs::NumberedTexts::one_number_more))]
    fn fmt<W: fmt::Write>(&self, f: &mut fmt::Formatter<W>) -> fmt::Result {
        for number in 0..self.1 {
            self.0.put(number, f)?;
        }
        Ok(())
    }
}
