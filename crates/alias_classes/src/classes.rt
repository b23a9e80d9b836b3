ghost use Rattle.std.specs.Prelude.{◌≡◌, ◌≤◌, ◌<◌, ◌+◌, ◌*◌, ◌↔◌, ℕ, true, length, IfOk, IfErr};
ghost use Rattle.class_set.specs.ClassSet.{holds};
ghost use Rattle.class_set.specs.Members.{IsWidth};
ghost use Rattle.f77_tree.specs.Value.{IsAccess, IsExpression};
ghost use Rattle.f77_tree.specs.WellFormed.{IsWellFormed};
ghost use Rattle.alias_classes.specs.Classes.{IsClasses, class_of_word, class_of_loop, class_count};
ghost use Rattle.alias_classes.specs.Needs.{Hits, Needs, ExprNeeds};
ghost use Rattle.alias_classes.specs.Number.{number_of_classes};

use crate::class_end::ClassEnd;
use crate::making::{Numbered, name_sets, number_spans};
use crate::needs::{WordClasses, access_hits, access_need, expr_need};
use crate::spans::name_spans;
use class_set::ClassSet;
use f77_tree::{Access, Expr, Program};
use std::alloc::Global;
use std::marker::Model;

/// The alias classes of a program. Words that the same names cover form one, and the count and the step of each DO form
/// one. They are numbered from 1: first those of words, in the order in which a walk through the names and through the
/// words of each meets them, then those of the DOs, in the order of the text.
#[derive(Drop)]
pub struct Classes<'a, const W: usize> {
    program: &'a Program,
    words: WordClasses<W>,
}

impl<'a, const W: usize> Model for Classes<'a, W> {
    ghost use Rattle.alias_classes.specs.Classes.{ClassTable};
    ghost use Rattle.alias_classes.specs.Kept.{table_of, AreKept};

    ghost Value = { ClassTable };

    ghost view = { λ c. table_of c.program.now c.words.numbers.items c.words.count };

    ghost invariant = { λ c. AreKept W c.program.now c.words.numbers.items c.words.count c.words.names.items };
}

impl<'a, const W: usize> Classes<'a, W> {
    /// How many classes there are, which is the greatest number of one. A set of W words holds each class, and the line 0 besides.
    pub fn count(&self) -> u32
        ensures count { result ≡ class_count self.now }
        ensures few { result < 64 * W }
    {
        (self.words.count + self.program.loops as usize) as u32
    }

    /// The class of a word, or 0 if no name covers it.
    pub fn of_word(&self, k: u32) -> u32
        requires { k < length self.now.numbers }
        ensures { result ≡ class_of_word self.now k }
    {
        self.words.numbers[k as usize] as u32
    }

    /// The class of the count and the step of a DO.
    pub fn of_loop(&self, loop_no: u32) -> u32
        requires { loop_no < self.now.loops }
        ensures { result ≡ class_of_loop self.now loop_no }
    {
        self.words.count as u32 + 1 + loop_no
    }

    /// The classes that an access hits: that of its word, where all its subscripts have known values within their bounds,
    /// else each class of its name.
    pub fn hits(&self, a: &Access) -> ClassSet<W>
        requires { IsAccess self.now.names a.now }
        ensures { (n : ℕ) → (holds result n ≡ true) ↔ Hits self.now a.now n }
    {
        access_hits(self.program, &self.words, a)
    }

    /// The classes that an access needs: those that it hits, and what the accesses in its subscripts need.
    pub fn need(&self, a: &Access) -> ClassSet<W>
        requires { IsAccess self.now.names a.now }
        ensures { (n : ℕ) → (holds result n ≡ true) ↔ Needs self.now a.now n }
    {
        access_need(self.program, &self.words, a)
    }

    /// The classes that the accesses in an expression need.
    pub fn expr_need(&self, e: &Expr) -> ClassSet<W>
        requires { IsExpression self.now.names e.now }
        ensures { (n : ℕ) → (holds result n ≡ true) ↔ ExprNeeds self.now e.now n }
    {
        expr_need(self.program, &self.words, e)
    }
}

/// The classes of a program, or TooManyClasses where there are more than `64 * W - 1`, so that a set of W words does not
/// hold them. The number 0 is none.
pub fn classes_of<'a, const W: usize>(
    alloc: Global,
    p: &'a Program,
) -> Result<Classes<'a, W>, ClassEnd>
    requires width { IsWidth W }
    requires program { IsWellFormed p.now }
    ensures classes { IfOk result (λ classes. IsClasses p.now classes) }
    ensures few { IfOk result (λ classes. class_count classes < 64 * W) }
    ensures many { IfErr result (λ end. end ≡ ClassEnd.TooManyClasses → 64 * W ≤ number_of_classes p.now) }
{
    let spans = name_spans(alloc, &p.names)?;
    let Numbered { numbers, count } = number_spans(alloc, &spans, p.words)?;
    if 64 * W <= count + p.loops as usize {
        return Err(ClassEnd::TooManyClasses);
    }
    let names = name_sets(alloc, &spans, &numbers)?;
    Ok(Classes {
        program: p,
        words: WordClasses {
            count,
            numbers,
            names,
        },
    })
}
