//! The classes that accesses and expressions need.

ghost use Rattle.std.specs.Prelude.{◌≡◌, ◌↔◌, ℕ, true, All, Any};
ghost use Rattle.class_set.specs.ClassSet.{holds};
ghost use Rattle.f77_tree.specs.Value.{IsAccess, IsExpression};
ghost use Rattle.alias_classes.specs.Kept.{table_of, AreKept};
ghost use Rattle.alias_classes.specs.Needs.{Hits, Needs, ExprNeeds};

use crate::known::known_word;
use class_set::ClassSet;
use f77_tree::{Access, Expr, ExprList, NameInfoList, Program};
use op_table::Op;

/// The classes of the words of a program: how many there are, the class of each word, and the classes of each name.
#[derive(Drop)]
pub(crate) struct WordClasses<const W: usize> {
    pub(crate) count: usize,
    pub(crate) numbers: Vec<usize>,
    pub(crate) names: Vec<ClassSet<W>>,
}

/// The classes that an access hits: that of its word, where all its subscripts have known values within their bounds, else
/// each class of its name.
pub(crate) fn access_hits<const W: usize>(
    p: &Program,
    words: &WordClasses<W>,
    a: &Access,
) -> ClassSet<W>
    requires kept { AreKept W p.now words.now.numbers.items words.now.count words.now.names.items }
    requires access { IsAccess p.now.names a.now }
    ensures { (n : ℕ) → (holds result n ≡ true) ↔ Hits (table_of p.now words.now.numbers.items words.now.count) a.now n }
{
    match known_word(&p.names, p.initial.as_slice(), a) {
        Some(word) => ClassSet::empty().with(words.numbers[word as usize] as u32),
        None => words.names[a.name as usize],
    }
}

/// The classes that an access needs: those that it hits, and what the accesses in its subscripts need.
#[cycle(need)]
pub(crate) fn access_need<const W: usize>(
    p: &Program,
    words: &WordClasses<W>,
    a: &Access,
) -> ClassSet<W>
    requires kept { AreKept W p.now words.now.numbers.items words.now.count words.now.names.items }
    requires access { IsAccess p.now.names a.now }
    ensures { (n : ℕ) → (holds result n ≡ true) ↔ Needs (table_of p.now words.now.numbers.items words.now.count) a.now n }
{
    all_need(p, words, &a.subs).union(&access_hits(p, words, a))
}

/// The classes that the accesses in an expression need.
#[cycle(need)]
pub(crate) fn expr_need<const W: usize>(
    p: &Program,
    words: &WordClasses<W>,
    e: &Expr,
) -> ClassSet<W>
    requires kept { AreKept W p.now words.now.numbers.items words.now.count words.now.names.items }
    requires expression { IsExpression p.now.names e.now }
    ensures { (n : ℕ) → (holds result n ≡ true) ↔ ExprNeeds (table_of p.now words.now.numbers.items words.now.count) e.now n }
{
    match e {
        Expr::Const(_) | Expr::Truth(_) | Expr::Input => ClassSet::empty(),
        Expr::Read(access) => {
            access_fits(&p.names, e, access);
            access_need(p, words, access)
        }
        Expr::Apply(op, args) => {
            operands_fit(&p.names, e, *op, args);
            all_need(p, words, args)
        }
    }
}

// The classes that the accesses in some expressions need.
#[cycle(need)]
fn all_need<const W: usize>(p: &Program, words: &WordClasses<W>, es: &ExprList) -> ClassSet<W>
    requires kept { AreKept W p.now words.now.numbers.items words.now.count words.now.names.items }
    requires expressions { All (IsExpression p.now.names) es.now }
    ensures { (n : ℕ) → (holds result n ≡ true) ↔ Any (λ e. ExprNeeds (table_of p.now words.now.numbers.items words.now.count) e n) es.now }
{
    let mut set = ClassSet::empty();
    for e in es.as_slice() {
        set = set.union(&expr_need(p, words, e));
    }
    set
}

// What an expression that fits the table of names reads is an access of the table.
fn access_fits(names: &NameInfoList, e: &Expr, a: &Access)
    requires form { e.now ≡ Expr.Read a.now }
    requires expression { IsExpression names.now e.now }
    ensures { IsAccess names.now a.now }
{}

// The operands in an expression that fits the table of names fit it too.
fn operands_fit(names: &NameInfoList, e: &Expr, op: Op, args: &ExprList)
    requires form { e.now ≡ Expr.Apply op args.now }
    requires expression { IsExpression names.now e.now }
    ensures { All (IsExpression names.now) args.now }
{}
