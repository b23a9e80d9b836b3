//! What the pieces of a flow graph compute, and the classes that they write.

ghost use Rattle.std.specs.Prelude.{◌≡◌, ◌↔◌, ◌<◌, ℕ, true, Some, All, length, slice_get, slice_index_or, flat_map, IfOk, OnOk, MatchOption, None};
ghost use Rattle.class_set.specs.declared.ClassSet.{ClassSet};
ghost use Rattle.class_set.specs.ClassSet.{holds};
ghost use Rattle.class_set.specs.Members.{IsWidth};
ghost use Rattle.f77_tree.specs.Value.{place_of, IsExpression};
ghost use Rattle.alias_classes.specs.Classes.{class_of_word};
ghost use Rattle.f77_tree.specs.WellFormed.{IsWellFormed};
ghost use Rattle.redundancy.specs.Collected.{IsGrown, all_subexpressions};
ghost use Rattle.redundancy.specs.Computed.{expressions, selectors, in_item, computed_by, kind_of_piece, PieceWrites};
ghost use Rattle.alias_classes.specs.Writes.{ExecWrites};
ghost use Rattle.redundancy.specs.Fitting.{ExecFits, TargetFits, IsScalarName, WritesAt};

use crate::collect::{collect, collect_all};
use alias_classes::Classes;
use cfg_build::{Flow, Piece, PieceKind};
use class_set::ClassSet;
use df_sequence::{NoMemory, Sequence};
use f77_tree::{Access, Exec, ExecKind, Expr, Item, ItemList, NameInfoList, Program};
use std::alloc::Global;

// The executable that a piece is a part of.
fn exec_of<'a>(p: &'a Program, piece: Piece) -> Option<&'a Exec>
    requires { IsWellFormed p.now }
    ensures exec { MatchOption result (slice_get p.now.execs piece.exec ≡ None) (λ exec. slice_get p.now.execs piece.exec ≡ Some exec.now) }
    ensures fits { MatchOption result (Unit {0}) (λ exec. ExecFits p.now.names exec.now.kind) }
{
    if piece.exec < p.execs.len() {
        Some(p.execs.at(piece.exec))
    } else {
        None
    }
}

/// Puts copies of the candidates that a piece computes after those found, in the order of evaluation.
pub(crate) fn collect_piece(
    alloc: Global,
    p: &Program,
    piece: Piece,
    found: &mut Vec<Expr>,
) -> Result<(), NoMemory>
    requires { IsWellFormed p.now }
    ensures { OnOk result (IsGrown p.now.names (computed_by p.now.execs piece) found.old.items found.new.items) }
{
    let Some(exec) = exec_of(p, piece) else {
        return Ok(());
    };
    match piece.kind {
        PieceKind::Act => collect_exec(alloc, &p.names, &exec.kind, found),
        PieceKind::Branch => collect_branch(alloc, &p.names, &exec.kind, found),
        _ => Ok(()),
    }
}

// The candidates of an executable.
fn collect_exec(
    alloc: Global,
    names: &NameInfoList,
    kind: &ExecKind,
    found: &mut Vec<Expr>,
) -> Result<(), NoMemory>
    requires { All (IsExpression names.now) (expressions kind.now) }
    ensures { OnOk result (IsGrown names.now (all_subexpressions (expressions kind.now)) found.old.items found.new.items) }
{
    match kind {
        ExecKind::Assign { target, value, .. } => {
            collect_all(alloc, names, &target.subs, found)?;
            collect(alloc, names, value, found)?;
        }
        ExecKind::Print { items, .. } => collect_items(alloc, names, items, found)?,
        ExecKind::Test { cond, .. } => {
            collect(alloc, names, cond, found)?;
        }
        ExecKind::Sign { value, .. } | ExecKind::Pick { value, .. } => {
            collect(alloc, names, value, found)?;
        }
        ExecKind::DoStart {
            first,
            last,
            step,
            ..
        } => {
            collect(alloc, names, first, found)?;
            collect(alloc, names, last, found)?;
            collect(alloc, names, step, found)?;
        }
        ExecKind::Pass { .. } => (),
        ExecKind::DoNext { .. } => (),
        ExecKind::End => (),
    }
    Ok(())
}

// The candidates of what a branch goes by. The test of a DO looks at its count alone.
fn collect_branch(
    alloc: Global,
    names: &NameInfoList,
    kind: &ExecKind,
    found: &mut Vec<Expr>,
) -> Result<(), NoMemory>
    requires { All (IsExpression names.now) (expressions kind.now) }
    ensures { OnOk result (IsGrown names.now (all_subexpressions (selectors kind.now)) found.old.items found.new.items) }
{
    match kind {
        ExecKind::DoStart { .. } => Ok(()),
        kind => collect_exec(alloc, names, kind, found),
    }
}

// The candidates of what is printed.
fn collect_items(
    alloc: Global,
    names: &NameInfoList,
    items: &ItemList,
    found: &mut Vec<Expr>,
) -> Result<(), NoMemory>
    requires { All (IsExpression names.now) (flat_map in_item items.now) }
    ensures { OnOk result (IsGrown names.now (all_subexpressions (flat_map in_item items.now)) found.old.items found.new.items) }
{
    for item in items.as_slice() {
        collect_item(alloc, names, item, found)?;
    }
    Ok(())
}

fn collect_item(
    alloc: Global,
    names: &NameInfoList,
    item: &Item,
    found: &mut Vec<Expr>,
) -> Result<(), NoMemory>
    requires { All (IsExpression names.now) (in_item item.now) }
    ensures { OnOk result (IsGrown names.now (all_subexpressions (in_item item.now)) found.old.items found.new.items) }
{
    match item {
        Item::Value(e) => {
            collect(alloc, names, e, found)?;
        }
        Item::Chars(_) => (),
    }
    Ok(())
}

/// For each piece the classes that it writes.
pub(crate) fn writes_of<const W: usize>(
    alloc: Global,
    p: &Program,
    f: &Flow,
    c: &Classes<W>,
) -> Result<Vec<ClassSet<W>>, NoMemory>
    requires width { IsWidth W }
    requires program { IsWellFormed p.now }
    requires classes { c.now.names ≡ p.now.names }
    ensures pieces { IfOk result (λ all. length all.items ≡ length f.now.pieces) }
    ensures writes { IfOk result (λ all. (node n : ℕ) (d : ClassSet W) → node < length f.now.pieces → (holds (slice_index_or all.items node d) n ≡ true) ↔ WritesAt c.now p.now.execs f.now.pieces node n) }
{
    let mut all = Vec::new(alloc);
    for node in 0..f.pieces() {
        all.push(piece_writes(alloc, p, c, f.piece(node)))?;
    }
    Ok(all)
}

// The classes that a piece writes.
fn piece_writes<const W: usize>(
    alloc: Global,
    p: &Program,
    c: &Classes<W>,
    piece: Piece,
) -> ClassSet<W>
    requires width { IsWidth W }
    requires program { IsWellFormed p.now }
    requires classes { c.now.names ≡ p.now.names }
    ensures { (n : ℕ) → (holds result n ≡ true) ↔ PieceWrites c.now piece.kind (kind_of_piece p.now.execs piece) n }
{
    let Some(exec) = exec_of(p, piece) else {
        return ClassSet::empty();
    };
    match piece.kind {
        PieceKind::Act => exec_writes(alloc, c, &exec.kind),
        _ => ClassSet::empty(),
    }
}

// The classes that an executable writes.
fn exec_writes<const W: usize>(alloc: Global, c: &Classes<W>, kind: &ExecKind) -> ClassSet<W>
    requires width { IsWidth W }
    requires target { TargetFits c.now.names kind.now }
    ensures { (n : ℕ) → (holds result n ≡ true) ↔ ExecWrites c.now kind.now n }
{
    match kind {
        ExecKind::Assign { target, .. } => c.hits(target),
        ExecKind::DoStart { var, .. } => scalar_writes(alloc, c, *var),
        ExecKind::DoNext { var, .. } => scalar_writes(alloc, c, *var),
        _ => ClassSet::empty(),
    }
}

// The class of the word of a name without dimensions.
fn scalar_writes<const W: usize>(alloc: Global, c: &Classes<W>, name: u32) -> ClassSet<W>
    requires { IsScalarName c.now.names name }
    ensures { (n : ℕ) → (holds result n ≡ true) ↔ (class_of_word c.now (place_of c.now.names name) ≡ n) }
{
    c.hits(&Access {
        name,
        subs: Sequence::new(alloc),
    })
}
