//! Which candidates executables compute, and which of them are shared.

ghost use Rattle.std.specs.Prelude.{◌≡◌, ◌<◌, ◌++◌, ◌||◌, ◌&&◌, ℕ, All, Some, flat_map, length, IfOk, OnOk, [], ◌∷◌};
ghost use Rattle.cfg_build.specs.Flow.{flow, piece_at};
ghost use Rattle.redundancy.specs.Available.{available_at};
ghost use Rattle.redundancy.specs.Candidates.{subexpressions};
ghost use Rattle.redundancy.specs.Collected.{all_subexpressions};
ghost use Rattle.redundancy.specs.Computed.{computed_by, expressions, in_item, selectors};
ghost use Rattle.shared_forms.specs.Numbered.{number_of, numbers_in, parts};
ghost use Rattle.simplified_forms.specs.Items.{own_piece};
ghost use Rattle.simplified_forms.specs.Plans.{answer};
ghost use Rattle.shared_forms.specs.Shared.{computed as computed_at, is_available, is_one_of, is_shared};
ghost use Rattle.simplified_forms.specs.Tables.{AreAnswers};

use cfg_build::{Flow, Piece, PieceKind};
use df_sequence::NoMemory;
use f77_tree::{ExecKind, Expr, ExprList, Item, ItemList, Program};
use redundancy::Avail;
use simplified_forms::own_pieces;
use std::alloc::Global;

// ---- candidates in expressions

/// Appends the numbers of the candidates in an expression, in the order of evaluation.
#[cycle(numbers)]
fn append_numbers(a: &Avail, e: &Expr, found: &mut Vec<usize>) -> Result<(), NoMemory>
    ensures { OnOk result (found.new.items ≡ found.old.items ++ numbers_in a.now.candidates (subexpressions e.now)) }
{
    append_parts(a, e, found)?;
    append_number(a, e, found)
}

/// Appends the numbers of the candidates that stand in an expression besides itself.
#[cycle(numbers)]
fn append_parts(a: &Avail, e: &Expr, found: &mut Vec<usize>) -> Result<(), NoMemory>
    ensures { OnOk result (found.new.items ≡ found.old.items ++ numbers_in a.now.candidates (parts e.now)) }
{
    match e {
        Expr::Const(_) => Ok(()),
        Expr::Truth(_) => Ok(()),
        Expr::Input => Ok(()),
        Expr::Read(access) => append_all_numbers(a, &access.subs, found),
        Expr::Apply(_, args) => append_all_numbers(a, args, found),
    }
}

/// Appends the numbers of the candidates in these expressions.
#[cycle(numbers)]
fn append_all_numbers(a: &Avail, es: &ExprList, found: &mut Vec<usize>) -> Result<(), NoMemory>
    ensures { OnOk result (found.new.items ≡ found.old.items ++ numbers_in a.now.candidates (all_subexpressions es.now)) }
{
    for e in es.as_slice() {
        append_numbers(a, e, found)?;
    }
    Ok(())
}

/// Appends the number of an expression, if it is a candidate.
fn append_number(a: &Avail, e: &Expr, found: &mut Vec<usize>) -> Result<(), NoMemory>
    ensures { OnOk result (found.new.items ≡ found.old.items ++ numbers_in a.now.candidates (e.now ∷ [])) }
{
    if let Some(n) = number(a, e) {
        found.push(n)?;
    }
    Ok(())
}

/// The number of the candidate that is this expression, if one is.
pub(crate) fn number(a: &Avail, e: &Expr) -> Option<usize>
    ensures { result ≡ number_of a.now e.now }
{
    a.number(e)
}

// ---- candidates that executables compute

/// Appends the numbers of the candidates in the expressions of an executable.
fn append_exec(a: &Avail, kind: &ExecKind, found: &mut Vec<usize>) -> Result<(), NoMemory>
    ensures { OnOk result (found.new.items ≡ found.old.items ++ numbers_in a.now.candidates (all_subexpressions (expressions kind.now))) }
{
    match kind {
        ExecKind::Assign { target, value, .. } => {
            append_all_numbers(a, &target.subs, found)?;
            append_numbers(a, value, found)
        }
        ExecKind::Print { items, .. } => append_items(a, items, found),
        ExecKind::Test { cond, .. } => append_numbers(a, cond, found),
        ExecKind::Sign { value, .. } => append_numbers(a, value, found),
        ExecKind::Pick { value, .. } => append_numbers(a, value, found),
        ExecKind::DoStart {
            first,
            last,
            step,
            ..
        } => {
            append_numbers(a, first, found)?;
            append_numbers(a, last, found)?;
            append_numbers(a, step, found)
        }
        ExecKind::Pass { .. } => Ok(()),
        ExecKind::DoNext { .. } => Ok(()),
        ExecKind::End => Ok(()),
    }
}

/// Appends the numbers of the candidates in what a branch goes by. The test of a DO looks at its count alone.
fn append_branch(a: &Avail, kind: &ExecKind, found: &mut Vec<usize>) -> Result<(), NoMemory>
    ensures { OnOk result (found.new.items ≡ found.old.items ++ numbers_in a.now.candidates (all_subexpressions (selectors kind.now))) }
{
    match kind {
        ExecKind::DoStart { .. } => Ok(()),
        kind => append_exec(a, kind, found),
    }
}

/// Appends the numbers of the candidates in what is printed.
fn append_items(a: &Avail, items: &ItemList, found: &mut Vec<usize>) -> Result<(), NoMemory>
    ensures { OnOk result (found.new.items ≡ found.old.items ++ numbers_in a.now.candidates (all_subexpressions (flat_map in_item items.now))) }
{
    for item in items.as_slice() {
        append_item(a, item, found)?;
    }
    Ok(())
}

fn append_item(a: &Avail, item: &Item, found: &mut Vec<usize>) -> Result<(), NoMemory>
    ensures { OnOk result (found.new.items ≡ found.old.items ++ numbers_in a.now.candidates (all_subexpressions (in_item item.now))) }
{
    match item {
        Item::Value(e) => append_numbers(a, e, found),
        Item::Chars(_) => Ok(()),
    }
}

/// Appends the numbers of the candidates that a piece computes.
fn append_piece(
    q: &Program,
    a: &Avail,
    piece: Piece,
    found: &mut Vec<usize>,
) -> Result<(), NoMemory>
    ensures { OnOk result (found.new.items ≡ found.old.items ++ numbers_in a.now.candidates (computed_by q.now.execs piece)) }
{
    if q.execs.len() <= piece.exec {
        return Ok(());
    }
    let exec = q.execs.at(piece.exec);
    match piece.kind {
        PieceKind::Act => append_exec(a, &exec.kind, found),
        PieceKind::Branch => append_branch(a, &exec.kind, found),
        PieceKind::Start => Ok(()),
        PieceKind::Join => Ok(()),
        PieceKind::Pass => Ok(()),
        PieceKind::Hold => Ok(()),
        PieceKind::End => Ok(()),
    }
}

/// The numbers of the candidates that a piece computes, in the order of evaluation; there are none where no piece has the number.
pub(crate) fn computed(
    alloc: Global,
    q: &Program,
    f: &Flow,
    a: &Avail,
    node: u32,
) -> Result<Vec<usize>, NoMemory>
    ensures { IfOk result (λ ns. ns.items ≡ numbers_in a.now.candidates (computed_by q.now.execs (piece_at f.now.pieces node))) }
{
    let mut found = Vec::new(alloc);
    if node < f.pieces() {
        append_piece(q, a, f.piece(node), &mut found)?;
    }
    Ok(found)
}

// ---- shared candidates

/// For each candidate whether it is shared.
pub(crate) fn shared_candidates(
    alloc: Global,
    q: &Program,
    f: &Flow,
    a: &Avail,
) -> Result<Vec<bool>, NoMemory>
    requires flow { f.now ≡ flow q.now.execs }
    requires pieces { a.now.pieces ≡ f.now.graph.nodes }
    ensures { IfOk result (λ shared. AreAnswers (is_shared q.now a.now (number_of a.now)) (length a.now.candidates) shared.items) }
{
    let own = own_pieces(alloc, q, f)?;
    let mut shared = vec![in alloc; false; a.count()]?;
    for k in 0..q.execs.len() {
        note_executable(alloc, q, f, a, k, own[k as usize], &mut shared)?;
    }
    Ok(shared)
}

/// Notes which candidates an executable computes where they are available.
fn note_executable(
    alloc: Global,
    q: &Program,
    f: &Flow,
    a: &Avail,
    k: u32,
    node: u32,
    shared: &mut Vec<bool>,
) -> Result<(), NoMemory>
    requires flow { f.now ≡ flow q.now.execs }
    requires pieces { a.now.pieces ≡ f.now.graph.nodes }
    requires node { node ≡ own_piece q.now k }
    requires size { length shared.old.items ≡ length a.now.candidates }
    ensures size { OnOk result (length shared.new.items ≡ length a.now.candidates) }
    ensures noted { OnOk result ((n : ℕ) → n < length a.now.candidates → answer shared.new.items n ≡ (answer shared.old.items n || (is_one_of (computed_at q.now a.now (number_of a.now) k) n && is_available q.now a.now (number_of a.now) k n))) }
{
    let _exec = k;
    let numbers = computed(alloc, q, f, a, node)?;
    if node < f.pieces() {
        note(a, node, &numbers, shared);
    }
    Ok(())
}

/// Notes those of these candidates that are available at a piece.
fn note(a: &Avail, node: u32, numbers: &[usize], shared: &mut Vec<bool>)
    requires node { node < a.now.pieces }
    requires numbers { All (λ n. n < length a.now.candidates) numbers.now }
    requires size { length shared.old.items ≡ length a.now.candidates }
    ensures size { length shared.new.items ≡ length a.now.candidates }
    ensures noted { (n : ℕ) → n < length a.now.candidates → answer shared.new.items n ≡ (answer shared.old.items n || (is_one_of numbers.now n && available_at a.now n node)) }
{
    for n in numbers {
        if a.at(*n, node) {
            shared[*n] = true;
        }
    }
}
