//! Assignments to temporaries, and statements in which temporaries stand for shared candidates.

ghost use Rattle.std.specs.Prelude.{◌≡◌, ◌<◌, [], ◌&&◌, not, if◌then◌else◌, All, Some, length, filter, fold, IfOk, OnOk};
ghost use Rattle.cfg_build.specs.Flow.{flow};
ghost use Rattle.redundancy.specs.Available.{available_at};
ghost use Rattle.simplified_forms.specs.Items.{own_piece};
ghost use Rattle.shared_forms.specs.Numbered.{added, AreTemporaries, number_of};
ghost use Rattle.shared_forms.specs.Shared.{due as due_at, is_one_of as is_among, is_shared};

use crate::replacing::{Temporaries, name_of};
use crate::sharing::computed;
use cfg_build::Flow;
use df_sequence::NoMemory;
use std::alloc::Global;

/// The shared candidates that an executable computes and that aren't available where it begins, each once, in the order of evaluation.
pub(crate) fn due(
    alloc: Global,
    t: &Temporaries,
    f: &Flow,
    k: u32,
    node: u32,
) -> Result<Vec<usize>, NoMemory>
    requires names { AreTemporaries t.now.q.now t.now.a.now t.now.names.now }
    requires flow { f.now ≡ flow t.now.q.now.execs }
    requires pieces { t.now.a.now.pieces ≡ f.now.graph.nodes }
    requires node { node ≡ own_piece t.now.q.now k }
    ensures { IfOk result (λ ns. ns.items ≡ due_at t.now.q.now t.now.a.now (number_of t.now.a.now) k) }
{
    let _exec = k;
    let numbers = computed(alloc, t.q, f, t.a, node)?;
    if node < f.pieces() {
        due_among(alloc, t, node, &numbers)
    } else {
        Ok(numbers)
    }
}

/// Those of these candidates that are shared and aren't available at a piece, each once, in order. It takes a step for each pair of them.
fn due_among(
    alloc: Global,
    t: &Temporaries,
    node: u32,
    numbers: &[usize],
) -> Result<Vec<usize>, NoMemory>
    requires names { AreTemporaries t.now.q.now t.now.a.now t.now.names.now }
    requires node { node < t.now.a.now.pieces }
    requires numbers { All (λ n. n < length t.now.a.now.candidates) numbers.now }
    ensures { IfOk result (λ ns. ns.items ≡ fold added [] (filter (λ n. is_shared t.now.q.now t.now.a.now (number_of t.now.a.now) n && not (available_at t.now.a.now n node)) numbers.now)) }
{
    let mut due = Vec::new(alloc);
    for n in numbers {
        add_due(t, node, *n, &mut due)?;
    }
    Ok(due)
}

/// Appends a candidate that is shared and isn't available at a piece, if it isn't there yet.
fn add_due(t: &Temporaries, node: u32, n: usize, due: &mut Vec<usize>) -> Result<(), NoMemory>
    requires names { AreTemporaries t.now.q.now t.now.a.now t.now.names.now }
    requires node { node < t.now.a.now.pieces }
    requires n { n < length t.now.a.now.candidates }
    ensures { OnOk result (due.new.items ≡ (if is_shared t.now.q.now t.now.a.now (number_of t.now.a.now) n && not (available_at t.now.a.now n node) then added due.old.items n else due.old.items)) }
{
    if !is_due(t, node, n) {
        return Ok(());
    }
    add(n, due)
}

/// Whether a candidate is shared and isn't available at a piece.
fn is_due(t: &Temporaries, node: u32, n: usize) -> bool
    requires names { AreTemporaries t.now.q.now t.now.a.now t.now.names.now }
    requires node { node < t.now.a.now.pieces }
    requires n { n < length t.now.a.now.candidates }
    ensures { result ≡ (is_shared t.now.q.now t.now.a.now (number_of t.now.a.now) n && not (available_at t.now.a.now n node)) }
{
    match name_of(t, n) {
        None => false,
        Some(_) => !t.a.at(n, node),
    }
}

/// Appends a number, if it isn't there yet.
fn add(n: usize, found: &mut Vec<usize>) -> Result<(), NoMemory>
    ensures { OnOk result (found.new.items ≡ added found.old.items n) }
{
    if is_one_of(found, n) {
        return Ok(());
    }
    found.push(n)?;
    Ok(())
}

/// Whether a number stands among these.
fn is_one_of(ns: &[usize], n: usize) -> bool
    ensures { result ≡ is_among ns.now n }
{
    for m in ns {
        if *m == n {
            return true;
        }
    }
    false
}
