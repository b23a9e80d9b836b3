ghost use Rattle.std.specs.Prelude.{◌≡◌, ◌+◌, ◌<◌, ◌≤◌, IfOk, pos, length, slice_get, if◌then◌else◌, OnErr, None};
ghost use Rattle.op_table.specs.Words.{is_true};
ghost use Rattle.f77_tree.specs.Execution.{assigned, branched, do_begun, outcome, by_sign, by_number, words_taken};
ghost use Rattle.f77_tree.specs.Value.{value, place, place_of, IsExpression, IsAccess, ArePlaced};
ghost use Rattle.f77_tree.specs.CanRun.{CanExecute};
ghost use Rattle.f77_meaning.specs.Kinds.{IsSilent};
ghost use Rattle.f77_meaning.specs.Storage.{memory_of, outcome_of, HasSizes};

use crate::branches::{successor_by_number, successor_by_sign};
use crate::storage::{Storage, begin, increment};
use crate::taking::count_taken;
use df_sequence::LabelList;
use f77_tree::{Access, ExecKind, Expr, NameInfoList, Program, evaluate, locate};
use op_table::Trap;

/// Assigns a value, and answers the successor. The target's subscripts come before the value; where one of them or the
/// value traps, nothing changes (ANSI X3.9-1978, section 10). It takes no memory.
pub fn assign(
    s: &mut Storage,
    names: &NameInfoList,
    input: &Vec<i32>,
    target: &Access,
    e: &Expr,
    next: u32,
) -> Result<u32, Trap>
    requires target { IsAccess names.now target.now }
    requires expression { IsExpression names.now e.now }
    requires places { ArePlaced names.now (length s.old.store.items) }
    requires data { s.old.taken ≤ length input.now.items }
    ensures outcome { let word = slice_get input.now.items s.old.taken in assigned (memory_of s.old) next (s.old.taken + words_taken e.now) (place names.now s.old.store.items word target.now) (value names.now s.old.store.items word e.now) ≡ outcome_of result (memory_of s.new) }
    ensures trap { OnErr result (s.new ≡ s.old) }
    ensures sizes { HasSizes s.old s.new }
    ensures data { s.new.taken ≤ length input.now.items }
{
    let k = word_of(target, names, &s.store, next_word(input, s.taken))?;
    let z = value_of(e, names, &s.store, input, s.taken)?;
    s.store[k as usize] = z;
    s.taken += count_taken(e);
    Ok(next)
}

// The word that an access names.
#[tactic(auto, using(crate::proofs::Words::place_inside))]
fn word_of(
    access: &Access,
    names: &NameInfoList,
    store: &Vec<i32>,
    next: Option<i32>,
) -> Result<u32, Trap>
    requires access { IsAccess names.now access.now }
    requires places { ArePlaced names.now (length store.now.items) }
    ensures place { result ≡ place names.now store.now.items next access.now }
    ensures inside { IfOk result (λ word. word < length store.now.items) }
{
    locate(access, names, store, next)
}

// The value of an expression over the next word of the data.
fn value_of(
    e: &Expr,
    names: &NameInfoList,
    store: &Vec<i32>,
    input: &Vec<i32>,
    taken: usize,
) -> Result<i32, Trap>
    requires expression { IsExpression names.now e.now }
    requires places { ArePlaced names.now (length store.now.items) }
    requires data { taken ≤ length input.now.items }
    ensures value { result ≡ value names.now store.now.items (slice_get input.now.items taken) e.now }
    ensures data { IfOk result (λ z. taken + words_taken e.now ≤ length input.now.items) }
{
    evaluate(e, names, store, next_word(input, taken))
}

// The next word of the data, if there is one.
fn next_word(input: &Vec<i32>, taken: usize) -> Option<i32>
    ensures { result ≡ slice_get input.now.items taken }
{
    input.get(taken).copied()
}

// The successor of a test.
fn test(s: &Storage, names: &NameInfoList, cond: &Expr, yes: u32, no: u32) -> Result<u32, Trap>
    requires expression { IsExpression names.now cond.now }
    requires places { ArePlaced names.now (length s.now.store.items) }
    ensures { branched (memory_of s.now) (λ z. if is_true z then yes else no) (value names.now s.now.store.items None cond.now) ≡ outcome_of result (memory_of s.now) }
{
    let z = evaluate(cond, names, &s.store, None)?;
    Ok(if z != 0 { yes } else { no })
}

// The successor of an arithmetic IF.
fn sign(
    s: &Storage,
    names: &NameInfoList,
    e: &Expr,
    neg: u32,
    zero: u32,
    pos: u32,
) -> Result<u32, Trap>
    requires expression { IsExpression names.now e.now }
    requires places { ArePlaced names.now (length s.now.store.items) }
    ensures { branched (memory_of s.now) (by_sign neg zero pos) (value names.now s.now.store.items None e.now) ≡ outcome_of result (memory_of s.now) }
{
    let z = evaluate(e, names, &s.store, None)?;
    Ok(successor_by_sign(z, neg, zero, pos))
}

// The successor of a computed GO TO.
fn pick(
    s: &Storage,
    names: &NameInfoList,
    e: &Expr,
    targets: &LabelList,
    other: u32,
) -> Result<u32, Trap>
    requires expression { IsExpression names.now e.now }
    requires places { ArePlaced names.now (length s.now.store.items) }
    ensures { branched (memory_of s.now) (by_number targets.now other (pos (length targets.now))) (value names.now s.now.store.items None e.now) ≡ outcome_of result (memory_of s.now) }
{
    let v = evaluate(e, names, &s.store, None)?;
    Ok(successor_by_number(v, targets, other))
}

// Begins a DO whose variable has this word.
fn start_loop(
    s: &mut Storage,
    names: &NameInfoList,
    loop_no: u32,
    word: u32,
    first: &Expr,
    last: &Expr,
    step: &Expr,
    body: u32,
    exit: u32,
) -> Result<u32, Trap>
    requires first { IsExpression names.now first.now }
    requires last { IsExpression names.now last.now }
    requires step { IsExpression names.now step.now }
    requires places { ArePlaced names.now (length s.old.store.items) }
    requires word { word < length s.old.store.items }
    requires count { loop_no < length s.old.counts.items }
    requires kept { loop_no < length s.old.steps.items }
    ensures outcome { do_begun (memory_of s.old) loop_no word body exit (value names.now s.old.store.items None first.now) (value names.now s.old.store.items None last.now) (value names.now s.old.store.items None step.now) ≡ outcome_of result (memory_of s.new) }
    ensures trap { OnErr result (s.new ≡ s.old) }
    ensures sizes { HasSizes s.old s.new }
    ensures data { s.new.taken ≡ s.old.taken }
{
    let first = evaluate(first, names, &s.store, None)?;
    let last = evaluate(last, names, &s.store, None)?;
    let step = evaluate(step, names, &s.store, None)?;
    begin(s, loop_no, word, body, exit, first, last, step)
}

// The first word of a name.
fn place_of_name(names: &NameInfoList, k: u32) -> u32
    requires { k < length names.now }
    ensures { result ≡ place_of names.now k }
{
    names.at(k).place
}

/// Executes what writes nothing and does not end the run, and answers the successor; where it traps, nothing changes. It
/// takes no memory.
pub fn execute(s: &mut Storage, p: &Program, input: &Vec<i32>, kind: &ExecKind) -> Result<u32, Trap>
    requires silent { IsSilent kind.now }
    requires executes { CanExecute p.now kind.now }
    requires places { ArePlaced p.now.names (length s.old.store.items) }
    requires words { length s.old.store.items ≡ p.now.words }
    requires counts { length s.old.counts.items ≡ p.now.loops }
    requires steps { length s.old.steps.items ≡ p.now.loops }
    requires data { s.old.taken ≤ length input.now.items }
    ensures outcome { outcome p.now.names input.now.items (memory_of s.old) kind.now ≡ outcome_of result (memory_of s.new) }
    ensures trap { OnErr result (s.new ≡ s.old) }
    ensures sizes { HasSizes s.old s.new }
    ensures data { s.new.taken ≤ length input.now.items }
{
    let names = &p.names;
    match kind {
        ExecKind::Assign {
            target,
            value,
            next,
        } => assign(s, names, input, target, value, *next),
        ExecKind::Pass { next } => Ok(*next),
        ExecKind::Test { cond, yes, no } => test(s, names, cond, *yes, *no),
        ExecKind::Sign {
            value,
            neg,
            zero,
            pos,
        } => sign(s, names, value, *neg, *zero, *pos),
        ExecKind::Pick {
            value,
            targets,
            other,
        } => pick(s, names, value, targets, *other),
        ExecKind::DoStart {
            loop_no,
            var,
            first,
            last,
            step,
            body,
            exit,
        } => start_loop(
            s,
            names,
            *loop_no,
            place_of_name(names, *var),
            first,
            last,
            step,
            *body,
            *exit,
        ),
        ExecKind::DoNext {
            loop_no,
            var,
            body,
            exit,
        } => Ok(increment(s, *loop_no, place_of_name(names, *var), *body, *exit)),
        ExecKind::Print { items: _, next: _ } | ExecKind::End => Ok(0),
    }
}
