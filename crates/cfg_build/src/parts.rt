//! The parts that the executables of a program have in its flow graph, each with where it leads.

ghost use Rattle.std.specs.Prelude.{◌≡◌, ◌+◌, ◌<◌, ◌++◌, ◌∷◌, [], ℕ, false, length, IfOk, OnOk, slice_index, slice_index_or, slice_get, Option};
ghost use Rattle.std.specs.Option.{option_map};
ghost use Rattle.f77_tree.specs.Loops.{begun, do_start, Loop};
ghost use Rattle.f77_tree.specs.WellFormed.{IsWellFormed};
ghost use Rattle.cfg_build.specs.Control.{is_reached};
ghost use Rattle.cfg_build.specs.Parts.{part, parts, parts_in, ways_on, start_part, end_part, first_kind};

use crate::outs::Outs;
use crate::pieces::{Piece, PieceKind};
use crate::reached::successors;
use df_sequence::NoMemory;
use f77_tree::{Exec, ExecKind, Program};
use std::alloc::Global;

/// Where control goes: to the first part of an executable, or to the test of the DO that an executable begins.
#[derive(Clone, Copy, Debug, PartialEq, Eq)]
pub enum Target {
    /// Where control begins.
    Start,
    /// The first part of the executable.
    First(u32),
    /// The test of the DO that the executable begins.
    Test(u32),
}

impl Default for Target {
    fn default() -> Target {
        Target::Start
    }
}

/// A part of an executable, or the start.
#[derive(Drop)]
pub struct Part {
    /// Where control comes to it.
    pub own: Target,
    /// What it is in the flow graph.
    pub piece: Piece,
    /// Where it leads, in order.
    pub outs: Outs,
}

/// The start, the parts of the executables that control can come to, and the end.
pub(crate) fn parts_of(alloc: Global, p: &Program, reached: &[bool]) -> Result<Vec<Part>, NoMemory>
    requires well_formed { IsWellFormed p.now }
    requires count { length reached.now ≡ length p.now.execs }
    requires reached { (k : ℕ) → k < length p.now.execs → slice_index_or reached.now k false ≡ is_reached p.now.execs k }
    ensures { IfOk result (λ v. v.items ≡ parts p.now.execs) }
{
    let starts = loop_starts(alloc, p)?;
    let mut parts = Vec::with_capacity(alloc, p.execs.len() as usize + 2)?;
    parts.push(start_part(alloc)?)?;
    for k in 0..p.execs.len() {
        if reached[k as usize] {
            push_parts(alloc, &mut parts, p, k, &starts)?;
        }
    }
    parts.push(end_part(alloc, p))?;
    Ok(parts)
}

// For each DO the executable that begins it.
fn loop_starts(alloc: Global, p: &Program) -> Result<Vec<u32>, NoMemory>
    requires { IsWellFormed p.now }
    ensures count { IfOk result (λ starts. length starts.items ≡ p.now.loops) }
    ensures starts { IfOk result (λ starts. (n : ℕ) → n < p.now.loops → slice_index starts.items n ≡ do_start p.now.execs n) }
{
    let mut starts = vec![in alloc; 0; p.loops as usize]?;
    for k in 0..p.execs.len() {
        if let Some(n) = loop_begun(&p.execs.at(k).kind) {
            starts[n as usize] = k;
        }
    }
    Ok(starts)
}

// The number of the DO that an executable begins.
fn loop_begun(kind: &ExecKind) -> Option<u32>
    ensures { result ≡ option_map (λ (loop : Loop). loop.number) (begun kind.now) }
{
    match kind {
        ExecKind::DoStart { loop_no, .. } => Some(*loop_no),
        _ => None,
    }
}

fn start_part(alloc: Global) -> Result<Part, NoMemory>
    ensures { IfOk result (λ x. x ≡ start_part) }
{
    let mut outs = Outs::new(alloc);
    outs.push(Target::First(0))?;
    Ok(Part {
        own: Target::Start,
        piece: Piece {
            kind: PieceKind::Start,
            line: 0,
            exec: 0,
        },
        outs,
    })
}

fn end_part(alloc: Global, p: &Program) -> Part
    requires { 0 < length p.now.execs }
    ensures { result ≡ end_part p.now.execs }
{
    let last = p.execs.len() - 1;
    Part {
        own: Target::First(last),
        piece: Piece {
            kind: PieceKind::End,
            line: p.execs.at(last).line,
            exec: last,
        },
        outs: Outs::new(alloc),
    }
}

// Puts the parts of an executable at the end.
fn push_parts(
    alloc: Global,
    parts: &mut Vec<Part>,
    p: &Program,
    k: u32,
    starts: &[u32],
) -> Result<(), NoMemory>
    requires well_formed { IsWellFormed p.now }
    requires exec { k < length p.now.execs }
    requires count { length starts.now ≡ p.now.loops }
    requires starts { (n : ℕ) → n < p.now.loops → slice_index starts.now n ≡ do_start p.now.execs n }
    ensures { OnOk result (parts.new.items ≡ parts.old.items ++ parts_in p.now.execs k (slice_get p.now.execs k)) }
{
    let exec = p.execs.at(k);
    match &exec.kind {
        ExecKind::End => Ok(()),
        ExecKind::DoStart { .. } => {
            let outs = to_test(alloc, k)?;
            push_part(parts, Target::First(k), exec, PieceKind::Act, k, outs)?;
            let outs = to_successors(alloc, &exec.kind)?;
            push_part(parts, Target::Test(k), exec, PieceKind::Branch, k, outs)
        }
        ExecKind::DoNext { loop_no, .. } => {
            let outs = to_test(alloc, starts[*loop_no as usize])?;
            push_part(parts, Target::First(k), exec, PieceKind::Act, k, outs)
        }
        kind => {
            let outs = to_successors(alloc, kind)?;
            push_part(parts, Target::First(k), exec, first_kind(kind), k, outs)
        }
    }
}

fn push_part(
    parts: &mut Vec<Part>,
    own: Target,
    exec: &Exec,
    kind: PieceKind,
    k: u32,
    outs: Outs,
) -> Result<(), NoMemory>
    ensures { OnOk result (parts.new.items ≡ parts.old.items ++ part own kind exec.now.line k outs ∷ []) }
{
    let piece = Piece {
        kind,
        line: exec.line,
        exec: k,
    };
    parts.push(Part { own, piece, outs })?;
    Ok(())
}

// What the first part of an executable is.
fn first_kind(kind: &ExecKind) -> PieceKind
    ensures { result ≡ first_kind kind.now }
{
    match kind {
        ExecKind::Assign { .. } | ExecKind::Print { .. } => PieceKind::Act,
        ExecKind::Pass { .. } => PieceKind::Pass,
        ExecKind::Test { .. } | ExecKind::Sign { .. } | ExecKind::Pick { .. } => PieceKind::Branch,
        ExecKind::DoStart { .. } | ExecKind::DoNext { .. } => PieceKind::Act,
        ExecKind::End => PieceKind::End,
    }
}

// The way to the test of a DO.
fn to_test(alloc: Global, start: u32) -> Result<Outs, NoMemory>
    ensures { IfOk result (λ outs. outs ≡ Target.Test start ∷ []) }
{
    let mut outs = Outs::new(alloc);
    outs.push(Target::Test(start))?;
    Ok(outs)
}

// The ways to the first parts of the successors.
fn to_successors(alloc: Global, kind: &ExecKind) -> Result<Outs, NoMemory>
    ensures { IfOk result (λ outs. outs ≡ ways_on kind.now) }
{
    let mut outs = Outs::new(alloc);
    let heads = successors(alloc, kind)?;
    for head in heads.as_slice() {
        outs.push(Target::First(*head))?;
    }
    Ok(outs)
}
