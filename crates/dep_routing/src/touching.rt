//! Which lines the pieces of a program's flow graph touch.

ghost use Rattle.std.specs.Prelude.{◌≡◌, ◌<◌, ◌*◌, ◌↔◌, ◌⊎◌, ℕ, true, false, length, IfOk, IsTrue, slice_get, slice_index_or};
ghost use Rattle.class_set.specs.Members.{IsWidth};
ghost use Rattle.closed_walks.specs.Graph.{edge_count};
ghost use Rattle.f77_tree.specs.CanRun.{CanExecute};
ghost use Rattle.f77_tree.specs.Touched.{ExecReadsData};
ghost use Rattle.f77_tree.specs.WellFormed.{IsWellFormed};
ghost use Rattle.alias_classes.specs.Classes.{IsClasses, class_count};
ghost use Rattle.alias_classes.specs.Needs.{ExecNeeds};
ghost use Rattle.cfg_build.specs.Flow.{flow};
ghost use Rattle.cfg_build.specs.Passes.{kind_in};
ghost use Rattle.dep_routing.specs.PieceLines.{AreLines, BranchNeedsOut, RunsExecutable, AreLinesOf};
ghost use Rattle.dep_routing.specs.Touch.{touches_in};
ghost use Rattle.dep_routing.specs.Touches.{AreTouches, AreTouchesBy, BranchNeeds, BranchTraps, CanTrapAt, IsFlagged, Prints, ends_rounds, is_increment as spec_is_increment};

use crate::TouchList;
use crate::branch_needs::branch_need;
use alias_classes::{Classes, exec_need, needs_are_numbered};
use cfg_build::{Flow, Piece, PieceKind, flow_graph_has_shape, pieces_run_executables};
use class_set::ClassSet;
use closed_walks::on_cycles;
use df_sequence::{NoMemory, Sequence};
use f77_tree::{
    ExecKind, Program, exec_may_trap, well_formed_programs_can_run, what_takes_data_can_trap,
};
use std::alloc::Global;

// The line of output. The other lines are classes, whose numbers begin at 1.
const OUTPUT: u32 = 0;

/// For each piece of the flow graph of a program the set of the lines that it touches. Line 0 is that of output, and the others
/// are the classes of the program.
pub fn touches<const W: usize>(
    alloc: Global,
    p: &Program,
    f: &Flow,
    c: &Classes<W>,
) -> Result<TouchList<W>, NoMemory>
    requires width { IsWidth W }
    requires program { IsWellFormed p.now }
    requires flow { f.now ≡ flow p.now.execs }
    requires classes { IsClasses p.now c.now }
    requires few { class_count c.now < 64 * W }
    ensures pieces { IfOk result (λ list. length list ≡ (flow p.now.execs).graph.nodes) }
    ensures touches { IfOk result (λ list. AreTouches p.now c.now (touches_in list)) }
{
    what_takes_data_can_trap();
    let may_trap = trap_flags(alloc, p)?;
    touches_by(alloc, p, f, c, &may_trap)
}

/// The same, where it is told of each executable whether it may trap: other means may see that one doesn't which can trap by its text.
/// What takes data may trap.
pub fn touches_by<const W: usize>(
    alloc: Global,
    p: &Program,
    f: &Flow,
    c: &Classes<W>,
    may_trap: &[bool],
) -> Result<TouchList<W>, NoMemory>
    requires width { IsWidth W }
    requires program { IsWellFormed p.now }
    requires flow { f.now ≡ flow p.now.execs }
    requires classes { IsClasses p.now c.now }
    requires few { class_count c.now < 64 * W }
    requires input { (k : ℕ) → ExecReadsData (kind_in (slice_get p.now.execs k)) → IsFlagged may_trap.now k }
    ensures pieces { IfOk result (λ list. length list ≡ (flow p.now.execs).graph.nodes) }
    ensures touches { IfOk result (λ list. AreTouchesBy p.now c.now (IsFlagged may_trap.now) (touches_in list)) }
{
    let ends = round_ends(alloc, p, f)?;
    let rounds = on_cycles(alloc, f.graph(), &ends)?;
    pieces_run_executables();
    let mut list = Sequence::with_capacity(alloc, f.pieces() as usize)?;
    for node in 0..f.pieces() {
        let piece = f.piece(node);
        let may = is_flagged(may_trap, piece.exec);
        list.push(piece_lines(p, c, piece, rounds[node as usize], may))?;
    }
    Ok(list)
}

// For each executable whether it can trap by its text.
fn trap_flags(alloc: Global, p: &Program) -> Result<Vec<bool>, NoMemory>
    requires { IsWellFormed p.now }
    ensures { IfOk result (λ flags. (k : ℕ) → IsFlagged flags.items k ↔ CanTrapAt p.now k) }
{
    well_formed_programs_can_run();
    let mut flags = Vec::with_capacity(alloc, p.execs.len() as usize)?;
    for exec in p.execs.as_slice() {
        flags.push(exec_may_trap(p, &exec.kind))?;
    }
    Ok(flags)
}

// Whether there is such a flag, and it is set.
fn is_flagged(flags: &[bool], k: u32) -> bool
    ensures { result ≡ slice_index_or flags.now k false }
{
    (k as usize) < flags.len() && flags[k as usize]
}

// For each edge whether no run goes round for ever by it: edge 0, and those that leave increments.
fn round_ends(alloc: Global, p: &Program, f: &Flow) -> Result<Vec<bool>, NoMemory>
    requires program { IsWellFormed p.now }
    requires flow { f.now ≡ flow p.now.execs }
    ensures count { IfOk result (λ ends. length ends.items ≡ edge_count (flow p.now.execs).graph) }
    ensures each { IfOk result (λ ends. (e : ℕ) → e < edge_count (flow p.now.execs).graph → slice_index_or ends.items e false ≡ ends_rounds p.now e) }
{
    let mut ends = vec![in alloc; false; f.graph().edges() as usize]?;
    for e in 0..f.graph().edges() {
        ends[e as usize] = e == 0 || is_increment(p, f, f.graph().from(e));
    }
    Ok(ends)
}

// Whether the piece increments a DO.
fn is_increment(p: &Program, f: &Flow, node: u32) -> bool
    requires program { IsWellFormed p.now }
    requires flow { f.now ≡ flow p.now.execs }
    requires node { node < f.now.graph.nodes }
    ensures { result ≡ spec_is_increment p.now node }
{
    flow_graph_has_shape();
    pieces_run_executables();
    let piece = f.piece(node);
    match piece.kind {
        PieceKind::Act => matches!(p.execs.at(piece.exec).kind, ExecKind::DoNext { .. }),
        _ => false,
    }
}

// The lines that a piece touches, of which it is told whether it lies on a cycle that a run may go round for ever, and whether its
// executable may trap.
fn piece_lines<const W: usize>(
    p: &Program,
    c: &Classes<W>,
    piece: Piece,
    round: bool,
    may: bool,
) -> ClassSet<W>
    requires width { IsWidth W }
    requires program { IsWellFormed p.now }
    requires classes { IsClasses p.now c.now }
    requires few { class_count c.now < 64 * W }
    requires runs { RunsExecutable p.now piece }
    requires input { ExecReadsData (kind_in (slice_get p.now.execs piece.exec)) → may ≡ true }
    ensures { AreLinesOf p.now c.now piece round may result }
{
    well_formed_programs_can_run();
    match piece.kind {
        PieceKind::Act => act_lines(p, c, &p.execs.at(piece.exec).kind, may),
        PieceKind::Branch => branch_lines(p, c, &p.execs.at(piece.exec).kind, round, may),
        PieceKind::Hold => ClassSet::empty().with(OUTPUT),
        PieceKind::Start | PieceKind::Pass | PieceKind::Join | PieceKind::End => ClassSet::empty(),
    }
}

// The lines that an act touches. What takes data may trap.
fn act_lines<const W: usize>(p: &Program, c: &Classes<W>, kind: &ExecKind, may: bool) -> ClassSet<W>
    requires width { IsWidth W }
    requires program { IsWellFormed p.now }
    requires classes { IsClasses p.now c.now }
    requires few { class_count c.now < 64 * W }
    requires executes { CanExecute p.now kind.now }
    requires input { ExecReadsData kind.now → may ≡ true }
    ensures { AreLines result (Prints kind.now ⊎ (ExecReadsData kind.now ⊎ (may ≡ true))) (ExecNeeds c.now kind.now) }
{
    needs_are_numbered();
    let classes = exec_need(p, c, kind);
    if matches!(kind, ExecKind::Print { .. }) || may {
        classes.with(OUTPUT)
    } else {
        classes
    }
}

// The lines that a branch touches.
fn branch_lines<const W: usize>(
    p: &Program,
    c: &Classes<W>,
    kind: &ExecKind,
    round: bool,
    may: bool,
) -> ClassSet<W>
    requires width { IsWidth W }
    requires program { IsWellFormed p.now }
    requires classes { IsClasses p.now c.now }
    requires few { class_count c.now < 64 * W }
    requires executes { CanExecute p.now kind.now }
    ensures { AreLines result (BranchNeedsOut c.now (may ≡ true) kind.now round) (BranchNeeds c.now kind.now) }
{
    needs_are_numbered();
    let classes = branch_need(p, c, kind);
    if round || branch_traps(kind, may) || classes.next_after(None).is_none() {
        classes.with(OUTPUT)
    } else {
        classes
    }
}

// Whether what a branch runs may trap. The test of a DO only looks at the count.
fn branch_traps(kind: &ExecKind, may: bool) -> bool
    ensures { IsTrue result ↔ BranchTraps (may ≡ true) kind.now }
{
    match kind {
        ExecKind::DoStart { .. } => false,
        _ => may,
    }
}
