//! What a piece of a program does.

ghost use Rattle.std.specs.Prelude.{◌≡◌, ◌<◌, ◌≤◌, pos, length, vec_capacity};
ghost use Rattle.op_table.specs.Operators.{which_of_three, picked};
ghost use Rattle.op_table.specs.Trips.{at_least_zero};
ghost use Rattle.f77_tree.specs.CanRun.{CanRun, CanExecute};
ghost use Rattle.f77_tree.specs.Execution.{outcome, value_in};
ghost use Rattle.f77_tree.specs.Value.{IsExpression, ArePlaced};
ghost use Rattle.f77_meaning.specs.Room.{kind_room, most_room};
ghost use Rattle.f77_meaning.specs.Storage.{memory_of, HasSizes};
ghost use Rattle.cfg_build.specs.Passes.{acted, choice, out, outs as outs_in};
ghost use Rattle.net_board.specs.SoundNets.{HasSizesOf};
ghost use Rattle.net_board.specs.Nodes.{graph_in};
ghost use Rattle.net_board.specs.Tokens.{pass_at};
ghost use Rattle.token_net.specs.PieceRuns.{HasLine, KeepsStorage, MayChoose, going_on, told};
ghost use Rattle.net_tables.specs.PartsView.{net_in};

use cfg_build::PieceKind;
use df_sequence::LabelList;
use f77_meaning::{Storage, execute, write_line};
use f77_tree::{ExecKind, Expr, NameInfoList, Program, evaluate};
use net_tables::{Board, Plan, out_at};
use op_table::Trap;

/// What came of a piece.
#[derive(Clone, Copy, Debug, PartialEq, Eq)]
pub(crate) enum Ran {
    /// It takes this edge.
    Along(u32),
    /// It takes this edge, and has made a line.
    Wrote(u32),
    /// It trapped, and nothing changed.
    Trapped(Trap),
}

/// Runs a piece, which these edges leave: what it acts on the storage, the line that it makes, and the edge that it takes. It takes
/// no memory.
fn run<const W: usize>(
    plan: &Plan<W>,
    outs: &LabelList,
    piece: u32,
    storage: &mut Storage,
    draft: &mut Vec<u8>,
) -> Ran
    requires piece { piece < (graph_in (net_in plan.now)).nodes }
    requires outs { outs.now ≡ outs_in (graph_in (net_in plan.now)) piece }
    requires can_run { CanRun plan.now.program.now }
    requires sizes { HasSizesOf plan.now.program.now (memory_of storage.old) }
    requires data { storage.old.taken ≤ length plan.now.input.items }
    requires room { most_room plan.now.program.now.execs ≤ vec_capacity draft.old }
    ensures pass { going_on (out (graph_in (net_in plan.now)) piece 0) (memory_of storage.old) (pass_at (net_in plan.now) piece (memory_of storage.old)) ≡ told result (memory_of storage.new) draft.new.items }
    ensures kept { KeepsStorage result storage.old storage.new }
    ensures line { HasLine result draft.new.items }
    ensures sizes { HasSizes storage.old storage.new }
    ensures data { storage.new.taken ≤ length plan.now.input.items }
    ensures capacity { vec_capacity draft.old ≤ vec_capacity draft.new }
{
    let program = plan.program;
    let piece = plan.flow.piece(piece);
    let Some(exec) = program.execs.as_slice().get(piece.exec as usize) else {
        return Ran::Along(out_at(outs, 0));
    };
    match piece.kind {
        PieceKind::Act => act(
            program,
            out_at(outs, 0),
            &plan.input,
            &exec.kind,
            storage,
            draft,
        ),
        PieceKind::Branch => match choice(&program.names, storage, &exec.kind) {
            Ok(i) => Ran::Along(out_at(outs, i)),
            Err(trap) => Ran::Trapped(trap),
        },
        _ => Ran::Along(out_at(outs, 0)),
    }
}

/// Runs a piece: what it acts on the storage, the line that it makes, and the edge that it takes. It takes no memory.
pub(crate) fn run_on<const W: usize>(
    board: &Board<W>,
    piece: u32,
    storage: &mut Storage,
    draft: &mut Vec<u8>,
) -> Ran
    requires piece { piece < (graph_in (net_in board.now.plan)).nodes }
    requires can_run { CanRun board.now.plan.program.now }
    requires sizes { HasSizesOf board.now.plan.program.now (memory_of storage.old) }
    requires data { storage.old.taken ≤ length board.now.plan.input.items }
    requires room { most_room board.now.plan.program.now.execs ≤ vec_capacity draft.old }
    ensures pass { going_on (out (graph_in (net_in board.now.plan)) piece 0) (memory_of storage.old) (pass_at (net_in board.now.plan) piece (memory_of storage.old)) ≡ told result (memory_of storage.new) draft.new.items }
    ensures kept { KeepsStorage result storage.old storage.new }
    ensures line { HasLine result draft.new.items }
    ensures data { storage.new.taken ≤ length board.now.plan.input.items }
    ensures capacity { vec_capacity draft.old ≤ vec_capacity draft.new }
{
    run(&board.plan, board.outs(piece), piece, storage, draft)
}

/// Runs an executable, which then takes the edge.
fn act(
    p: &Program,
    edge: u32,
    input: &Vec<i32>,
    kind: &ExecKind,
    storage: &mut Storage,
    draft: &mut Vec<u8>,
) -> Ran
    requires can_run { CanRun p.now }
    requires executes { CanExecute p.now kind.now }
    requires sizes { HasSizesOf p.now (memory_of storage.old) }
    requires data { storage.old.taken ≤ length input.now.items }
    requires room { kind_room kind.now ≤ vec_capacity draft.old }
    ensures pass { going_on edge (memory_of storage.old) (acted edge (outcome p.now.names input.now.items (memory_of storage.old) kind.now)) ≡ told result (memory_of storage.new) draft.new.items }
    ensures kept { KeepsStorage result storage.old storage.new }
    ensures line { HasLine result draft.new.items }
    ensures sizes { HasSizes storage.old storage.new }
    ensures data { storage.new.taken ≤ length input.now.items }
    ensures capacity { vec_capacity draft.old ≤ vec_capacity draft.new }
{
    match kind {
        ExecKind::Print { items, .. } => match write_line(draft, items, &p.names, &storage.store) {
            Ok(()) => Ran::Wrote(edge),
            Err(trap) => Ran::Trapped(trap),
        },
        ExecKind::End => Ran::Along(edge),
        _ => match execute(storage, p, input, kind) {
            Ok(_) => Ran::Along(edge),
            Err(trap) => Ran::Trapped(trap),
        },
    }
}

/// Which of its edges a branch takes.
fn choice(names: &NameInfoList, s: &Storage, kind: &ExecKind) -> Result<u32, Trap>
    requires expressions { MayChoose names.now (length s.now.counts.items) kind.now }
    requires places { ArePlaced names.now (length s.now.store.items) }
    ensures { result ≡ choice names.now (memory_of s.now) kind.now }
{
    match kind {
        ExecKind::Test { cond, .. } => {
            let z = word_of(names, s, cond)?;
            Ok(if z != 0 { 0 } else { 1 })
        }
        ExecKind::Sign { value, .. } => {
            let z = word_of(names, s, value)?;
            Ok(which_sign(z))
        }
        ExecKind::Pick { value, targets, .. } => {
            let v = word_of(names, s, value)?;
            Ok(which_target(v, targets.len()))
        }
        ExecKind::DoStart { loop_no, .. } => Ok(if s.counts[*loop_no as usize] == 0 {
            1
        } else {
            0
        }),
        _ => Ok(0),
    }
}

/// The value of an expression that takes no data.
fn word_of(names: &NameInfoList, s: &Storage, e: &Expr) -> Result<i32, Trap>
    requires expression { IsExpression names.now e.now }
    requires places { ArePlaced names.now (length s.now.store.items) }
    ensures { result ≡ value_in names.now (memory_of s.now) e.now }
{
    evaluate(e, names, &s.store, None)
}

/// The first edge for a number below 0, the second for 0, the third for another.
fn which_sign(z: i32) -> u32
    ensures { result ≡ at_least_zero (which_of_three z) }
{
    if z < 0 {
        0
    } else if z == 0 {
        1
    } else {
        2
    }
}

/// The edge with this number, counted from 1, or the last one where it is none of so many.
fn which_target(v: i32, targets: u32) -> u32
    ensures { result ≡ at_least_zero (picked v (pos targets)) }
{
    if v < 1 || targets < v as u32 {
        targets
    } else {
        v as u32 - 1
    }
}
