//! The executables that begin and increment the DOs of a program.

ghost use Rattle.std.specs.Prelude.{◌≡◌, IfOk};
ghost use Rattle.std.specs.Option.{option_map};
ghost use Rattle.f77_tree.specs.Loops.{begun, incremented, do_start, do_next, Loop};
ghost use Rattle.simplified_forms.specs.Tables.{IsTable};

use df_sequence::NoMemory;
use f77_tree::{ExecKind, Program};
use std::alloc::Global;

/// For each DO the executable that begins it.
pub(crate) fn do_starts(alloc: Global, p: &Program) -> Result<Vec<u32>, NoMemory>
    ensures { IfOk result (λ starts. IsTable (do_start p.now.execs) p.now.loops starts.items) }
{
    let mut starts = vec![in alloc; p.execs.len(); p.loops as usize]?;
    for k in (0..p.execs.len()).rev() {
        if let Some(n) = begun_loop(&p.execs.at(k).kind) {
            if (n as usize) < starts.len() {
                starts[n as usize] = k;
            }
        }
    }
    Ok(starts)
}

/// For each DO the executable that increments it.
pub(crate) fn do_nexts(alloc: Global, p: &Program) -> Result<Vec<u32>, NoMemory>
    ensures { IfOk result (λ nexts. IsTable (do_next p.now.execs) p.now.loops nexts.items) }
{
    let mut nexts = vec![in alloc; p.execs.len(); p.loops as usize]?;
    for k in (0..p.execs.len()).rev() {
        if let Some(n) = incremented_loop(&p.execs.at(k).kind) {
            if (n as usize) < nexts.len() {
                nexts[n as usize] = k;
            }
        }
    }
    Ok(nexts)
}

/// The number of the DO that an executable begins.
fn begun_loop(kind: &ExecKind) -> Option<u32>
    ensures { result ≡ option_map (λ (loop : Loop). loop.number) (begun kind.now) }
{
    match kind {
        ExecKind::DoStart { loop_no, .. } => Some(*loop_no),
        _ => None,
    }
}

/// The number of the DO that an executable increments.
fn incremented_loop(kind: &ExecKind) -> Option<u32>
    ensures { result ≡ option_map (λ (loop : Loop). loop.number) (incremented kind.now) }
{
    match kind {
        ExecKind::DoNext { loop_no, .. } => Some(*loop_no),
        _ => None,
    }
}
