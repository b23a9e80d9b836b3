//! Where the arms and the blocks of IF end.

ghost use Rattle.std.specs.Prelude.{◌≡◌, ◌<◌, ◌≤◌, ℕ, length, reverse, slice_index_or, IfOk, OnOk};
ghost use Rattle.control_structure.specs.BlockEnds.{AreBlocksOf, AreEnds, end_by};
ghost use Rattle.layout_rules.specs.Jumps.{end_of_arm, end_of_block};

use crate::roles::role_in;
use df_sequence::NoMemory;
use f77_tree::Labelled;
use layout_rules::Role;
use std::alloc::Global;

/// Where the arms and the blocks of IF end.
#[derive(Drop)]
pub struct Blocks {
    /// For each place of an IF, ELSE IF or ELSE that of the next ELSE IF, ELSE or END IF of its block.
    arm_ends: Vec<u32>,
    /// For each place of an IF, ELSE IF or ELSE that of the END IF of its block.
    block_ends: Vec<u32>,
}

fn top_or(met: &[u32], none: u32) -> u32
    ensures { result ≡ slice_index_or (reverse met.now) 0 none }
{
    match met.last() {
        Some(place) => *place,
        None => none,
    }
}

/// Goes back over a statement; `met` has the places of the ends that were met after it, the innermost last.
fn step_back(met: &mut Vec<u32>, place: u32, role: Role, are_arms: bool) -> Result<(), NoMemory>
    ensures { OnOk result ((none inner : ℕ) → slice_index_or (reverse met.new.items) inner none
        ≡ end_by are_arms role place (λ k. slice_index_or (reverse met.old.items) k none) inner) }
{
    match role {
        Role::BeginBlock => {
            met.pop();
        }
        Role::EndBlock => met.push(place)?,
        Role::NextArm | Role::LastArm => {
            if are_arms {
                met.pop();
                met.push(place)?;
            }
        }
        _ => {}
    }
    Ok(())
}

/// For each place the end of the block, or of the arm, in which the statements after it begin.
fn ends_after(alloc: Global, stmts: &[Labelled], are_arms: bool) -> Result<Vec<u32>, NoMemory>
    requires { length stmts.now < 4294967296 }
    ensures { IfOk result (λ ends. AreEnds are_arms stmts.now ends.items) }
{
    let count = stmts.len();
    let mut ends = vec![in alloc; 0; count]?;
    let mut met = Vec::new(alloc);
    let mut i = count;
    while i > 0 {
        i -= 1;
        ends[i] = top_or(&met, count as u32);
        step_back(&mut met, i as u32, role_in(&stmts[i].stmt), are_arms)?;
    }
    Ok(ends)
}

impl Blocks {
    /// The ends of the arms and blocks of these statements.
    pub fn of(alloc: Global, stmts: &[Labelled]) -> Result<Blocks, NoMemory>
        requires { length stmts.now < 4294967296 }
        ensures { IfOk result (AreBlocksOf stmts.now) }
    {
        Ok(Blocks {
            arm_ends: ends_after(alloc, stmts, true)?,
            block_ends: ends_after(alloc, stmts, false)?,
        })
    }

    /// The next ELSE IF, ELSE or END IF of the block whose IF, ELSE IF or ELSE stands at this place.
    pub fn end_of_arm(&self, stmts: &[Labelled], place: u32) -> u32
        requires blocks { AreBlocksOf stmts.now self.now }
        requires place { place < length stmts.now }
        ensures end { result ≡ end_of_arm stmts.now place }
        ensures within { result ≤ length stmts.now }
    {
        self.arm_ends[place as usize]
    }

    /// The END IF of the block whose IF, ELSE IF or ELSE stands at this place.
    pub fn end_of_block(&self, stmts: &[Labelled], place: u32) -> u32
        requires blocks { AreBlocksOf stmts.now self.now }
        requires place { place < length stmts.now }
        ensures end { result ≡ end_of_block stmts.now place }
        ensures within { result ≤ length stmts.now }
    {
        self.block_ends[place as usize]
    }
}
