//! The numbers of pieces.

ghost use Rattle.std.specs.Prelude.{◌≡◌, ◌+◌, ◌<◌, ◌^◌, ℕ, false, All, length, count_by, IfOk, if◌then◌else◌};
ghost use Rattle.cfg_build.specs.declared.parts.Target.{Target};
ghost use Rattle.cfg_build.specs.declared.parts.Target.TheVariants.{Start};
ghost use Rattle.cfg_build.specs.Joined.{is_same, is_end, ways_to, number, width};
ghost use Rattle.cfg_build.specs.Tables.{number_in, IsIn, HasRoom, AreParts, is_joined_by, AreNumbered};

use crate::parts::{Part, Target};
use crate::pieces::PieceKind;
use df_sequence::NoMemory;
use std::alloc::Global;

/// A number for each target.
#[derive(Drop)]
pub struct ByTarget {
    firsts: Vec<u32>,
    tests: Vec<u32>,
}

impl ByTarget {
    /// 0 for each target of a program with so many executables.
    pub(crate) fn zeros(alloc: Global, execs: u32) -> Result<Self, NoMemory>
        ensures room { IfOk result (λ table. HasRoom execs table) }
        ensures zeros { IfOk result (λ table. (target : Target) → number_in table target ≡ 0) }
    {
        Ok(ByTarget {
            firsts: vec![in alloc; 0; execs as usize]?,
            tests: vec![in alloc; 0; execs as usize]?,
        })
    }

    /// The number of a target. That of the start is 0.
    pub(crate) fn get(&self, target: Target) -> u32
        requires { IsIn self.now target }
        ensures { result ≡ number_in self.now target }
    {
        match target {
            Target::Start => 0,
            Target::First(k) => self.firsts[k as usize],
            Target::Test(k) => self.tests[k as usize],
        }
    }

    // Gives a target other than the start a number.
    fn set(&mut self, target: Target, number: u32)
        requires { IsIn self.old target }
        ensures room { (execs : ℕ) → HasRoom execs self.old → HasRoom execs self.new }
        ensures within { (other : Target) → IsIn self.old other → IsIn self.new other }
        ensures here { is_same Start target ≡ false → number_in self.new target ≡ number }
        ensures others { (other : Target) → is_same target other ≡ false → number_in self.new other ≡ number_in self.old other }
    {
        match target {
            Target::Start => (),
            Target::First(k) => self.firsts[k as usize] = number,
            Target::Test(k) => self.tests[k as usize] = number,
        }
    }
}

/// How many ways lead to each target.
pub(crate) fn ways(alloc: Global, parts: &[Part], execs: u32) -> Result<ByTarget, NoMemory>
    requires { AreParts execs parts.now }
    ensures room { IfOk result (λ table. HasRoom execs table) }
    ensures ways { IfOk result (λ table. (target : Target) → number_in table target ≡ ways_to parts.now target) }
{
    let mut ways = ByTarget::zeros(alloc, execs)?;
    for part in parts {
        count_ways(&mut ways, part.outs.as_slice());
    }
    Ok(ways)
}

// Counts the ways that lead out of a part.
fn count_ways(ways: &mut ByTarget, outs: &[Target])
    requires targets { All (IsIn ways.old) outs.now }
    requires others { All (λ target. is_same Start target ≡ false) outs.now }
    requires few { (target : Target) → number_in ways.old target + length outs.now < 2 ^ 32 }
    ensures room { (execs : ℕ) → HasRoom execs ways.old → HasRoom execs ways.new }
    ensures counts { (target : Target) → number_in ways.new target ≡ number_in ways.old target + count_by (is_same target) outs.now }
{
    for target in outs {
        let count = ways.get(*target);
        ways.set(*target, count + 1);
    }
}

/// Whether a join stands before the part: more than one way leads to it, and it isn't the end.
pub(crate) fn is_joined(ways: &ByTarget, part: &Part) -> bool
    requires { IsIn ways.now part.now.own }
    ensures { result ≡ is_joined_by (number_in ways.now part.now.own) part.now }
{
    !is_end(part.piece.kind) && ways.get(part.own) > 1
}

fn is_end(kind: PieceKind) -> bool
    ensures { result ≡ is_end kind }
{
    matches!(kind, PieceKind::End)
}

/// The number of the piece at which an edge to each target ends: the join before a part, or the part itself.
pub(crate) fn numbers(
    alloc: Global,
    parts: &[Part],
    ways: &ByTarget,
    execs: u32,
) -> Result<ByTarget, NoMemory>
    requires parts { AreParts execs parts.now }
    requires room { HasRoom execs ways.now }
    requires ways { (target : Target) → number_in ways.now target ≡ ways_to parts.now target }
    ensures room { IfOk result (λ table. HasRoom execs table) }
    ensures numbers { IfOk result (λ table. AreNumbered parts.now table) }
{
    let mut numbers = ByTarget::zeros(alloc, execs)?;
    let mut next = 0;
    for part in parts {
        numbers.set(part.own, next);
        next += width(ways, part);
    }
    Ok(numbers)
}

// How many pieces there are for a part: itself, and the join before it.
fn width(ways: &ByTarget, part: &Part) -> u32
    requires { IsIn ways.now part.now.own }
    ensures { result ≡ (if is_joined_by (number_in ways.now part.now.own) part.now then 2 else 1) }
{
    if is_joined(ways, part) { 2 } else { 1 }
}
