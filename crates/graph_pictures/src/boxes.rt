//! The regions of a flow graph as nested boxes, each with the pieces that lie in no region within it.

ghost use Rattle.std.specs.Prelude.{◌≡◌, ◌++◌, ℕ, [], IfOk, OnOk, Some, flat_map, if◌then◌else◌, map, reverse, slice_get};
ghost use Rattle.std.specs.Fmt.{WritesOnOk};
ghost use Rattle.graph_pictures.specs.Boxes.{AreBoxes};
ghost use Rattle.graph_pictures.specs.FlowDot.{box_dot, boxes_of, head_dot, member_dot, number_of, regions_in, smallest_regions as spec_smallest, within};
ghost use Rattle.graph_pictures.specs.Groups.{members_in};
ghost use Rattle.graph_pictures.specs.Numbers.{if_there};
ghost use Rattle.graph_pictures.specs.declared.boxes.Step.TheVariants as step;

use crate::groups::Groups;
use crate::numbered::Numbered;
use crate::regions::{parents_of, smallest_regions};
use printed_graphs::PrintedFlow;
use std::alloc::{AllocError, Global};
use std::fmt;

/// What is written next of regions.
#[derive(Clone, Copy)]
pub enum Step {
    /// The box of this region begins.
    Open(usize),
    /// The last box that is open ends.
    Close,
}

/// The boxes of regions.
#[derive(Drop)]
pub struct Boxes {
    /// Their beginnings and ends, from above.
    pub steps: Vec<Step>,
    /// The pieces of each region that lie in none within it.
    pub pieces: Groups,
}

impl Boxes {
    /// The boxes of all regions, or none where these aren't asked for.
    pub fn of(alloc: Global, flow: &PrintedFlow, with_regions: bool) -> Result<Boxes, AllocError>
        ensures { IfOk result (AreBoxes flow.now with_regions) }
    {
        let numbers = numbers_of(alloc, flow)?;
        let count = flow.regions.len() + 1;
        Ok(Boxes {
            steps: steps_shown(alloc, flow, with_regions)?,
            pieces: Groups::of(alloc, count, 0, numbers.as_slice())?,
        })
    }
}

// The beginnings and ends of the boxes that are asked for.
fn steps_shown(
    alloc: Global,
    flow: &PrintedFlow,
    with_regions: bool,
) -> Result<Vec<Step>, AllocError>
    ensures { IfOk result (λ steps. steps.items ≡ (if with_regions then boxes_of flow.now else [])) }
{
    if with_regions {
        steps_of(alloc, flow)
    } else {
        Ok(Vec::new(alloc))
    }
}

// The number of the smallest region of each piece, or 0.
fn numbers_of(alloc: Global, flow: &PrintedFlow) -> Result<Vec<usize>, AllocError>
    ensures { IfOk result (λ numbers. numbers.items ≡ map number_of (spec_smallest flow.now)) }
{
    let smallest = smallest_regions(alloc, flow)?;
    let mut numbers = Vec::with_capacity(alloc, smallest.len())?;
    for region in smallest.iter() {
        numbers.push(region.unwrap_or(0))?;
    }
    Ok(numbers)
}

// The beginnings and ends of the boxes of all regions.
#[tactic(auto, using(crate::proofs::Steps::one_step, crate::proofs::Steps::no_step, crate::proofs::Steps::last_step, crate::proofs::Steps::first_steps))]
fn steps_of(alloc: Global, flow: &PrintedFlow) -> Result<Vec<Step>, AllocError>
    ensures { IfOk result (λ steps. steps.items ≡ boxes_of flow.now) }
{
    let inner = inner_regions(alloc, flow)?;
    let mut steps = Vec::new(alloc);
    let mut waiting = Vec::new(alloc);
    open(&mut waiting, inner.places(0))?;
    for _ in 0..flow.regions.len() * 2 {
        let step = match waiting.pop() {
            Some(step) => step,
            None => return Ok(steps),
        };
        steps.push(step)?;
        go_into(&mut waiting, step, &inner)?;
    }
    Ok(steps)
}

// The regions within each region, of which none lies between.
fn inner_regions(alloc: Global, flow: &PrintedFlow) -> Result<Groups, AllocError>
    ensures { IfOk result (λ inner. (region : ℕ) → members_in inner region ≡ regions_in flow.now region) }
{
    let parents = parents_of(alloc, flow)?;
    Groups::of(alloc, flow.regions.len() + 1, 1, parents.as_slice())
}

// Has the boxes within a box come next, if this is its beginning.
fn go_into(waiting: &mut Vec<Step>, step: Step, inner: &Groups) -> Result<(), AllocError>
    ensures { OnOk result (waiting.new.items ≡ waiting.old.items ++ reverse (within (members_in inner.now) step)) }
{
    match step {
        Step::Open(region) => {
            waiting.push(Step::Close)?;
            open(waiting, inner.places(region))?;
            Ok(())
        }
        Step::Close => Ok(()),
    }
}

// Has boxes begin next, in the order of these regions.
fn open(waiting: &mut Vec<Step>, regions: &[usize]) -> Result<(), AllocError>
    ensures { OnOk result (waiting.new.items ≡ waiting.old.items ++ map step.Open (reverse regions.now)) }
{
    for k in 0..regions.len() {
        waiting.push(Step::Open(regions[regions.len() - 1 - k]))?;
    }
    Ok(())
}

impl Numbered for Boxes {
    ghost text = { λ b k. if_there (box_dot (members_in b.pieces)) (slice_get b.steps.items k) };

    fn put<W: fmt::Write>(&self, number: usize, f: &mut fmt::Formatter<W>) -> fmt::Result {
        match self.steps.get(number) {
            Some(step) => put_step(&self.pieces, *step, f),
            None => Ok(()),
        }
    }
}

// Writes the beginning of a box with its pieces, or an end.
fn put_step<W: fmt::Write>(pieces: &Groups, step: Step, f: &mut fmt::Formatter<W>) -> fmt::Result
    ensures { WritesOnOk W.write_str_gives f.old result (box_dot (members_in pieces.now) step) f.new }
{
    match step {
        Step::Open(region) => {
            let head = Head(region);
            let members = Members(pieces.places(region));
            write!(f, "{head}{members}")
        }
        Step::Close => writeln!(f, "  }}"),
    }
}

// The beginning of the box of a region.
#[derive(Clone, Copy)]
struct Head(usize);

impl fmt::Display for Head {
    ghost output = { λ h. Some (head_dot h.0) };

    fn fmt<W: fmt::Write>(&self, f: &mut fmt::Formatter<W>) -> fmt::Result {
        let region = self.0;
        write!(
            f,
            "  subgraph cluster_{region} {{\n  label=\"region {region}\"; color=\"#808080\"; fontname=\"sans-serif\"; fontsize=9;\n"
        )
    }
}

// The pieces of a box.
#[derive(Clone, Copy)]
struct Members<'a>(&'a [usize]);

impl fmt::Display for Members<'_> {
    ghost output = { λ m. Some (flat_map member_dot (reverse m.0.now)) };

    #[tactic(auto, using(crate::proofs::Backwards::one_member_more))]
    fn fmt<W: fmt::Write>(&self, f: &mut fmt::Formatter<W>) -> fmt::Result {
        for k in 0..self.0.len() {
            let piece = self.0[self.0.len() - 1 - k];
            writeln!(f, "  p{piece};")?;
        }
        Ok(())
    }
}
