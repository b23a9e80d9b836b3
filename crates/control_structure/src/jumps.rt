//! Jumps into the range of a DO or into an arm of an IF.

ghost use Rattle.std.specs.Prelude.{◌≡◌, ◌<◌, All, None, length};
ghost use Rattle.std.specs.List.{list_any};
ghost use Rattle.control_structure.specs.BlockEnds.{AreBlocksOf};
ghost use Rattle.layout_rules.specs.Faults.{first_line};
ghost use Rattle.control_structure.specs.Innermost.{AreInnermost, EndsAt, IsSpan};
ghost use Rattle.layout_rules.specs.Labels.{IsBorne, is_labelled_twice, jumps, lacks_label, statement_of};
ghost use Rattle.layout_rules.specs.Jumps.{Span, jumps_into, leads_into, lies_in};
ghost use Rattle.control_structure.specs.LabelTable.{ArePlacesOf};
ghost use Rattle.layout_rules.specs.Source.{IsSource};

use crate::blocks::Blocks;
use crate::labels::Labels;
use crate::roles::role_in;
use f77_tree::{Labelled, Stmt};
use layout_rules::Role;

/// The last place of the range or arm that the statement at this place begins.
fn last_of(stmts: &[Labelled], labels: &Labels, blocks: &Blocks, head: u32) -> u32
    requires places { ArePlacesOf stmts.now labels.now }
    requires blocks { AreBlocksOf stmts.now blocks.now }
    requires head { head < length stmts.now }
    ensures { EndsAt stmts.now head result }
{
    match role_in(&stmts[head as usize].stmt) {
        Role::BeginLoop(terminal) => labels.place(terminal),
        _ => blocks.end_of_arm(stmts, head).saturating_sub(1),
    }
}

/// Whether the range or arm that the statement at `head` begins holds this place.
fn holds(stmts: &[Labelled], labels: &Labels, blocks: &Blocks, head: u32, place: u32) -> bool
    requires places { ArePlacesOf stmts.now labels.now }
    requires blocks { AreBlocksOf stmts.now blocks.now }
    requires head { head < length stmts.now }
    ensures { (span : Span) → IsSpan stmts.now span → span.head ≡ head → result ≡ lies_in span place }
{
    head < place && place <= last_of(stmts, labels, blocks, head)
}

/// Whether a jump from this place to the label leads into a range or an arm.
fn enters(
    stmts: &[Labelled],
    labels: &Labels,
    blocks: &Blocks,
    heads: &[Option<u32>],
    from: u32,
    label: u32,
) -> bool
    requires places { ArePlacesOf stmts.now labels.now }
    requires blocks { AreBlocksOf stmts.now blocks.now }
    requires heads { AreInnermost stmts.now heads.now }
    requires once { first_line is_labelled_twice stmts.now ≡ None }
    requires label { IsBorne stmts.now label }
    ensures { result ≡ leads_into stmts.now from (statement_of stmts.now label) }
{
    match heads[labels.place(label) as usize] {
        Some(head) => !holds(stmts, labels, blocks, head, from),
        None => false,
    }
}

/// Whether a jump from this place to one of the labels leads into a range or an arm.
fn enters_one(
    stmts: &[Labelled],
    labels: &Labels,
    blocks: &Blocks,
    heads: &[Option<u32>],
    from: u32,
    targets: &[u32],
) -> bool
    requires places { ArePlacesOf stmts.now labels.now }
    requires blocks { AreBlocksOf stmts.now blocks.now }
    requires heads { AreInnermost stmts.now heads.now }
    requires once { first_line is_labelled_twice stmts.now ≡ None }
    requires targets { All (IsBorne stmts.now) targets.now }
    ensures { result ≡ list_any (λ label. leads_into stmts.now from (statement_of stmts.now label)) targets.now }
{
    for label in targets {
        if enters(stmts, labels, blocks, heads, from, *label) {
            return true;
        }
    }
    false
}

/// Whether a statement at this place may jump into a range or an arm.
fn enters_from(
    stmt: &Stmt,
    stmts: &[Labelled],
    labels: &Labels,
    blocks: &Blocks,
    heads: &[Option<u32>],
    from: u32,
) -> bool
    requires places { ArePlacesOf stmts.now labels.now }
    requires blocks { AreBlocksOf stmts.now blocks.now }
    requires heads { AreInnermost stmts.now heads.now }
    requires once { first_line is_labelled_twice stmts.now ≡ None }
    requires targets { All (IsBorne stmts.now) (jumps stmt.now) }
    ensures { result ≡ list_any (λ label. leads_into stmts.now from (statement_of stmts.now label)) (jumps stmt.now) }
{
    match stmt {
        Stmt::GoTo(label) => enters_one(stmts, labels, blocks, heads, from, &[*label]),
        Stmt::PickGoTo(targets, _) => {
            enters_one(stmts, labels, blocks, heads, from, targets.as_slice())
        }
        Stmt::SignIf(_, negative, zero, positive) => {
            let targets = [*negative, *zero, *positive];
            enters_one(stmts, labels, blocks, heads, from, &targets)
        }
        Stmt::ThenIf(_, inner) => enters_from(inner.get(), stmts, labels, blocks, heads, from),
        _ => false,
    }
}

/// The line of the first statement that may jump into the range of a DO or into an arm of an IF from outside (ANSI
/// X3.9-1978, sections 11.6, 11.8 and 11.10.8). `heads` has the innermost ranges and arms, as the walk of the nesting
/// tells them.
pub fn first_jump_into(
    stmts: &[Labelled],
    labels: &Labels,
    blocks: &Blocks,
    heads: &[Option<u32>],
) -> Option<u32>
    requires source { IsSource stmts.now }
    requires once { first_line is_labelled_twice stmts.now ≡ None }
    requires borne { first_line (lacks_label stmts.now) stmts.now ≡ None }
    requires places { ArePlacesOf stmts.now labels.now }
    requires blocks { AreBlocksOf stmts.now blocks.now }
    requires heads { AreInnermost stmts.now heads.now }
    ensures { result ≡ first_line (jumps_into stmts.now) stmts.now }
{
    for (i, s) in stmts.iter().enumerate() {
        if enters_from(&s.stmt, stmts, labels, blocks, heads, i as u32) {
            return Some(s.line);
        }
    }
    None
}
