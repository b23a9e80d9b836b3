//! The nesting of DO loops and blocks of IF.

ghost use Rattle.std.specs.Prelude.{◌≡◌, None, Some, IfOk, if◌then◌else◌};
ghost use Rattle.layout_rules.specs.Source.{IsSource};
ghost use Rattle.layout_rules.specs.Faults.{first_line};
ghost use Rattle.layout_rules.specs.Labels.{is_labelled_twice};
ghost use Rattle.control_structure.specs.Innermost.{IsNestingOf};
ghost use Rattle.control_structure.specs.OpenStack.{begun, entries_after, kind, without_ended};
ghost use Rattle.layout_rules.specs.Nesting.{after_arm, after_end_if, is_loop_to};

use crate::open_stack::{Entry, OpenStack};
use crate::roles::role_in;
use df_sequence::NoMemory;
use f77_tree::Labelled;
use layout_rules::{Opened, Role};
use std::alloc::Global;

/// Whether loops and blocks are nested.
#[derive(Drop)]
pub enum Nesting {
    /// They are. For each statement the place of the DO, IF, ELSE IF or ELSE of the innermost range or arm that holds it.
    Nested(Vec<Option<u32>>),
    /// They aren't; the number is the line of the first statement that isn't nested right.
    Unnested(u32),
}

fn ends_at(opened: Opened, label: u32) -> bool
    ensures { result ≡ is_loop_to label opened }
{
    match opened {
        Opened::Loop(terminal) => terminal == label,
        Opened::Block(_) => false,
    }
}

/// Closes the loops on top that end at the label.
fn close_loops(stack: &mut OpenStack, label: u32)
    ensures { stack.new ≡ without_ended label stack.old }
{
    while let Some(entry) = stack.top() {
        if !ends_at(entry.opened, label) {
            break;
        }
        stack.pop();
    }
}

/// Begins an arm in place of the one on top; false where there is none, or the last one of a block.
fn turn_arm(stack: &mut OpenStack, place: u32, is_last: bool) -> Result<bool, NoMemory>
    ensures { IfOk result (λ right. after_arm kind (begun place) is_last stack.old ≡ (if right then Some stack.new else None)) }
{
    match stack.opened() {
        Some(Opened::Block(false)) => {
            stack.pop();
            stack.push(Entry {
                begin: place,
                opened: Opened::Block(is_last),
            })?;
            Ok(true)
        }
        _ => Ok(false),
    }
}

/// Closes the block on top; false where there is none.
fn end_block(stack: &mut OpenStack) -> bool
    ensures { after_end_if kind stack.old ≡ (if result then Some stack.new else None) }
{
    match stack.opened() {
        Some(Opened::Block(_)) => {
            stack.pop();
            true
        }
        _ => false,
    }
}

/// Takes one statement more; false where it isn't nested right.
fn step(stack: &mut OpenStack, place: u32, role: Role, label: u32) -> Result<bool, NoMemory>
    ensures { IfOk result (λ right. entries_after role place label stack.old ≡ (if right then Some stack.new else None)) }
{
    if stack.has_loop_to(label) && !matches!(role, Role::Declaration | Role::Plain) {
        return Ok(false);
    }
    match role {
        Role::Declaration => Ok(true),
        Role::BeginLoop(terminal) => {
            stack.push(Entry {
                begin: place,
                opened: Opened::Loop(terminal),
            })?;
            Ok(true)
        }
        Role::BeginBlock => {
            stack.push(Entry {
                begin: place,
                opened: Opened::Block(false),
            })?;
            Ok(true)
        }
        Role::NextArm => turn_arm(stack, place, false),
        Role::LastArm => turn_arm(stack, place, true),
        Role::EndBlock => Ok(end_block(stack)),
        Role::Finish => Ok(stack.top().is_none()),
        Role::Leave | Role::Plain => {
            close_loops(stack, label);
            Ok(!stack.has_loop_to(label))
        }
    }
}

/// Walks over the statements with what is open, and tells whether all are nested right.
pub fn nesting_of(alloc: Global, stmts: &[Labelled]) -> Result<Nesting, NoMemory>
    requires source { IsSource stmts.now }
    requires labels { first_line is_labelled_twice stmts.now ≡ None }
    ensures { IfOk result (IsNestingOf stmts.now) }
{
    let mut stack = OpenStack::new(alloc);
    let mut heads = Vec::new(alloc);
    for (i, s) in stmts.iter().enumerate() {
        let role = role_in(&s.stmt);
        let inside = stack.head();
        if !step(&mut stack, i as u32, role, s.label)? {
            return Ok(Nesting::Unnested(s.line));
        }
        // END IF stands after the arm that it ends.
        let head = match role {
            Role::EndBlock => stack.head(),
            _ => inside,
        };
        heads.push(head)?;
    }
    Ok(Nesting::Nested(heads))
}
