//! What is wrong with labels.

ghost use Rattle.std.specs.Prelude.{◌≡◌, false, IfSome};
ghost use Rattle.refusal_causes.specs.Labels.{IsOfLabels, can_be_named as can_be_named_of, has_label as has_label_in};
ghost use Rattle.unit_statements.specs.Units.{unit_with as unit_with_in};

use crate::label_cause::LabelCause;
use f77_tree::{Labelled, Stmt};
use unit_statements::{inner, statement_at, unit_with};

/// The line of the first statement above a line, in its unit, that has the label of the statement at the line.
pub fn label_above(stmts: &[Labelled], line: u32) -> Option<LabelCause>
    ensures { IfSome result (IsOfLabels (unit_with_in line stmts.now) line) }
{
    let unit = unit_with(stmts, line);
    let label = statement_at(unit, line)?.label;
    let above = unit.iter().find(|s| s.line < line && s.label == label)?;
    Some(LabelCause::LabelTwice {
        label,
        line: above.line,
    })
}

/// The first label that the statement at a line names and that no executable statement of its unit but ELSE and ELSE IF has.
pub fn cause_of_label(stmts: &[Labelled], line: u32) -> Option<LabelCause>
    ensures { IfSome result (IsOfLabels (unit_with_in line stmts.now) line) }
{
    let unit = unit_with(stmts, line);
    let label = missing_label(unit, inner(&statement_at(unit, line)?.stmt))?;
    Some(LabelCause::NoLabel { label })
}

// The first label that a statement names and the unit lacks.
fn missing_label(unit: &[Labelled], stmt: &Stmt) -> Option<u32>
    ensures { IfSome result (λ label. has_label_in unit.now label ≡ false) }
{
    match stmt {
        Stmt::GoTo(label) | Stmt::Do(label, _, _, _, _) => unless_there(unit, *label),
        Stmt::PickGoTo(labels, _) => {
            labels
                .as_slice()
                .iter()
                .find_map(|label| unless_there(unit, *label))
        }
        Stmt::SignIf(_, negative, zero, positive) => {
            unless_there(unit, *negative)
                .or_else(|| unless_there(unit, *zero))
                .or_else(|| unless_there(unit, *positive))
        }
        _ => None,
    }
}

// The label, if no statement of a unit that can be named has it.
fn unless_there(unit: &[Labelled], label: u32) -> Option<u32>
    ensures { IfSome result (λ missing. has_label_in unit.now missing ≡ false) }
{
    if has_label(unit, label) {
        None
    } else {
        Some(label)
    }
}

fn has_label(unit: &[Labelled], label: u32) -> bool
    ensures { result ≡ has_label_in unit.now label }
{
    unit.iter()
        .any(|s| s.label == label && can_be_named(&s.stmt))
}

// Whether a label on a statement can be named: it is executable, and neither ELSE nor ELSE IF.
fn can_be_named(stmt: &Stmt) -> bool
    ensures { result ≡ can_be_named_of stmt.now }
{
    match stmt {
        Stmt::Program
        | Stmt::Implicit(_)
        | Stmt::ImplicitNone
        | Stmt::TypeOf(_, _)
        | Stmt::Dimension(_)
        | Stmt::Common(_)
        | Stmt::Equivalence(_)
        | Stmt::Init(_)
        | Stmt::Sub(_, _)
        | Stmt::Else
        | Stmt::ElseIf(_) => false,
        _ => true,
    }
}
