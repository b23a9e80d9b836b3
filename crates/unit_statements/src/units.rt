//! Statements by their lines, and the units in which they stand.

ghost use Rattle.std.specs.Prelude.{◌≡◌, option_map};
ghost use Rattle.std.specs.List.{find, list_any, position};
ghost use Rattle.unit_statements.specs.Units.{after_unit, begins_at, begins_with_sub, dummies as dummies_of, first_line as first_line_of, first_unit, inner as inner_of, is_end as is_end_of, unit_named as unit_named_in, unit_with as unit_with_in};

use f77_tree::{Labelled, Name, Stmt};

/// The statement that begins at a line.
pub fn statement_at(stmts: &[Labelled], line: u32) -> Option<&Labelled>
    ensures { option_map (λ s. s.now) result ≡ find (begins_at line) stmts.now }
{
    stmts.iter().find(|s| s.line == line)
}

/// The statement behind the condition of a logical IF, or the statement itself.
pub fn inner(stmt: &Stmt) -> &Stmt
    ensures { result.now ≡ inner_of stmt.now }
{
    match stmt {
        Stmt::ThenIf(_, inner) => inner.get(),
        _ => stmt,
    }
}

fn is_end(stmt: &Stmt) -> bool
    ensures { result ≡ is_end_of stmt.now }
{
    matches!(stmt, Stmt::End)
}

// The place of the first END.
fn first_end(stmts: &[Labelled]) -> Option<usize>
    ensures { result ≡ position (λ s. is_end_of s.stmt) stmts.now }
{
    stmts.iter().position(|s| is_end(&s.stmt))
}

// The statements up to and with the first END, and those after it.
fn split_unit(stmts: &[Labelled]) -> (&[Labelled], &[Labelled])
    ensures first { result.0.now ≡ first_unit stmts.now }
    ensures after { result.1.now ≡ after_unit stmts.now }
{
    match first_end(stmts) {
        Some(end) => (&stmts[..end + 1], &stmts[end + 1..]),
        None => (stmts, &stmts[stmts.len()..]),
    }
}

// Whether a statement begins at a line.
fn has_line(unit: &[Labelled], line: u32) -> bool
    ensures { result ≡ list_any (begins_at line) unit.now }
{
    unit.iter().any(|s| s.line == line)
}

/// The unit in which the statement of a line stands; no statements where there is none.
#[tactic(auto, using(crate::proofs::UnitParts::units_split, crate::proofs::UnitParts::after_unit_is_shorter))]
pub fn unit_with(stmts: &[Labelled], line: u32) -> &[Labelled]
    ensures { result.now ≡ unit_with_in line stmts.now }
{
    let mut rest = stmts;
    while !rest.is_empty() {
        let (unit, after) = split_unit(rest);
        if has_line(unit, line) {
            return unit;
        }
        rest = after;
    }
    &[]
}

// Whether a unit is the subroutine of this name.
fn is_named(unit: &[Labelled], name: &Name) -> bool
    ensures { result ≡ begins_with_sub name.now unit.now }
{
    match unit.first() {
        Some(s) => match &s.stmt {
            Stmt::Sub(found, _) => found.as_bytes() == name.as_bytes(),
            _ => false,
        },
        None => false,
    }
}

/// The unit of the subroutine of this name; no statements where there is none.
#[tactic(auto, using(crate::proofs::UnitParts::units_split, crate::proofs::UnitParts::after_unit_is_shorter))]
pub fn unit_named<'a>(stmts: &'a [Labelled], name: &Name) -> &'a [Labelled]
    ensures { result.now ≡ unit_named_in name.now stmts.now }
{
    let mut rest = stmts;
    while !rest.is_empty() {
        let (unit, after) = split_unit(rest);
        if is_named(unit, name) {
            return unit;
        }
        rest = after;
    }
    &[]
}

/// The dummies of a unit, of which the main program has none.
pub fn dummies(unit: &[Labelled]) -> &[Name]
    ensures { result.now ≡ dummies_of unit.now }
{
    match unit.first() {
        Some(s) => match &s.stmt {
            Stmt::Sub(_, dummies) => dummies.as_slice(),
            _ => &[],
        },
        None => &[],
    }
}

/// The line of the first statement, or 0.
pub fn first_line(unit: &[Labelled]) -> u32
    ensures { result ≡ first_line_of unit.now }
{
    match unit.first() {
        Some(s) => s.line,
        None => 0,
    }
}
