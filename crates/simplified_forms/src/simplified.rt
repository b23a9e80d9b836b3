//! The simplified form of a program.

ghost use Rattle.std.specs.Prelude.{◌≡◌, ◌+◌, ◌<◌, nat_lt, length, IfOk, IsErrOf};
ghost use Rattle.closed_walks.specs.Graph.{edge_count};
ghost use Rattle.f77_tree.specs.WellFormed.{IsWellFormed};
ghost use Rattle.alias_classes.specs.Classes.{IsClasses, class_count};
ghost use Rattle.cfg_build.specs.Flow.{flow};
ghost use Rattle.const_prop.specs.KnownRows.{edges_of};
ghost use Rattle.const_prop.specs.Table.{knowns_of};
ghost use Rattle.flat_programs.specs.Declarations.{declared};
ghost use Rattle.flat_programs.specs.Executables.{program_of as program_with};
ghost use Rattle.simplified_forms.specs.Simplified.{has_many_statements as has_many, most_statements, AreSimplified, HasManySimplified, IsSimplified};

use crate::ends::FlatEnd;
use crate::plan::Plan;
use crate::statement_counts::statement_count;
use crate::statements::statements;
use alias_classes::Classes;
use cfg_build::Flow;
use const_prop::Table;
use f77_tree::Program;
use flat_programs::{FlatList, declaration_count, program_of};
use std::alloc::Global;

/// No text has more statements.
pub const MOST_STATEMENTS: u64 = 4000;

/// The simplified form of a program, and the statements that it has.
#[derive(Drop)]
pub struct Simplified {
    /// The form, whose executables are those of the statements.
    pub form: Program,
    /// Its statements, in the order of the text.
    pub statements: FlatList,
}

/// The simplified form of a program, by a table of its constants, in a dialect: executables to which control can't come are left out, a
/// branch that always goes one way only goes there, and constants stand for what is known. It takes a few steps for each executable, each
/// piece and edge of the flow graph, and each part of an expression. `TooManyStatements` where it has more than 4,000 statements with its
/// declarations; these are counted before one is made.
pub fn simplify<const W: usize>(
    alloc: Global,
    p: &Program,
    f: &Flow,
    c: &Classes<W>,
    t: &Table<W>,
    checked: bool,
) -> Result<Simplified, FlatEnd>
    requires program { IsWellFormed p.now }
    requires flow { f.now ≡ flow p.now.execs }
    requires classes { IsClasses p.now c.now }
    requires lines { t.now.known.lines ≡ class_count c.now + 1 }
    requires edges { edges_of t.now.known ≡ edge_count f.now.graph }
    requires pieces { length t.now.decisions ≡ f.now.graph.nodes }
    ensures simplified { IfOk result (λ s. IsSimplified p.now c.now (knowns_of t.now) checked s.form) }
    ensures statements { IfOk result (λ s. AreSimplified p.now c.now (knowns_of t.now) checked s.statements) }
    ensures form { IfOk result (λ s. s.form ≡ program_with p.now s.statements) }
    ensures many { IsErrOf result FlatEnd.TooManyStatements → HasManySimplified p.now c.now (knowns_of t.now) checked }
{
    let plan = Plan::of(alloc, p, f, t)?;
    let count = statement_count(&*p, &*c, &*t, checked, &plan);
    if has_too_many(p, count) {
        return Err(FlatEnd::TooManyStatements);
    }
    let statements = statements(alloc, p, c, t, checked, &plan, count)?;
    let form = program_of(alloc, p, &statements)?;
    Ok(Simplified { form, statements })
}

/// Whether a program of these statements has too many with its declarations.
pub fn has_many_statements(p: &Program, flat: &FlatList) -> bool
    ensures { result ≡ has_many p.now flat.now }
{
    has_too_many(p, flat.len())
}

/// Whether a program of so many statements has too many with its declarations.
fn has_too_many(p: &Program, count: u32) -> bool
    ensures { result ≡ nat_lt most_statements (length (declared p.now) + count) }
{
    if MOST_STATEMENTS < u64::from(p.names.len()) {
        return true;
    }
    u128::from(MOST_STATEMENTS) < declaration_count(p).saturating_add(u128::from(count))
}
