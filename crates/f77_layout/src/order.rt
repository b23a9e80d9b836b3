ghost use Rattle.std.specs.Prelude.{◌≡◌, ◌&&◌, ◌||◌, ◌==◌, nat_lt};
ghost use Rattle.layout_rules.specs.Faults.{first_line};
ghost use Rattle.layout_rules.specs.Order.{rank, is_out_of_order};

use f77_tree::{Labelled, Stmt};

/// The line of the first statement that stands in the wrong order (ANSI X3.9-1978, section 3.5).
pub(crate) fn first_out_of_order(stmts: &[Labelled]) -> Option<u32>
    ensures { result ≡ first_line is_out_of_order stmts.now }
{
    let mut greatest = 0;
    let mut has_program = false;
    for s in stmts {
        let rank = rank_of(&s.stmt);
        if is_late(rank, greatest, has_program) {
            return Some(s.line);
        }
        greatest = rank;
        has_program |= rank == 0;
    }
    None
}

// Whether a statement of this rank may not follow statements of which this is the greatest rank.
fn is_late(rank: u32, greatest: u32, has_program: bool) -> bool
    ensures { result ≡ (nat_lt rank greatest || (has_program && rank == 0) || greatest == 4) }
{
    rank < greatest || (has_program && rank == 0) || greatest == 4
}

// The place of a statement in the order of statements.
fn rank_of(stmt: &Stmt) -> u32
    ensures { result ≡ rank stmt.now }
{
    match stmt {
        Stmt::Program => 0,
        Stmt::Implicit(_) | Stmt::ImplicitNone => 1,
        Stmt::TypeOf(_, _) | Stmt::Dimension(_) | Stmt::Common(_) | Stmt::Equivalence(_) => 2,
        Stmt::End => 4,
        _ => 3,
    }
}
