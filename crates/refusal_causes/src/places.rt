//! Statements that stand where they can't, and declarations that contradict each other.

ghost use Rattle.std.specs.Prelude.{◌≡◌};
ghost use Rattle.refusal_causes.specs.Places.{advice_by_place as advice_by_place_of, advice_inside as advice_inside_of, advice_on_block as advice_on_block_of, advice_on_layout as advice_on_layout_of, advice_on_nesting as advice_on_nesting_of, advice_on_order as advice_on_order_of, advice_on_storage as advice_on_storage_of, follows_end as follows_end_of};

use f77_tree::{Labelled, Stmt};
use form_advice::Advice;
use unit_statements::{first_line, inner, statement_at, unit_with};

const SUBROUTINE_FIRST: Advice = Advice {
    wrong: "a SUBROUTINE stands before the main program, or inside a unit",
    instead: "Put the main program first, and each SUBROUTINE directly behind an END.",
};

const AFTER_END: Advice = Advice {
    wrong: "a statement stands behind END, and is no SUBROUTINE",
    instead: "Begin a unit with SUBROUTINE, put the statement above END, or leave it out.",
};

const RETURN_IN_MAIN: Advice = Advice {
    wrong: "RETURN stands in the main program",
    instead: "Write STOP.",
};

const LATE_PROGRAM: Advice = Advice {
    wrong: "PROGRAM isn't the first statement",
    instead: "Put it first, or leave it out.",
};

const LATE_IMPLICIT: Advice = Advice {
    wrong: "IMPLICIT stands behind another declaration or a statement",
    instead: "Put it directly behind PROGRAM or SUBROUTINE.",
};

const LATE_DECLARATION: Advice = Advice {
    wrong: "a declaration stands behind DATA or an executable statement",
    instead: "Put INTEGER, LOGICAL, DIMENSION, COMMON and EQUIVALENCE above the first of those.",
};

const LATE_STATEMENT: Advice = Advice {
    wrong: "a statement stands in a place where none of its kind may",
    instead: "The order is PROGRAM or SUBROUTINE, IMPLICIT, other declarations, DATA and executable statements, END.",
};

const DIMENSIONS: Advice = Advice {
    wrong: "an array has bounds twice, an upper bound below its lower one, or more than 262,144 elements",
    instead: "Give each array its bounds once, in a type, DIMENSION or COMMON statement, the lower one first.",
};

const COMMON_TWICE: Advice = Advice {
    wrong: "a name stands in COMMON twice, or its bounds are wrong",
    instead: "Name each variable in COMMON once, and give it bounds once, the lower one first.",
};

const LINKS: Advice = Advice {
    wrong: "an EQUIVALENCE can't be met",
    instead: "A scalar has no subscript there, an array as many as dimensions and within its bounds; no name gets two places, no two blocks are linked, and nothing comes before a block's first word.",
};

const INITIAL_VALUES: Advice = Advice {
    wrong: "a DATA statement can't be met",
    instead: "Give each word one value of its type, once: an array without subscripts has as many words as elements, an element has subscripts within the bounds, a scalar none.",
};

const NO_IF: Advice = Advice {
    wrong: "no IF with THEN that is open here takes this ELSE, ELSE IF or END IF",
    instead: "End each DO that began behind the IF first; an IF has one ELSE, behind each ELSE IF.",
};

const OPEN_AT_END: Advice = Advice {
    wrong: "a DO or an IF is open at END",
    instead: "End each DO at a statement with its label below it, and each IF with THEN by END IF.",
};

const LOOP_END: Advice = Advice {
    wrong: "a DO ends at a statement that can't end it, or while something that began later is open",
    instead: "End it at a CONTINUE with its label, behind the ends of all DO and IF that began in it.",
};

/// What is told of the order of statements, of the one at a line.
pub fn advice_on_order(stmts: &[Labelled], line: u32) -> Advice
    ensures { result.wrong.now ≡ advice_on_order_of stmts.now line }
{
    let Some(s) = statement_at(stmts, line) else {
        return LATE_STATEMENT;
    };
    advice_by_place(follows_end(stmts, line), inner(&s.stmt))
}

// What is told of a statement, where it is the first of a unit behind another or not.
fn advice_by_place(follows_end: bool, stmt: &Stmt) -> Advice
    ensures { result.wrong.now ≡ advice_by_place_of follows_end stmt.now }
{
    match stmt {
        Stmt::Sub(_, _) => SUBROUTINE_FIRST,
        _ => if follows_end {
            AFTER_END
        } else {
            advice_inside(stmt)
        },
    }
}

fn advice_inside(stmt: &Stmt) -> Advice
    ensures { result.wrong.now ≡ advice_inside_of stmt.now }
{
    match stmt {
        Stmt::Back => RETURN_IN_MAIN,
        Stmt::Program => LATE_PROGRAM,
        Stmt::Implicit(_) | Stmt::ImplicitNone => LATE_IMPLICIT,
        Stmt::TypeOf(_, _) | Stmt::Dimension(_) | Stmt::Common(_) | Stmt::Equivalence(_) => {
            LATE_DECLARATION
        }
        _ => LATE_STATEMENT,
    }
}

// Whether the statement of a line is the first of a unit that isn't the main program.
fn follows_end(stmts: &[Labelled], line: u32) -> bool
    ensures { result ≡ follows_end_of stmts.now line }
{
    first_line(unit_with(stmts, line)) == line && first_line(stmts) != line
}

/// What is told of the layout of storage, of the declaration at a line.
pub fn advice_on_layout(stmts: &[Labelled], line: u32) -> Advice
    ensures { result.wrong.now ≡ advice_on_layout_of stmts.now line }
{
    match statement_at(stmts, line) {
        Some(s) => advice_on_storage(&s.stmt),
        None => DIMENSIONS,
    }
}

fn advice_on_storage(stmt: &Stmt) -> Advice
    ensures { result.wrong.now ≡ advice_on_storage_of stmt.now }
{
    match stmt {
        Stmt::Common(_) => COMMON_TWICE,
        Stmt::Equivalence(_) => LINKS,
        Stmt::Init(_) => INITIAL_VALUES,
        _ => DIMENSIONS,
    }
}

/// What is told of the nesting of DO and IF, of the statement at a line.
pub fn advice_on_nesting(stmts: &[Labelled], line: u32) -> Advice
    ensures { result.wrong.now ≡ advice_on_nesting_of stmts.now line }
{
    match statement_at(stmts, line) {
        Some(s) => if s.label == 0 {
            advice_on_block(&s.stmt)
        } else {
            LOOP_END
        },
        None => LOOP_END,
    }
}

fn advice_on_block(stmt: &Stmt) -> Advice
    ensures { result.wrong.now ≡ advice_on_block_of stmt.now }
{
    match stmt {
        Stmt::Else | Stmt::ElseIf(_) | Stmt::EndIf => NO_IF,
        Stmt::End => OPEN_AT_END,
        _ => LOOP_END,
    }
}
