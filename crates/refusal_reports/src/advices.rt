//! What is told of codes without the names of the text.

ghost use Rattle.std.specs.Prelude.{◌≡◌};
ghost use Rattle.refusal_reports.specs.Advices.{advice_at as advice_at_of, advice_on as advice_on_of, advice_on_byte as advice_on_byte_of, advice_on_label as advice_on_label_of};

use crate::columns::{column_of_byte, column_of_label};
use f77_source::{Code, Refusal};
use f77_tree::Labelled;
use form_advice::Advice;
use refusal_causes::{advice_on_layout, advice_on_nesting, advice_on_order};

const TAB: Advice = Advice {
    wrong: "a tab stands in a statement",
    instead: "Write blanks in its place: labels stand in columns 1 to 5, statements in columns 7 to 72. Or use --wide.",
};

const CARRIAGE_RETURN: Advice = Advice {
    wrong: "a carriage return stands inside a line",
    instead: "End lines by a line feed, or by a carriage return and a line feed.",
};

const NOT_ASCII: Advice = Advice {
    wrong: "a character stands here that isn't of ASCII",
    instead: "Write characters of ASCII in statements; comment lines may have any.",
};

const CONTROL: Advice = Advice {
    wrong: "a control character stands in a statement",
    instead: "Write a blank in its place, or leave it out.",
};

const EXCLAMATION: Advice = Advice {
    wrong: "a comment begins with !",
    instead: "Write C or * in column 1 of a comment line. Or use --wide.",
};

const NO_LABEL: Advice = Advice {
    wrong: "columns 1 to 5 have another character than digits and blanks",
    instead: "Begin the statement in column 7: columns 1 to 5 are for its label. A comment line has C or * in column 1.",
};

const CONTINUED_LABEL: Advice = Advice {
    wrong: "a continuation line has a label",
    instead: "Leave columns 1 to 5 blank there, or column 6 where a statement begins.",
};

const ZERO: Advice = Advice {
    wrong: "a label is 0",
    instead: "Labels are from 1 to 99999; leave columns 1 to 5 blank where there is none.",
};

const STRAY: Advice = Advice {
    wrong: "a continuation line has no statement above it",
    instead: "Leave column 6 blank in the first line of a statement, and begin it in column 7.",
};

const CONTINUATIONS: Advice = Advice {
    wrong: "a statement has more than 19 continuation lines",
    instead: "Write it as several statements.",
};

const STATEMENTS: Advice = Advice {
    wrong: "there are more than 4,000 statements, those of a subroutine counted at each CALL of it",
    instead: "Make the text shorter, or call its subroutines from fewer places.",
};

const NO_END: Advice = Advice {
    wrong: "the last statement isn't END",
    instead: "End the text, and each unit, with END alone in columns 7 to 72: no name stands behind it.",
};

const BRACKETS: Advice = Advice {
    wrong: "more than 60 brackets are open at one place",
    instead: "Assign a part of the expression to a variable first.",
};

const CONSTANT: Advice = Advice {
    wrong: "a number is out of range",
    instead: "Constants go up to 2147483647, labels from 1 to 99999, repeats in DATA from 1 to 2147483647; the least integer is -2147483647-1.",
};

const NAMES: Advice = Advice {
    wrong: "the copies of subroutines have more than 99,999 names of their own",
    instead: "Call them from fewer places, or put their names into arrays.",
};

const JUMP: Advice = Advice {
    wrong: "a jump leads into the range of a DO, or into an arm of an IF, from outside",
    instead: "Jump to the DO or the IF itself, or behind its end.",
};

const WORDS: Advice = Advice {
    wrong: "all names together have more than 262,144 words",
    instead: "Make the arrays smaller.",
};

const OPERATIONS: Advice = Advice {
    wrong: "the statement takes more than 500 operations, or the text has more than 4,000 labels in computed GO TO, or items of READ",
    instead: "Write it as several statements; a CALL of a subroutine counts its statements.",
};

const CLASSES: Advice = Advice {
    wrong: "there are more than 1,023 classes of names that share words",
    instead: "Put scalars into arrays: an array is one class.",
};

const OTHER: Advice = Advice {
    wrong: "the text is refused here",
    instead: "See docs/LANGUAGE.md for this code.",
};

/// What is told of a refusal: of the line that it names, and of the statements of the text.
pub(crate) fn advice_on(line: &[u8], stmts: &[Labelled], refusal: Refusal) -> Advice
    ensures { result.wrong.now ≡ advice_on_of line.now stmts.now refusal }
{
    match refusal.code {
        Code::BadByte => advice_on_byte(line),
        Code::BadLabelField => advice_on_label(line),
        Code::OutOfOrder => advice_on_order(stmts, refusal.line),
        Code::LayoutWrong => advice_on_layout(stmts, refusal.line),
        Code::BadNesting => advice_on_nesting(stmts, refusal.line),
        code => advice_at(code),
    }
}

// What is told of a code alone.
fn advice_at(code: Code) -> Advice
    ensures { result.wrong.now ≡ advice_at_of code }
{
    match code {
        Code::StrayContinuation => STRAY,
        Code::TooManyContinuations => CONTINUATIONS,
        Code::TooManyStatements => STATEMENTS,
        Code::NoEnd => NO_END,
        Code::TooDeep => BRACKETS,
        Code::BadConstant => CONSTANT,
        Code::TooManyNames => NAMES,
        Code::JumpInto => JUMP,
        Code::TooManyWords => WORDS,
        Code::TooManyOps => OPERATIONS,
        Code::TooManyClasses => CLASSES,
        _ => OTHER,
    }
}

// What is told of the first byte that is no character of the source.
fn advice_on_byte(line: &[u8]) -> Advice
    ensures { result.wrong.now ≡ advice_on_byte_of line.now }
{
    match column_of_byte(line) {
        None => CONTROL,
        Some(column) => match line[column as usize - 1] {
            b'\t' => TAB,
            b'\r' => CARRIAGE_RETURN,
            128.. => NOT_ASCII,
            _ => CONTROL,
        },
    }
}

// What is told of columns 1 to 5.
fn advice_on_label(line: &[u8]) -> Advice
    ensures { result.wrong.now ≡ advice_on_label_of line.now }
{
    if line.starts_with(b"!") {
        return EXCLAMATION;
    }
    if column_of_label(line).is_some() {
        return NO_LABEL;
    }
    match line.get(5) {
        None | Some(b' ' | b'0') => ZERO,
        Some(_) => CONTINUED_LABEL,
    }
}
