//! Statements that have no form of the language: what each looks like.

ghost use Rattle.std.specs.Prelude.{◌≡◌, IfOk, option_map};
ghost use Rattle.form_advice.specs.Forms.{advice_on_form as advice_on_form_of, advice_on_plain as advice_on_plain_of, begun_like as begun_like_of, said_by, with_sign as with_sign_of};
ghost use Rattle.form_advice.specs.Said.{said};

use crate::advice::Advice;
use crate::shapes::{advice_on_shape, has, is_assignment, without_constants};
use df_sequence::NoMemory;
use std::alloc::Global;

/// A text, what is wrong with a statement that begins with it or has it, and what to write instead.
#[derive(Clone, Copy)]
pub(crate) struct Row(&'static str, &'static str, &'static str);

/// What functions are told for.
const FUNCTION: &str = "functions of your own aren't in the language";

const SUBROUTINE: &str =
    "Write a SUBROUTINE with one dummy more for the value, and CALL it. Or use --wide, which takes functions of integers and logical values.";

/// What statements on files are told for.
const FILE: &str = "files aren't in the language";

const STANDARD: &str =
    "Leave it out: READ * takes what data= gives, and PRINT * writes to standard output.";

/// What real and other kinds are told for.
const REAL: &str = "real numbers aren't in the language";

const SCALE: &str = "Use INTEGER, scaled where there are fractions.";

/// What a name after END is told for.
const NAMED_END: &str = "END takes no name";

const END: &str = "Write END alone. Or use --wide.";

/// What a kind's length is told for.
const LENGTH: &str = "a type has no length here";

/// What the names and bounds of a declaration are told for.
const BOUNDS: &str =
    "Bounds are numbers, in a subroutine too, and those of the caller's array; values come from DATA; a name has at most six letters and digits. Or use --wide.";

/// Statements that the language lacks, by what they begin with. The first row that fits counts.
const LACKING: [Row; 38] = [
    Row(
        "PARAMETER",
        "PARAMETER isn't in the language",
        "Write the number itself in bounds and DATA; elsewhere assign it to a variable. Or use --wide.",
    ),
    Row(
        "SAVE",
        "SAVE isn't in the language",
        "Leave it out: what a subroutine has of its own keeps its value. Or use --wide.",
    ),
    Row(
        "EXTERNAL",
        "EXTERNAL isn't in the language",
        "Leave it out: no name of a subprogram can be passed. Or use --wide.",
    ),
    Row(
        "INTRINSIC",
        "INTRINSIC isn't in the language",
        "Leave it out: no name of a function can be passed. Or use --wide.",
    ),
    Row(
        "FORMAT",
        "FORMAT isn't in the language",
        "Write PRINT * with items and texts.",
    ),
    Row("INTEGERFUNCTION", FUNCTION, SUBROUTINE),
    Row("LOGICALFUNCTION", FUNCTION, SUBROUTINE),
    Row("REALFUNCTION", FUNCTION, SUBROUTINE),
    Row("DOUBLEPRECISIONFUNCTION", FUNCTION, SUBROUTINE),
    Row("CHARACTERFUNCTION", FUNCTION, SUBROUTINE),
    Row("FUNCTION", FUNCTION, SUBROUTINE),
    Row(
        "RECURSIVE",
        "recursion isn't in the language",
        "Write a loop over an array.",
    ),
    Row("REAL", REAL, SCALE),
    Row("DOUBLEPRECISION", REAL, SCALE),
    Row("IMPLICITREAL", REAL, SCALE),
    Row("IMPLICITDOUBLEPRECISION", REAL, SCALE),
    Row(
        "COMPLEX",
        "complex numbers aren't in the language",
        "Use two integers.",
    ),
    Row(
        "CHARACTER",
        "variables of characters aren't in the language",
        "Texts stand in PRINT, WRITE and STOP alone; use numbers.",
    ),
    Row(
        "IMPLICITCHARACTER",
        "variables of characters aren't in the language",
        "Texts stand in PRINT, WRITE and STOP alone; use numbers.",
    ),
    Row(
        "INTEGER*",
        LENGTH,
        "Write INTEGER: each integer is a word of 32 bits. Or use --wide.",
    ),
    Row("LOGICAL*", LENGTH, "Write LOGICAL."),
    Row(
        "BLOCKDATA",
        "BLOCK DATA isn't in the language",
        "Put the DATA into the main program, or into a subroutine that is called. Or use --wide.",
    ),
    Row(
        "ENTRY",
        "ENTRY isn't in the language",
        "Write another SUBROUTINE.",
    ),
    Row(
        "ENDDO",
        "END DO isn't in the language",
        "Write DO 10 I=1,N and end the loop at a line with label 10 and CONTINUE. Or use --wide.",
    ),
    Row(
        "DOWHILE",
        "DO WHILE isn't in the language",
        "Write 10 IF (.NOT.(..)) GO TO 20, the statements, GO TO 10, and 20 CONTINUE. Or use --wide.",
    ),
    Row(
        "DOCONCURRENT",
        "DO CONCURRENT isn't in the language",
        "Write DO 10 I=1,N: the compiler finds what is independent.",
    ),
    Row("ENDPROGRAM", NAMED_END, END),
    Row("ENDSUBROUTINE", NAMED_END, END),
    Row("ENDFUNCTION", FUNCTION, SUBROUTINE),
    Row(
        "ASSIGN",
        "ASSIGN isn't in the language",
        "Keep a number, and branch on it by a computed GO TO.",
    ),
    Row("PAUSE", "PAUSE isn't in the language", "Leave it out."),
    Row(
        "NAMELIST",
        "NAMELIST isn't in the language",
        "Write READ * and PRINT * with the items.",
    ),
    Row(
        "INCLUDE",
        "INCLUDE isn't in the language",
        "Put the lines of that file here.",
    ),
    Row(
        "SELECTCASE",
        "SELECT CASE isn't in the language",
        "Use IF, ELSE IF and END IF, or a computed GO TO.",
    ),
    Row(
        "EXIT",
        "EXIT isn't in the language",
        "Write GO TO with a label behind the loop.",
    ),
    Row(
        "CYCLE",
        "CYCLE isn't in the language",
        "Write GO TO with the label of the loop's last statement, a CONTINUE.",
    ),
    Row(
        "MODULE",
        "modules aren't in the language",
        "Share names by COMMON.",
    ),
    Row(
        "USE",
        "modules aren't in the language",
        "Share names by COMMON.",
    ),
];

/// Statements on files, which the language lacks. They hold an equals sign in brackets alone.
const FILES: [Row; 6] = [
    Row("OPEN(", FILE, STANDARD),
    Row("CLOSE(", FILE, STANDARD),
    Row("INQUIRE(", FILE, STANDARD),
    Row("REWIND", FILE, STANDARD),
    Row("BACKSPACE", FILE, STANDARD),
    Row("ENDFILE", FILE, STANDARD),
];

/// Signs that no statement has outside character constants. The first row that fits counts.
const SIGNS: [Row; 14] = [
    Row(
        "\"",
        "a text stands in double quotes",
        "Put it in single quotes: 'A'.",
    ),
    Row(
        "==",
        "== isn't in the language",
        "Compare integers by .EQ. and logical values by .EQV.",
    ),
    Row(
        "/=",
        "/= isn't in the language",
        "Compare integers by .NE. and logical values by .NEQV.",
    ),
    Row("<=", "<= isn't in the language", "Write .LE."),
    Row(">=", ">= isn't in the language", "Write .GE."),
    Row("<", "< isn't in the language", "Write .LT."),
    Row(">", "> isn't in the language", "Write .GT."),
    Row(
        "_",
        "a name has an underscore",
        "Leave it out: a name has a letter and up to five letters and digits. Or use --wide.",
    ),
    Row(
        "$",
        "a name has a dollar sign",
        "Leave it out: a name has a letter and up to five letters and digits.",
    ),
    Row(
        "!",
        "a comment stands behind a statement",
        "Put it in a line of its own, with C or * in column 1. Or use --wide.",
    ),
    Row(
        ";",
        "two statements stand in one line",
        "Write one statement a line.",
    ),
    Row(
        "&",
        "a line ends with &",
        "Put a character in column 6 of the next line instead.",
    ),
    Row(
        "::",
        ":: isn't in the language",
        "Write the type and the names alone, and values by DATA.",
    ),
    Row(".XOR.", ".XOR. isn't in the language", "Write .NEQV."),
];

/// Statements of the language in another form, by what they begin with. The first row that fits counts.
const KNOWN: [Row; 22] = [
    Row(
        "PRINT",
        "PRINT takes *, a comma and items, which are expressions and texts of one character or more",
        "Write PRINT *,I,'A'; no list in brackets with a DO is an item, and no label of a FORMAT stands there. Or use --wide.",
    ),
    Row(
        "WRITE",
        "WRITE takes (*,*) or (6,*) and items, which are expressions and texts of one character or more",
        "Write WRITE(*,*) I,'A'; no list in brackets with a DO is an item, and no label of a FORMAT stands there.",
    ),
    Row(
        "READ",
        "READ takes *, (*,*) or (5,*) and variables",
        "Write READ *,I,A(3); read an array by a DO; nothing tells the end of the data.",
    ),
    Row(
        "CALL",
        "the arguments of a CALL are names alone",
        "Assign a constant, an expression or an element to a variable first, and give its name; for a label give a number, and branch on it behind the CALL. Or use --wide for constants and expressions.",
    ),
    Row(
        "SUBROUTINE",
        "SUBROUTINE takes a name, and names of dummies in brackets",
        "Write SUBROUTINE S or SUBROUTINE S(A,B); a name has at most six letters and digits.",
    ),
    Row(
        "PROGRAM",
        "PROGRAM takes a name of at most six letters and digits",
        "Make the name shorter, or leave the statement out.",
    ),
    Row(
        "RETURN",
        "RETURN takes nothing after it",
        "Write RETURN alone; give a number by an argument, and branch on it behind the CALL.",
    ),
    Row(
        "STOP",
        "STOP takes up to five digits, or a text in single quotes",
        "Write STOP alone.",
    ),
    Row(
        "DIMENSION",
        "DIMENSION takes names with one to seven bounds, which are numbers",
        BOUNDS,
    ),
    Row(
        "INTEGER",
        "INTEGER takes names, with one to seven bounds, which are numbers, or none",
        BOUNDS,
    ),
    Row(
        "LOGICAL",
        "LOGICAL takes names, with one to seven bounds, which are numbers, or none",
        BOUNDS,
    ),
    Row(
        "IMPLICIT",
        "IMPLICIT takes NONE, or INTEGER and LOGICAL with letters in brackets",
        "Write IMPLICIT INTEGER(A-Z).",
    ),
    Row(
        "COMMON",
        "COMMON takes names, with bounds or none, behind the name of a block between slashes",
        "Write COMMON /C/ I,A(10).",
    ),
    Row(
        "EQUIVALENCE",
        "EQUIVALENCE takes groups of two members or more in brackets, with numbers as subscripts",
        "Write EQUIVALENCE (I,A(1)).",
    ),
    Row(
        "DATA",
        "DATA takes names or elements, and constants between slashes",
        "Write DATA A/10*0/ for a whole array: no list with a DO and no name of a constant stands there. Or use --wide.",
    ),
    Row(
        "GOTO",
        "GO TO takes a label, or labels in brackets and an expression",
        "Write GO TO 10, or GO TO (10,20),I.",
    ),
    Row(
        "DO",
        "a DO takes the label of its last statement, a variable and two or three expressions",
        "Write DO 10 I=1,N and end the loop at a line with label 10 and CONTINUE.",
    ),
    Row(
        "ELSEIF",
        "ELSE IF takes a condition in brackets and THEN",
        "Write ELSE IF (I.EQ.1) THEN.",
    ),
    Row(
        "ELSE",
        "ELSE takes nothing after it",
        "Write ELSE alone, and what follows in the next line.",
    ),
    Row(
        "ENDIF",
        "END IF takes nothing after it",
        "Write END IF alone.",
    ),
    Row(
        "IF",
        "behind the condition of an IF stands THEN, one statement, or three labels",
        "Write IF (I.EQ.1) THEN, IF (I.EQ.1) J=2, or IF (I) 10,20,30; DATA, DO and another IF with a condition can't follow.",
    ),
    Row(
        "CONTINUE",
        "CONTINUE takes nothing after it",
        "Write CONTINUE alone.",
    ),
];

/// What is told of a statement that looks like nothing in particular.
const UNKNOWN: Advice = Advice {
    wrong: "no statement of the language has this form",
    instead: "Compare it with the statements of docs/LANGUAGE.md: names have at most six letters and digits, and arrays are assigned element by element.",
};

/// Tables of statements and signs, by which a statement without a form is told.
#[derive(Clone, Copy)]
pub struct Tables {
    lacking: &'static [Row],
    files: &'static [Row],
    signs: &'static [Row],
    known: &'static [Row],
}

/// The tables for texts of other Fortrans.
pub const TABLES: Tables = Tables {
    lacking: &LACKING,
    files: &FILES,
    signs: &SIGNS,
    known: &KNOWN,
};

/// What is told, by tables, of a statement's text, without blanks and in capitals, that has no form of the language: by what it
/// begins with, where the language lacks that; by signs that no statement has; by the shape of its expressions; or by the
/// statement of the language that it begins like.
///
/// # Errors
///
/// `NoMemory` where memory runs out.
pub fn advice_on_form(alloc: Global, tables: &Tables, text: &[u8]) -> Result<Advice, NoMemory>
    ensures { IfOk result (λ advice. said advice ≡ advice_on_form_of tables.now text.now) }
{
    let plain = without_constants(alloc, text)?;
    Ok(advice_on_plain(tables, text, plain.as_slice()))
}

// The same by tables, of a text and of that without its character constants.
fn advice_on_plain(tables: &Tables, text: &[u8], plain: &[u8]) -> Advice
    ensures { said result ≡ advice_on_plain_of tables.now text.now plain.now }
{
    if !is_assignment(plain)
        && let Some(advice) = begun_like(tables.lacking, plain)
    {
        return advice;
    }
    if let Some(advice) = begun_like(tables.files, plain) {
        return advice;
    }
    if let Some(advice) = with_sign(tables.signs, plain) {
        return advice;
    }
    if let Some(advice) = advice_on_shape(text, plain) {
        return advice;
    }
    begun_like(tables.known, plain).unwrap_or(UNKNOWN)
}

// What the first row tells that the text begins with.
fn begun_like(rows: &[Row], text: &[u8]) -> Option<Advice>
    ensures { option_map said result ≡ begun_like_of rows.now text.now }
{
    rows.iter()
        .find(|row| text.starts_with(row.0.as_bytes()))
        .map(advice_of)
}

// What the first row tells that the text has somewhere.
fn with_sign(rows: &[Row], text: &[u8]) -> Option<Advice>
    ensures { option_map said result ≡ with_sign_of rows.now text.now }
{
    rows.iter()
        .find(|row| has(text, row.0.as_bytes()))
        .map(advice_of)
}

fn advice_of(row: &Row) -> Advice
    ensures { said result ≡ said_by row.now }
{
    Advice {
        wrong: row.1,
        instead: row.2,
    }
}
