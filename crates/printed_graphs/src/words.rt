//! The words that stand for kinds of pieces, for what operations do, and for traps.

ghost use Rattle.std.specs.Prelude.{◌≡◌, IfSome, is_some};
ghost use Rattle.printed_graphs.specs.GraphReading.{is_work, is_trap};
ghost use Rattle.printed_graphs.specs.Reading.{is_kind};
ghost use Rattle.printed_graphs.specs.Names.{kind_text, work_text, operator_text, trap_text};

use crate::{PieceKind, Work};
use op_table::{Op, Trap};

// All kinds of pieces.
const KINDS: [PieceKind; 7] = [
    PieceKind::Act,
    PieceKind::Join,
    PieceKind::Branch,
    PieceKind::Pass,
    PieceKind::Start,
    PieceKind::Hold,
    PieceKind::End,
];

// All traps.
const TRAPS: [Trap; 5] = [
    Trap::Divide,
    Trap::Subscript,
    Trap::Step,
    Trap::Input,
    Trap::Overflow,
];

// All that operations do, the most common first.
const WORKS: [Work; 41] = [
    Work::Load,
    Work::Store,
    Work::Apply(Op::Add),
    Work::Apply(Op::Bound),
    Work::Apply(Op::Place),
    Work::Decide,
    Work::Apply(Op::Mul),
    Work::Apply(Op::Sub),
    Work::Write,
    Work::Begin,
    Work::Advance,
    Work::Take,
    Work::Apply(Op::Div),
    Work::Apply(Op::Pow),
    Work::Apply(Op::Neg),
    Work::Apply(Op::Lt),
    Work::Apply(Op::Le),
    Work::Apply(Op::Eq),
    Work::Apply(Op::Ne),
    Work::Apply(Op::Ge),
    Work::Apply(Op::Gt),
    Work::Apply(Op::Not),
    Work::Apply(Op::And),
    Work::Apply(Op::Or),
    Work::Apply(Op::Eqv),
    Work::Apply(Op::Neqv),
    Work::Apply(Op::Mod),
    Work::Apply(Op::Abs),
    Work::Apply(Op::Sign),
    Work::Apply(Op::Max),
    Work::Apply(Op::Min),
    Work::Apply(Op::Truth),
    Work::Apply(Op::Three),
    Work::Apply(Op::Pick),
    Work::Apply(Op::Step),
    Work::Apply(Op::AddChecked),
    Work::Apply(Op::SubChecked),
    Work::Apply(Op::MulChecked),
    Work::Apply(Op::NegChecked),
    Work::Apply(Op::AbsChecked),
    Work::Apply(Op::PowChecked),
];

/// The kind of a piece as it is printed.
pub fn kind_name(kind: PieceKind) -> &'static str
    ensures { result.now ≡ kind_text kind }
{
    match kind {
        PieceKind::Start => "START",
        PieceKind::Act => "ACT",
        PieceKind::Branch => "BRANCH",
        PieceKind::Join => "JOIN",
        PieceKind::Pass => "PASS",
        PieceKind::Hold => "HOLD",
        PieceKind::End => "END",
    }
}

/// What an operation does, as it is printed.
pub fn work_name(work: Work) -> &'static str
    ensures { result.now ≡ work_text work }
{
    match work {
        Work::Load => "LOAD",
        Work::Apply(op) => operator_name(op),
        Work::Store => "STORE",
        Work::Write => "WRITE",
        Work::Begin => "BEGIN",
        Work::Advance => "ADVANCE",
        Work::Decide => "DECIDE",
        Work::Take => "TAKE",
    }
}

// An operator as it is printed.
fn operator_name(op: Op) -> &'static str
    ensures { result.now ≡ operator_text op }
{
    match op {
        Op::Add => "ADD",
        Op::Sub => "SUB",
        Op::Mul => "MUL",
        Op::Div => "DIV",
        Op::Pow => "POW",
        Op::Neg => "NEG",
        Op::Lt => "LT",
        Op::Le => "LE",
        Op::Eq => "EQ",
        Op::Ne => "NE",
        Op::Ge => "GE",
        Op::Gt => "GT",
        Op::Not => "NOT",
        Op::And => "AND",
        Op::Or => "OR",
        Op::Eqv => "EQV",
        Op::Neqv => "NEQV",
        Op::Mod => "MOD",
        Op::Abs => "ABS",
        Op::Sign => "SIGN",
        Op::Max => "MAX",
        Op::Min => "MIN",
        Op::Truth => "TRUTH",
        Op::Bound => "BOUND",
        Op::Place => "PLACE",
        Op::Three => "THREE",
        Op::Pick => "PICK",
        Op::Step => "STEP",
        Op::AddChecked => "ADDC",
        Op::SubChecked => "SUBC",
        Op::MulChecked => "MULC",
        Op::NegChecked => "NEGC",
        Op::AbsChecked => "ABSC",
        Op::PowChecked => "POWC",
    }
}

/// A trap as it is printed.
pub fn trap_name(trap: Trap) -> &'static str
    ensures { result.now ≡ trap_text trap }
{
    match trap {
        Trap::Divide => "DIVIDE",
        Trap::Subscript => "SUBSCRIPT",
        Trap::Step => "STEP",
        Trap::Input => "INPUT",
        Trap::Overflow => "OVERFLOW",
    }
}

/// The kind of piece that a word stands for.
pub(crate) fn kind_of(word: &[u8]) -> Option<PieceKind>
    ensures text { IfSome result (λ kind. word.now ≡ kind_text kind) }
    ensures variant { is_some result ≡ is_kind word.now }
{
    for kind in KINDS {
        if kind_name(kind).as_bytes() == word {
            return Some(kind);
        }
    }
    None
}

/// What an operation does that a word stands for.
pub(crate) fn work_of(word: &[u8]) -> Option<Work>
    ensures text { IfSome result (λ work. word.now ≡ work_text work) }
    ensures variant { is_some result ≡ is_work word.now }
{
    for work in WORKS {
        if work_name(work).as_bytes() == word {
            return Some(work);
        }
    }
    None
}

/// The trap that a word stands for.
pub(crate) fn trap_of(word: &[u8]) -> Option<Trap>
    ensures text { IfSome result (λ trap. word.now ≡ trap_text trap) }
    ensures variant { is_some result ≡ is_trap word.now }
{
    for trap in TRAPS {
        if trap_name(trap).as_bytes() == word {
            return Some(trap);
        }
    }
    None
}
