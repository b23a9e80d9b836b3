//! Whether a text is a program of the language of `dfc`.

ghost use Rattle.std.specs.Prelude.{OnOk};
ghost use Rattle.f77_lower.specs.Lowering.{IsProgram};

use f77_source::{Code, SourceEnd, read_program};
use fortran_tree::{LowerError, Place, Reason};
use std::alloc::Global;

/// How many bytes `dfc` reads at most.
pub(crate) const MOST_BYTES: usize = 4194304;

/// Why a text is refused (docs/LANGUAGE.md), as a sentence.
fn sentence(code: Code) -> &'static str {
    match code {
        Code::BadByte => "a character that is none of Fortran's",
        Code::BadLabelField => "columns 1 to 5 hold no label",
        Code::StrayContinuation => "a continuation line with no statement above it",
        Code::TooManyContinuations => "a statement that needs more than 19 continuation lines",
        Code::TooManyStatements =>
            "a program that comes to more than 4,000 statements where each CALL stands for those of its unit",
        Code::NoEnd => "the text does not end with END",
        Code::TooDeep => "a statement with more than 60 brackets in one another",
        Code::NoForm => "a statement that is not understood",
        Code::BadConstant => "a constant, a label or a repeat that is out of range",
        Code::SubTwice => "a subroutine with the name of another one",
        Code::NoSub => "a CALL of a subroutine that the text does not have",
        Code::BadCall =>
            "arguments of other numbers, kinds or bounds than the dummies, or a dummy in COMMON, EQUIVALENCE or DATA",
        Code::BadBlock => "a block of COMMON that is another one in a unit above",
        Code::Recursion => "a unit that calls itself",
        Code::TooManyNames => "a program that needs too many names",
        Code::OutOfOrder => "a statement in the wrong order",
        Code::RealName => "a name that is real, or has no kind; declare it INTEGER or LOGICAL",
        Code::TypeWrong => "an operand or a name of the wrong kind",
        Code::LayoutWrong => "dimensions, COMMON, EQUIVALENCE or DATA that contradict each other",
        Code::LabelTwice => "a label that stands above already",
        Code::LabelMissing => "a label that stands on no statement",
        Code::BadNesting => "loops and blocks of IF that are not nested",
        Code::JumpInto => "a jump into a loop or an arm",
        Code::TooManyWords => "more than 262,144 words of storage",
        Code::TooManyOps => "a statement of too many operations",
        Code::TooManyClasses => "too many variables that are kept apart",
    }
}

/// Refuses a text that is no program, where the statement that is refused stands in the source. `places` has the place of each line.
#[tactic(auto, using(crate::proofs::Readings::program_of))]
pub(crate) fn refuse_no_program(
    alloc: Global,
    text: &[u8],
    places: &[Place],
) -> Result<(), LowerError>
    ensures { OnOk result (IsProgram text.now) }
{
    let first = Place { line: 1, column: 1 };
    let last = places.last().copied().unwrap_or(first);
    if text.len() > MOST_BYTES {
        let reason = Reason::Language("a program that comes to more than 4,194,304 bytes");
        return Err(last.refused(reason));
    }
    match read_program(alloc, text, false) {
        Ok(_) => Ok(()),
        Err(SourceEnd::NoMemory) => Err(LowerError::NoMemory),
        Err(SourceEnd::Refused(refusal)) => {
            let line = (refusal.line as usize).saturating_sub(1);
            let place = places.get(line).copied().unwrap_or(last);
            Err(place.refused(Reason::Language(sentence(refusal.code))))
        }
    }
}
