ghost use Rattle.std.specs.Prelude.{◌≡◌, ◌≤◌, length, IfOk, IfSome, IsErrOf};
ghost use Rattle.df_io.specs.Faults.{Rose};
ghost use Rattle.f77_tree.specs.Dialects.{IsOfDialect};
ghost use Rattle.f77_tree.specs.Operations.{HasFewOperations};
ghost use Rattle.f77_tree.specs.WellFormed.{IsWellFormed};
ghost use Rattle.alias_classes.specs.Number.{HasFewClasses};
ghost use Rattle.f77_source.specs.Reading.{IsProgramOf};
ghost use Rattle.job_terms.specs.Codes.{name_of};
ghost use Rattle.job_terms.specs.Reading.{reading, most_bytes, IsReadAs, IsReadFor, IsReadWithin};

use df_io::{ReadEnd, Source, read_all};
use f77_source::SourceEnd;
use f77_tree::Program;
use read_dialects::programs_are_read_in_their_dialect;
use std::alloc::Global;

/// How many bytes a text may have.
const MOST_BYTES: u32 = 4_194_304;

/// The rule that a refused text breaks.
#[derive(Clone, Copy, Debug, PartialEq, Eq)]
pub enum Code {
    /// It has too many bytes.
    TooLong,
    /// It is no program.
    Text(f77_source::Code),
    /// Its rewritten form has more temporaries than there are names for, or too many words with them.
    TooManyNames,
    /// A statement of its rewritten form is too long or too deep.
    LongText,
}

impl Code {
    /// The code as it is written.
    pub fn name(self) -> &'static str
        ensures name { result.now ≡ name_of self }
        ensures short { length result.now ≤ 12 }
    {
        match self {
            Code::TooLong => "TOOLONG",
            Code::Text(code) => text_name(code),
            Code::TooManyNames => "MANYNAMES",
            Code::LongText => "LONGTEXT",
        }
    }
}

// The code of a text that is no program, as it is written.
fn text_name(code: f77_source::Code) -> &'static str
    ensures name { result.now ≡ name_of (Code.Text code) }
    ensures short { length result.now ≤ 12 }
{
    match code {
        f77_source::Code::BadByte => "BADBYTE",
        f77_source::Code::BadLabelField => "BADLABEL",
        f77_source::Code::StrayContinuation => "STRAYCONT",
        f77_source::Code::TooManyContinuations => "MANYCONT",
        f77_source::Code::TooManyStatements => "MANYSTMTS",
        f77_source::Code::NoEnd => "NOEND",
        f77_source::Code::TooDeep => "TOODEEP",
        f77_source::Code::NoForm => "NOFORM",
        f77_source::Code::BadConstant => "BADCONST",
        f77_source::Code::SubTwice => "SUBTWICE",
        f77_source::Code::NoSub => "NOSUB",
        f77_source::Code::BadCall => "BADCALL",
        f77_source::Code::BadBlock => "BADBLOCK",
        f77_source::Code::Recursion => "RECURSION",
        f77_source::Code::TooManyNames => "MANYNAMES",
        f77_source::Code::OutOfOrder => "BADORDER",
        f77_source::Code::RealName => "REALNAME",
        f77_source::Code::TypeWrong => "BADTYPE",
        f77_source::Code::LayoutWrong => "BADLAYOUT",
        f77_source::Code::LabelTwice => "LABELTWICE",
        f77_source::Code::LabelMissing => "NOLABEL",
        f77_source::Code::BadNesting => "BADNESTING",
        f77_source::Code::JumpInto => "JUMPINTO",
        f77_source::Code::TooManyWords => "MANYWORDS",
        f77_source::Code::TooManyOps => "MANYOPS",
        f77_source::Code::TooManyClasses => "MANYCLASSES",
    }
}

/// Why there is no program.
#[derive(Clone, Copy, Debug, PartialEq, Eq)]
pub enum NoProgram {
    /// The text is refused, by a code and the line that it is told at.
    Refused { line: u32, code: Code },
    /// The source failed.
    ReadFault,
    /// There was no memory.
    NoMemory,
}

/// Reads the program of the text that the source has, to its end or to the first byte past what a text may have.
pub fn read_program<S: Source>(
    alloc: Global,
    source: &mut S,
    checked: bool,
) -> Result<Program, NoProgram>
    ensures reads { IfSome (S.left source.old) (λ bytes. IsReadAs (reading checked bytes) result) }
    ensures statements { IfSome (S.left source.old) (λ bytes. IfOk result (IsProgramOf bytes checked)) }
    ensures well_formed { IfOk result (λ program. IsWellFormed program) }
    ensures dialect { IfOk result (λ program. IsOfDialect checked program) }
    ensures few { IfOk result (λ program. HasFewClasses program) }
    ensures modest { IfOk result (λ program. HasFewOperations program) }
    ensures taken { IsReadFor (S.left source.old) (S.left source.new) result }
    ensures within { IsReadWithin (S.left source.old) (S.left source.new) }

    // The source is blamed only where it failed.
    ensures later { S.faults source.old ≤ S.faults source.new }
    ensures fault { IsErrOf result NoProgram.ReadFault → Rose (S.faults source.old) (S.faults source.new) }
{
    match read_all(alloc, source, MOST_BYTES) {
        Ok(bytes) => read_text(alloc, bytes.as_slice(), checked),
        Err(ReadEnd::TooLong) => Err(NoProgram::Refused {
            line: 0,
            code: Code::TooLong,
        }),
        Err(ReadEnd::ReadFault) => Err(NoProgram::ReadFault),
        Err(ReadEnd::NoMemory) => Err(NoProgram::NoMemory),
    }
}

/// The program of a text.
pub fn read_bytes(alloc: Global, bytes: &[u8], checked: bool) -> Result<Program, NoProgram>
    ensures reads { IsReadAs (reading checked bytes.now) result }
    ensures well_formed { IfOk result (λ program. IsWellFormed program) }
    ensures few { IfOk result (λ program. HasFewClasses program) }
    ensures modest { IfOk result (λ program. HasFewOperations program) }
    ensures read { IsErrOf result NoProgram.ReadFault → ⊥ }
{
    if bytes.len() > MOST_BYTES as usize {
        return Err(NoProgram::Refused {
            line: 0,
            code: Code::TooLong,
        });
    }
    read_text(alloc, bytes, checked)
}

// The program of a text that isn't too long.
fn read_text(alloc: Global, bytes: &[u8], checked: bool) -> Result<Program, NoProgram>
    requires { length bytes.now ≤ most_bytes }
    ensures reads { IsReadAs (reading checked bytes.now) result }
    ensures statements { IfOk result (IsProgramOf bytes.now checked) }
    ensures well_formed { IfOk result (λ program. IsWellFormed program) }
    ensures dialect { IfOk result (λ program. IsOfDialect checked program) }
    ensures few { IfOk result (λ program. HasFewClasses program) }
    ensures modest { IfOk result (λ program. HasFewOperations program) }
    ensures read { IsErrOf result NoProgram.ReadFault → ⊥ }
{
    programs_are_read_in_their_dialect();
    match f77_source::read_program(alloc, bytes, checked) {
        Ok(program) => Ok(program),
        Err(SourceEnd::Refused(refusal)) => Err(NoProgram::Refused {
            line: refusal.line,
            code: Code::Text(refusal.code),
        }),
        Err(SourceEnd::NoMemory) => Err(NoProgram::NoMemory),
    }
}
