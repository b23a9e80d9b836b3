//! What kind of statement a statement is.

ghost use Rattle.std.specs.Prelude.{◌≡◌};
ghost use Rattle.fortran_tree.specs.Heads.{begins_unit as unit_begins, is_action as may_depend, is_declaration as only_declares, is_executable as may_run};

/// What a name stands for.
#[derive(Clone, Copy, PartialEq, Eq)]
pub enum Kind {
    Integer,
    Logical,
}

/// The kind of a statement, with what its body holds.
#[derive(Clone, Copy)]
pub enum Head {
    /// The name.
    Program,
    /// The name, and the dummies in brackets where there are any.
    Subroutine,
    /// The same, with the kind where the statement gives it.
    Function(Option<Kind>),
    /// The name, if it has one.
    BlockData,
    ImplicitNone,
    /// The types with their letters.
    Implicit,
    /// The names of a type statement.
    Declare(Kind),
    Dimension,
    Common,
    Equivalence,
    /// The brackets.
    Parameter,
    External,
    Intrinsic,
    Save,
    Data,
    /// The target, an equals sign and the value.
    Assign,
    /// The brackets of a block IF.
    Then,
    /// The brackets of an ELSE IF.
    ElseIf,
    Else,
    EndIf,
    /// The brackets and three labels.
    ArithmeticIf,
    /// The label, if there is one, the variable, an equals sign and the parameters.
    Do,
    /// The label, if there is one, and the brackets.
    DoWhile,
    EndDo,
    /// What follows GO TO.
    GoTo,
    /// The name, and the arguments in brackets where there are any.
    Call,
    Return,
    /// A number or a text, or nothing.
    Stop,
    Continue,
    /// The items.
    Print,
    /// The items.
    Read,
    End,
}

impl Head {
    /// The words that stand before the body.
    pub(crate) fn before(self) -> &'static str {
        match self {
            Head::Program => "PROGRAM ",
            Head::Subroutine => "SUBROUTINE ",
            Head::Function(None) => "FUNCTION ",
            Head::Function(Some(Kind::Integer)) => "INTEGER FUNCTION ",
            Head::Function(Some(Kind::Logical)) => "LOGICAL FUNCTION ",
            Head::BlockData => "BLOCK DATA ",
            Head::ImplicitNone => "IMPLICIT NONE",
            Head::Implicit => "IMPLICIT ",
            Head::Declare(Kind::Integer) => "INTEGER ",
            Head::Declare(Kind::Logical) => "LOGICAL ",
            Head::Dimension => "DIMENSION ",
            Head::Common => "COMMON ",
            Head::Equivalence => "EQUIVALENCE ",
            Head::Parameter => "PARAMETER ",
            Head::External => "EXTERNAL ",
            Head::Intrinsic => "INTRINSIC ",
            Head::Save => "SAVE ",
            Head::Data => "DATA ",
            Head::Assign => "",
            Head::Then | Head::ArithmeticIf => "IF ",
            Head::ElseIf => "ELSE IF ",
            Head::Else => "ELSE",
            Head::EndIf => "END IF",
            Head::Do => "DO ",
            Head::DoWhile => "DO WHILE ",
            Head::EndDo => "END DO",
            Head::GoTo => "GO TO ",
            Head::Call => "CALL ",
            Head::Return => "RETURN",
            Head::Stop => "STOP",
            Head::Continue => "CONTINUE",
            Head::Print => "PRINT *",
            Head::Read => "READ *",
            Head::End => "END",
        }
    }

    /// The words that stand after the body.
    pub(crate) fn after(self) -> &'static str {
        match self {
            Head::Then | Head::ElseIf => " THEN",
            _ => "",
        }
    }

    /// Whether it says what unit begins with it.
    pub fn begins_unit(self) -> bool
        ensures { result ≡ unit_begins self }
    {
        matches!(
            self,
            Head::Program | Head::Subroutine | Head::Function(_) | Head::BlockData
        )
    }

    /// Whether it may depend on the condition of a logical IF (ANSI X3.9-1978, 11.5).
    pub fn is_action(self) -> bool
        ensures { result ≡ may_depend self }
    {
        matches!(
            self,
            Head::Assign
                | Head::GoTo
                | Head::Call
                | Head::Return
                | Head::Stop
                | Head::Continue
                | Head::Print
                | Head::Read
        )
    }

    /// Whether it is neither the first statement of a unit nor one that says what names mean or begin with.
    pub fn is_executable(self) -> bool
        ensures { result ≡ may_run self }
    {
        !self.begins_unit() && !self.is_declaration() && !matches!(self, Head::Data)
    }

    /// Whether it only says what names mean, above the executable statements.
    pub fn is_declaration(self) -> bool
        ensures { result ≡ only_declares self }
    {
        matches!(
            self,
            Head::ImplicitNone
                | Head::Implicit
                | Head::Declare(_)
                | Head::Dimension
                | Head::Common
                | Head::Equivalence
                | Head::Parameter
                | Head::External
                | Head::Intrinsic
                | Head::Save
        )
    }
}
