use df_sequence::NoMemory;
use f77_tree::RawExpr;

/// An expression that was read.
#[derive(Drop)]
pub struct Parsed {
    /// The expression. Brackets and a sign `+` leave no trace in it.
    pub expr: RawExpr,
    /// The place after the piece that was read, counted in characters from 0.
    pub next: u32,
}

/// An expression that was read, whether or not its constants are in range.
#[derive(Drop)]
pub struct ReadExpr {
    /// The expression. A constant above 2147483647 is kept as 0.
    pub expr: RawExpr,
    /// The place after the piece that was read, counted in characters from 0.
    pub next: u32,
    /// Whether an integer constant in the piece is above 2147483647.
    pub has_great_constant: bool,
}

/// Why nothing was read by a reader that goes on after the expression.
#[derive(Clone, Copy, Debug, PartialEq, Eq)]
pub enum ReadEnd {
    /// The piece is no expression.
    NoForm,
    /// There was no memory.
    NoMemory,
}

/// Why no expression was read. Where several hold, TooDeep is told before NoForm, and NoForm before BadConstant.
#[derive(Clone, Copy, Debug, PartialEq, Eq)]
pub enum ExprEnd {
    /// The piece is no expression.
    NoForm,
    /// An integer constant in the piece is above 2147483647.
    BadConstant,
    /// More than 60 brackets are open at some place of the piece.
    TooDeep,
    /// There was no memory.
    NoMemory,
}

impl From<NoMemory> for ReadEnd {
    ghost use Rattle.std.specs.Prelude.{◌≡◌};
    ghost use Rattle.f77_expr.specs.declared.parsed.ReadEnd.TheVariants.{NoMemory};

    ghost from_gives = { λ _ e. e ≡ NoMemory };

    fn from(_refused: NoMemory) -> ReadEnd {
        ReadEnd::NoMemory
    }
}

impl From<NoMemory> for ExprEnd {
    ghost use Rattle.std.specs.Prelude.{◌≡◌};
    ghost use Rattle.f77_expr.specs.declared.parsed.ExprEnd.TheVariants.{NoMemory};

    ghost from_gives = { λ _ e. e ≡ NoMemory };

    fn from(_refused: NoMemory) -> ExprEnd {
        ExprEnd::NoMemory
    }
}
