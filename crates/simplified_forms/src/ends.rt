use df_sequence::NoMemory;

/// Why a program wasn't simplified.
#[derive(Clone, Copy, Debug, PartialEq, Eq)]
pub enum FlatEnd {
    /// Its simplified form has more than 4,000 statements.
    TooManyStatements,
    /// There was no memory.
    NoMemory,
}

impl From<NoMemory> for FlatEnd {
    ghost use Rattle.std.specs.Prelude.{◌≡◌};
    ghost use Rattle.simplified_forms.specs.declared.ends.FlatEnd.TheVariants.{NoMemory};

    ghost from_gives = { λ _ e. e ≡ NoMemory };

    fn from(_refused: NoMemory) -> FlatEnd {
        FlatEnd::NoMemory
    }
}
