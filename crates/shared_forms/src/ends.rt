use df_sequence::NoMemory;

/// Why repeated expressions of a program weren't shared.
#[derive(Clone, Copy, Debug, PartialEq, Eq)]
pub enum RewriteEnd {
    /// Names of temporaries are left for fewer of them than there are, or they take more than 262,144 words with those of the program.
    TooManyNames,
    /// There are more than 4,000 statements.
    TooManyStatements,
    /// The text of a statement has more than 1,320 characters, or more than 60 open brackets.
    LongText,
    /// There was no memory.
    NoMemory,
}

impl From<NoMemory> for RewriteEnd {
    ghost use Rattle.std.specs.Prelude.{◌≡◌};
    ghost use Rattle.shared_forms.specs.declared.ends.RewriteEnd.TheVariants.{NoMemory};

    ghost from_gives = { λ _ e. e ≡ NoMemory };

    fn from(_refused: NoMemory) -> RewriteEnd {
        RewriteEnd::NoMemory
    }
}
