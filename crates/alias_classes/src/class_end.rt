use df_sequence::NoMemory;

/// Why the classes of a program were not made.
#[derive(Clone, Copy, Debug, PartialEq, Eq)]
pub enum ClassEnd {
    /// There are more classes than a set holds.
    TooManyClasses,
    /// There was no memory.
    NoMemory,
}

impl From<NoMemory> for ClassEnd {
    ghost use Rattle.std.specs.Prelude.{◌≡◌};
    ghost use Rattle.alias_classes.specs.declared.class_end.ClassEnd.TheVariants.{NoMemory};

    ghost from_gives = { λ _ e. e ≡ NoMemory };

    fn from(_refused: NoMemory) -> ClassEnd {
        ClassEnd::NoMemory
    }
}
