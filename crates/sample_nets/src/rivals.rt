ghost use Rattle.sample_nets.specs.Rivals.{free_token, rivals};
ghost use Rattle.firing.specs.Laws.{IsLawful};

/// What two rivals have to work on: one token.
#[derive(Clone, Copy, Debug, PartialEq, Eq)]
pub struct Token {
    /// Whether none has taken it.
    pub free: bool,
    /// Which one took it.
    pub winner: u32,
}

/// A fact about tokens.
pub trait OnTokens {
    ghost use Rattle.sample_nets.specs.declared.rivals.Token.{Token};

    ghost holds: { Token → Type 0 };
}

/// The laws of firing can't hold of two rivals, whatever is taken to hold of the markings that can come, as long as it
/// holds of the first one.
pub fn rivals_break_the_laws<C: OnTokens>()
    ensures { C.holds free_token → IsLawful C.holds rivals → ⊥ }
{}
