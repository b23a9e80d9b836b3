// What footprints give, as contracts of a function that does nothing.

ghost use Rattle.std.specs.Prelude.{ℕ, Bool};
ghost use Rattle.firing.specs.Footprints.{HasFootprints, SharesFootprints};
ghost use Rattle.firing.specs.Laws.{IsLawful};
ghost use Rattle.firing.specs.Moves.{Moves};

/// Markings that are seen by their parts.
pub trait InParts {
    /// What the nodes have to work on, at one moment.
    ghost Marking: { Type 0 };

    /// The parts of a marking, as the lines and the cells of a store.
    ghost Part: { Type 0 };

    /// What a marking can have at a part.
    ghost Value: { Part → Type 0 };

    ghost at: { Marking → (part : Part) → Value part };

    /// Holds of the markings that can come.
    ghost sound: { Marking → Type 0 };
}

/// The laws of firing hold where the firings of each node depend on its footprint alone and change nothing else, and no two
/// ready nodes have a part of it in common. They hold as well where ready nodes share parts, if of such a part each makes
/// the same whichever fires first, and none minds what the other made of it.
pub fn footprints_commute<P: InParts>()
    ensures apart { (s : Moves P.Marking) (foot : ℕ → P.Part → Bool) → HasFootprints P.sound s P.at foot → IsLawful P.sound s }
    ensures shared { (s : Moves P.Marking) (foot shares : ℕ → P.Part → Bool) (update : ℕ → (part : P.Part) → P.Value part → P.Value part) → SharesFootprints P.sound s P.at foot shares update → IsLawful P.sound s }
{}
