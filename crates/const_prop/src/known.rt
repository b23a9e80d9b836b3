//! What is known of a value.

ghost use Rattle.std.specs.Prelude.{MatchOption};
ghost use Rattle.const_prop.specs.Known.{AtMost};
ghost use Rattle.const_prop.specs.Rise.{IsRise};

/// What is known of the word of a line on a wire, or of the out-edge that a branch takes.
#[derive(Clone, Copy, Debug, PartialEq, Eq)]
pub enum Known {
    /// Control never comes there.
    Nothing,
    /// It is this one.
    One(i32),
    /// It may be any.
    Any,
}

/// What is known where something comes besides, if that is more.
pub(crate) fn risen(old: Known, comes: Known) -> Option<Known>
    ensures { MatchOption result (AtMost comes old) (λ new. IsRise old comes new) }
{
    match (old, comes) {
        (Known::Any, _) | (_, Known::Nothing) => None,
        (Known::Nothing, new) => Some(new),
        (Known::One(_), Known::Any) => Some(Known::Any),
        (Known::One(v), Known::One(w)) => { if v == w { None } else { Some(Known::Any) } }
    }
}
