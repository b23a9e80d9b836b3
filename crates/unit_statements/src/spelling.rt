//! Names as texts.

ghost use Rattle.std.specs.Prelude.{◌≡◌};

use f77_tree::Name;

/// A name's characters as a text.
#[tactic(auto, using(crate::proofs::Names::names_are_texts))]
pub fn spelt(name: &Name) -> &str
    ensures { result.now ≡ name.now }
{
    let _length = name.len();
    match std::str::from_utf8(name.as_bytes()) {
        Ok(text) => text,
        Err(_) => unreachable!(),
    }
}
