ghost use Rattle.std.specs.Prelude.{◌≡◌, All, IfErr, IfOk, map};
ghost use Rattle.std.specs.String.{string_bytes};
ghost use Rattle.std.specs.Str.{IsUtf8};
ghost use Rattle.dfc_c.specs.Words.{words_in};
ghost use Rattle.dfc_c.specs.declared.words.NoWords.TheVariants as no_words;

use std::alloc::{AllocError, AllocFailed, Global};

/// Why there are no words.
#[derive(Clone, Copy, Debug, PartialEq, Eq)]
pub(crate) enum NoWords {
    /// One of them is no UTF-8.
    NoText,
    /// Memory ran out.
    NoMemory,
}

impl From<AllocError> for NoWords {
    ghost from_gives = { λ _ out. out ≡ no_words.NoMemory };

    fn from(_: AllocError) -> NoWords {
        NoWords::NoMemory
    }
}

impl<T: Drop> From<AllocFailed<T>> for NoWords {
    ghost from_gives = { λ _ out. out ≡ no_words.NoMemory };

    fn from(_: AllocFailed<T>) -> NoWords {
        NoWords::NoMemory
    }
}

/// The words between the blanks of a text.
pub(crate) fn words_of(alloc: Global, text: &[u8]) -> Result<Vec<String>, NoWords>
    ensures words { IfOk result (λ words. map string_bytes words.items ≡ words_in text.now) }
    ensures fault { IfErr result (λ why. why ≡ NoWords.NoText → All IsUtf8 (words_in text.now) → ⊥) }
{
    let mut words = Vec::new(alloc);
    let mut word = Vec::new(alloc);
    for c in text {
        if *c == b' ' {
            words.push(ended(word)?)?;
            word = Vec::new(alloc);
        } else {
            word.push(*c)?;
        }
    }
    words.push(ended(word)?)?;
    Ok(words)
}

// A word that ends.
fn ended(word: Vec<u8>) -> Result<String, NoWords>
    ensures word { IfOk result (λ s. string_bytes s ≡ word.items) }
    ensures fault { IfErr result (λ why. (why ≡ NoWords.NoText) × (IsUtf8 word.items → ⊥)) }
{
    String::from_utf8(word).map_err(|_| NoWords::NoText)
}
