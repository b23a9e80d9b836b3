//! The words for a run.

ghost use Rattle.std.specs.Prelude.{◌≡◌, ◌∷◌, IfOk, map};
ghost use Rattle.std.specs.List.{list_any};
ghost use Rattle.std.specs.String.{string_bytes};
ghost use Rattle.view_commands.specs.RunWords.{begins_with, dialect_in, forks_apart, is_checked_last, is_run_told, picks_added, picks_left_out};

use std::alloc::{AllocError, Global};

// The picks of a run beside that in the text's own order.
const OTHER_PICKS: &str = "picks=1,4,2,8,5,7";

/// The words for a run, without picks.
#[tactic(auto, using(crate::proofs::WordLists::word_step, crate::proofs::WordLists::words_end))]
pub fn without_picks(alloc: Global, words: &[String]) -> Result<Vec<String>, AllocError>
    ensures { IfOk result (λ all. map string_bytes all.items ≡ picks_left_out (map string_bytes words.now)) }
{
    let mut all = Vec::new(alloc);
    for word in words {
        if !begins(word.as_str(), "picks=") {
            all.push(String::from_str(alloc, word.as_str())?)?;
        }
    }
    Ok(all)
}

/// The words for a run, with picks: their own, or else others, after a limit.
pub fn with_picks(alloc: Global, words: &[String]) -> Result<Vec<String>, AllocError>
    ensures { IfOk result (λ all. map string_bytes all.items ≡ picks_added (map string_bytes words.now)) }
{
    if any_begins(words, "picks=") {
        return copies(alloc, words);
    }
    match words {
        [limit, rest @ ..] if begins(limit.as_str(), "limit=") => {
            let rest = words_after(alloc, OTHER_PICKS, rest)?;
            words_after(alloc, limit.as_str(), rest.as_slice())
        }
        _ => words_after(alloc, OTHER_PICKS, words),
    }
}

/// The words without `forks` at their end, and whether it stood there.
pub fn without_forks(words: &[String]) -> (&[String], bool)
    ensures { (map string_bytes result.0.now, result.1) ≡ forks_apart (map string_bytes words.now) }
{
    match words {
        [rest @ .., last] if last.as_str() == "forks" => (rest, true),
        _ => (words, false),
    }
}

/// The word for the checked dialect, where it comes last.
pub fn dialect_of(words: &[String]) -> &[String]
    ensures { map string_bytes result.now ≡ dialect_in (map string_bytes words.now) }
{
    match words {
        [.., last] if last.as_str() == "checked" => &words[words.len() - 1..],
        _ => &[],
    }
}

/// Whether the words choose the checked dialect.
pub fn is_checked(words: &[String]) -> bool
    ensures { result ≡ is_checked_last (forks_apart (map string_bytes words.now)).0 }
{
    match without_forks(words).0 {
        [.., last] => last.as_str() == "checked",
        [] => false,
    }
}

/// Whether the words tell more than the dialect.
pub fn tells_run(words: &[String]) -> bool
    ensures { result ≡ is_run_told (map string_bytes words.now) }
{
    match words {
        [] => false,
        [word] => word.as_str() != "checked",
        _ => true,
    }
}

/// A word, and these words after it.
pub fn words_after(alloc: Global, first: &str, words: &[String]) -> Result<Vec<String>, AllocError>
    ensures { IfOk result (λ all. map string_bytes all.items ≡ first.now ∷ map string_bytes words.now) }
{
    let mut all = copies(alloc, words)?;
    all.insert(0, String::from_str(alloc, first)?)?;
    Ok(all)
}

// The same words.
#[tactic(auto, using(crate::proofs::WordLists::word_step, crate::proofs::WordLists::words_end))]
fn copies(alloc: Global, words: &[String]) -> Result<Vec<String>, AllocError>
    ensures { IfOk result (λ all. map string_bytes all.items ≡ map string_bytes words.now) }
{
    let mut all = Vec::new(alloc);
    for word in words {
        all.push(String::from_str(alloc, word.as_str())?)?;
    }
    Ok(all)
}

/// Whether one of the words begins so.
#[tactic(auto, using(crate::proofs::WordLists::word_step, crate::proofs::WordLists::words_end))]
pub fn any_begins(words: &[String], prefix: &str) -> bool
    ensures { result ≡ list_any (begins_with prefix.now) (map string_bytes words.now) }
{
    for word in words {
        if begins(word.as_str(), prefix) {
            return true;
        }
    }
    false
}

/// Whether a word begins so.
pub fn begins(word: &str, prefix: &str) -> bool
    ensures { result ≡ begins_with prefix.now word.now }
{
    word.as_bytes().starts_with(prefix.as_bytes())
}
