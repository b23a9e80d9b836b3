//! Laws of the grammar of expressions, as contracts of functions that do nothing.

ghost use Rattle.std.specs.Prelude.{◌≡◌, ◌≢◌, ℕ, false, All, List, [], ◌++◌, fold};
ghost use Rattle.f77_tree.specs.Grammar.{Written, IsGrammatical, IsWritten, spelling};
ghost use Rattle.f77_expr.specs.Piece.{Open, open_after, piece};

/// No text is two expressions: its characters alone settle which operands each operator has (ANSI X3.9-1978, 6.5). And an
/// expression at the beginning of other text ends at one place only, where what follows it is nothing, or begins with a comma, a
/// closing bracket, an equals sign or a colon.
pub fn one_reading()
    ensures whole { (text : List ℕ) (v w : Written) → IsWritten text v → IsWritten text w → v ≡ w }
    ensures prefix { (v w : Written) (s t : List ℕ) → IsGrammatical v → IsGrammatical w → piece s ≡ [] → piece t ≡ [] → spelling v ++ s ≡ spelling w ++ t → (v ≡ w) × (s ≡ t) }
{}

/// An expression at the beginning of other text is the piece of that text, where what follows it is nothing, or begins with a
/// comma, a closing bracket, an equals sign or a colon: no such character stands in it outside brackets. No apostrophe
/// stands in it, and its brackets close: after it as many are open as before it.
pub fn piece_of_reading()
    ensures whole { (w : Written) (text : List ℕ) → IsGrammatical w → piece text ≡ [] → piece (spelling w ++ text) ≡ spelling w }
    ensures apostrophes { (w : Written) → IsGrammatical w → All (λ c. c ≢ 39) (spelling w) }
    ensures brackets { (w : Written) (open_now : Open) → IsGrammatical w → open_now.quoted ≡ false → fold open_after open_now (spelling w) ≡ open_now }
{}
