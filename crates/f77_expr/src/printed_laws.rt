//! Laws on the text that expressions of a program have as they are printed, and on the depth of brackets, as contracts of
//! functions that do nothing.

ghost use Rattle.std.specs.Prelude.{◌≡◌, ◌≢◌, ◌≤◌, ◌++◌, true, false, max, ℕ, List, All, length, fold};
ghost use Rattle.f77_tree.specs.declared.expressions.Expr.{Expr};
ghost use Rattle.f77_tree.specs.declared.programs.NameInfo.{NameInfo};
ghost use Rattle.f77_tree.specs.Grammar.{IsGrammatical, Written, has_great_number, reading, spelling};
ghost use Rattle.f77_tree.specs.Kinds.{IsProper};
ghost use Rattle.f77_tree.specs.Name.{is_name};
ghost use Rattle.f77_expr.specs.Parsing.{IsReadAs};
ghost use Rattle.f77_expr.specs.Piece.{Open, bracket_depth, deepest_from, nothing_open, open_after};
ghost use Rattle.f77_expr.specs.Printing.{printed, printed_text, raw_form};

/// The printed text of an expression of a program is read as its form, where each name of the table is a symbolic one: it is an
/// expression of the grammar without a constant that is too great, and no shorter text is read as that form. Neither an
/// apostrophe nor a blank stands in it.
pub fn printed_texts_are_read()
    ensures read { (names : List NameInfo) (e : Expr) → All (λ info. is_name info.name ≡ true) names → IsProper names e → IsReadAs (printed_text names e) (raw_form names e) }
    ensures grammatical { (names : List NameInfo) (e : Expr) → All (λ info. is_name info.name ≡ true) names → IsProper names e → IsGrammatical (printed names e).alone }
    ensures reading { (names : List NameInfo) (e : Expr) → All (λ info. is_name info.name ≡ true) names → IsProper names e → reading (printed names e).alone ≡ raw_form names e }
    ensures constants { (names : List NameInfo) (e : Expr) → All (λ info. is_name info.name ≡ true) names → IsProper names e → has_great_number (printed names e).alone ≡ false }
    ensures shortest { (names : List NameInfo) (e : Expr) (w : Written) → IsProper names e → IsGrammatical w → reading w ≡ raw_form names e → length (printed_text names e) ≤ length (spelling w) }
    ensures apostrophes { (names : List NameInfo) (e : Expr) → All (λ info. is_name info.name ≡ true) names → IsProper names e → All (λ c. c ≢ 39) (printed_text names e) }
    ensures blanks { (names : List NameInfo) (e : Expr) → All (λ info. is_name info.name ≡ true) names → IsProper names e → All (λ c. c ≢ 32) (printed_text names e) }
{}

/// The depth of brackets of one text and another after it is the greater one of their depths, where the second begins with what is
/// open after the first.
pub fn depth_of_joined_texts()
    ensures from { (open_now : Open) (a b : List ℕ) → deepest_from open_now (a ++ b) ≡ max (deepest_from open_now a) (deepest_from (fold open_after open_now a) b) }

    // Where nothing is open after the first, it is the greater one of the depths that they have alone.
    ensures closed { (a b : List ℕ) → fold open_after nothing_open a ≡ nothing_open → bracket_depth (a ++ b) ≡ max (bracket_depth a) (bracket_depth b) }
{}
