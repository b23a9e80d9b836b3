//! Laws of the grammar of statements and of reading them, as contracts of functions that do nothing.

ghost use Rattle.std.specs.Prelude.{◌≡◌, ◌≢◌, ℕ, List, Result, Err};
ghost use Rattle.f77_tree.specs.declared.statements.Labelled.{Labelled as AnyLabelled};
ghost use Rattle.f77_tree.specs.StatementGrammar.{WrittenStatement, IsWrittenStatement};
ghost use Rattle.fixed_form.specs.declared.raw_stmt.RawStmt.{RawStmt as AnyRawStmt};
ghost use Rattle.f77_parse.specs.declared.stmt_end.StmtEnd.{StmtEnd as AnyEnd};
ghost use Rattle.f77_parse.specs.declared.stmt_end.StmtEnd.TheVariants.{NoMemory};
ghost use Rattle.f77_parse.specs.Parsing.{IsParsed, reading_of};

/// No text is two statements (ANSI X3.9-1978, sections 4, 5 and 7 to 12), though blanks mean nothing and no word is
/// reserved: `DO10I=1,3` is a DO statement and `DO10I=1` an assignment, and `IF(A)B=C` is a logical IF, `IF(A)=C` an
/// assignment to an element of the array IF. Nor are the parts of a statement told apart in two ways.
pub fn one_statement()
    ensures { (text : List ℕ) (s other : WrittenStatement) → IsWrittenStatement text s → IsWrittenStatement text other → s ≡ other }
{}

/// `reading_of` is an answer that is due for a statement of the source, and but for allocation failure the only one.
pub fn one_answer()
    ensures due { (raw : AnyRawStmt) → IsParsed raw (reading_of raw) }
    ensures only { (raw : AnyRawStmt) (answer : Result AnyLabelled AnyEnd) → IsParsed raw answer → answer ≢ Err NoMemory → answer ≡ reading_of raw }
{}
