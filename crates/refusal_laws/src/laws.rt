//! The laws, as the contracts of functions that do nothing.
ghost use Rattle.std.specs.Prelude.{◌≡◌, ◌≢◌, ℕ, Bool, List, Err};
ghost use Rattle.fixed_form.specs.declared.form_end.FormEnd.TheVariants as form;
ghost use Rattle.fixed_form.specs.declared.raw_stmt.RawStmt.{RawStmt};
ghost use Rattle.fixed_form.specs.Reading as lines;
ghost use Rattle.f77_tree.specs.declared.statements.Labelled.{Labelled};
ghost use Rattle.f77_parse.specs.declared.stmt_end.StmtEnd.TheVariants as stmt;
ghost use Rattle.f77_parse.specs.Parsing.{reading_of};
ghost use Rattle.layout_rules.specs.declared.layout_end.LayoutEnd.TheVariants as laid;
ghost use Rattle.layout_rules.specs.Layout.{layout};
ghost use Rattle.program_units.specs.declared.sub_end.SubEnd.TheVariants as sub;
ghost use Rattle.f77_source.specs.declared.source_end.Refusal.{Refusal};
ghost use Rattle.f77_source.specs.Listed.{listed};
ghost use Rattle.f77_source.specs.Reading.{reading, statements_read};
ghost use Rattle.refusal_laws.specs.ToldLines.{LiesIn};

/// A text that is no program is refused at one of its lines, or, where its last statement isn't END, at the line after the last. So is a
/// text whose statements can't be read. Refusals of an expansion are told at lines of the text too.
pub fn refusals_lie_in_their_text()
    ensures program { (bytes : List ℕ) (checked : Bool) (refusal : Refusal) → reading bytes checked ≡ Err refusal → LiesIn bytes refusal }
    ensures statements { (bytes : List ℕ) (refusal : Refusal) → statements_read bytes ≡ Err refusal → LiesIn bytes refusal }
{}

/// No text is refused for want of memory: the rows of `reading` that tell of it are never met, whatever lines, statements and units are
/// read. Of units that are refused by themselves the layout isn't refused for it either.
pub fn readings_never_lack_memory()
    ensures lines { (bytes : List ℕ) → lines.reading bytes ≢ Err form.NoMemory }
    ensures statements { (raw : RawStmt) → reading_of raw ≢ Err stmt.NoMemory }
    ensures layout { (stmts : List Labelled) (checked : Bool) → layout stmts checked ≢ Err laid.NoMemory }
    ensures units { (stmts : List Labelled) (checked : Bool) → listed stmts checked ≢ Err sub.NoMemory }
    ensures unit { (stmts : List Labelled) (checked : Bool) → listed stmts checked ≢ Err (sub.Layout laid.NoMemory) }
{}
