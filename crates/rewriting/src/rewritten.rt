//! The rewritten form of a program.

ghost use Rattle.std.specs.Prelude.{◌≡◌, IfOk, IsErrOf};
ghost use Rattle.f77_tree.specs.WellFormed.{IsWellFormed};
ghost use Rattle.alias_classes.specs.Classes.{IsClasses};
ghost use Rattle.alias_classes.specs.Number.{HasFewClasses};
ghost use Rattle.flat_programs.specs.FlatForm.{AreStatementsOf, IsFlatProgram};
ghost use Rattle.rewriting.specs.Rewritten.{HasManySimplifiedOf, IsRefusedOf, IsRewritten, IsRewrittenText, IsSharedOf, IsSharedTextOf, IsSimplifiedOf, PassesLimit};

use alias_classes::{CLASS_WORDS, ClassEnd, Classes, classes_of};
use cfg_build::{Flow, flow_of};
use const_prop::constants;
use constant_laws::own_touches_route;
use df_sequence::NoMemory;
use f77_tree::Program;
use flat_programs::FlatList;
use flow_analysis::{Analysis, analyze};
use redundancy::available;
use regenerate::{share, share_text};
use shared_forms::RewriteEnd;
use shared_laws::shared_programs_are_flat;
use simplified_forms::{FlatEnd, Simplified, simplify};
use simplified_laws::{
    simplified_programs_are_flat, simplified_programs_have_no_more_classes,
    simplified_statements_are_flat,
};
use std::alloc::Global;

/// The rewritten form of a program, in a dialect: first simplified by its constants, and then with repeated expressions done once.
///
/// # Errors
///
/// TooManyStatements, where the simplified form or then the shared form has more than 4,000 statements with its declarations;
/// TooManyNames and LongText, where the shared form passes these limits; NoMemory, where an allocation failed.
pub fn rewrite(alloc: Global, p: &Program, checked: bool) -> Result<Program, RewriteEnd>
    requires program { IsWellFormed p.now }
    requires few { HasFewClasses p.now }
    ensures rewritten { IfOk result (λ s. IsRewritten p.now checked s) }
    ensures flat { IfOk result (λ s. IsFlatProgram s) }
    ensures names { IsErrOf result RewriteEnd.TooManyNames → PassesLimit p.now checked RewriteEnd.TooManyNames }
    ensures statements { IsErrOf result RewriteEnd.TooManyStatements → PassesLimit p.now checked RewriteEnd.TooManyStatements }
    ensures long { IsErrOf result RewriteEnd.LongText → PassesLimit p.now checked RewriteEnd.LongText }
{
    match simplified(alloc, p, checked) {
        Ok(Simplified { form, statements }) => shared(alloc, &form, statements),
        Err(FlatEnd::TooManyStatements) => Err(RewriteEnd::TooManyStatements),
        Err(FlatEnd::NoMemory) => Err(RewriteEnd::NoMemory),
    }
}

/// The text of the rewritten form of a program, in a dialect: the form that `rewrite` makes, printed without being made.
///
/// # Errors
///
/// Those of `rewrite`.
pub fn rewrite_text(alloc: Global, p: &Program, checked: bool) -> Result<Vec<u8>, RewriteEnd>
    requires program { IsWellFormed p.now }
    requires few { HasFewClasses p.now }
    ensures text { IfOk result (λ text. IsRewrittenText p.now checked text.items) }
    ensures names { IsErrOf result RewriteEnd.TooManyNames → PassesLimit p.now checked RewriteEnd.TooManyNames }
    ensures statements { IsErrOf result RewriteEnd.TooManyStatements → PassesLimit p.now checked RewriteEnd.TooManyStatements }
    ensures long { IsErrOf result RewriteEnd.LongText → PassesLimit p.now checked RewriteEnd.LongText }
{
    let Simplified { form, statements } = match simplified(alloc, p, checked) {
        Ok(simple) => simple,
        Err(FlatEnd::NoMemory) => return Err(RewriteEnd::NoMemory),
        Err(FlatEnd::TooManyStatements) => return Err(RewriteEnd::TooManyStatements),
    };
    shared_text(alloc, &form, statements)
}

// The simplified form of a program by its own constants.
#[tactic(auto, using(crate::proofs::Analyses::program_routed, crate::proofs::Analyses::pieces_touch))]
fn simplified(alloc: Global, p: &Program, checked: bool) -> Result<Simplified, FlatEnd>
    requires program { IsWellFormed p.now }
    requires few { HasFewClasses p.now }
    ensures simplified { IfOk result (λ s. IsSimplifiedOf p.now checked s.form) }
    ensures flat { IfOk result (λ s. IsFlatProgram s.form) }
    ensures statements { IfOk result (λ s. AreStatementsOf s.form s.statements) }
    ensures few { IfOk result (λ s. HasFewClasses s.form) }
    ensures many { IsErrOf result FlatEnd.TooManyStatements → HasManySimplifiedOf p.now checked }
{
    own_touches_route();
    simplified_programs_are_flat();
    simplified_statements_are_flat();
    simplified_programs_have_no_more_classes();
    let found = analyze(alloc, p)?;
    let table = constants(
        alloc,
        p,
        &found.flow,
        &found.classes,
        &found.touch,
        &found.lines,
    )?;
    let (flow, classes) = flow_and_classes(found);
    simplify(alloc, p, &flow, &classes, &table, checked)
}

// The flow graph and the alias classes of an analysis. The rest of it is given back, since the simplified form may take as much memory.
fn flow_and_classes<'a>(found: Analysis<'a>) -> (Flow, Classes<'a, CLASS_WORDS>)
    ensures flow { result.0 ≡ found.entry.flow }
    ensures classes { result.1 ≡ found.entry.classes }
{
    let Analysis {
        flow,
        edge_classes: _edge_classes,
        tree: _tree,
        classes,
        touch: _touch,
        lines: _lines,
    } = found;
    (flow, classes)
}

// The shared form of a flat program with these statements by its own available expressions.
fn shared(alloc: Global, q: &Program, flat: FlatList) -> Result<Program, RewriteEnd>
    requires program { IsFlatProgram q.now }
    requires statements { AreStatementsOf q.now flat }
    requires few { HasFewClasses q.now }
    ensures shared { IfOk result (λ s. IsSharedOf q.now s) }
    ensures flat { IfOk result (λ s. IsFlatProgram s) }
    ensures names { IsErrOf result RewriteEnd.TooManyNames → IsRefusedOf q.now RewriteEnd.TooManyNames }
    ensures statements { IsErrOf result RewriteEnd.TooManyStatements → IsRefusedOf q.now RewriteEnd.TooManyStatements }
    ensures long { IsErrOf result RewriteEnd.LongText → IsRefusedOf q.now RewriteEnd.LongText }
{
    shared_programs_are_flat();
    let flow = flow_of(alloc, q)?;
    let classes = few_classes_of(alloc, q)?;
    let found = available(alloc, q, &flow, &classes)?;
    share(alloc, q, flat, &flow, &classes, found)
}

// The text of the shared form of a flat program with these statements by its own available expressions.
fn shared_text(alloc: Global, q: &Program, flat: FlatList) -> Result<Vec<u8>, RewriteEnd>
    requires program { IsFlatProgram q.now }
    requires statements { AreStatementsOf q.now flat }
    requires few { HasFewClasses q.now }
    ensures text { IfOk result (λ text. IsSharedTextOf q.now text.items) }
    ensures names { IsErrOf result RewriteEnd.TooManyNames → IsRefusedOf q.now RewriteEnd.TooManyNames }
    ensures statements { IsErrOf result RewriteEnd.TooManyStatements → IsRefusedOf q.now RewriteEnd.TooManyStatements }
    ensures long { IsErrOf result RewriteEnd.LongText → IsRefusedOf q.now RewriteEnd.LongText }
{
    let flow = flow_of(alloc, q)?;
    let classes = few_classes_of(alloc, q)?;
    let found = available(alloc, q, &flow, &classes)?;
    share_text(alloc, q, flat, &flow, &classes, found)
}

// The alias classes of a program that has few.
fn few_classes_of(alloc: Global, q: &Program) -> Result<Classes<'_, CLASS_WORDS>, NoMemory>
    requires program { IsWellFormed q.now }
    requires few { HasFewClasses q.now }
    ensures { IfOk result (λ classes. IsClasses q.now classes) }
{
    match classes_of::<CLASS_WORDS>(alloc, q) {
        Ok(classes) => Ok(classes),
        Err(ClassEnd::TooManyClasses) => unreachable!(),
        Err(ClassEnd::NoMemory) => Err(NoMemory),
    }
}
