//! The printed text of a flat program.
ghost use Rattle.std.specs.Prelude.{◌≡◌, ◌<◌, List, [], ◌∷◌, if◌then◌else◌, map, flat_map, length, slice_get, true, false, IfOk, MatchOption, OnOk};
ghost use Rattle.std.specs.List.{range_with_len};
ghost use Rattle.flat_programs.specs.declared.statements.FlatLine.{FlatLine};
ghost use Rattle.flat_programs.specs.FlatForm.{AreProper, AreStatementsOf, IsFlatProgram};
ghost use Rattle.flat_programs.specs.Marks.{is_mark as is_mark_of};
ghost use Rattle.flat_programs.specs.Declarations.{common_at, commons, group_statement, init_statement, typed_name};
ghost use Rattle.flat_programs.specs.Pages.{Grows, IsPage};
ghost use Rattle.flat_programs.specs.Text.{has_long_text as is_long_somewhere, statements, text as text_of, typeset_at, unlabelled, IsTextUnlessLong};

use crate::declarations::{append_common, append_group, append_init, append_typed, is_continued};
use crate::flow::is_mark;
use crate::lines::{append_lines, is_long};
use crate::recovery::recover;
use crate::shown::append_statement;
use crate::{Flat, FlatList};
use df_sequence::NoMemory;
use f77_tree::{AllCommonParts, AllGroups, AllInitParts, NameInfoList, Program};
use std::alloc::Global;

/// The text of flat statements with the declarations of a program: a type statement for each name, a COMMON statement for each block,
/// an EQUIVALENCE statement for each group, a DATA statement for each part, and the statements; each on lines of 66 characters, with
/// the number of each mark as its label.
pub fn print_flat(alloc: Global, p: &Program, flat: &FlatList) -> Result<Vec<u8>, NoMemory>
    requires proper { AreProper p.now.names flat.now }
    requires short { length flat.now < 4294967295 }
    ensures { IfOk result (λ bytes. bytes.items ≡ text_of p.now flat.now) }
{
    let page = page_of(alloc, p, flat)?;
    Ok(page.bytes)
}

/// The text of a program of flat statements: `print_flat` of the statements whose executables it has.
pub fn print_program(alloc: Global, p: &Program) -> Result<Vec<u8>, NoMemory>
    requires { IsFlatProgram p.now }
    ensures { IfOk result (λ bytes. (flat : List FlatLine) → AreStatementsOf p.now flat → bytes.items ≡ text_of p.now flat) }
{
    let flat = recover(alloc, p)?;
    print_flat(alloc, p, &flat)
}

/// Whether some statement of the text has more than 1,320 characters or more than 60 open brackets: no source may have such a one.
pub fn has_long_text(alloc: Global, p: &Program, flat: &FlatList) -> Result<bool, NoMemory>
    requires proper { AreProper p.now.names flat.now }
    requires short { length flat.now < 4294967295 }
    ensures { IfOk result (λ long. long ≡ is_long_somewhere p.now flat.now) }
{
    let page = page_of(alloc, p, flat)?;
    Ok(page.is_long)
}

/// The text of flat statements as `print_flat` gives it, unless some statement of it has more than 1,320 characters or more than 60 open
/// brackets.
pub fn print_unless_long(
    alloc: Global,
    p: &Program,
    flat: &FlatList,
) -> Result<Option<Vec<u8>>, NoMemory>
    requires proper { AreProper p.now.names flat.now }
    requires short { length flat.now < 4294967295 }
    ensures { IfOk result (λ text. MatchOption text (is_long_somewhere p.now flat.now ≡ true) (λ bytes. IsTextUnlessLong p.now flat.now bytes.items)) }
{
    let page = page_of(alloc, p, flat)?;
    if page.is_long {
        return Ok(None);
    }
    Ok(Some(page.bytes))
}

/// The lines of statements, and whether one of these is too long to be read.
#[derive(Drop)]
pub(crate) struct Page {
    pub(crate) bytes: Vec<u8>,
    pub(crate) is_long: bool,
}

impl Page {
    /// Puts a statement on its lines after those that are there. A label of 0 is none.
    fn put(&mut self, label: u32, text: &[u8]) -> Result<(), NoMemory>
        ensures { OnOk result (Grows self.old self.new (record { label = label; text = text.now } ∷ [])) }
    {
        self.is_long = is_long(label, text) || self.is_long;
        append_lines(label, text, &mut self.bytes)
    }
}

/// The lines of a program.
fn page_of(alloc: Global, p: &Program, flat: &FlatList) -> Result<Page, NoMemory>
    requires proper { AreProper p.now.names flat.now }
    requires short { length flat.now < 4294967295 }
    ensures { IfOk result (λ page. IsPage page (statements p.now flat.now)) }
{
    let mut page = Page {
        bytes: Vec::new(alloc),
        is_long: false,
    };
    put_names(alloc, &p.names, &mut page)?;
    put_commons(alloc, &p.commons, &mut page)?;
    put_groups(alloc, &p.groups, &mut page)?;
    put_inits(alloc, &p.inits, &mut page)?;
    put_statements(alloc, p, flat, &mut page)?;
    Ok(page)
}

/// Puts the type statements of names.
fn put_names(alloc: Global, names: &NameInfoList, page: &mut Page) -> Result<(), NoMemory>
    ensures { OnOk result (Grows page.old page.new (map unlabelled (map typed_name names.now))) }
{
    let mut text = Vec::new(alloc);
    for k in 0..names.len() {
        text.clear();
        append_typed(names.at(k), &mut text)?;
        page.put(0, &text)?;
    }
    Ok(())
}

/// Puts a COMMON statement for each block.
fn put_commons(alloc: Global, parts: &AllCommonParts, page: &mut Page) -> Result<(), NoMemory>
    ensures { OnOk result (Grows page.old page.new (map unlabelled (commons parts.now))) }
{
    for k in 0..parts.len() {
        put_common(alloc, parts, k, page)?;
    }
    Ok(())
}

/// Puts the COMMON statement of the block of a part, unless a part before this one has it.
fn put_common(
    alloc: Global,
    parts: &AllCommonParts,
    k: usize,
    page: &mut Page,
) -> Result<(), NoMemory>
    requires { k < length parts.now }
    ensures { OnOk result (Grows page.old page.new (map unlabelled (common_at parts.now k (slice_get parts.now k)))) }
{
    let part = parts.at(k);
    if is_continued(parts, k, part) {
        return Ok(());
    }
    let mut text = Vec::new(alloc);
    append_common(alloc, parts, &part.block, &mut text)?;
    page.put(0, &text)
}

/// Puts the EQUIVALENCE statements of groups.
fn put_groups(alloc: Global, groups: &AllGroups, page: &mut Page) -> Result<(), NoMemory>
    ensures { OnOk result (Grows page.old page.new (map unlabelled (map group_statement groups.now))) }
{
    for k in 0..groups.len() {
        let mut text = Vec::new(alloc);
        append_group(groups.at(k), &mut text)?;
        page.put(0, &text)?;
    }
    Ok(())
}

/// Puts the DATA statements of parts.
fn put_inits(alloc: Global, parts: &AllInitParts, page: &mut Page) -> Result<(), NoMemory>
    ensures { OnOk result (Grows page.old page.new (map unlabelled (map init_statement parts.now))) }
{
    for k in 0..parts.len() {
        let mut text = Vec::new(alloc);
        append_init(parts.at(k), &mut text)?;
        page.put(0, &text)?;
    }
    Ok(())
}

/// Puts statements, of which the marks have labels from 1 on.
fn put_statements(
    alloc: Global,
    p: &Program,
    flat: &FlatList,
    page: &mut Page,
) -> Result<(), NoMemory>
    requires proper { AreProper p.now.names flat.now }
    requires short { length flat.now < 4294967295 }
    ensures { OnOk result (Grows page.old page.new (flat_map (typeset_at p.now.names flat.now) (range_with_len 0 (length flat.now)))) }
{
    let mut number = 1;
    let mut text = Vec::new(alloc);
    for k in 0..flat.len() {
        let stmt = &flat.at(k).stmt;
        text.clear();
        append_statement(alloc, p, stmt, &mut text)?;
        page.put(label_of(stmt, number), &text)?;
        number += u32::from(is_mark(stmt));
    }
    Ok(())
}

/// The label of a statement, which is 0 where it has none; if it is a mark, it has this number.
fn label_of(stmt: &Flat, number: u32) -> u32
    ensures { result ≡ (if is_mark_of stmt.now then number else 0) }
{
    if is_mark(stmt) { number } else { 0 }
}
