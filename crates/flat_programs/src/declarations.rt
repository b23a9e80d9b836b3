//! The texts of declarations.
ghost use Rattle.std.specs.Prelude.{◌≡◌, ◌++◌, ◌≤◌, Some, [], OnOk, drop, map, length};
ghost use Rattle.f77_tree.specs.StatementGrammar.{after_commas, block_text, bracketed_list, constant_text, decl_text, dim_text, kind_text, low_text, member_text, signed_text, times_text, value_text, with_commas};
ghost use Rattle.flat_programs.specs.Declarations.{block_decls, block_statement, commons, declared, group_statement, init_statement, is_continued as is_continued_in, name_alone, same_block, signed, typed_name, written_block, written_constant, written_dim, written_low, written_member, written_times, written_value};
ghost use Rattle.flat_programs.specs.Typeset.{blank, typeset};

use crate::appending::{append, append_comma, append_number, append_signed, append_truth};
use df_sequence::{NoMemory, NumList};
use f77_tree::{
    AllCommonParts, CommonPart, Dim, DimList, InitPart, InitValue, InitValueList, Kind, Lit,
    Member, MemberList, Name, NameInfo, Program,
};
use std::alloc::Global;

// ---- numbers

/// How many statements declare the names of a program: one for each name, each block of COMMON, each group of EQUIVALENCE and each
/// part of DATA. It takes time in proportion to the square of the number of parts of COMMON.
pub fn declaration_count(p: &Program) -> u128
    ensures { result ≡ length (declared p.now) }
{
    u128::from(p.names.len())
        + block_count(&p.commons) as u128
        + p.groups.len() as u128
        + p.inits.len() as u128
}

/// How many blocks of COMMON there are.
fn block_count(parts: &AllCommonParts) -> usize
    ensures { result ≡ length (commons parts.now) }
{
    let mut count = 0;
    for k in 0..parts.len() {
        count += usize::from(!is_continued(parts, k, parts.at(k)));
    }
    count
}

// ---- names

/// Appends the type statement of a name.
pub(crate) fn append_typed(info: &NameInfo, out: &mut Vec<u8>) -> Result<(), NoMemory>
    ensures { OnOk result (out.new.items ≡ out.old.items ++ typeset (typed_name info.now)) }
{
    append_kind(info.kind, out)?;
    append(info.name.as_bytes(), out)?;
    append_dims(&info.dims, out)
}

/// Appends the name of a kind, and a blank.
fn append_kind(kind: Kind, out: &mut Vec<u8>) -> Result<(), NoMemory>
    ensures { OnOk result (out.new.items ≡ out.old.items ++ kind_text kind ++ blank) }
{
    match kind {
        Kind::Integer => append(b"INTEGER ", out),
        Kind::Logical => append(b"LOGICAL ", out),
    }
}

/// Appends the dimensions of an array, in brackets, and nothing for a scalar.
fn append_dims(dims: &DimList, out: &mut Vec<u8>) -> Result<(), NoMemory>
    ensures { OnOk result (out.new.items ≡ out.old.items ++ bracketed_list (map dim_text (map written_dim dims.now))) }
{
    if dims.is_empty() {
        return Ok(());
    }
    append(b"(", out)?;
    append_dim_list(dims, out)?;
    append(b")", out)
}

/// Appends dimensions with commas between them.
fn append_dim_list(dims: &DimList, out: &mut Vec<u8>) -> Result<(), NoMemory>
    ensures { OnOk result (out.new.items ≡ out.old.items ++ with_commas (map dim_text (map written_dim dims.now))) }
{
    for k in 0..dims.len() {
        append_comma(k, out)?;
        append_dim(*dims.at(k), out)?;
    }
    Ok(())
}

/// Appends the bounds of a dimension.
fn append_dim(dim: Dim, out: &mut Vec<u8>) -> Result<(), NoMemory>
    ensures { OnOk result (out.new.items ≡ out.old.items ++ dim_text (written_dim dim)) }
{
    append_low(dim.lo, out)?;
    append_signed(dim.hi, out)
}

/// Appends a lower bound, which isn't written where it is 1.
fn append_low(low: i32, out: &mut Vec<u8>) -> Result<(), NoMemory>
    ensures { OnOk result (out.new.items ≡ out.old.items ++ low_text (written_low low)) }
{
    if low == 1 {
        return Ok(());
    }
    append_signed(low, out)?;
    append(b":", out)
}

// ---- COMMON

/// Whether one of the first k parts has the block of this one.
pub(crate) fn is_continued(parts: &AllCommonParts, k: usize, part: &CommonPart) -> bool
    requires { k ≤ length parts.now }
    ensures { result ≡ is_continued_in parts.now k part.now }
{
    for j in 0..k {
        if is_same_block(&parts.at(j).block, &part.block) {
            return true;
        }
    }
    false
}

/// Whether two blocks are one.
fn is_same_block(a: &Option<Name>, b: &Option<Name>) -> bool
    ensures { result ≡ same_block a.now b.now }
{
    match a {
        None => b.is_none(),
        Some(a) => match b {
            None => false,
            Some(b) => a.as_bytes() == b.as_bytes(),
        },
    }
}

/// Appends the COMMON statement of a block, with the names of all parts of that block.
pub(crate) fn append_common(
    alloc: Global,
    parts: &AllCommonParts,
    block: &Option<Name>,
    out: &mut Vec<u8>,
) -> Result<(), NoMemory>
    ensures { OnOk result (out.new.items ≡ out.old.items ++ typeset (block_statement parts.now block.now)) }
{
    append(b"COMMON ", out)?;
    append_block(block, out)?;
    append(b" ", out)?;
    let mut names = Vec::new(alloc);
    append_names_of_block(parts, block, &mut names)?;
    append(without_first(&names), out)
}

/// What stands after the first character.
fn without_first(text: &[u8]) -> &[u8]
    ensures { result.now ≡ drop 1 text.now }
{
    text.get(1..).unwrap_or_default()
}

/// Appends a block between strokes.
fn append_block(block: &Option<Name>, out: &mut Vec<u8>) -> Result<(), NoMemory>
    ensures { OnOk result (out.new.items ≡ out.old.items ++ block_text (written_block block.now)) }
{
    match block {
        None => append(b"//", out),
        Some(name) => {
            append(b"/", out)?;
            append(name.as_bytes(), out)?;
            append(b"/", out)
        }
    }
}

/// Appends the names of all parts of a block, with a comma before each.
fn append_names_of_block(
    parts: &AllCommonParts,
    block: &Option<Name>,
    out: &mut Vec<u8>,
) -> Result<(), NoMemory>
    ensures { OnOk result (out.new.items ≡ out.old.items ++ after_commas (map decl_text (block_decls parts.now block.now))) }
{
    for part in parts.as_slice() {
        if is_same_block(&part.block, block) {
            append_names(part, out)?;
        }
    }
    Ok(())
}

/// Appends the names of a part, with a comma before each.
fn append_names(part: &CommonPart, out: &mut Vec<u8>) -> Result<(), NoMemory>
    ensures { OnOk result (out.new.items ≡ out.old.items ++ after_commas (map decl_text (map name_alone part.now.decls))) }
{
    for decl in part.decls.as_slice() {
        append(b",", out)?;
        append(decl.name.as_bytes(), out)?;
    }
    Ok(())
}

// ---- EQUIVALENCE and DATA

/// Appends the EQUIVALENCE statement of a group.
pub(crate) fn append_group(group: &MemberList, out: &mut Vec<u8>) -> Result<(), NoMemory>
    ensures { OnOk result (out.new.items ≡ out.old.items ++ typeset (group_statement group.now)) }
{
    append(b"EQUIVALENCE (", out)?;
    append_members(group, out)?;
    append(b")", out)
}

/// Appends members with commas between them.
fn append_members(members: &MemberList, out: &mut Vec<u8>) -> Result<(), NoMemory>
    ensures { OnOk result (out.new.items ≡ out.old.items ++ with_commas (map member_text (map written_member members.now))) }
{
    for k in 0..members.len() {
        append_comma(k, out)?;
        append_member(members.at(k), out)?;
    }
    Ok(())
}

/// Appends a variable, or an array element with constant subscripts.
fn append_member(member: &Member, out: &mut Vec<u8>) -> Result<(), NoMemory>
    ensures { OnOk result (out.new.items ≡ out.old.items ++ member_text (written_member member.now)) }
{
    append(member.name.as_bytes(), out)?;
    append_subscripts(&member.subs, out)
}

/// Appends constant subscripts, in brackets, and nothing where there are none.
fn append_subscripts(subs: &NumList, out: &mut Vec<u8>) -> Result<(), NoMemory>
    ensures { OnOk result (out.new.items ≡ out.old.items ++ bracketed_list (map signed_text (map signed subs.now))) }
{
    if subs.is_empty() {
        return Ok(());
    }
    append(b"(", out)?;
    append_numbers(subs, out)?;
    append(b")", out)
}

/// Appends numbers with commas between them.
fn append_numbers(numbers: &NumList, out: &mut Vec<u8>) -> Result<(), NoMemory>
    ensures { OnOk result (out.new.items ≡ out.old.items ++ with_commas (map signed_text (map signed numbers.now))) }
{
    for k in 0..numbers.len() {
        append_comma(k, out)?;
        append_signed(*numbers.at(k), out)?;
    }
    Ok(())
}

/// Appends the DATA statement of a part.
pub(crate) fn append_init(part: &InitPart, out: &mut Vec<u8>) -> Result<(), NoMemory>
    ensures { OnOk result (out.new.items ≡ out.old.items ++ typeset (init_statement part.now)) }
{
    append(b"DATA ", out)?;
    append_members(&part.items, out)?;
    append(b"/", out)?;
    append_values(&part.values, out)?;
    append(b"/", out)
}

/// Appends values of DATA with commas between them.
fn append_values(values: &InitValueList, out: &mut Vec<u8>) -> Result<(), NoMemory>
    ensures { OnOk result (out.new.items ≡ out.old.items ++ with_commas (map value_text (map written_value values.now))) }
{
    for k in 0..values.len() {
        append_comma(k, out)?;
        append_value(*values.at(k), out)?;
    }
    Ok(())
}

/// Appends a constant of DATA with its repeat.
fn append_value(value: InitValue, out: &mut Vec<u8>) -> Result<(), NoMemory>
    ensures { OnOk result (out.new.items ≡ out.old.items ++ value_text (written_value value)) }
{
    append_times(value.times, out)?;
    append_constant(value.value, out)
}

/// Appends a repeat, which isn't written where it is 1.
fn append_times(times: u32, out: &mut Vec<u8>) -> Result<(), NoMemory>
    ensures { OnOk result (out.new.items ≡ out.old.items ++ times_text (written_times times)) }
{
    if times == 1 {
        return Ok(());
    }
    append_number(times, out)?;
    append(b"*", out)
}

/// Appends a constant of DATA.
fn append_constant(value: Lit, out: &mut Vec<u8>) -> Result<(), NoMemory>
    ensures { OnOk result (out.new.items ≡ out.old.items ++ constant_text (written_constant value)) }
{
    match value {
        Lit::Int(z) => append_signed(z, out),
        Lit::Truth(b) => append_truth(b, out),
    }
}
