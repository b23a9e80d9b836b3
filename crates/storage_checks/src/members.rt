//! Members of EQUIVALENCE groups and items of DATA (ANSI X3.9-1978, sections 8.2 and 9).

ghost use Rattle.std.specs.Prelude.{◌≡◌, not};
ghost use Rattle.std.specs.List.{list_any};
ghost use Rattle.layout_rules.specs.StorageFaults.{is_member, has_wrong_member};
ghost use Rattle.layout_rules.specs.StorageLines.{groups_wrongly};

use crate::dimensions::are_inside;
use f77_tree::{InitPart, Labelled, Member, MemberList, Stmt};
use symbol_table::Names;

/// Whether a member of the statement has another number of subscripts than its name has dimensions, or one out of bounds.
pub(crate) fn has_wrong(names: &Names, s: &Labelled) -> bool
    ensures { result ≡ has_wrong_member names.now s.now }
{
    match &s.stmt {
        Stmt::Equivalence(groups) => has_wrong_group(names, groups.as_slice()),
        Stmt::Init(parts) => has_wrong_part(names, parts.as_slice()),
        _ => false,
    }
}

/// Whether a member of EQUIVALENCE in the statement is such a one.
pub(crate) fn has_wrong_grouped(names: &Names, s: &Labelled) -> bool
    ensures { result ≡ groups_wrongly names.now s.now }
{
    match &s.stmt {
        Stmt::Init(_) => false,
        _ => has_wrong(names, s),
    }
}

fn has_wrong_group(names: &Names, groups: &[MemberList]) -> bool
    ensures { result ≡ list_any (λ group. list_any (λ member. not (is_member names.now member)) group) groups.now }
{
    groups
        .iter()
        .any(|group| has_wrong_in(names, group.as_slice()))
}

fn has_wrong_part(names: &Names, parts: &[InitPart]) -> bool
    ensures { result ≡ list_any (λ part. list_any (λ member. not (is_member names.now member)) part.items) parts.now }
{
    parts
        .iter()
        .any(|part| has_wrong_in(names, part.items.as_slice()))
}

fn has_wrong_in(names: &Names, members: &[Member]) -> bool
    ensures { result ≡ list_any (λ member. not (is_member names.now member)) members.now }
{
    members.iter().any(|member| !is_right(names, member))
}

// Whether the member is a name alone, or one of its elements.
fn is_right(names: &Names, member: &Member) -> bool
    ensures { result ≡ is_member names.now member.now }
{
    member.subs.is_empty()
        || are_inside(
            names.dims(names.index(&member.name)),
            member.subs.as_slice(),
        )
}
