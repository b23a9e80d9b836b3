//! Lists with commas between their items.

ghost use Rattle.std.specs.Prelude.{ℕ, Bool, List};
ghost use Rattle.f77_parse.specs.Keeping.{Keeps, kept_list, kept_parts, first_part_kept, part_kept, init_part_kept, next_init_part_kept, label_kept, signed_kept, value_kept, dim_kept, decl_kept, member_kept, group_kept, name_kept, expression_kept, item_kept, variable_kept};
ghost use Rattle.f77_parse.specs.Answers.{Gives, Shortens};

use crate::reader::Reader;
use df_sequence::Sequence;
use f77_expr::ReadEnd;
use f77_tree::{
    CommonPart, Decl, Dim, InitPart, InitValue, Member, MemberList, Name, RawExpr, RawItem,
};
use std::alloc::Global;

/// What may stand in a list.
pub(crate) trait Part {
    /// What is kept of it.
    type Value: Drop;

    /// What is kept of the beginning of a text.
    ghost kept: { Bool → List ℕ → Keeps Self.Value };

    /// Reads one.
    fn read(reader: &mut Reader<'_>, alloc: Global) -> Result<Self::Value, ReadEnd>
        ensures gives { Gives (kept reader.old.is_bad reader.old.rest.now) result reader.new.is_bad reader.new.rest.now }
        ensures shorter { Shortens result reader.old.rest.now reader.new.rest.now };
}

impl<'a> Reader<'a> {
    /// Items with commas between them.
    pub(crate) fn list<P: Part>(&mut self, alloc: Global) -> Result<Sequence<P::Value>, ReadEnd>
        ensures gives { Gives (kept_list P.kept self.old.is_bad self.old.rest.now) result self.new.is_bad self.new.rest.now }
        ensures shorter { Shortens result self.old.rest.now self.new.rest.now }
    {
        let mut list = Sequence::with_capacity(alloc, 2)?;
        list.push(P::read(self, alloc)?)?;
        while self.passes_comma() {
            list.push(P::read(self, alloc)?)?;
        }
        Ok(list)
    }

    /// Parts up to the end of the text.
    pub(crate) fn series<S: Series>(&mut self, alloc: Global) -> Result<Sequence<S::Value>, ReadEnd>
        ensures gives { Gives (kept_parts S.kept_first S.kept_next self.old.is_bad self.old.rest.now) result self.new.is_bad self.new.rest.now }
        ensures shorter { Shortens result self.old.rest.now self.new.rest.now }
    {
        let mut list = Sequence::new(alloc);
        list.push(S::read_first(self, alloc)?)?;
        while !self.is_at_end() {
            list.push(S::read_next(self, alloc)?)?;
        }
        Ok(list)
    }
}

/// The parts of a statement, of which the first is read otherwise than those after it.
pub(crate) trait Series {
    /// What is kept of a part.
    type Value: Drop;

    /// What is kept of the first part at the beginning of a text.
    ghost kept_first: { Bool → List ℕ → Keeps Self.Value };

    /// What is kept of another one.
    ghost kept_next: { Bool → List ℕ → Keeps Self.Value };

    /// Reads the first.
    fn read_first(reader: &mut Reader<'_>, alloc: Global) -> Result<Self::Value, ReadEnd>
        ensures gives { Gives (kept_first reader.old.is_bad reader.old.rest.now) result reader.new.is_bad reader.new.rest.now }
        ensures shorter { Shortens result reader.old.rest.now reader.new.rest.now };

    /// Reads another one.
    fn read_next(reader: &mut Reader<'_>, alloc: Global) -> Result<Self::Value, ReadEnd>
        ensures gives { Gives (kept_next reader.old.is_bad reader.old.rest.now) result reader.new.is_bad reader.new.rest.now }
        ensures shorter { Shortens result reader.old.rest.now reader.new.rest.now };
}

/// Parts of COMMON. The first may leave its block unsaid.
pub(crate) struct CommonSeries;

impl Series for CommonSeries {
    type Value = CommonPart;

    ghost kept_first = { first_part_kept };

    ghost kept_next = { part_kept };

    fn read_first(reader: &mut Reader<'_>, alloc: Global) -> Result<CommonPart, ReadEnd> {
        reader.first_part(alloc)
    }

    fn read_next(reader: &mut Reader<'_>, alloc: Global) -> Result<CommonPart, ReadEnd> {
        reader.part(alloc)
    }
}

/// Parts of DATA. A comma may stand before each but the first.
pub(crate) struct DataSeries;

impl Series for DataSeries {
    type Value = InitPart;

    ghost kept_first = { init_part_kept };

    ghost kept_next = { next_init_part_kept };

    fn read_first(reader: &mut Reader<'_>, alloc: Global) -> Result<InitPart, ReadEnd> {
        reader.init_part(alloc)
    }

    fn read_next(reader: &mut Reader<'_>, alloc: Global) -> Result<InitPart, ReadEnd> {
        reader.next_init_part(alloc)
    }
}

/// A label.
pub(crate) struct LabelPart;

impl Part for LabelPart {
    type Value = u32;

    ghost kept = { label_kept };

    fn read(reader: &mut Reader<'_>, _alloc: Global) -> Result<u32, ReadEnd> {
        reader.label()
    }
}

/// A number with a sign or without.
pub(crate) struct SignedPart;

impl Part for SignedPart {
    type Value = i32;

    ghost kept = { signed_kept };

    fn read(reader: &mut Reader<'_>, _alloc: Global) -> Result<i32, ReadEnd> {
        reader.signed()
    }
}

/// A constant of DATA, alone or repeated.
pub(crate) struct ValuePart;

impl Part for ValuePart {
    type Value = InitValue;

    ghost kept = { value_kept };

    fn read(reader: &mut Reader<'_>, _alloc: Global) -> Result<InitValue, ReadEnd> {
        reader.value()
    }
}

/// A bound alone, or two with a colon between them.
pub(crate) struct DimPart;

impl Part for DimPart {
    type Value = Dim;

    ghost kept = { dim_kept };

    fn read(reader: &mut Reader<'_>, _alloc: Global) -> Result<Dim, ReadEnd> {
        reader.dim()
    }
}

/// A name, with at most seven dimensions or without.
pub(crate) struct DeclPart;

impl Part for DeclPart {
    type Value = Decl;

    ghost kept = { decl_kept };

    fn read(reader: &mut Reader<'_>, alloc: Global) -> Result<Decl, ReadEnd> {
        reader.decl(alloc)
    }
}

/// A name, with subscripts or without.
pub(crate) struct MemberPart;

impl Part for MemberPart {
    type Value = Member;

    ghost kept = { member_kept };

    fn read(reader: &mut Reader<'_>, alloc: Global) -> Result<Member, ReadEnd> {
        reader.member(alloc)
    }
}

/// Members between brackets.
pub(crate) struct GroupPart;

impl Part for GroupPart {
    type Value = MemberList;

    ghost kept = { group_kept };

    fn read(reader: &mut Reader<'_>, alloc: Global) -> Result<MemberList, ReadEnd> {
        reader.group(alloc)
    }
}

/// A name.
pub(crate) struct NamePart;

impl Part for NamePart {
    type Value = Name;

    ghost kept = { name_kept };

    fn read(reader: &mut Reader<'_>, _alloc: Global) -> Result<Name, ReadEnd> {
        reader.name()
    }
}

/// An expression.
pub(crate) struct ExpressionPart;

impl Part for ExpressionPart {
    type Value = RawExpr;

    ghost kept = { expression_kept };

    fn read(reader: &mut Reader<'_>, alloc: Global) -> Result<RawExpr, ReadEnd> {
        reader.expression(alloc)
    }
}

/// An item of output.
pub(crate) struct ItemPart;

impl Part for ItemPart {
    type Value = RawItem;

    ghost kept = { item_kept };

    fn read(reader: &mut Reader<'_>, alloc: Global) -> Result<RawItem, ReadEnd> {
        reader.item(alloc)
    }
}

/// A variable or an array element.
pub(crate) struct VariablePart;

impl Part for VariablePart {
    type Value = RawExpr;

    ghost kept = { variable_kept };

    fn read(reader: &mut Reader<'_>, alloc: Global) -> Result<RawExpr, ReadEnd> {
        reader.variable(alloc)
    }
}
