//! Parts of declarations (ANSI X3.9-1978, sections 5, 8 and 9).

ghost use Rattle.std.specs.Prelude.{◌≡◌, ◌≤◌, ◌<◌, ◌+◌, length, IfOk};
ghost use Rattle.std.specs.List.{list_all};
ghost use Rattle.f77_parse.specs.Keeping.{is_array, kept_after, dim_kept, decl_kept, arrays_kept, range_kept, kind_kept, letters_kept, kept_ranges, block_kept, block_and_decls, first_part_kept, part_kept, member_kept, group_kept, init_part_kept, next_init_part_kept};
ghost use Rattle.f77_parse.specs.Answers.{Gives, Shortens};

use crate::listing::{DeclPart, DimPart, MemberPart, SignedPart, ValuePart};
use crate::reader::Reader;
use df_sequence::Sequence;
use f77_expr::ReadEnd;
use f77_tree::{
    CommonPart, Decl, DeclList, Dim, InitPart, Kind, LetterRange, LetterRangeList, Member,
    MemberList, Name,
};
use std::alloc::Global;

/// An array has at most this many dimensions.
const MOST_DIMENSIONS: u32 = 7;

impl<'a> Reader<'a> {
    /// A bound alone, or two with a colon between them.
    #[tactic(auto, unfolding(crate::specs::Keeping::dim_kept))]
    pub(crate) fn dim(&mut self) -> Result<Dim, ReadEnd>
        ensures gives { Gives (dim_kept self.old.is_bad self.old.rest.now) result self.new.is_bad self.new.rest.now }
        ensures shorter { Shortens result self.old.rest.now self.new.rest.now }
    {
        let first = self.signed()?;
        if self.passes(b":") {
            Ok(Dim {
                lo: first,
                hi: self.signed()?,
            })
        } else {
            Ok(Dim { lo: 1, hi: first })
        }
    }

    /// A name, with at most seven dimensions or without.
    #[tactic(auto, unfolding(crate::specs::Keeping::decl_kept))]
    pub(crate) fn decl(&mut self, alloc: Global) -> Result<Decl, ReadEnd>
        ensures gives { Gives (decl_kept self.old.is_bad self.old.rest.now) result self.new.is_bad self.new.rest.now }
        ensures shorter { Shortens result self.old.rest.now self.new.rest.now }
    {
        let name = self.name()?;
        if !self.passes(b"(") {
            return Ok(Decl {
                name,
                dims: Sequence::new(alloc),
            });
        }
        let dims = self.list::<DimPart>(alloc)?;
        self.wants(b")")?;
        if dims.len() > MOST_DIMENSIONS {
            return Err(ReadEnd::NoForm);
        }
        Ok(Decl { name, dims })
    }

    /// Declarators of arrays with commas between them.
    #[tactic(auto, unfolding(crate::specs::Keeping::arrays_kept))]
    pub(crate) fn arrays(&mut self, alloc: Global) -> Result<DeclList, ReadEnd>
        ensures gives { Gives (arrays_kept self.old.is_bad self.old.rest.now) result self.new.is_bad self.new.rest.now }
        ensures shorter { Shortens result self.old.rest.now self.new.rest.now }
    {
        let decls = self.list::<DeclPart>(alloc)?;
        if are_arrays(decls.as_slice()) {
            Ok(decls)
        } else {
            Err(ReadEnd::NoForm)
        }
    }

    /// A letter, or two with a minus sign between them.
    #[tactic(auto, unfolding(crate::specs::Keeping::range_kept))]
    fn range(&mut self, kind: Kind) -> Result<LetterRange, ReadEnd>
        ensures gives { Gives (range_kept kind self.old.is_bad self.old.rest.now) result self.new.is_bad self.new.rest.now }
        ensures shorter { Shortens result self.old.rest.now self.new.rest.now }
    {
        let from = self.letter()?;
        if self.passes(b"-") {
            Ok(LetterRange {
                kind,
                from,
                to: self.letter()?,
            })
        } else {
            Ok(LetterRange {
                kind,
                from,
                to: from,
            })
        }
    }

    /// The name of a type.
    #[tactic(auto, unfolding(crate::specs::Keeping::kind_kept))]
    fn kind(&mut self) -> Result<Kind, ReadEnd>
        ensures gives { Gives (kind_kept self.old.is_bad self.old.rest.now) result self.new.is_bad self.new.rest.now }
        ensures shorter { Shortens result self.old.rest.now self.new.rest.now }
    {
        if self.passes(b"INTEGER") {
            return Ok(Kind::Integer);
        }
        self.wants(b"LOGICAL")?;
        Ok(Kind::Logical)
    }

    /// Ranges of letters with commas between them, after those in the list.
    fn ranges(&mut self, kind: Kind, mut list: LetterRangeList) -> Result<LetterRangeList, ReadEnd>
        requires room { length list + length self.old.rest.now < 4294967296 }
        ensures room { IfOk result (λ longer. length longer + length self.new.rest.now ≤ length list + length self.old.rest.now) }
        ensures gives { Gives (kept_after (range_kept kind) list self.old.is_bad self.old.rest.now) result self.new.is_bad self.new.rest.now }
        ensures shorter { Shortens result self.old.rest.now self.new.rest.now }
    {
        list.push(self.range(kind)?)?;
        while self.passes_comma() {
            list.push(self.range(kind)?)?;
        }
        Ok(list)
    }

    /// A type and its letters, after those in the list.
    #[tactic(auto, unfolding(crate::specs::Keeping::letters_kept))]
    fn letters(&mut self, list: LetterRangeList) -> Result<LetterRangeList, ReadEnd>
        requires room { length list + length self.old.rest.now < 4294967296 }
        ensures room { IfOk result (λ longer. length longer + length self.new.rest.now ≤ length list + length self.old.rest.now) }
        ensures gives { Gives (letters_kept list self.old.is_bad self.old.rest.now) result self.new.is_bad self.new.rest.now }
        ensures shorter { Shortens result self.old.rest.now self.new.rest.now }
    {
        let kind = self.kind()?;
        self.wants(b"(")?;
        let list = self.ranges(kind, list)?;
        self.wants(b")")?;
        Ok(list)
    }

    /// Types and their letters, with commas between them.
    pub(crate) fn letters_list(&mut self, alloc: Global) -> Result<LetterRangeList, ReadEnd>
        ensures gives { Gives (kept_ranges self.old.is_bad self.old.rest.now) result self.new.is_bad self.new.rest.now }
        ensures shorter { Shortens result self.old.rest.now self.new.rest.now }
    {
        let mut list = self.letters(Sequence::new(alloc))?;
        while self.passes_comma() {
            list = self.letters(list)?;
        }
        Ok(list)
    }

    /// Blank common as two strokes, or a named block.
    #[tactic(auto, unfolding(crate::specs::Keeping::block_kept))]
    fn block(&mut self) -> Result<Option<Name>, ReadEnd>
        ensures gives { Gives (block_kept self.old.is_bad self.old.rest.now) result self.new.is_bad self.new.rest.now }
        ensures shorter { Shortens result self.old.rest.now self.new.rest.now }
    {
        if self.passes(b"//") {
            return Ok(None);
        }
        self.wants(b"/")?;
        let name = self.name()?;
        self.wants(b"/")?;
        Ok(Some(name))
    }

    /// The first part of COMMON, which may tell its block.
    #[tactic(auto, unfolding(crate::specs::Keeping::first_part_kept))]
    pub(crate) fn first_part(&mut self, alloc: Global) -> Result<CommonPart, ReadEnd>
        ensures gives { Gives (first_part_kept self.old.is_bad self.old.rest.now) result self.new.is_bad self.new.rest.now }
        ensures shorter { Shortens result self.old.rest.now self.new.rest.now }
    {
        if self.is_at(b'/') {
            return self.told_part(alloc);
        }
        let decls = self.list::<DeclPart>(alloc)?;
        Ok(CommonPart { block: None, decls })
    }

    /// A block of COMMON and its names.
    fn told_part(&mut self, alloc: Global) -> Result<CommonPart, ReadEnd>
        ensures gives { Gives (block_and_decls (block_kept self.old.is_bad self.old.rest.now)) result self.new.is_bad self.new.rest.now }
        ensures shorter { Shortens result self.old.rest.now self.new.rest.now }
    {
        let block = self.block()?;
        let decls = self.list::<DeclPart>(alloc)?;
        Ok(CommonPart { block, decls })
    }

    /// A part of COMMON that tells its block, with a leading comma or without.
    #[tactic(auto, unfolding(crate::specs::Keeping::part_kept))]
    pub(crate) fn part(&mut self, alloc: Global) -> Result<CommonPart, ReadEnd>
        ensures gives { Gives (part_kept self.old.is_bad self.old.rest.now) result self.new.is_bad self.new.rest.now }
        ensures shorter { Shortens result self.old.rest.now self.new.rest.now }
    {
        self.skips(b",");
        self.told_part(alloc)
    }

    /// A name, with subscripts or without.
    #[tactic(auto, unfolding(crate::specs::Keeping::member_kept))]
    pub(crate) fn member(&mut self, alloc: Global) -> Result<Member, ReadEnd>
        ensures gives { Gives (member_kept self.old.is_bad self.old.rest.now) result self.new.is_bad self.new.rest.now }
        ensures shorter { Shortens result self.old.rest.now self.new.rest.now }
    {
        let name = self.name()?;
        if !self.passes(b"(") {
            return Ok(Member {
                name,
                subs: Sequence::new(alloc),
            });
        }
        let subs = self.list::<SignedPart>(alloc)?;
        self.wants(b")")?;
        Ok(Member { name, subs })
    }

    /// Two members or more, between brackets.
    #[tactic(auto, unfolding(crate::specs::Keeping::group_kept))]
    pub(crate) fn group(&mut self, alloc: Global) -> Result<MemberList, ReadEnd>
        ensures gives { Gives (group_kept self.old.is_bad self.old.rest.now) result self.new.is_bad self.new.rest.now }
        ensures shorter { Shortens result self.old.rest.now self.new.rest.now }
    {
        self.wants(b"(")?;
        let members = self.list::<MemberPart>(alloc)?;
        self.wants(b")")?;
        if members.len() < 2 {
            return Err(ReadEnd::NoForm);
        }
        Ok(members)
    }

    /// Items of DATA and their values.
    #[tactic(auto, unfolding(crate::specs::Keeping::init_part_kept))]
    pub(crate) fn init_part(&mut self, alloc: Global) -> Result<InitPart, ReadEnd>
        ensures gives { Gives (init_part_kept self.old.is_bad self.old.rest.now) result self.new.is_bad self.new.rest.now }
        ensures shorter { Shortens result self.old.rest.now self.new.rest.now }
    {
        let items = self.list::<MemberPart>(alloc)?;
        self.wants(b"/")?;
        let values = self.list::<ValuePart>(alloc)?;
        self.wants(b"/")?;
        Ok(InitPart { items, values })
    }

    /// Items of DATA and their values, with a leading comma or without.
    #[tactic(auto, unfolding(crate::specs::Keeping::next_init_part_kept))]
    pub(crate) fn next_init_part(&mut self, alloc: Global) -> Result<InitPart, ReadEnd>
        ensures gives { Gives (next_init_part_kept self.old.is_bad self.old.rest.now) result self.new.is_bad self.new.rest.now }
        ensures shorter { Shortens result self.old.rest.now self.new.rest.now }
    {
        self.skips(b",");
        self.init_part(alloc)
    }
}

/// Whether each declarator has dimensions.
fn are_arrays(decls: &[Decl]) -> bool
    ensures { result ≡ list_all is_array decls.now }
{
    decls.iter().all(|decl| 0 < decl.dims.len())
}
