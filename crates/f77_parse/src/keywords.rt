//! Whole statements: what tells their form (ANSI X3.9-1978, sections 4 to 12).

ghost use Rattle.f77_parse.specs.KeptForms.{kept_whole, form_kept, equated_kept, keyword_kept, storage_kept, executable_kept};
ghost use Rattle.f77_parse.specs.Answers.{Gives};

use crate::listing::{CommonSeries, DataSeries, DeclPart, GroupPart};
use crate::reader::Reader;
use f77_expr::ReadEnd;
use f77_tree::{Kind, Stmt};
use std::alloc::Global;

impl<'a> Reader<'a> {
    /// The statement that a whole text is. Whether an equals sign or a comma stands outside all brackets and character
    /// constants tells its form, and else its keyword.
    pub(crate) fn statement(
        &mut self,
        alloc: Global,
        has_equals: bool,
        has_comma: bool,
    ) -> Result<Stmt, ReadEnd>
        ensures { Gives (kept_whole (form_kept has_equals has_comma self.old.is_bad self.old.rest.now)) result self.new.is_bad self.new.rest.now }
    {
        let stmt = self.form(alloc, has_equals, has_comma)?;
        if self.is_at_end() {
            Ok(stmt)
        } else {
            Err(ReadEnd::NoForm)
        }
    }

    /// A statement at the beginning of the text.
    #[tactic(auto, unfolding(crate::specs::KeptForms::form_kept))]
    fn form(&mut self, alloc: Global, has_equals: bool, has_comma: bool) -> Result<Stmt, ReadEnd>
        ensures { Gives (form_kept has_equals has_comma self.old.is_bad self.old.rest.now) result self.new.is_bad self.new.rest.now }
    {
        if has_equals {
            self.equated(alloc, has_comma)
        } else {
            self.keyword(alloc)
        }
    }

    /// A statement with an equals sign: DO where there is a comma too, and else an assignment.
    #[tactic(auto, unfolding(crate::specs::KeptForms::equated_kept))]
    fn equated(&mut self, alloc: Global, has_comma: bool) -> Result<Stmt, ReadEnd>
        ensures { Gives (equated_kept has_comma self.old.is_bad self.old.rest.now) result self.new.is_bad self.new.rest.now }
    {
        if has_comma {
            self.do_loop(alloc)
        } else {
            self.assignment(alloc)
        }
    }

    /// A statement by its keyword. One that begins with another's stands before it.
    #[tactic(auto, unfolding(crate::specs::KeptForms::keyword_kept))]
    fn keyword(&mut self, alloc: Global) -> Result<Stmt, ReadEnd>
        ensures { Gives (keyword_kept self.old.is_bad self.old.rest.now) result self.new.is_bad self.new.rest.now }
    {
        if self.passes(b"PROGRAM") {
            self.name()?;
            return Ok(Stmt::Program);
        }
        if self.passes(b"SUBROUTINE") {
            return self.subroutine(alloc);
        }
        if self.passes(b"IMPLICITNONE") {
            return Ok(Stmt::ImplicitNone);
        }
        if self.passes(b"IMPLICIT") {
            return Ok(Stmt::Implicit(self.letters_list(alloc)?));
        }
        if self.passes(b"INTEGER") {
            return Ok(Stmt::TypeOf(Kind::Integer, self.list::<DeclPart>(alloc)?));
        }
        if self.passes(b"LOGICAL") {
            return Ok(Stmt::TypeOf(Kind::Logical, self.list::<DeclPart>(alloc)?));
        }
        self.storage(alloc)
    }

    /// A statement on arrays and storage, or an executable one, by its keyword.
    #[tactic(auto, unfolding(crate::specs::KeptForms::storage_kept))]
    fn storage(&mut self, alloc: Global) -> Result<Stmt, ReadEnd>
        ensures { Gives (storage_kept self.old.is_bad self.old.rest.now) result self.new.is_bad self.new.rest.now }
    {
        if self.passes(b"DIMENSION") {
            return Ok(Stmt::Dimension(self.arrays(alloc)?));
        }
        if self.passes(b"COMMON") {
            return Ok(Stmt::Common(self.series::<CommonSeries>(alloc)?));
        }
        if self.passes(b"EQUIVALENCE") {
            return Ok(Stmt::Equivalence(self.list::<GroupPart>(alloc)?));
        }
        if self.passes(b"DATA") {
            return Ok(Stmt::Init(self.series::<DataSeries>(alloc)?));
        }
        self.executable(alloc)
    }

    /// An executable statement, by its keyword.
    #[tactic(auto, unfolding(crate::specs::KeptForms::executable_kept))]
    fn executable(&mut self, alloc: Global) -> Result<Stmt, ReadEnd>
        ensures { Gives (executable_kept self.old.is_bad self.old.rest.now) result self.new.is_bad self.new.rest.now }
    {
        if self.passes(b"ENDIF") {
            return Ok(Stmt::EndIf);
        }
        if self.passes(b"END") {
            return Ok(Stmt::End);
        }
        if self.passes(b"ELSEIF(") {
            return self.else_if(alloc);
        }
        if self.passes(b"ELSE") {
            return Ok(Stmt::Else);
        }
        if self.passes(b"IF(") {
            return self.if_form(alloc);
        }
        self.simple(alloc)
    }
}
