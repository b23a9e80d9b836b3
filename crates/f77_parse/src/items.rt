//! Parts of executable statements: expressions, variables and items of output (ANSI X3.9-1978, sections 6, 10 and 12).

ghost use Rattle.f77_parse.specs.Keeping.{variable_kept, names_kept, next_character_kept, characters_kept, character_constant_kept, item_kept};
ghost use Rattle.f77_parse.specs.Answers.{Gives, Shortens};

use crate::listing::{ExpressionPart, NamePart};
use crate::reader::Reader;
use df_sequence::Sequence;
use f77_expr::ReadEnd;
use f77_tree::{NameList, RawExpr, RawItem, Text};
use std::alloc::Global;

impl<'a> Reader<'a> {
    /// A variable or an array element.
    #[tactic(auto, unfolding(crate::specs::Keeping::variable_kept))]
    pub(crate) fn variable(&mut self, alloc: Global) -> Result<RawExpr, ReadEnd>
        ensures gives { Gives (variable_kept self.old.is_bad self.old.rest.now) result self.new.is_bad self.new.rest.now }
        ensures shorter { Shortens result self.old.rest.now self.new.rest.now }
    {
        let name = self.name()?;
        if !self.passes(b"(") {
            return Ok(RawExpr::Named(name));
        }
        let subs = self.list::<ExpressionPart>(alloc)?;
        self.wants(b")")?;
        Ok(RawExpr::Call(name, subs))
    }

    /// Names in brackets, of which there may be none, or nothing.
    #[tactic(auto, unfolding(crate::specs::Keeping::names_kept))]
    pub(crate) fn names(&mut self, alloc: Global) -> Result<NameList, ReadEnd>
        ensures { Gives (names_kept self.old.is_bad self.old.rest.now) result self.new.is_bad self.new.rest.now }
    {
        if !self.passes(b"(") {
            return Ok(Sequence::new(alloc));
        }
        if self.passes(b")") {
            return Ok(Sequence::new(alloc));
        }
        let names = self.list::<NamePart>(alloc)?;
        self.wants(b")")?;
        Ok(names)
    }

    /// The next character of a character constant, where it isn't the apostrophe that closes it. Two apostrophes are one
    /// character.
    #[tactic(auto, unfolding(crate::specs::Keeping::next_character_kept))]
    fn next_of_constant(&mut self) -> Result<Option<u8>, ReadEnd>
        ensures gives { Gives (next_character_kept self.old.is_bad self.old.rest.now) result self.new.is_bad self.new.rest.now }
        ensures shorter { Shortens result self.old.rest.now self.new.rest.now }
    {
        if self.passes(b"''") {
            return Ok(Some(b'\''));
        }
        if self.passes(b"'") {
            return Ok(None);
        }
        Ok(Some(self.character()?))
    }

    /// The characters of a constant after its apostrophe, up to the one that closes it.
    fn characters(&mut self, alloc: Global) -> Result<Text, ReadEnd>
        ensures gives { Gives (characters_kept self.old.is_bad self.old.rest.now) result self.new.is_bad self.new.rest.now }
        ensures shorter { Shortens result self.old.rest.now self.new.rest.now }
    {
        let mut list = Sequence::new(alloc);
        while let Some(c) = self.next_of_constant()? {
            list.push(c)?;
        }
        Ok(list)
    }

    /// A character constant of at least one character.
    #[tactic(auto, unfolding(crate::specs::Keeping::character_constant_kept))]
    pub(crate) fn character_constant(&mut self, alloc: Global) -> Result<Text, ReadEnd>
        ensures gives { Gives (character_constant_kept self.old.is_bad self.old.rest.now) result self.new.is_bad self.new.rest.now }
        ensures shorter { Shortens result self.old.rest.now self.new.rest.now }
    {
        self.wants(b"'")?;
        let characters = self.characters(alloc)?;
        if characters.is_empty() {
            return Err(ReadEnd::NoForm);
        }
        Ok(characters)
    }

    /// An item of output. One that begins with an apostrophe is a character constant.
    #[tactic(auto, unfolding(crate::specs::Keeping::item_kept))]
    pub(crate) fn item(&mut self, alloc: Global) -> Result<RawItem, ReadEnd>
        ensures gives { Gives (item_kept self.old.is_bad self.old.rest.now) result self.new.is_bad self.new.rest.now }
        ensures shorter { Shortens result self.old.rest.now self.new.rest.now }
    {
        if self.is_at(b'\'') {
            Ok(RawItem::Chars(self.character_constant(alloc)?))
        } else {
            Ok(RawItem::Value(self.expression(alloc)?))
        }
    }
}
