//! What the declarations of a unit say of its names.

ghost use Rattle.std.specs.Prelude.{◌≡◌, true, None, Some, IfSome, OnOk, is_some};
ghost use Rattle.indexmap.specs.IndexMap.{get};
ghost use Rattle.indexmap.specs.IndexSet.{contains};
ghost use Rattle.fortran_tree.specs.Spellings.{same_name};

use crate::pieces::pieces_of;
use fortran_tree::{
    Head, Kind, LowerError, Name, Names, Node, Sign, Statement, Token, copied, is_sign,
};
use indexmap::{IndexMap, IndexSet};
use std::alloc::Global;

/// The kinds and the bounds of a unit's names.
#[derive(Drop)]
pub struct Symbols {
    /// The kinds that IMPLICIT gives to first letters, none of those that are real.
    implicit: IndexMap<u8, Option<Kind>>,
    /// Whether IMPLICIT NONE stands in the unit.
    is_explicit: bool,
    kinds: IndexMap<Name, Kind>,
    /// What stands between the brackets of an array's declaration.
    pub arrays: IndexMap<Name, Vec<Node>>,
    /// The names in COMMON and EQUIVALENCE, whose words other names may have.
    shared: IndexSet<Name>,
}

impl Symbols {
    /// What the declarations among these statements say.
    pub fn of(
        alloc: Global,
        names: &Names,
        statements: &[Statement],
    ) -> Result<Symbols, LowerError> {
        let mut symbols = Symbols {
            implicit: IndexMap::new(alloc),
            is_explicit: false,
            kinds: IndexMap::new(alloc),
            arrays: IndexMap::new(alloc),
            shared: IndexSet::new(alloc),
        };
        for statement in statements {
            match statement.head {
                Head::ImplicitNone => symbols.is_explicit = true,
                Head::Implicit => symbols.imply(names, &statement.body)?,
                Head::Declare(kind) => symbols.declare(alloc, kind, &statement.body)?,
                Head::Dimension => symbols.dimension(alloc, &statement.body)?,
                Head::Common => {
                    symbols.dimension(alloc, &statement.body)?;
                    symbols.share(&statement.body)?;
                }
                Head::Equivalence => symbols.share(&statement.body)?,
                _ => {}
            }
        }
        Ok(symbols)
    }

    /// IMPLICIT: each kind with its letters.
    fn imply(&mut self, names: &Names, body: &[Node]) -> Result<(), LowerError> {
        let mut kind = None;
        for node in body {
            match node {
                Node::Group(letters, _) => {
                    self.imply_letters(names, kind, letters.as_slice())?;
                }
                _ => {
                    if let Some(name) = node.name() {
                        kind = match names.spelling(name) {
                            "LOGICAL" => Some(Kind::Logical),
                            "INTEGER" => Some(Kind::Integer),
                            _ => None,
                        };
                    }
                }
            }
        }
        Ok(())
    }

    /// One kind of IMPLICIT, for single letters and for ranges of them.
    fn imply_letters(
        &mut self,
        names: &Names,
        kind: Option<Kind>,
        letters: &[Node],
    ) -> Result<(), LowerError> {
        let mut first = b'A';
        let mut is_range = false;
        for node in letters {
            if is_sign(node, Sign::Minus) {
                is_range = true;
            } else if let Some(name) = node.name() {
                let letter = first_letter(names.spelling(name));
                if !is_range {
                    first = letter;
                }
                for letter in first..=letter {
                    self.implicit.insert(letter, kind)?;
                }
                is_range = false;
            }
        }
        Ok(())
    }

    /// A type statement.
    fn declare(&mut self, alloc: Global, kind: Kind, body: &[Node]) -> Result<(), LowerError> {
        for piece in pieces_of(alloc, body)? {
            if let Some(name) = piece.first().and_then(|first| first.name()) {
                self.kinds.insert(name, kind)?;
            }
        }
        self.dimension(alloc, body)
    }

    /// The names of a declaration that have bounds.
    fn dimension(&mut self, alloc: Global, body: &[Node]) -> Result<(), LowerError> {
        let mut last = None;
        for node in body {
            if let (Some(name), Some(bounds)) = (last, node.inside()) {
                self.arrays.insert(name, copied(alloc, bounds)?)?;
            }
            last = node.name();
        }
        Ok(())
    }

    /// COMMON, in which the names of blocks stand between slashes, or EQUIVALENCE.
    fn share(&mut self, body: &[Node]) -> Result<(), LowerError> {
        let mut is_block = false;
        for node in body {
            match node {
                Node::Leaf(Token::Sign(Sign::Divide), _) => is_block = !is_block,
                Node::Leaf(Token::Name(name), _) if !is_block => {
                    self.shared.insert(*name)?;
                }
                Node::Leaf(_, _) => {}
                Node::Group(inside, _) => self.share(inside.as_slice())?,
            }
        }
        Ok(())
    }

    /// Gives a name a kind.
    pub fn give(&mut self, name: Name, kind: Kind) -> Result<(), LowerError>
        ensures kind { OnOk result (get same_name self.new.kinds name ≡ Some kind) }
        ensures rest { self.new ≡ record self.old { kinds = self.new.kinds } }
    {
        self.kinds.insert(name, kind)?;
        Ok(())
    }

    /// Whether a type statement names it.
    pub fn is_declared(&self, name: Name) -> bool
        ensures { result ≡ is_some (get same_name self.now.kinds name) }
    {
        self.kinds.get(&name).is_some()
    }

    /// The kind of a name (ANSI X3.9-1978, 4.1.2); none of one that is real, or that IMPLICIT NONE leaves without a kind.
    pub fn kind(&self, names: &Names, name: Name) -> Option<Kind>
        ensures declared { IfSome (get same_name self.now.kinds name) (λ kind. result ≡ Some kind) }
        ensures explicit { get same_name self.now.kinds name ≡ None → self.now.is_explicit ≡ true → result ≡ None }
    {
        if let Some(kind) = self.kinds.get(&name) {
            return Some(*kind);
        }
        if self.is_explicit {
            return None;
        }
        let letter = first_letter(names.spelling(name));
        match self.implicit.get(&letter) {
            Some(kind) => *kind,
            None if matches!(letter, b'I'..=b'N') => Some(Kind::Integer),
            None => None,
        }
    }

    /// Whether COMMON or EQUIVALENCE has a name, so that another name may have its word.
    pub fn is_shared(&self, name: Name) -> bool
        ensures { result ≡ contains same_name self.now.shared name }
    {
        self.shared.contains(&name)
    }

    /// Whether a name is an array.
    pub fn is_array(&self, name: Name) -> bool
        ensures { result ≡ is_some (get same_name self.now.arrays name) }
    {
        self.arrays.get(&name).is_some()
    }
}

/// The first letter of a name.
fn first_letter(spelling: &str) -> u8 {
    match spelling.as_bytes().first() {
        Some(letter) => *letter,
        None => b'A',
    }
}
