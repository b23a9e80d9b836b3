//! BLOCK DATA: its values as those of the main program.

use crate::common_blocks::{Blocks, blocks_of};
use fortran_tree::{
    Head, LowerError, Name, Names, Node, Place, Reason, Sign, Statement, Token, copied, is_sign,
    leaf,
};
use indexmap::IndexMap;
use std::alloc::Global;
use unit_tables::{
    Replacements, Symbols, Unit, bounds_of, fresh_name, joined, name_alone, substituted,
};

/// The main program that BLOCK DATA is put into.
#[derive(Drop)]
struct Main {
    blocks: Blocks,
    symbols: Symbols,
}

impl Main {
    /// A main program of these statements.
    fn of(alloc: Global, names: &Names, statements: &[Statement]) -> Result<Main, LowerError> {
        Ok(Main {
            blocks: blocks_of(alloc, statements)?,
            symbols: Symbols::of(alloc, names, statements)?,
        })
    }
}

/// A BLOCK DATA that is being put into the main program.
#[derive(Drop)]
struct BlockData {
    symbols: Symbols,
    place: Place,
    /// The main program's names for those of the BLOCK DATA.
    others: Replacements,
    /// What the main program has to declare and to say.
    written: Vec<Statement>,
}

/// Whether a name of BLOCK DATA has the bounds of the main program's name.
fn are_alike(
    alloc: Global,
    own: Option<&Vec<Node>>,
    main: Option<&Vec<Node>>,
    place: Place,
) -> Result<bool, LowerError> {
    match (own, main) {
        (None, None) => Ok(true),
        (Some(own), Some(main)) => {
            Ok(bounds_of(alloc, own, place)? == bounds_of(alloc, main, place)?)
        }
        _ => Ok(false),
    }
}

/// Whether a statement says nothing in BLOCK DATA but what its names are.
fn is_plain(head: Head) -> bool {
    matches!(
        head,
        Head::BlockData
            | Head::ImplicitNone
            | Head::Implicit
            | Head::Declare(_)
            | Head::Dimension
            | Head::Common
            | Head::Save
            | Head::End
    )
}

/// What COMMON says of a block with these members.
fn common_body(
    alloc: Global,
    block: Option<Name>,
    members: Vec<Vec<Node>>,
    place: Place,
) -> Result<Vec<Node>, LowerError> {
    let mut body = Vec::new(alloc);
    if let Some(block) = block {
        body.push(leaf(Token::Sign(Sign::Divide), place))?;
        body.push(leaf(Token::Name(block), place))?;
        body.push(leaf(Token::Sign(Sign::Divide), place))?;
    }
    body.append(&mut joined(alloc, members, place)?)?;
    Ok(body)
}

/// Refuses a DATA of BLOCK DATA of a name that is in none of its blocks.
fn refuse_others(others: &Replacements, body: &[Node]) -> Result<(), LowerError> {
    let mut is_list = true;
    for node in body {
        if is_sign(node, Sign::Divide) {
            is_list = !is_list;
        } else if let Some(name) = node.name() {
            if is_list && others.get(&name).is_none() {
                return Err(node.place().refused(Reason::BlockData));
            }
        }
    }
    Ok(())
}

/// The values of a DATA of BLOCK DATA as those of the main program's names.
fn moved_data(
    alloc: Global,
    others: &Replacements,
    statement: &Statement,
) -> Result<Statement, LowerError> {
    refuse_others(others, &statement.body)?;
    let body = substituted(alloc, &statement.body, others)?;
    Ok(Statement::plain(Head::Data, body, statement.place))
}

impl BlockData {
    /// A BLOCK DATA of which nothing is written.
    fn of(alloc: Global, names: &Names, unit: &Unit) -> Result<BlockData, LowerError> {
        Ok(BlockData {
            symbols: Symbols::of(alloc, names, &unit.statements)?,
            place: unit.place(),
            others: IndexMap::new(alloc),
            written: Vec::new(alloc),
        })
    }

    /// Gives a name the main program's name.
    fn pair(
        &mut self,
        alloc: Global,
        names: &Names,
        symbols: &Symbols,
        own: Name,
        main: Name,
    ) -> Result<(), LowerError> {
        let place = self.place;
        let kind = self.symbols.kind(names, own);
        if kind.is_none() {
            return Err(place.refused(Reason::RealName));
        }
        let bounds = self.symbols.arrays.get(&own);
        let have_same_bounds = are_alike(alloc, bounds, symbols.arrays.get(&main), place)?;
        if kind != symbols.kind(names, main) || !have_same_bounds {
            return Err(place.refused(Reason::BlockBounds));
        }
        self.others.insert(own, name_alone(alloc, main, place)?)?;
        Ok(())
    }

    /// Gives the names of a block the main program's names.
    fn pair_all(
        &mut self,
        alloc: Global,
        names: &Names,
        symbols: &Symbols,
        own: &[Name],
        mains: &[Name],
    ) -> Result<(), LowerError> {
        if own.len() > mains.len() {
            return Err(self.place.refused(Reason::BlockBounds));
        }
        for (name, main) in own.iter().zip(mains) {
            self.pair(alloc, names, symbols, *name, *main)?;
        }
        Ok(())
    }

    /// Declares a name under a new one, which is returned.
    fn declare(
        &mut self,
        alloc: Global,
        names: &mut Names,
        next: &mut u32,
        own: Name,
    ) -> Result<Name, LowerError> {
        let place = self.place;
        let Some(kind) = self.symbols.kind(names, own) else {
            return Err(place.refused(Reason::RealName));
        };
        let new = fresh_name(alloc, names, next, place)?;
        let mut declared = name_alone(alloc, new, place)?;
        if let Some(bounds) = self.symbols.arrays.get(&own) {
            declared.push(Node::Group(copied(alloc, bounds)?, place))?;
        }
        self.written
            .push(Statement::plain(Head::Declare(kind), declared, place))?;
        self.others.insert(own, name_alone(alloc, new, place)?)?;
        Ok(new)
    }

    /// Declares a block that the main program doesn't have, under new names.
    fn declare_all(
        &mut self,
        alloc: Global,
        names: &mut Names,
        next: &mut u32,
        block: Option<Name>,
        own: &[Name],
    ) -> Result<(), LowerError> {
        let place = self.place;
        let mut members = Vec::new(alloc);
        for name in own {
            let new = self.declare(alloc, names, next, *name)?;
            members.push(name_alone(alloc, new, place)?)?;
        }
        let body = common_body(alloc, block, members, place)?;
        self.written
            .push(Statement::plain(Head::Common, body, place))?;
        Ok(())
    }

    /// Takes one of these blocks.
    fn block(
        &mut self,
        alloc: Global,
        names: &mut Names,
        next: &mut u32,
        main: &Main,
        block: Option<Name>,
        own: &[Name],
    ) -> Result<(), LowerError> {
        match main.blocks.get(&block) {
            Some(mains) => self.pair_all(alloc, names, &main.symbols, own, mains),
            None => self.declare_all(alloc, names, next, block, own),
        }
    }

    /// Takes the blocks of its COMMON.
    fn blocks(
        &mut self,
        alloc: Global,
        names: &mut Names,
        next: &mut u32,
        main: &Main,
        blocks: Blocks,
    ) -> Result<(), LowerError> {
        for (block, own) in blocks {
            self.block(alloc, names, next, main, block, &own)?;
        }
        Ok(())
    }

    /// Takes its statements.
    fn statements(&mut self, alloc: Global, statements: &[Statement]) -> Result<(), LowerError> {
        for statement in statements {
            self.statement(alloc, statement)?;
        }
        Ok(())
    }

    /// Takes its next statement.
    fn statement(&mut self, alloc: Global, statement: &Statement) -> Result<(), LowerError> {
        if matches!(statement.head, Head::Data) {
            self.written
                .push(moved_data(alloc, &self.others, statement)?)?;
        } else if !is_plain(statement.head) {
            return Err(statement.place.refused(Reason::BlockData));
        }
        Ok(())
    }
}

/// What a BLOCK DATA says (ANSI X3.9-1978, 16), as statements of the main program.
fn said(
    alloc: Global,
    names: &mut Names,
    next: &mut u32,
    main: &Main,
    unit: Unit,
) -> Result<Vec<Statement>, LowerError> {
    let mut moved = BlockData::of(alloc, names, &unit)?;
    let Unit { statements } = unit;
    let blocks = blocks_of(alloc, &statements)?;
    moved.blocks(alloc, names, next, main, blocks)?;
    moved.statements(alloc, &statements)?;
    let BlockData { written, .. } = moved;
    Ok(written)
}

/// Puts statements before the END of a unit.
fn put_before_end(unit: &mut Unit, more: &mut Vec<Statement>) -> Result<(), LowerError> {
    let end = unit.statements.pop();
    unit.statements.append(more)?;
    if let Some(end) = end {
        unit.statements.push(end)?;
    }
    Ok(())
}

/// Units, of which those that are BLOCK DATA become statements.
#[derive(Drop)]
struct Parts {
    kept: Vec<Unit>,
    said: Vec<Statement>,
}

impl Parts {
    /// Takes the next unit.
    fn take(
        &mut self,
        alloc: Global,
        names: &mut Names,
        next: &mut u32,
        main: &Main,
        unit: Unit,
    ) -> Result<(), LowerError> {
        if matches!(unit.head(), Head::BlockData) {
            let mut more = said(alloc, names, next, main, unit)?;
            self.said.append(&mut more)?;
        } else {
            self.kept.push(unit)?;
        }
        Ok(())
    }

    /// The units that are kept, of which the first one says what was said.
    fn finish(self) -> Result<Vec<Unit>, LowerError> {
        let Parts { mut kept, mut said } = self;
        if let Some(main) = kept.first_mut() {
            put_before_end(main, &mut said)?;
        }
        Ok(kept)
    }
}

/// What the first of these units, the main program, has in COMMON.
fn main_of(alloc: Global, names: &Names, units: &[Unit]) -> Result<Main, LowerError> {
    match units.first() {
        Some(main) => Main::of(alloc, names, &main.statements),
        None => Main::of(alloc, names, &[]),
    }
}

/// The units without BLOCK DATA, whose values the first one, the main program, has now.
pub fn without_block_data(
    alloc: Global,
    names: &mut Names,
    next: &mut u32,
    units: Vec<Unit>,
) -> Result<Vec<Unit>, LowerError> {
    let main = main_of(alloc, names, &units)?;
    let mut parts = Parts {
        kept: Vec::new(alloc),
        said: Vec::new(alloc),
    };
    for unit in units {
        parts.take(alloc, names, next, &main, unit)?;
    }
    parts.finish()
}
