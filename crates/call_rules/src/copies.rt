//! Copies of units: one for each set of bounds that calls give the array dummies of a unit.

use crate::known::{Known, gives, told_values};
use crate::program::Program;
use fortran_tree::{
    Head, LowerError, Name, Names, Node, Place, Reason, Rule, Statement, Token, copied, leaf,
};
use function_rules::dummies_of;
use indexmap::IndexMap;
use std::alloc::Global;
use unit_tables::{
    Bound, MOST_STATEMENTS, Replacements, Symbols, Unit, agreed, bounds_of, fresh_name, pieces_of,
    signed, written_bounds,
};

/// The bounds of a unit's dummies, none for a dummy that is no array.
type Shapes = Vec<Option<Vec<Bound>>>;

/// A unit that may be copied.
#[derive(Drop)]
struct Original {
    unit: Unit,
    dummies: Vec<Name>,
    symbols: Symbols,
    /// Whether it has SAVE or DATA, so that two copies would not be one unit.
    keeps_values: bool,
}

/// A copy of a unit that is called, or the main program.
#[derive(Drop)]
struct CalledCopy {
    /// The unit's number.
    unit: usize,
    shapes: Shapes,
    /// The name under which it is called; none of the main program.
    name: Option<Name>,
}

impl Original {
    /// A unit with what it declares.
    fn of(alloc: Global, names: &Names, unit: Unit) -> Result<Original, LowerError> {
        Ok(Original {
            dummies: dummies_of(alloc, &unit)?,
            symbols: Symbols::of(alloc, names, &unit.statements)?,
            keeps_values: unit.statements.iter().any(|statement| matches!(
                statement.head,
                Head::Save | Head::Data
            )),
            unit,
        })
    }

    /// The name of a subroutine.
    fn name(&self) -> Option<Name> {
        if matches!(self.unit.head(), Head::Subroutine) {
            self.unit.statements.first()?.first_name()
        } else {
            None
        }
    }

    /// Keeps what the bounds of a dummy tell: themselves, and the constants that are passed to dummies among the declared ones.
    fn learn(
        &self,
        alloc: Global,
        known: &mut Known,
        dummy: Name,
        bounds: &[Bound],
    ) -> Result<(), LowerError> {
        known.bounds.insert(dummy, Vec::from_slice(alloc, bounds)?)?;
        let Some(declared) = self.symbols.arrays.get(&dummy) else {
            return Ok(());
        };
        for (name, value) in told_values(alloc, declared, bounds)? {
            if self.dummies.contains(&name) && !gives(&self.unit.statements, name) {
                known.values.insert(name, value)?;
            }
        }
        Ok(())
    }

    /// What is known where its dummies have these bounds.
    fn known(&self, alloc: Global, shapes: &Shapes) -> Result<Known, LowerError> {
        let mut known = Known::new(alloc);
        for (dummy, shape) in self.dummies.iter().zip(shapes) {
            if let Some(bounds) = shape {
                self.learn(alloc, &mut known, *dummy, bounds)?;
            }
        }
        let place = self.unit.place();
        for (name, declared) in &self.symbols.arrays {
            if known.bounds.get(name).is_none() && !self.dummies.contains(name) {
                known
                    .bounds
                    .insert(*name, bounds_of(alloc, declared, place)?)?;
            }
        }
        Ok(known)
    }

    /// Whether the bounds of a dummy are not constants.
    fn is_open(&self, alloc: Global) -> bool {
        let place = self.unit.place();
        self.dummies.iter().any(|dummy| {
            self.symbols
                .arrays
                .get(dummy)
                .is_some_and(|declared| bounds_of(alloc, declared, place).is_err())
        })
    }

    /// Its statements as they are.
    fn as_it_is(&self, alloc: Global) -> Result<Vec<Statement>, LowerError> {
        let mut statements = Vec::new(alloc);
        for statement in &self.unit.statements {
            statements.push(statement.copy(alloc)?)?;
        }
        Ok(statements)
    }

    /// The constants among the arguments of a call, by the dummies to which they are passed.
    fn constants(
        &self,
        program: &Program,
        known: &Known,
        arguments: &[Option<Name>],
        place: Place,
    ) -> Result<Replacements, LowerError> {
        let mut values: Replacements = IndexMap::new(program.alloc);
        for (dummy, argument) in self.dummies.iter().zip(arguments) {
            if let Some(value) = argument.and_then(|name| known.constant(program, name)) {
                values.insert(*dummy, signed(program.alloc, value, place)?)?;
            }
        }
        Ok(values)
    }

    /// The bounds that a call gives a dummy, if it is an array.
    fn shape(
        &self,
        alloc: Global,
        dummy: Name,
        argument: Option<Name>,
        known: &Known,
        values: &Replacements,
        place: Place,
    ) -> Result<Option<Vec<Bound>>, LowerError> {
        let Some(declared) = self.symbols.arrays.get(&dummy) else {
            return Ok(None);
        };
        match argument.and_then(|name| known.bounds.get(&name)) {
            Some(bounds) => Ok(Some(agreed(alloc, declared, bounds, values, place)?)),
            None => Err(place.refused(Reason::Bounds)),
        }
    }

    /// The bounds that a call gives its dummies.
    fn shapes(
        &self,
        program: &Program,
        known: &Known,
        statement: &Statement,
    ) -> Result<Shapes, LowerError> {
        let alloc = program.alloc;
        let place = statement.place;
        let arguments = passed(alloc, statement)?;
        let values = self.constants(program, known, &arguments, place)?;
        let mut shapes: Shapes = Vec::new(alloc);
        for (dummy, argument) in self.dummies.iter().zip(&arguments) {
            shapes.push(self.shape(alloc, *dummy, *argument, known, &values, place)?)?;
        }
        Ok(shapes)
    }

    /// Its statements where its dummies have these bounds.
    fn copied(
        &self,
        alloc: Global,
        name: Option<Name>,
        known: &Known,
    ) -> Result<Vec<Statement>, LowerError> {
        let mut statements = Vec::new(alloc);
        for statement in &self.unit.statements {
            let mut statement = statement.copy(alloc)?;
            self.adapt(alloc, name, known, &mut statement)?;
            statements.push(statement)?;
        }
        Ok(statements)
    }

    /// Gives a SUBROUTINE its name, and dummies in a declaration their bounds.
    fn adapt(
        &self,
        alloc: Global,
        name: Option<Name>,
        known: &Known,
        statement: &mut Statement,
    ) -> Result<(), LowerError> {
        match (statement.head, name) {
            (Head::Subroutine, Some(name)) => rename(statement, name),
            (Head::Declare(_) | Head::Dimension, _) => {
                statement.body = redeclared(alloc, &statement.body, &self.dummies, known)?;
            }
            _ => {}
        }
        Ok(())
    }
}

/// Gives another name to what a statement begins with.
fn rename(statement: &mut Statement, name: Name) {
    if let Some(Node::Leaf(token, _)) = statement.body.first_mut() {
        *token = Token::Name(name);
    }
}

/// A declaration in which the dummies have these bounds.
fn redeclared(
    alloc: Global,
    body: &[Node],
    dummies: &Vec<Name>,
    known: &Known,
) -> Result<Vec<Node>, LowerError> {
    let mut out: Vec<Node> = Vec::new(alloc);
    for node in body {
        let dummy = out
            .last()
            .and_then(|last| last.name())
            .filter(|name| dummies.contains(name));
        match node {
            Node::Leaf(token, place) => out.push(leaf(*token, *place))?,
            Node::Group(inside, place) => {
                let inside = match dummy.and_then(|name| known.bounds.get(&name)) {
                    Some(bounds) => written_bounds(alloc, bounds, *place)?,
                    None => copied(alloc, inside)?,
                };
                out.push(Node::Group(inside, *place))?;
            }
        }
    }
    Ok(out)
}

/// The names that a CALL passes.
fn passed(alloc: Global, statement: &Statement) -> Result<Vec<Option<Name>>, LowerError> {
    let mut names = Vec::new(alloc);
    if let Some(inside) = statement.body.get(1).and_then(|node| node.inside()) {
        for piece in &pieces_of(alloc, inside)? {
            names.push(piece.first().and_then(|first| first.name()))?;
        }
    }
    Ok(names)
}

/// The program whose units are copied.
#[derive(Drop)]
struct Copier {
    originals: Vec<Original>,
    /// The units' numbers by their names.
    numbers: IndexMap<Name, usize>,
    copies: Vec<CalledCopy>,
    /// The copies that are written, each with its unit's number.
    written: Vec<(usize, Unit)>,
}

impl Copier {
    /// Adds a unit.
    fn add(&mut self, original: Original) -> Result<(), LowerError> {
        if let Some(name) = original.name() {
            self.numbers.insert(name, self.originals.len())?;
        }
        self.originals.push(original)?;
        Ok(())
    }

    /// The name of one more copy of a unit. The first copy keeps the unit's name.
    fn new_name(
        &self,
        program: &mut Program,
        unit: usize,
        callee: Name,
        place: Place,
    ) -> Result<Name, LowerError> {
        if self.copies.iter().all(|copy| copy.unit != unit) {
            return Ok(callee);
        }
        if let Some(original) = self.originals.get(unit) {
            if original.keeps_values {
                return Err(place.refused(Reason::KeptValues));
            }
            let more = original.unit.statements.len();
            program.growth.add(Rule::Bounds, more, place)?;
        }
        fresh_name(
            program.alloc,
            &mut program.names,
            &mut program.next_name,
            place,
        )
    }

    /// The name of the copy of a unit with these bounds.
    fn named(
        &mut self,
        program: &mut Program,
        unit: usize,
        callee: Name,
        shapes: Shapes,
        place: Place,
    ) -> Result<Name, LowerError> {
        for copy in &self.copies {
            if copy.unit == unit && copy.shapes == shapes {
                return Ok(copy.name.unwrap_or(callee));
            }
        }
        let name = self.new_name(program, unit, callee, place)?;
        self.copies.push(CalledCopy {
            unit,
            shapes,
            name: Some(name),
        })?;
        Ok(name)
    }

    /// Lets a CALL call the copy with the bounds that it gives.
    fn call(
        &mut self,
        program: &mut Program,
        known: &Known,
        statement: &mut Statement,
    ) -> Result<(), LowerError> {
        let Some(callee) = statement.first_name() else {
            return Ok(());
        };
        let Some(unit) = self.numbers.get(&callee).copied() else {
            return Ok(());
        };
        let shapes = match self.originals.get(unit) {
            Some(original) => original.shapes(program, known, statement)?,
            None => return Ok(()),
        };
        let name = self.named(program, unit, callee, shapes, statement.place)?;
        rename(statement, name);
        Ok(())
    }

    /// Lets each CALL among these call a copy.
    fn calls(
        &mut self,
        program: &mut Program,
        known: &Known,
        statements: &mut Vec<Statement>,
    ) -> Result<(), LowerError> {
        for statement in statements.iter_mut() {
            if matches!(statement.head, Head::Call) {
                self.call(program, known, statement)?;
            }
        }
        Ok(())
    }

    /// The copy with this number, where there is one: its unit's number, the bounds of its arrays, and its statements, whose calls are still
    /// those of the unit.
    fn begun(
        &self,
        alloc: Global,
        number: usize,
    ) -> Result<Option<(usize, Known, Vec<Statement>)>, LowerError> {
        let Some(copy) = self.copies.get(number) else {
            return Ok(None);
        };
        let Some(original) = self.originals.get(copy.unit) else {
            return Ok(None);
        };
        let known = original.known(alloc, &copy.shapes)?;
        let statements = original.copied(alloc, copy.name, &known)?;
        Ok(Some((copy.unit, known, statements)))
    }

    /// Writes the copy with this number, where there is one.
    fn write(&mut self, program: &mut Program, number: usize) -> Result<bool, LowerError> {
        let Some((unit, known, mut statements)) = self.begun(program.alloc, number)? else {
            return Ok(false);
        };
        self.calls(program, &known, &mut statements)?;
        self.written.push((unit, Unit { statements }))?;
        Ok(true)
    }

    /// Writes the units that no call reaches, but for those whose bounds are open.
    fn write_others(&mut self, alloc: Global) -> Result<(), LowerError> {
        for (number, original) in self.originals.iter().enumerate() {
            let is_copied = self.copies.iter().any(|copy| copy.unit == number);
            if !is_copied && !original.is_open(alloc) {
                let statements = original.as_it_is(alloc)?;
                self.written.push((number, Unit { statements }))?;
            }
        }
        Ok(())
    }
}

/// A program of which no copy is written. The main program is called.
fn copier_of(alloc: Global, names: &Names, units: Vec<Unit>) -> Result<Copier, LowerError> {
    let mut copier = Copier {
        originals: Vec::new(alloc),
        numbers: IndexMap::new(alloc),
        copies: Vec::new(alloc),
        written: Vec::new(alloc),
    };
    for unit in units {
        copier.add(Original::of(alloc, names, unit)?)?;
    }
    copier.copies.push(CalledCopy {
        unit: 0,
        shapes: Vec::new(alloc),
        name: None,
    })?;
    Ok(copier)
}

/// The units that are written, in the order of the text.
fn in_text_order(copier: Copier, alloc: Global) -> Result<Vec<Unit>, LowerError> {
    let Copier { mut written, .. } = copier;
    written.sort_by_key(|copy| copy.0)?;
    let mut units = Vec::new(alloc);
    for (_, unit) in written {
        units.push(unit)?;
    }
    Ok(units)
}

/// The same program, where each array dummy has the bounds of the arrays that are passed. Of units and copies of units that calls reach the
/// first 4,000 are written: a program has no more, since each has a statement.
pub fn with_bounds(program: &mut Program, units: Vec<Unit>) -> Result<Vec<Unit>, LowerError> {
    let alloc = program.alloc;
    let mut copier = copier_of(alloc, &program.names, units)?;
    for number in 0..MOST_STATEMENTS {
        if !copier.write(program, number)? {
            break;
        }
    }
    copier.write_others(alloc)?;
    in_text_order(copier, alloc)
}
