//! A program whose functions become subroutines.

ghost use Rattle.std.specs.Prelude.{◌≡◌, IfOk};
ghost use Rattle.fortran_tree.specs.declared.heads.Head.TheVariants.{Call};

use crate::caller::Caller;
use fortran_tree::{Head, Kind, LowerError, Name, Names, Node, Place, Rule, Statement};
use function_rules::{Signatures, as_subroutine, called_names, dummies_of, without_functions};
use indexmap::IndexMap;
use std::alloc::Global;
use unit_tables::{Growth, Symbols, Unit, fresh_name, joined, name_alone};

/// What all units share.
#[derive(Drop)]
pub struct Program {
    pub alloc: Global,
    pub names: Names,
    /// Names like Z00001 are used below this number.
    pub next_name: u32,
    pub signatures: Signatures,
    pub growth: Growth,
    /// The values of variables that stand for constants as arguments.
    pub constants: IndexMap<Name, i32>,
}

impl Program {
    /// A name that the text doesn't have.
    pub(crate) fn fresh(&mut self, place: Place) -> Result<Name, LowerError> {
        fresh_name(self.alloc, &mut self.names, &mut self.next_name, place)
    }

    /// The kind of the value of a unit; none of a subroutine, and of what is no unit.
    pub(crate) fn unit_kind(&self, name: Name) -> Option<Kind> {
        self.signatures.get(&name)?.kind
    }

    /// Whether the dummy of a unit with this number is an array.
    pub(crate) fn takes_array(&self, callee: Name, number: usize) -> bool {
        match self.signatures.get(&callee) {
            Some(signature) => signature.takes_array.get(number).copied().unwrap_or(false),
            None => false,
        }
    }

    /// Whether a unit has another number of dummies.
    pub(crate) fn has_other_count(&self, callee: Name, count: usize) -> bool {
        match self.signatures.get(&callee) {
            Some(signature) => signature.takes_array.len() != count,
            None => false,
        }
    }

    /// CALL
    pub(crate) fn call(
        &self,
        name: Name,
        actuals: Vec<Vec<Node>>,
        place: Place,
    ) -> Result<Statement, LowerError>
        ensures head { IfOk result (λ call. call.head ≡ Call) }
        ensures place { IfOk result (λ call. call.place ≡ place) }
    {
        let mut body = name_alone(self.alloc, name, place)?;
        if !actuals.is_empty() {
            body.push(Node::Group(joined(self.alloc, actuals, place)?, place))?;
        }
        Ok(Statement::plain(Head::Call, body, place))
    }

    /// The kind of the value of a unit that is a function.
    fn function_kind(&self, unit: &Unit) -> Option<Kind> {
        if matches!(unit.head(), Head::Function(_)) {
            self.unit_kind(unit.statements.first()?.first_name()?)
        } else {
            None
        }
    }

    /// A subroutine in place of a function. Other units stay as they are.
    fn as_called(&mut self, unit: Unit) -> Result<Unit, LowerError> {
        let Some(kind) = self.function_kind(&unit) else {
            return Ok(unit);
        };
        let place = unit.place();
        let value = self.fresh(place)?;
        self.growth.add(Rule::Functions, 1, place)?;
        as_subroutine(self.alloc, &self.names, unit, value, kind)
    }

    /// The statements of a unit without the types of the functions that it calls.
    fn declared(
        &self,
        symbols: &Symbols,
        statements: Vec<Statement>,
    ) -> Result<Vec<Statement>, LowerError> {
        let called = called_names(self.alloc, &statements)?;
        let mut declared = Vec::new(self.alloc);
        for statement in statements {
            let is_type = matches!(statement.head, Head::Declare(_));
            let signatures = &self.signatures;
            let statement = without_functions(self.alloc, statement, signatures, symbols, &called)?;
            if !is_type || !statement.body.is_empty() {
                declared.push(statement)?;
            }
        }
        Ok(declared)
    }

    /// The program, and the same unit, where each function is a subroutine and each argument a name.
    pub fn with_subroutines(self, unit: Unit) -> Result<(Program, Unit), LowerError> {
        let mut program = self;
        let unit = program.as_called(unit)?;
        let dummies = dummies_of(program.alloc, &unit)?;
        let Unit { statements } = unit;
        let symbols = Symbols::of(program.alloc, &program.names, &statements)?;
        let declared = program.declared(&symbols, statements)?;
        let caller = Caller::of(program, symbols, dummies, &declared)?;
        let (program, statements) = caller.with_calls(declared)?;
        Ok((program, Unit { statements }))
    }
}
