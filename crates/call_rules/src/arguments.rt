//! Arguments, each of which becomes a name.

ghost use Rattle.std.specs.Prelude.{◌≡◌, IfOk, vec_len};

use crate::caller::Caller;
use fortran_tree::{Kind, LowerError, Name, Node, Place, Reason, Rule, Token};
use unit_tables::{assignment, joined, name_alone, pieces_of, word};

/// What stands between the brackets of a name with brackets.
fn brackets_of(piece: &[Node]) -> Option<&[Node]> {
    if piece.len() == 2 {
        piece.get(1)?.inside()
    } else {
        None
    }
}

impl Caller {
    /// Names in place of the arguments of a call. What has to be done after it goes to `after`.
    pub(crate) fn actuals(
        &mut self,
        callee: Name,
        arguments: Vec<Vec<Node>>,
        place: Place,
    ) -> Result<Vec<Vec<Node>>, LowerError>
        ensures { IfOk result (λ actuals. vec_len actuals ≡ vec_len arguments) }
    {
        if self.program.has_other_count(callee, arguments.len()) {
            return Err(place.refused(Reason::ArgumentCount));
        }
        let mut actuals = Vec::new(self.program.alloc);
        for argument in arguments {
            let takes_array = self.program.takes_array(callee, actuals.len());
            actuals.push(self.actual(argument, takes_array, place)?)?;
        }
        Ok(actuals)
    }

    /// Whether a name is that of a unit, or of a statement function.
    fn is_procedure(&self, name: Name) -> bool {
        let is_local = self.symbols.is_array(name) || self.dummies.contains(&name);
        let is_unit = !is_local && self.program.signatures.get(&name).is_some();
        is_unit || self.functions.get(&name).is_some()
    }

    /// Refuses an argument that is no value, and one that is no whole array where one is wanted.
    fn refuse_argument(
        &self,
        argument: &[Node],
        takes_array: bool,
        place: Place,
    ) -> Result<(), LowerError> {
        let Some(first) = argument.first() else {
            return Err(place.refused(Reason::NotUnderstood));
        };
        let place = first.place();
        if matches!(first, Node::Leaf(Token::Text(_), _)) {
            return Err(place.refused(Reason::NotSupported("a text as an argument")));
        }
        match first.name() {
            Some(name) if argument.len() == 1 && self.is_procedure(name) => {
                Err(place.refused(Reason::NotSupported("a unit as an argument")))
            }
            Some(_) if argument.len() == 1 => Ok(()),
            _ if takes_array => Err(place.refused(Reason::ElementToArray)),
            _ => Ok(()),
        }
    }

    /// A name in place of an argument.
    fn actual(
        &mut self,
        argument: Vec<Node>,
        takes_array: bool,
        place: Place,
    ) -> Result<Vec<Node>, LowerError> {
        self.refuse_argument(&argument, takes_array, place)?;
        let name = argument.first().and_then(|first| first.name());
        if name.is_some() && argument.len() == 1 {
            return Ok(argument);
        }
        let place = argument.first().map_or(place, |first| first.place());
        match (name, brackets_of(&argument)) {
            (Some(array), Some(subscripts)) if self.symbols.is_array(array) => {
                self.element(array, subscripts, place)
            }
            _ => self.assigned(&argument, place),
        }
    }

    /// Assigns a value before the call.
    fn assign_before(
        &mut self,
        target: &[Node],
        value: &[Node],
        place: Place,
    ) -> Result<(), LowerError> {
        let assigned = assignment(self.program.alloc, target, value, place)?;
        self.before.push(assigned)?;
        Ok(())
    }

    /// A variable in place of an expression, which is assigned to it before the call.
    fn assigned(&mut self, value: &[Node], place: Place) -> Result<Vec<Node>, LowerError> {
        let kind = self.kind_of(value);
        let name = self.variable(kind, Rule::Arguments, place)?;
        if let Some(value) = word(self.program.alloc, value, place)? {
            self.program.constants.insert(name, value)?;
        }
        let variable = name_alone(self.program.alloc, name, place)?;
        self.assign_before(&variable, value, place)?;
        Ok(variable)
    }

    /// A subscript whose value is not another one when it is read again: a constant, or a variable that is assigned before the call.
    fn fixed(&mut self, subscript: Vec<Node>, place: Place) -> Result<Vec<Node>, LowerError> {
        if word(self.program.alloc, &subscript, place)?.is_some() {
            return Ok(subscript);
        }
        let index = self.variable(Some(Kind::Integer), Rule::Arguments, place)?;
        let index = name_alone(self.program.alloc, index, place)?;
        self.assign_before(&index, &subscript, place)?;
        Ok(index)
    }

    /// An array element whose subscripts are evaluated before the call.
    fn fixed_element(
        &mut self,
        array: Name,
        subscripts: &[Node],
        place: Place,
    ) -> Result<Vec<Node>, LowerError> {
        let mut fixed = Vec::new(self.program.alloc);
        for subscript in pieces_of(self.program.alloc, subscripts)? {
            fixed.push(self.fixed(subscript, place)?)?;
        }
        let fixed = joined(self.program.alloc, fixed, place)?;
        let mut element = name_alone(self.program.alloc, array, place)?;
        element.push(Node::Group(fixed, place))?;
        Ok(element)
    }

    /// A variable in place of an array element, which takes its value back after the call. Its subscripts are evaluated once.
    fn element(
        &mut self,
        array: Name,
        subscripts: &[Node],
        place: Place,
    ) -> Result<Vec<Node>, LowerError> {
        let element = self.fixed_element(array, subscripts, place)?;
        let name = self.variable(self.kind(array), Rule::Arguments, place)?;
        self.program.growth.add(Rule::Arguments, 1, place)?;
        let variable = name_alone(self.program.alloc, name, place)?;
        self.assign_before(&variable, &element, place)?;
        let taken_back = assignment(self.program.alloc, &element, &variable, place)?;
        self.after.push(taken_back)?;
        Ok(variable)
    }
}
