//! Expressions, of which the calls of functions are made before.

use crate::caller::Caller;
use fortran_tree::{
    Head, Kind, LowerError, Name, Node, Place, Reason, Rule, Statement, Token, leaf,
};
use function_rules::{StatementFunction, is_known_intrinsic};
use unit_tables::{name_alone, pieces_of};

/// The name with which nodes end, and its place.
fn last_name(nodes: &[Node]) -> Option<(Name, Place)> {
    let last = nodes.last()?;
    Some((last.name()?, last.place()))
}

/// Whether a logical constant or an operator of logical expressions stands outside of brackets.
fn has_logical(nodes: &[Node]) -> bool {
    nodes.iter().any(|node| match node {
        Node::Leaf(Token::Truth(_), _) => true,
        Node::Leaf(Token::Sign(sign), _) => sign.is_logical(),
        _ => false,
    })
}

impl Caller {
    /// The kind of a name.
    pub(crate) fn kind(&self, name: Name) -> Option<Kind> {
        self.symbols.kind(&self.program.names, name)
    }

    /// A new variable of a kind, for a rule by which one statement declares it and another gives it a value.
    pub(crate) fn variable(
        &mut self,
        kind: Option<Kind>,
        rule: Rule,
        place: Place,
    ) -> Result<Name, LowerError> {
        let Some(kind) = kind else {
            return Err(place.refused(Reason::RealName));
        };
        self.program.growth.add(rule, 2, place)?;
        let name = self.program.fresh(place)?;
        self.symbols.give(name, kind)?;
        let body = name_alone(self.program.alloc, name, place)?;
        self.written
            .push(Statement::plain(Head::Declare(kind), body, place))?;
        Ok(name)
    }

    /// The kind of an expression, whose functions are all intrinsic ones.
    pub(crate) fn kind_of(&self, nodes: &[Node]) -> Option<Kind> {
        if has_logical(nodes) {
            return Some(Kind::Logical);
        }
        match (nodes.first(), nodes.get(1), nodes.len()) {
            (Some(Node::Leaf(Token::Name(name), _)), None, _) => self.kind(*name),
            (Some(Node::Leaf(Token::Name(name), _)), Some(Node::Group(_, _)), 2)
                if self.symbols.is_array(*name) => { self.kind(*name) }
            (Some(Node::Group(inside, _)), None, _) => self.kind_of(inside.as_slice()),
            _ => Some(Kind::Integer),
        }
    }

    /// An expression of which the calls are made before.
    pub(crate) fn expression(&mut self, nodes: &[Node]) -> Result<Vec<Node>, LowerError> {
        let mut out: Vec<Node> = Vec::new(self.program.alloc);
        for node in nodes {
            match node {
                Node::Leaf(token, place) => out.push(leaf(*token, *place))?,
                Node::Group(inside, place) => {
                    let inside = self.expression(inside.as_slice())?;
                    self.group(&mut out, inside, *place)?;
                }
            }
        }
        Ok(out)
    }

    /// Appends brackets, or the value of the function whose name stands before them.
    fn group(
        &mut self,
        out: &mut Vec<Node>,
        inside: Vec<Node>,
        place: Place,
    ) -> Result<(), LowerError> {
        match last_name(out) {
            Some((name, _)) if self.is_function(name) => {
                let value = self.value(name, &inside, place)?;
                out.pop();
                out.push(value)?;
            }
            Some((name, place)) if self.is_unknown(name) => {
                return Err(place.refused(Reason::NoFunction));
            }
            _ => out.push(Node::Group(inside, place))?,
        }
        Ok(())
    }

    /// Whether a name before brackets is neither an array nor an intrinsic function.
    fn is_unknown(&self, name: Name) -> bool {
        !self.symbols.is_array(name) && !is_known_intrinsic(self.program.names.spelling(name))
    }

    /// Whether a name before brackets is that of a function.
    fn is_function(&self, name: Name) -> bool {
        let is_unit = !self.dummies.contains(&name) && self.program.unit_kind(name).is_some();
        let is_function = is_unit || self.functions.get(&name).is_some();
        is_function && !self.symbols.is_array(name)
    }

    /// The value of a function.
    fn value(&mut self, name: Name, inside: &[Node], place: Place) -> Result<Node, LowerError> {
        let arguments = pieces_of(self.program.alloc, inside)?;
        match self.functions.get(&name) {
            Some(function) => self.written_out(function, arguments, place),
            None => self.unit_value(name, arguments, place),
        }
    }

    /// The value of a unit, which is called before.
    fn unit_value(
        &mut self,
        name: Name,
        arguments: Vec<Vec<Node>>,
        place: Place,
    ) -> Result<Node, LowerError> {
        let kind = self.program.unit_kind(name);
        if kind != self.kind(name) {
            return Err(place.refused(Reason::FunctionKind));
        }
        let value = self.variable(kind, Rule::Functions, place)?;
        let mut actuals = self.actuals(name, arguments, place)?;
        actuals.push(name_alone(self.program.alloc, value, place)?)?;
        let call = self.program.call(name, actuals, place)?;
        self.before.push(call)?;
        self.before.append(&mut self.after)?;
        Ok(leaf(Token::Name(value), place))
    }

    /// Whether an argument is of another kind than its dummy.
    fn has_other_kinds(&self, dummies: &[Name], arguments: &[Vec<Node>]) -> bool {
        dummies.iter().zip(arguments).any(|(dummy, argument)| self.kind_of(argument)
            != self.kind(*dummy))
    }

    /// The expression of a statement function, with arguments of its dummies' kinds.
    fn written_out(
        &self,
        function: &StatementFunction,
        arguments: Vec<Vec<Node>>,
        place: Place,
    ) -> Result<Node, LowerError> {
        if self.has_other_kinds(&function.dummies, &arguments) {
            return Err(place.refused(Reason::FunctionKind));
        }
        function.applied(self.program.alloc, arguments, place)
    }
}
