//! A reader of expressions by descent over the levels of the grammar (ANSI X3.9-1978, section 6). It never goes back, so
//! its time is linear in the text, and its calls are nested only as deep as brackets and chains of `**` are.

ghost use Rattle.std.specs.Prelude.{◌≡◌, ◌||◌, ◌<◌, ◌+◌, length, drop, take_while, false, true, MatchBool, MatchOption};
ghost use Rattle.f77_tree.specs.Name.{is_figure, is_name};
ghost use Rattle.f77_tree.specs.Grammar.{Written};
ghost use Rattle.f77_expr.specs.Reader.{is_symbolic, closed, and_then_read, primary_at, expression_at, arguments_at, truth_at as spec_truth_at};
ghost use Rattle.f77_expr.specs.Answers.{passed, constant_of, kept_number, too_great, starts_name, IsRead, AreRead, IsBegun, Answers};
ghost use Rattle.f77_expr.specs.Parsing.{IsPieceRead};

use crate::characters::{is_digit, is_letter};
use crate::constants::{constant, split_digits, split_symbolic};
use crate::operators::{
    levels_of, operand_level, operator_after, prefix_at, prefix_level, truth_at,
};
use crate::trees::{prefixed, two};
use crate::{ReadEnd, ReadExpr};
use df_sequence::Sequence;
use f77_tree::{Name, RawExpr, RawList};
use std::alloc::Global;

// The level of a primary: no operator stands outside its brackets.
const PRIMARY_LEVEL: u8 = 8;

/// An expression, with its level in the grammar.
#[derive(Drop)]
pub(crate) struct Operand {
    expr: RawExpr,
    level: u8,
}

/// What is left of a piece that is being read.
#[derive(Drop)]
pub(crate) struct Reader<'a> {
    rest: &'a [u8],
    /// Whether a number that was read is above 2147483647.
    has_great: bool,
}

impl<'a> Reader<'a> {
    /// Passes this character, if it is the next one.
    fn passes(&mut self, c: u8) -> bool
        ensures rest { MatchBool result (passed c self.old.rest.now ≡ Some self.new.rest.now) ((passed c self.old.rest.now ≡ None) × (self.new.rest.now ≡ self.old.rest.now)) }
        ensures same { self.new.has_great ≡ self.old.has_great }
    {
        match self.rest.first() {
            Some(first) if *first == c => {
                self.rest = &self.rest[1..];
                true
            }
            _ => false,
        }
    }

    /// A number. One that is too great is kept as 0.
    fn number(&mut self) -> RawExpr
        ensures kept { result ≡ kept_number (constant_of (take_while is_figure self.old.rest.now)) }
        ensures rest { self.new.rest.now ≡ drop (length (take_while is_figure self.old.rest.now)) self.old.rest.now }
        ensures great { self.new.has_great ≡ (self.old.has_great || too_great (take_while is_figure self.old.rest.now)) }
    {
        let (digits, rest) = split_digits(self.rest);
        self.rest = rest;
        match constant(digits) {
            Some(z) => RawExpr::Int(z),
            None => {
                self.has_great = true;
                RawExpr::Int(0)
            }
        }
    }

    /// All letters and digits that come first, as a name.
    fn name(&mut self) -> Option<Name>
        ensures name { MatchOption result (is_name (take_while is_symbolic self.old.rest.now) ≡ false) (λ name. (is_name (take_while is_symbolic self.old.rest.now) ≡ true) × (name ≡ take_while is_symbolic self.old.rest.now)) }
        ensures rest { self.new.rest.now ≡ drop (length (take_while is_symbolic self.old.rest.now)) self.old.rest.now }
        ensures same { self.new.has_great ≡ self.old.has_great }
    {
        let (name, rest) = split_symbolic(self.rest);
        self.rest = rest;
        Name::new(name)
    }

    /// A logical constant.
    fn truth(&mut self) -> Result<RawExpr, ReadEnd>
        ensures { Answers (λ e. IsRead self.old.rest.now self.old.has_great (spec_truth_at self.old.rest.now) e self.new.rest.now self.new.has_great) (spec_truth_at self.old.rest.now ≡ None) result }
    {
        match truth_at(self.rest) {
            Some((value, rest)) => {
                self.rest = rest;
                Ok(RawExpr::Truth(value))
            }
            None => Err(ReadEnd::NoForm),
        }
    }

    /// An expression of at least this level, as long as it can be.
    #[cycle(descent)]
    fn expression(&mut self, alloc: Global, least: u8) -> Result<RawExpr, ReadEnd>
        requires room { length self.old.rest.now < 4294967296 }
        ensures { Answers (λ e. IsRead self.old.rest.now self.old.has_great (expression_at least self.old.rest.now) e self.new.rest.now self.new.has_great) (expression_at least self.old.rest.now ≡ None) result }
    {
        let mut left = self.operand(alloc, least)?;
        while let Some((op, rest)) = operator_after(self.rest, least, left.level) {
            self.rest = rest;
            let levels = levels_of(op);
            let right = self.expression(alloc, levels.right)?;
            left = Operand {
                expr: two(alloc, op, left.expr, right)?,
                level: levels.own,
            };
        }
        Ok(left.expr)
    }

    /// A prefix with its operand, where an expression of this level may begin with one, or a primary.
    #[cycle(descent)]
    fn operand(&mut self, alloc: Global, least: u8) -> Result<Operand, ReadEnd>
        requires room { length self.old.rest.now < 4294967296 }
        ensures { Answers (λ operand. IsBegun least self.old.rest.now self.old.has_great operand.expr operand.level self.new.rest.now self.new.has_great) (expression_at least self.old.rest.now ≡ None) result }
    {
        match prefix_at(self.rest, least) {
            Some((prefix, rest)) => {
                self.rest = rest;
                let operand = self.expression(alloc, operand_level(prefix))?;
                Ok(Operand {
                    expr: prefixed(alloc, prefix, operand)?,
                    level: prefix_level(prefix),
                })
            }
            None => Ok(Operand {
                expr: self.primary(alloc)?,
                level: PRIMARY_LEVEL,
            }),
        }
    }

    /// A constant, a name, a name with arguments, or an expression between brackets.
    #[cycle(descent)]
    fn primary(&mut self, alloc: Global) -> Result<RawExpr, ReadEnd>
        requires room { length self.old.rest.now < 4294967296 }
        ensures { Answers (λ e. IsRead self.old.rest.now self.old.has_great (primary_at self.old.rest.now) e self.new.rest.now self.new.has_great) (primary_at self.old.rest.now ≡ None) result }
    {
        let Some(first) = self.rest.first() else {
            return Err(ReadEnd::NoForm);
        };
        if is_digit(*first) {
            Ok(self.number())
        } else if is_letter(*first) {
            self.named(alloc)
        } else if self.passes(b'(') {
            self.bracketed(alloc)
        } else {
            self.truth()
        }
    }

    /// A name, with its arguments where a bracket follows.
    #[cycle(descent)]
    fn named(&mut self, alloc: Global) -> Result<RawExpr, ReadEnd>
        requires letter { starts_name self.old.rest.now ≡ true }
        requires room { length self.old.rest.now < 4294967296 }
        ensures { Answers (λ e. IsRead self.old.rest.now self.old.has_great (primary_at self.old.rest.now) e self.new.rest.now self.new.has_great) (primary_at self.old.rest.now ≡ None) result }
    {
        let Some(name) = self.name() else {
            return Err(ReadEnd::NoForm);
        };
        if self.passes(b'(') {
            Ok(RawExpr::Call(name, self.arguments(alloc)?))
        } else {
            Ok(RawExpr::Named(name))
        }
    }

    /// An expression, with the bracket that closes it.
    #[cycle(descent)]
    fn bracketed(&mut self, alloc: Global) -> Result<RawExpr, ReadEnd>
        requires room { length self.old.rest.now < 4294967296 }
        ensures { let read = and_then_read (λ w rest. closed (Written.bracketed w) rest) (expression_at 0 self.old.rest.now) in Answers (λ e. IsRead self.old.rest.now self.old.has_great read e self.new.rest.now self.new.has_great) (read ≡ None) result }
    {
        let expr = self.expression(alloc, 0)?;
        if self.passes(b')') {
            Ok(expr)
        } else {
            Err(ReadEnd::NoForm)
        }
    }

    /// Arguments, with the bracket that closes them.
    #[cycle(descent)]
    fn arguments(&mut self, alloc: Global) -> Result<RawList, ReadEnd>
        requires room { length self.old.rest.now < 4294967296 }
        ensures { Answers (λ es. AreRead self.old.rest.now self.old.has_great (arguments_at self.old.rest.now) es self.new.rest.now self.new.has_great) (arguments_at self.old.rest.now ≡ None) result }
    {
        let mut list = Sequence::with_capacity(alloc, 2)?;
        list.push(self.expression(alloc, 0)?)?;
        while self.passes(b',') {
            list.push(self.expression(alloc, 0)?)?;
        }
        if self.passes(b')') {
            Ok(list)
        } else {
            Err(ReadEnd::NoForm)
        }
    }
}

/// The expression that a whole piece is. The piece begins at the place `from`.
pub(crate) fn read_piece(alloc: Global, piece: &[u8], from: u32) -> Result<ReadExpr, ReadEnd>
    requires { from + length piece.now < 4294967296 }
    ensures { IsPieceRead piece.now from result }
{
    let mut reader = Reader {
        rest: piece,
        has_great: false,
    };
    let expr = reader.expression(alloc, 0)?;
    if !reader.rest.is_empty() {
        return Err(ReadEnd::NoForm);
    }
    Ok(ReadExpr {
        expr,
        next: from + piece.len() as u32,
        has_great_constant: reader.has_great,
    })
}
