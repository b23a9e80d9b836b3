//! The values of constant expressions (ANSI X3.9-1978, 6.1).

use fortran_tree::{LowerError, Node, Sign, Token};
use std::alloc::Global;

/// A sum of which some operands are read.
#[derive(Drop)]
struct Sum {
    /// The terms that are whole.
    total: i64,
    /// 1 or -1, by the sign before the term that is being read.
    sign: i64,
    /// The factors of that term that are whole.
    term: i64,
    /// Whether the factor that is being read divides the ones before it.
    divides: bool,
    /// The operands of `**` in that factor so far.
    powers: Vec<i64>,
    /// Whether an operand has to come next.
    wants_operand: bool,
}

/// The value of operands with `**` between them, which are grouped from the right. No exponent is negative.
fn chain(operands: &[i64]) -> Option<i64> {
    let mut value = 1i64;
    let mut is_first = true;
    for operand in operands.iter().rev() {
        value = if is_first {
            *operand
        } else {
            operand.checked_pow(u32::try_from(value).ok()?)?
        };
        is_first = false;
    }
    Some(value)
}

impl Sum {
    /// The next operand.
    fn operand(&mut self, value: i64) -> Result<Option<()>, LowerError> {
        if !self.wants_operand {
            return Ok(None);
        }
        self.powers.push(value)?;
        self.wants_operand = false;
        Ok(Some(()))
    }

    /// The factor is whole.
    fn end_factor(&mut self, divides: bool) -> Option<()> {
        let factor = chain(self.powers.as_slice())?;
        self.powers.clear();
        self.term = if self.divides {
            self.term.checked_div(factor)?
        } else {
            self.term.checked_mul(factor)?
        };
        self.divides = divides;
        self.wants_operand = true;
        Some(())
    }

    /// The term is whole.
    fn end_term(&mut self, sign: i64) -> Option<()> {
        self.end_factor(false)?;
        self.total = self.total.checked_add(self.sign.checked_mul(self.term)?)?;
        self.sign = sign;
        self.term = 1;
        Some(())
    }

    /// The next sign.
    fn operator(&mut self, sign: Sign, is_first: bool) -> Option<()> {
        if self.wants_operand {
            if !is_first {
                return None;
            }
            match sign {
                Sign::Plus => self.sign = 1,
                Sign::Minus => self.sign = -1,
                _ => return None,
            }
            return Some(());
        }
        match sign {
            Sign::Plus => self.end_term(1),
            Sign::Minus => self.end_term(-1),
            Sign::Times => self.end_factor(false),
            Sign::Divide => self.end_factor(true),
            Sign::Power => {
                self.wants_operand = true;
                Some(())
            }
            _ => None,
        }
    }
}

/// The value of a constant expression of numbers, or none where it isn't one, or passes 64 bits.
pub(crate) fn constant_value(alloc: Global, nodes: &[Node]) -> Result<Option<i64>, LowerError> {
    let mut sum = Sum {
        total: 0,
        sign: 1,
        term: 1,
        divides: false,
        powers: Vec::new(alloc),
        wants_operand: true,
    };
    let mut is_first = true;
    for node in nodes {
        let taken = match node {
            Node::Leaf(Token::Number(number), _) => sum.operand(i64::from(*number))?,
            Node::Leaf(Token::Sign(sign), _) => sum.operator(*sign, is_first),
            Node::Group(inside, _) => match constant_value(alloc, inside.as_slice())? {
                Some(value) => sum.operand(value)?,
                None => None,
            },
            _ => None,
        };
        if taken.is_none() {
            return Ok(None);
        }
        is_first = false;
    }
    if sum.wants_operand || sum.end_term(1).is_none() {
        return Ok(None);
    }
    Ok(Some(sum.total))
}
