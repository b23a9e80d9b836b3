ghost use Rattle.std.specs.Prelude.{◌≡◌, List, MatchOption};
ghost use Rattle.f77_tree.specs.declared.programs.NameInfo.{NameInfo};
ghost use Rattle.f77_tree.specs.Grammar.{Arguments};
ghost use Rattle.f77_tree.specs.Kinds.{IsProper};
ghost use Rattle.f77_expr.specs.Appending.{listed_in, operator_of, is_operator, name_of};
ghost use Rattle.f77_expr.specs.Printing.{printed};

use f77_tree::{Expr, ExprList};
use op_table::Op;

// An intrinsic function of any number of arguments, which is an operator at two operands, once for each argument more.
#[derive(Clone, Copy)]
pub enum Extreme {
    // MAX
    Greatest,
    // MIN
    Least,
}

impl Extreme {
    // The name as it is printed.
    pub fn name(self) -> &'static [u8]
        ensures { result.now ≡ name_of self }
    {
        match self {
            Extreme::Greatest => b"MAX",
            Extreme::Least => b"MIN",
        }
    }

    // The operands of an expression that is this operator at two, and lists its arguments where such a list is printed.
    pub fn operands<'a>(self, e: &'a Expr) -> Option<&'a ExprList>
        ensures { MatchOption result ((names : List NameInfo) → IsProper names e.now → listed_in self (printed names e.now) ≡ Arguments.last (printed names e.now).alone) (λ args. e.now ≡ Expr.Apply (operator_of self) args.now) }
    {
        match e {
            Expr::Apply(op, args) => { if self.is(*op) { Some(args) } else { None } }
            _ => None,
        }
    }

    // Whether the operator is this one.
    fn is(self, op: Op) -> bool
        ensures { result ≡ is_operator self op }
    {
        match self {
            Extreme::Greatest => matches!(op, Op::Max),
            Extreme::Least => matches!(op, Op::Min),
        }
    }
}
