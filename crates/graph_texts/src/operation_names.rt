// How what operations do is written.

ghost use Rattle.std.specs.Prelude.{◌≡◌};
ghost use Rattle.graph_texts.specs.OperationNames.{op_name, operator_name};

use op_table::Op;
use operation_tables::OpName;

/// What an operation does, as it is written.
pub fn name_of(name: OpName) -> &'static str
    ensures { result.now ≡ op_name name }
{
    match name {
        OpName::Load => "LOAD",
        OpName::Apply(op) => operator(op),
        OpName::Store => "STORE",
        OpName::Write => "WRITE",
        OpName::Begin => "BEGIN",
        OpName::Advance => "ADVANCE",
        OpName::Decide => "DECIDE",
        OpName::Take => "TAKE",
    }
}

// An operator as it is written.
fn operator(op: Op) -> &'static str
    ensures { result.now ≡ operator_name op }
{
    match op {
        Op::Add => "ADD",
        Op::Sub => "SUB",
        Op::Mul => "MUL",
        Op::Div => "DIV",
        Op::Pow => "POW",
        Op::Neg => "NEG",
        Op::Lt => "LT",
        Op::Le => "LE",
        Op::Eq => "EQ",
        Op::Ne => "NE",
        Op::Ge => "GE",
        Op::Gt => "GT",
        Op::Not => "NOT",
        Op::And => "AND",
        Op::Or => "OR",
        Op::Eqv => "EQV",
        Op::Neqv => "NEQV",
        Op::Mod => "MOD",
        Op::Abs => "ABS",
        Op::Sign => "SIGN",
        Op::Max => "MAX",
        Op::Min => "MIN",
        Op::Truth => "TRUTH",
        Op::Bound => "BOUND",
        Op::Place => "PLACE",
        Op::Three => "THREE",
        Op::Pick => "PICK",
        Op::Step => "STEP",
        Op::AddChecked => "ADDC",
        Op::SubChecked => "SUBC",
        Op::MulChecked => "MULC",
        Op::NegChecked => "NEGC",
        Op::AbsChecked => "ABSC",
        Op::PowChecked => "POWC",
    }
}
