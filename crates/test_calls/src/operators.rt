//! Worked values of operators, and of what can trap.
use op_table::{Op, apply, arity, do_count, may_trap};
use std::alloc::{AllocError, Global};
use std::process::Abort;
use std::test::Fail;

const OPERATORS: [Op; 34] = [
    Op::Add,
    Op::Sub,
    Op::Mul,
    Op::Div,
    Op::Pow,
    Op::Neg,
    Op::Lt,
    Op::Le,
    Op::Eq,
    Op::Ne,
    Op::Ge,
    Op::Gt,
    Op::Not,
    Op::And,
    Op::Or,
    Op::Eqv,
    Op::Neqv,
    Op::Mod,
    Op::Abs,
    Op::Sign,
    Op::Max,
    Op::Min,
    Op::Truth,
    Op::Bound,
    Op::Place,
    Op::Three,
    Op::Pick,
    Op::Step,
    Op::AddChecked,
    Op::SubChecked,
    Op::MulChecked,
    Op::NegChecked,
    Op::AbsChecked,
    Op::PowChecked,
];

/// Operators, their operands, and the value or the trap; and operators, what is known of their operands, and whether they may trap. One
/// on a line.
const CASES: &str = "Add 2 3 = 5
Add 2147483647 1 = -2147483648
Sub 2 3 = -1
Sub -2147483648 1 = 2147483647
Mul -4 5 = -20
Mul 46341 46341 = -2147479015
Div -7 2 = -3
Div 7 -2 = -3
Div -2147483648 -1 = -2147483648
Div 5 0 = Divide
Pow -3 3 = -27
Pow 0 0 = 1
Pow 2 31 = -2147483648
Pow 2 32 = 0
Pow 2 2147483647 = 0
Pow 3 2147483647 = -1431655765
Pow -1 -3 = -1
Pow -1 -2147483648 = 1
Pow 1 -9 = 1
Pow 7 -2 = 0
Pow 0 -1 = Divide
Neg 5 = -5
Neg -2147483648 = -2147483648
Lt -1 0 = 1
Lt 0 0 = 0
Le 0 0 = 1
Le 1 0 = 0
Eq 4 4 = 1
Eq 4 -4 = 0
Ne 4 -4 = 1
Ne 4 4 = 0
Ge 3 3 = 1
Ge 2 3 = 0
Gt 2147483647 -2147483648 = 1
Gt 3 3 = 0
Not 0 = 1
Not -5 = 0
And 2 4 = 1
And 0 4 = 0
Or 0 4 = 1
Or 0 0 = 0
Eqv 2 4 = 1
Eqv 0 4 = 0
Neqv 0 4 = 1
Neqv 2 4 = 0
Mod -7 3 = -1
Mod 7 -3 = 1
Mod -2147483648 -1 = 0
Mod 1 0 = Divide
Abs -5 = 5
Abs -2147483648 = -2147483648
Sign -5 0 = 5
Sign 5 -1 = -5
Sign -2147483648 -1 = -2147483648
Max 3 -4 = 3
Min 3 -4 = -4
Truth -7 = 1
Truth 0 = 0
Bound 5 2 9 = 3
Bound 2147483647 -2147483648 2147483647 = -1
Bound 1 2 9 = Subscript
Bound 10 2 9 = Subscript
Place 100 -3 7 = 79
Three -8 = 0
Three 0 = 1
Three 8 = 2
Pick 1 3 = 0
Pick 3 3 = 2
Pick 4 3 = 3
Pick 0 3 = 3
Step -2 = -2
Step 0 = Step
AddChecked 2147483647 -1 = 2147483646
AddChecked 2147483647 1 = Overflow
SubChecked -1 2147483647 = -2147483648
SubChecked 0 -2147483648 = Overflow
MulChecked 46340 46340 = 2147395600
MulChecked 46341 46341 = Overflow
NegChecked 2147483647 = -2147483647
NegChecked -2147483648 = Overflow
AbsChecked -5 = 5
AbsChecked -2147483648 = Overflow
PowChecked -2 31 = -2147483648
PowChecked 2 31 = Overflow
PowChecked 3 2147483647 = Overflow
PowChecked -1 2147483647 = -1
PowChecked 0 0 = 1
PowChecked -1 -3 = -1
PowChecked 0 -1 = Divide
Add ? ? = false
Place ? 1 ? = false
Div ? -1 = false
Div 0 3 = false
Div 1 ? = true
Mod ? 0 = true
Pow 2 ? = false
Pow ? -1 = true
Pow ? 0 = false
Bound ? 1 9 = true
Bound ? -2147483648 2147483647 = false
Bound 2147483647 ? 2147483647 = false
Bound 5 ? 9 = true
Bound 5 1 9 = false
Bound -2147483648 -2147483648 ? = false
Step ? = true
Step -1 = false
AddChecked ? 0 = false
AddChecked 1 ? = true
SubChecked ? 0 = false
SubChecked -1 ? = false
SubChecked 0 ? = true
MulChecked 1 ? = false
MulChecked ? -1 = true
NegChecked ? = true
AbsChecked -2147483648 = true
PowChecked -1 ? = false
PowChecked 0 ? = true
PowChecked ? 1 = false
PowChecked ? 2 = true";

fn operator(alloc: Global, name: &str) -> Result<Op, Fail> {
    for op in OPERATORS {
        if format!(in alloc; "{op:?}")?.as_str() == name {
            return Ok(op);
        }
    }
    Err(name.into())
}

/// What is known of some operands: a number, or nothing where there is none.
fn operands(alloc: Global, words: &str) -> Result<Vec<Option<i32>>, AllocError> {
    let mut known = Vec::new(alloc);
    for word in words.split_whitespace() {
        known.push(word.parse().ok())?;
    }
    Ok(known)
}

/// The value of an operator, or its trap.
fn value(alloc: Global, op: Op, known: &[Option<i32>]) -> Result<String, Fail> {
    let mut args = Vec::new(alloc);
    for z in known {
        args.push(z.unwrap_or(0))?;
    }
    if args.len() != arity(op) as usize {
        return Err(Fail::from("other operands"));
    }
    match apply(op, &args) {
        Ok(z) => Ok(format!(in alloc; "{z}")?),
        Err(trap) => Ok(format!(in alloc; "{trap:?}")?),
    }
}

/// Whether an operator may trap.
fn risk(alloc: Global, op: Op, known: &[Option<i32>]) -> Result<String, Fail> {
    if known.len() != arity(op) as usize {
        return Err(Fail::from("other operands"));
    }
    Ok(format!(in alloc; "{}", may_trap(op, known))?)
}

fn check(rt: &impl Abort, alloc: Global, case: &str) -> Result<(), Fail> {
    let (applied, want) = case.split_once(" = ").ok_or("no answer")?;
    let (name, words) = applied.split_once(' ').ok_or("no operands")?;
    let op = operator(alloc, name)?;
    let known = operands(alloc, words)?;
    let found = if want == "true" || want == "false" {
        risk(alloc, op, &known)?
    } else {
        value(alloc, op, &known)?
    };
    assert!(rt; found.as_str() == want, "of {applied}");
    Ok(())
}

#[test]
fn operators_give_their_values(rt: HostRuntime) -> Result<(), Fail> {
    for case in CASES.lines() {
        check(&rt, rt.alloc(), case)?;
    }
    Ok(())
}

#[test]
fn trips(rt: HostRuntime) {
    for (first, last, step, count) in [
        (1, i32::MAX, 1, 2147483647),
        (i32::MIN, i32::MAX, 1, 4294967296),
        (i32::MAX, i32::MIN, i32::MIN, 2),
        (5, 1, -2, 3),
        (5, 1, 1, 0),
    ] {
        assert!(rt; do_count(first, last, step) == count);
    }
}
