//! What is wrong with the kinds of a statement: of its names, its expressions and what it declares.

ghost use Rattle.std.specs.Prelude.{◌≡◌, ◌&&◌, None, IfErr, IfOk, IfSome};
ghost use Rattle.declared_names.specs.Described.{described};
ghost use Rattle.declared_names.specs.KeptDeclarations.{said_by};
ghost use Rattle.kind_causes.specs.Declarations.{IsDeclared};
ghost use Rattle.unit_statements.specs.Units.{unit_with as unit_with_in};

use crate::kind_cause::KindCause;
use declared_names::{Function, NameDeclarations};
use df_sequence::NoMemory;
use f77_tree::{Decl, Kind, Labelled, Member, Name, RawExpr, RawItem, RawList, Stmt};
use form_advice::Advice;
use op_table::Op;
use std::alloc::Global;
use unit_statements::{spelt, statement_at, unit_with};

const LOGICAL_OPERAND: Advice = Advice {
    wrong: "an operand of a sum, a product, a power or a relation is logical",
    instead: "Write an integer there; logical values are compared by .EQV. and .NEQV.",
};

const INTEGER_OPERAND: Advice = Advice {
    wrong: "an operand of .NOT., .AND., .OR., .EQV. or .NEQV. is an integer",
    instead: "Compare it: I.NE.0 in place of I.",
};

const LOGICAL_VALUE: Advice = Advice {
    wrong: "a logical value is assigned to an integer",
    instead: "Declare the name on the left LOGICAL, or assign by an IF.",
};

const INTEGER_VALUE: Advice = Advice {
    wrong: "an integer is assigned to a logical name",
    instead: "Compare it: L=I.NE.0 in place of L=I.",
};

const CONSTANT_TARGET: Advice = Advice {
    wrong: "what is left of the equals sign is no variable",
    instead: "Assign to a name, or to an element of an array.",
};

const CONDITION: Advice = Advice {
    wrong: "the condition of an IF is an integer",
    instead: "Compare it: IF (I.NE.0) in place of IF (I).",
};

const SELECTOR: Advice = Advice {
    wrong: "what a computed GO TO or an arithmetic IF branches on is logical",
    instead: "Write an integer there, or use a logical IF.",
};

const PARAMETER: Advice = Advice {
    wrong: "a first value, a last value or a step of a DO is logical",
    instead: "Write an integer there.",
};

const BESIDE_NONE: Advice = Advice {
    wrong: "IMPLICIT NONE stands beside another IMPLICIT",
    instead: "Leave one of them out.",
};

const LETTER_TWICE: Advice = Advice {
    wrong: "a letter stands in IMPLICIT twice",
    instead: "Give each letter one type; the letters of all IMPLICIT statements count.",
};

/// Why a name, a kind or a number of arguments in the statement at a line is wrong; the first cause in the order of the text.
///
/// # Errors
///
/// `NoMemory` where memory runs out.
pub fn cause_of_kind(
    alloc: Global,
    stmts: &[Labelled],
    line: u32,
) -> Result<Option<KindCause<'_>>, NoMemory>
    ensures { IfOk result (λ found. IfSome found (IsDeclared (described (unit_with_in line stmts.now)))) }
{
    let unit = unit_with(stmts, line);
    let Some(s) = statement_at(unit, line) else {
        return Ok(None);
    };
    let declared = NameDeclarations::of(alloc, unit)?;
    Ok(cause_by(&declared, unit, s))
}

// The same, of a statement of a unit, by what the unit declares.
fn cause_by<'a>(
    declared: &NameDeclarations,
    unit: &'a [Labelled],
    s: &'a Labelled,
) -> Option<KindCause<'a>>
    ensures { IfSome result (IsDeclared (said_by declared.now)) }
{
    if let Some(name) = real_name(declared, &s.stmt) {
        return Some(KindCause::RealName { name: spelt(name) });
    }
    match &s.stmt {
        Stmt::TypeOf(_, decls) => {
            let name = typed_twice(unit, s.line, decls.as_slice())?;
            Some(KindCause::TypedTwice { name: spelt(name) })
        }
        Stmt::Implicit(_) | Stmt::ImplicitNone => Some(KindCause::Rule(advice_on_implicit(unit))),
        stmt => cause_in(declared, stmt),
    }
}

// The first name of a type statement that has a type above, or before in the statement.
fn typed_twice<'a>(unit: &[Labelled], line: u32, decls: &'a [Decl]) -> Option<&'a Name> {
    for (k, decl) in decls.iter().enumerate() {
        if has_name(&decls[..k], &decl.name) || is_typed_above(unit, line, &decl.name) {
            return Some(&decl.name);
        }
    }
    None
}

// Whether a type statement above a line names what this name is.
fn is_typed_above(unit: &[Labelled], line: u32, name: &Name) -> bool {
    unit.iter().any(|s| {
        s.line < line
            && match &s.stmt {
                Stmt::TypeOf(_, decls) => has_name(decls.as_slice(), name),
                _ => false,
            }
    })
}

fn has_name(decls: &[Decl], name: &Name) -> bool {
    decls
        .iter()
        .any(|decl| decl.name.as_bytes() == name.as_bytes())
}

// What is told of IMPLICIT statements that don't go together.
fn advice_on_implicit(unit: &[Labelled]) -> Advice {
    if unit.iter().any(|s| matches!(s.stmt, Stmt::ImplicitNone)) {
        BESIDE_NONE
    } else {
        LETTER_TWICE
    }
}

// ---- names

// The first name of a statement that is neither integer nor logical.
fn real_name<'a>(declared: &NameDeclarations, stmt: &'a Stmt) -> Option<&'a Name>
    ensures { IfSome result (λ name. (said_by declared.now).kind name.now ≡ None) }
{
    match stmt {
        Stmt::Dimension(decls) => real_decl(declared, decls.as_slice()),
        Stmt::Common(parts) => parts
            .as_slice()
            .iter()
            .find_map(|part| real_decl(declared, part.decls.as_slice())),
        Stmt::Equivalence(groups) => groups
            .as_slice()
            .iter()
            .find_map(|group| real_member(declared, group.as_slice())),
        Stmt::Init(parts) => parts
            .as_slice()
            .iter()
            .find_map(|part| real_member(declared, part.items.as_slice())),
        Stmt::Assign(target, value) => {
            real_in(declared, target).or_else(|| real_in(declared, value))
        }
        Stmt::Print(items) => items
            .as_slice()
            .iter()
            .find_map(|item| real_item(declared, item)),
        Stmt::Take(targets) => real_in_row(declared, targets),
        Stmt::PickGoTo(_, value)
        | Stmt::SignIf(value, _, _, _)
        | Stmt::BlockIf(value)
        | Stmt::ElseIf(value) => real_in(declared, value),
        Stmt::ThenIf(condition, stmt) => match real_in(declared, condition) {
            Some(name) => Some(name),
            None => real_name(declared, stmt.get()),
        },
        Stmt::Do(_, variable, first, last, step) => {
            real_of(declared, variable)
                .or_else(|| real_in(declared, first))
                .or_else(|| real_in(declared, last))
                .or_else(|| real_step(declared, step))
        }
        _ => None,
    }
}

// The name, if it is neither integer nor logical.
fn real_of<'a>(declared: &NameDeclarations, name: &'a Name) -> Option<&'a Name>
    ensures { IfSome result (λ name. (said_by declared.now).kind name.now ≡ None) }
{
    if declared.kind(name).is_none() {
        Some(name)
    } else {
        None
    }
}

fn real_decl<'a>(declared: &NameDeclarations, decls: &'a [Decl]) -> Option<&'a Name>
    ensures { IfSome result (λ name. (said_by declared.now).kind name.now ≡ None) }
{
    decls.iter().find_map(|decl| real_of(declared, &decl.name))
}

fn real_member<'a>(declared: &NameDeclarations, members: &'a [Member]) -> Option<&'a Name>
    ensures { IfSome result (λ name. (said_by declared.now).kind name.now ≡ None) }
{
    members
        .iter()
        .find_map(|member| real_of(declared, &member.name))
}

fn real_item<'a>(declared: &NameDeclarations, item: &'a RawItem) -> Option<&'a Name>
    ensures { IfSome result (λ name. (said_by declared.now).kind name.now ≡ None) }
{
    match item {
        RawItem::Value(e) => real_in(declared, e),
        RawItem::Chars(_) => None,
    }
}

fn real_step<'a>(declared: &NameDeclarations, step: &'a Option<RawExpr>) -> Option<&'a Name>
    ensures { IfSome result (λ name. (said_by declared.now).kind name.now ≡ None) }
{
    match step {
        Some(e) => real_in(declared, e),
        None => None,
    }
}

// The first such name of an expression. A function of the language has none, unless it is an array's.
#[cycle(names)]
fn real_in<'a>(declared: &NameDeclarations, e: &'a RawExpr) -> Option<&'a Name>
    ensures { IfSome result (λ name. (said_by declared.now).kind name.now ≡ None) }
{
    match e {
        RawExpr::Int(_) | RawExpr::Truth(_) => None,
        RawExpr::Named(name) => real_of(declared, name),
        RawExpr::Call(name, args) => {
            let is_function = !declared.is_array(name)
                && Function::named(name.as_bytes()).is_some();
            if !is_function && declared.kind(name).is_none() {
                return Some(name);
            }
            real_in_row(declared, args)
        }
        RawExpr::Apply(_, args) => real_in_row(declared, args),
    }
}

#[cycle(names)]
fn real_in_row<'a>(declared: &NameDeclarations, args: &'a RawList) -> Option<&'a Name>
    ensures { IfSome result (λ name. (said_by declared.now).kind name.now ≡ None) }
{
    for arg in args.as_slice() {
        if let Some(name) = real_in(declared, arg) {
            return Some(name);
        }
    }
    None
}

// ---- kinds

// Why a statement's expressions haven't the kinds that their places ask for.
fn cause_in<'a>(declared: &NameDeclarations, stmt: &'a Stmt) -> Option<KindCause<'a>>
    ensures { IfSome result (IsDeclared (said_by declared.now)) }
{
    match stmt {
        Stmt::Assign(target, value) => cause_of_assignment(declared, target, value),
        Stmt::Print(items) => items
            .as_slice()
            .iter()
            .find_map(|item| cause_of_item(declared, item)),
        Stmt::Take(targets) => {
            targets
                .as_slice()
                .iter()
                .find_map(|target| cause_of_target(declared, target))
        }
        Stmt::PickGoTo(_, value) | Stmt::SignIf(value, _, _, _) => {
            unless_kind(declared, Kind::Integer, value, SELECTOR)
        }
        Stmt::ThenIf(condition, stmt) => {
            match unless_kind(declared, Kind::Logical, condition, CONDITION) {
                Some(cause) => Some(cause),
                None => cause_in(declared, stmt.get()),
            }
        }
        Stmt::BlockIf(condition) | Stmt::ElseIf(condition) => {
            unless_kind(declared, Kind::Logical, condition, CONDITION)
        }
        Stmt::Do(_, variable, first, last, step) => {
            cause_of_variable(declared, variable)
                .or_else(|| unless_kind(declared, Kind::Integer, first, PARAMETER))
                .or_else(|| unless_kind(declared, Kind::Integer, last, PARAMETER))
                .or_else(|| cause_of_step(declared, step))
        }
        _ => None,
    }
}

// Why an expression has no kind, or what is told where its kind isn't this one.
fn unless_kind<'a>(
    declared: &NameDeclarations,
    kind: Kind,
    e: &'a RawExpr,
    otherwise: Advice,
) -> Option<KindCause<'a>>
    ensures { IfSome result (IsDeclared (said_by declared.now)) }
{
    match kind_of(declared, e) {
        Err(cause) => Some(cause),
        Ok(found) => if found == kind {
            None
        } else {
            Some(KindCause::Rule(otherwise))
        },
    }
}

fn cause_of_item<'a>(declared: &NameDeclarations, item: &'a RawItem) -> Option<KindCause<'a>>
    ensures { IfSome result (IsDeclared (said_by declared.now)) }
{
    match item {
        RawItem::Value(e) => kind_of(declared, e).err(),
        RawItem::Chars(_) => None,
    }
}

fn cause_of_step<'a>(
    declared: &NameDeclarations,
    step: &'a Option<RawExpr>,
) -> Option<KindCause<'a>>
    ensures { IfSome result (IsDeclared (said_by declared.now)) }
{
    match step {
        Some(e) => unless_kind(declared, Kind::Integer, e, PARAMETER),
        None => None,
    }
}

// Why a name can't be the variable of a DO.
fn cause_of_variable<'a>(declared: &NameDeclarations, name: &'a Name) -> Option<KindCause<'a>>
    ensures { IfSome result (IsDeclared (said_by declared.now)) }
{
    if declared.is_array(name) || declared.kind(name) == Some(Kind::Logical) {
        Some(KindCause::LoopVariable { name: spelt(name) })
    } else {
        None
    }
}

// Why no value can be given to an expression.
fn cause_of_target<'a>(declared: &NameDeclarations, target: &'a RawExpr) -> Option<KindCause<'a>>
    ensures { IfSome result (IsDeclared (said_by declared.now)) }
{
    match target {
        RawExpr::Named(_) => kind_of(declared, target).err(),
        RawExpr::Call(name, _) => if declared.is_array(name) {
            kind_of(declared, target).err()
        } else if Function::named(name.as_bytes()).is_some() {
            Some(KindCause::FunctionAssigned { name: spelt(name) })
        } else {
            Some(KindCause::NoFunction { name: spelt(name) })
        },
        _ => Some(KindCause::Rule(CONSTANT_TARGET)),
    }
}

// Why a value can't be assigned to a target.
fn cause_of_assignment<'a>(
    declared: &NameDeclarations,
    target: &'a RawExpr,
    value: &'a RawExpr,
) -> Option<KindCause<'a>>
    ensures { IfSome result (IsDeclared (said_by declared.now)) }
{
    if let Some(cause) = cause_of_target(declared, target) {
        return Some(cause);
    }
    match kind_of(declared, target) {
        Err(cause) => Some(cause),
        Ok(Kind::Integer) => unless_kind(declared, Kind::Integer, value, LOGICAL_VALUE),
        Ok(Kind::Logical) => unless_kind(declared, Kind::Logical, value, INTEGER_VALUE),
    }
}

// The kind of an expression, or why it has none.
#[cycle(kinds)]
fn kind_of<'a>(declared: &NameDeclarations, e: &'a RawExpr) -> Result<Kind, KindCause<'a>>
    ensures { IfErr result (IsDeclared (said_by declared.now)) }
{
    match e {
        RawExpr::Int(_) => Ok(Kind::Integer),
        RawExpr::Truth(_) => Ok(Kind::Logical),
        RawExpr::Named(name) => kind_of_name(declared, name),
        RawExpr::Call(name, args) => {
            let otherwise = KindCause::LogicalSubscript { name: spelt(name) };
            match cause_in_row(declared, Kind::Integer, args, otherwise) {
                Some(cause) => Err(cause),
                None => kind_of_call(declared, name, args.as_slice().len()),
            }
        }
        RawExpr::Apply(op, args) => {
            let kind = operand_kind(*op);
            match cause_in_row(
                declared,
                kind,
                args,
                KindCause::Rule(advice_on_operand(kind)),
            ) {
                Some(cause) => Err(cause),
                None => Ok(kind_of_operator(*op)),
            }
        }
    }
}

// Why one of some expressions has no kind, or what is told where its kind isn't this one.
#[cycle(kinds)]
fn cause_in_row<'a>(
    declared: &NameDeclarations,
    kind: Kind,
    args: &'a RawList,
    otherwise: KindCause<'a>,
) -> Option<KindCause<'a>>
    requires { IsDeclared (said_by declared.now) otherwise }
    ensures { IfSome result (IsDeclared (said_by declared.now)) }
{
    for arg in args.as_slice() {
        match kind_of(declared, arg) {
            Err(cause) => return Some(cause),
            Ok(found) => if found != kind {
                return Some(otherwise);
            },
        }
    }
    None
}

// The kind of a name alone.
fn kind_of_name<'a>(declared: &NameDeclarations, name: &'a Name) -> Result<Kind, KindCause<'a>>
    ensures { IfErr result (IsDeclared (said_by declared.now)) }
{
    if declared.is_array(name) {
        return Err(KindCause::WholeArray { name: spelt(name) });
    }
    Ok(declared.kind(name).unwrap_or(Kind::Integer))
}

// The kind of a name with so many integers behind it.
fn kind_of_call<'a>(
    declared: &NameDeclarations,
    name: &'a Name,
    count: usize,
) -> Result<Kind, KindCause<'a>>
    ensures { IfErr result (IsDeclared (said_by declared.now)) }
{
    if declared.is_array(name) {
        let dimensions = declared.dims(name).len();
        if dimensions == count {
            return Ok(declared.kind(name).unwrap_or(Kind::Integer));
        }
        return Err(KindCause::SubscriptCount {
            name: spelt(name),
            subscripts: count,
            dimensions,
        });
    }
    match Function::named(name.as_bytes()) {
        None => Err(KindCause::NoFunction { name: spelt(name) }),
        Some(function) => if takes(function, count) {
            Ok(Kind::Integer)
        } else {
            Err(KindCause::FunctionArguments { name: spelt(name) })
        },
    }
}

// Whether a function takes so many arguments.
fn takes(function: Function, count: usize) -> bool {
    match function {
        Function::Remainder | Function::Transfer => count == 2,
        Function::Magnitude => count == 1,
        Function::Greatest | Function::Least => 2 <= count,
    }
}

// What is told of an operand that isn't of this kind.
fn advice_on_operand(kind: Kind) -> Advice {
    match kind {
        Kind::Integer => LOGICAL_OPERAND,
        Kind::Logical => INTEGER_OPERAND,
    }
}

// The kind of an operator's operands.
fn operand_kind(op: Op) -> Kind {
    match op {
        Op::Not | Op::And | Op::Or | Op::Eqv | Op::Neqv => Kind::Logical,
        _ => Kind::Integer,
    }
}

// The kind of an operator's value.
fn kind_of_operator(op: Op) -> Kind {
    match op {
        Op::Lt | Op::Le | Op::Eq | Op::Ne | Op::Ge | Op::Gt => Kind::Logical,
        op => operand_kind(op),
    }
}
