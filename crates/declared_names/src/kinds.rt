//! Kinds of expressions, and statements whose expressions have the kinds that they must have.

ghost use Rattle.std.specs.List.{list_all};
ghost use Rattle.std.specs.Prelude.{◌≡◌, if◌then◌else◌, Option};
ghost use Rattle.f77_tree.specs.Kinds.{operand_kind as operand_kind_of};
ghost use Rattle.f77_tree.specs.Line.{kind_of_op};
ghost use Rattle.layout_rules.specs.Types.{kind_named, is_array_in, is_of_kind, kind_in, kind_of_call, is_kind as spec_is_kind};

use crate::intrinsics::Function;
use f77_tree::{Kind, Name, RawExpr, RawList};
use op_table::Op;
use symbol_table::Names;

/// Whether a name has dimensions.
pub fn is_array(names: &Names, name: &Name) -> bool
    ensures { result ≡ is_array_in names.now name.now }
{
    !names.dims(names.index(name)).is_empty()
}

/// The kind of an expression, or none where an operand, a subscript or an argument is wrong (ANSI X3.9-1978, sections 5, 6
/// and 15.10).
#[cycle(kinds)]
pub fn kind_of(names: &Names, e: &RawExpr) -> Option<Kind>
    ensures { result ≡ kind_in names.now e.now }
{
    match e {
        RawExpr::Int(_) => Some(Kind::Integer),
        RawExpr::Truth(_) => Some(Kind::Logical),
        RawExpr::Named(name) => kind_of_name(names, name),
        RawExpr::Call(name, args) => {
            if !are_of_kind(names, Kind::Integer, args) {
                return None;
            }
            call_kind(names, name, args.len())
        }
        RawExpr::Apply(op, args) => {
            if !are_of_kind(names, operand_kind(*op), args) {
                return None;
            }
            Some(kind_of_operator(*op))
        }
    }
}

// Whether each expression has this kind.
#[cycle(kinds)]
fn are_of_kind(names: &Names, kind: Kind, args: &RawList) -> bool
    ensures { result ≡ list_all (is_of_kind names.now kind) args.now }
{
    for arg in args.as_slice() {
        if !is_kind(kind, kind_of(names, arg)) {
            return false;
        }
    }
    true
}

// Whether there is a kind, and it is this one.
pub(crate) fn is_kind(kind: Kind, found: Option<Kind>) -> bool
    ensures { result ≡ spec_is_kind kind found }
{
    match found {
        None => false,
        Some(other) => kind == other,
    }
}

// The kind of a name alone, which is no array's.
fn kind_of_name(names: &Names, name: &Name) -> Option<Kind>
    ensures { result ≡ (if is_array_in names.now name.now then None else Some (kind_named names.now name.now)) }
{
    let k = names.index(name);
    if names.dims(k).is_empty() {
        Some(names.kind(k))
    } else {
        None
    }
}

// The kind of a name with so many integers after it: the subscripts of an array, or the arguments of an intrinsic function.
fn call_kind(names: &Names, name: &Name, count: u32) -> Option<Kind>
    ensures { result ≡ kind_of_call names.now name.now count }
{
    let k = names.index(name);
    let dims = names.dims(k);
    if !dims.is_empty() {
        return if dims.len() == count as usize {
            Some(names.kind(k))
        } else {
            None
        };
    }
    match Function::named(name.as_bytes()) {
        Some(function) => if function.takes(count) {
            Some(Kind::Integer)
        } else {
            None
        },
        None => None,
    }
}

// The kind of the operands of an operator.
fn operand_kind(op: Op) -> Kind
    ensures { result ≡ operand_kind_of op }
{
    match op {
        Op::Not | Op::And | Op::Or | Op::Eqv | Op::Neqv => Kind::Logical,
        _ => Kind::Integer,
    }
}

// The kind of an operator's value.
fn kind_of_operator(op: Op) -> Kind
    ensures { result ≡ kind_of_op op }
{
    match op {
        Op::Lt
        | Op::Le
        | Op::Eq
        | Op::Ne
        | Op::Ge
        | Op::Gt
        | Op::Not
        | Op::And
        | Op::Or
        | Op::Eqv
        | Op::Neqv
        | Op::Truth => Kind::Logical,
        _ => Kind::Integer,
    }
}
