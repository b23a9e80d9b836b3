//! The units that can be called.

ghost use Rattle.std.specs.Prelude.{◌≡◌, [], true, IfOk};
ghost use Rattle.unit_tables.specs.Units.{is_main};

use fortran_tree::{Head, Kind, LowerError, Name, Names, Reason};
use indexmap::IndexMap;
use std::alloc::Global;
use unit_tables::{Symbols, Unit, pieces_of};

/// The names of the intrinsic functions (ANSI X3.9-1978, 15.10).
const INTRINSICS: [&str; 85] = [
    "INT", "IFIX", "IDINT", "REAL", "FLOAT", "SNGL", "DBLE", "CMPLX", "ICHAR", "CHAR", "AINT",
    "DINT", "ANINT", "DNINT", "NINT", "IDNINT", "ABS", "IABS", "DABS", "CABS", "MOD", "AMOD",
    "DMOD", "SIGN", "ISIGN", "DSIGN", "DIM", "IDIM", "DDIM", "DPROD", "MAX", "MAX0", "AMAX1",
    "DMAX1", "AMAX0", "MAX1", "MIN", "MIN0", "AMIN1", "DMIN1", "AMIN0", "MIN1", "LEN", "INDEX",
    "AIMAG", "CONJG", "SQRT", "DSQRT", "CSQRT", "EXP", "DEXP", "CEXP", "LOG", "ALOG", "DLOG",
    "CLOG", "LOG10", "ALOG10", "DLOG10", "SIN", "DSIN", "CSIN", "COS", "DCOS", "CCOS", "TAN",
    "DTAN", "ASIN", "DASIN", "ACOS", "DACOS", "ATAN", "DATAN", "ATAN2", "DATAN2", "SINH", "DSINH",
    "COSH", "DCOSH", "TANH", "DTANH", "LGE", "LGT", "LLE", "LLT",
];

/// The intrinsic functions that the language of `dfc` has.
const KNOWN_INTRINSICS: [&str; 9] = [
    "MOD", "ABS", "IABS", "SIGN", "ISIGN", "MAX", "MAX0", "MIN", "MIN0",
];

/// Whether this is the name of an intrinsic function that the language of `dfc` has.
pub fn is_known_intrinsic(spelling: &str) -> bool {
    KNOWN_INTRINSICS
        .iter()
        .any(|intrinsic| *intrinsic == spelling)
}

/// What a caller has to know of a unit.
#[derive(Drop)]
pub struct Signature {
    /// The kind of a function's value; none of a subroutine.
    pub kind: Option<Kind>,
    /// For each dummy whether it is an array.
    pub takes_array: Vec<bool>,
}

/// The units of a text by their names.
pub type Signatures = IndexMap<Name, Signature>;

/// The dummies of a unit, by its first statement. A main program has none.
pub fn dummies_of(alloc: Global, unit: &Unit) -> Result<Vec<Name>, LowerError>
    ensures { is_main unit.now ≡ true → IfOk result (λ dummies. dummies.items ≡ []) }
{
    let mut dummies = Vec::new(alloc);
    if unit.is_main() {
        return Ok(dummies);
    }
    if let Some(first) = unit.statements.first() {
        if let Some(inside) = first.body.get(1).and_then(|node| node.inside()) {
            for piece in pieces_of(alloc, inside)? {
                match piece.first().and_then(|first| first.name()) {
                    Some(name) => dummies.push(name)?,
                    None => return Err(first.place.refused(Reason::NotUnderstood)),
                }
            }
        }
    }
    Ok(dummies)
}

/// The kind of a function's value.
fn function_kind(
    names: &Names,
    symbols: &Symbols,
    unit: &Unit,
    name: Name,
    given: Option<Kind>,
) -> Result<Kind, LowerError> {
    let spelling = names.spelling(name);
    if INTRINSICS.iter().any(|intrinsic| *intrinsic == spelling) {
        return Err(unit.place().refused(Reason::IntrinsicName));
    }
    match given.or(symbols.kind(names, name)) {
        Some(kind) => Ok(kind),
        None => Err(unit.place().refused(Reason::RealName)),
    }
}

/// The name of a unit that can be called, with what its callers have to know.
fn signature_of(
    alloc: Global,
    names: &Names,
    unit: &Unit,
) -> Result<Option<(Name, Signature)>, LowerError> {
    let Some(name) = unit.statements.first().and_then(|first| first.first_name()) else {
        return Ok(None);
    };
    let symbols = Symbols::of(alloc, names, unit.statements.as_slice())?;
    let kind = match unit.head() {
        Head::Subroutine => None,
        Head::Function(given) => Some(function_kind(names, &symbols, unit, name, given)?),
        _ => return Ok(None),
    };
    let mut takes_array = Vec::new(alloc);
    for dummy in &dummies_of(alloc, unit)? {
        takes_array.push(symbols.is_array(*dummy))?;
    }
    Ok(Some((name, Signature { kind, takes_array })))
}

/// The units of a text that can be called.
pub fn signatures_of(
    alloc: Global,
    names: &Names,
    units: &[Unit],
) -> Result<Signatures, LowerError> {
    let mut signatures = IndexMap::new(alloc);
    for unit in units {
        if let Some((name, signature)) = signature_of(alloc, names, unit)? {
            if signatures.insert(name, signature)?.is_some() {
                return Err(unit.place().refused(Reason::UnitTwice));
            }
        }
    }
    Ok(signatures)
}
