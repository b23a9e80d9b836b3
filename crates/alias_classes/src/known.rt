//! The word of an access, where all its subscripts are known.

ghost use Rattle.std.specs.Prelude.{◌≡◌, ◌<◌, length, map, IfSome};
ghost use Rattle.std.specs.List.{list_all};
ghost use Rattle.f77_tree.specs.Known.{known};
ghost use Rattle.f77_tree.specs.KnownWith.{known_word as spec_known_word};
ghost use Rattle.f77_tree.specs.Value.{IsAccess, ArePlaced};
ghost use Rattle.alias_classes.specs.Constant.{is_constant as spec_is_constant};

use f77_tree::{Access, Expr, ExprList, NameInfoList, accesses_stay_in_their_names, locate};

/// The word of an access, where all its subscripts have known values within their bounds. Any store of the program serves,
/// since none of its words is read.
pub fn known_word(names: &NameInfoList, store: &[i32], access: &Access) -> Option<u32>
    requires access { IsAccess names.now access.now }
    requires places { ArePlaced names.now (length store.now) }
    ensures word { result ≡ spec_known_word names.now access.now.name (map known access.now.subs) }
    ensures inside { IfSome result (λ word. word < length store.now) }
{
    accesses_stay_in_their_names();
    if are_constant(&access.subs) {
        locate(access, names, store, None).ok()
    } else {
        None
    }
}

// Whether no word and no data are read in the expression.
#[cycle(constant)]
fn is_constant(e: &Expr) -> bool
    ensures { result ≡ spec_is_constant e.now }
{
    match e {
        Expr::Const(_) | Expr::Truth(_) => true,
        Expr::Input | Expr::Read(_) => false,
        Expr::Apply(_, args) => are_constant(args),
    }
}

#[cycle(constant)]
fn are_constant(es: &ExprList) -> bool
    ensures { result ≡ list_all spec_is_constant es.now }
{
    for e in es.as_slice() {
        if !is_constant(e) {
            return false;
        }
    }
    true
}
