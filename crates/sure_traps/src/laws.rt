//! What sure traps mean, as contracts of functions that do nothing.

ghost use Rattle.std.specs.Prelude.{List, IsSome};
ghost use Rattle.f77_tree.specs.declared.expressions.Expr.{Expr};
ghost use Rattle.f77_tree.specs.declared.programs.ExecKind.{ExecKind};
ghost use Rattle.f77_tree.specs.declared.programs.NameInfo.{NameInfo};
ghost use Rattle.sure_traps.specs.Causes.{cause_in, cause_of};
ghost use Rattle.sure_traps.specs.SureTraps.{ExecutableTraps, ExpressionTraps, IsConstant};

/// What has a cause traps, whatever the memory and the data.
pub fn sure_traps_stop_runs()
    ensures expressions { (names : List NameInfo) (e : Expr) → IsSome (cause_in names e) → ExpressionTraps names e }
    ensures executables { (names : List NameInfo) (kind : ExecKind) → IsSome (cause_of names kind) → ExecutableTraps names kind }
{}

/// An expression of constants alone that traps has a cause.
pub fn constants_show_their_traps()
    ensures { (names : List NameInfo) (e : Expr) → IsConstant e → ExpressionTraps names e → IsSome (cause_in names e) }
{}
