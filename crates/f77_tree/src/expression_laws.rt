//! Laws on the values of expressions, and on the dialects of their operators, as contracts of functions that do nothing.

ghost use Rattle.std.specs.Prelude.{◌≡◌, ◌≢◌, ◌⊎◌, ◌↔◌, Bool, true, false, ℕ, ℤ, pos, List, All, Option, Ok, Err};
ghost use Rattle.op_table.specs.declared.Op.{Op};
ghost use Rattle.op_table.specs.declared.Trap.TheVariants.{Overflow};
ghost use Rattle.op_table.specs.Words.{IsWord, is_true, truth};
ghost use Rattle.f77_tree.specs.declared.declarations.Dim.{Dim};
ghost use Rattle.f77_tree.specs.declared.declarations.Kind.TheVariants.{Logical};
ghost use Rattle.f77_tree.specs.declared.expressions.Access.{Access};
ghost use Rattle.f77_tree.specs.declared.expressions.Expr.{Expr};
ghost use Rattle.f77_tree.specs.declared.expressions.Expr.TheVariants.{Read, Apply};
ghost use Rattle.f77_tree.specs.declared.programs.NameInfo.{NameInfo};
ghost use Rattle.f77_tree.specs.declared.programs.Program.{Program};
ghost use Rattle.f77_tree.specs.Dialects.{is_of_dialect, HasDialect, IsOfDialect};
ghost use Rattle.f77_tree.specs.Known.{IsInBounds, MayTrap, MayTrapBut, AccessMayTrap};
ghost use Rattle.f77_tree.specs.Line.{kind_of_expression};
ghost use Rattle.f77_tree.specs.Run.{Trapped, source};
ghost use Rattle.f77_tree.specs.Results.{HasResult};
ghost use Rattle.f77_tree.specs.Value.{value, place};

/// Over a store of words, an expression that can't trap but in excepted subscripts, which have values within their bounds, has a
/// value, whatever the next word of the data.
pub fn what_cannot_trap_has_a_value()
    ensures expressions { (excepted : Expr → Dim → Bool) (names : List NameInfo) (store : List ℤ) (next : Option ℤ) (e : Expr) → All IsWord store → ((sub : Expr) (dim : Dim) → excepted sub dim ≡ true → IsInBounds dim (value names store next sub)) → (MayTrapBut (λ sub dim. excepted sub dim ≡ true) names e → ⊥) → HasResult (value names store next e) }

    // One that can't trap has a value.
    ensures words { (names : List NameInfo) (store : List ℤ) (next : Option ℤ) (e : Expr) → All IsWord store → (MayTrap names e → ⊥) → HasResult (value names store next e) }

    // An access that can't trap names a word.
    ensures accesses { (names : List NameInfo) (store : List ℤ) (next : Option ℤ) (access : Access) → All IsWord store → (AccessMayTrap names access → ⊥) → HasResult (place names store next access) }
{}

/// An expression that is a logical has 0 or 1, where it has a value: a logical name is read as the truth of its word, and
/// relations and operators on truths give truths.
pub fn logical_values_are_truths()
    ensures two { (names : List NameInfo) (store : List ℤ) (next : Option ℤ) (e : Expr) (z : ℤ) → kind_of_expression names e ≡ Logical → value names store next e ≡ Ok z → (z ≡ pos 0) ⊎ (z ≡ pos 1) }

    // It is the word of its own truth.
    ensures same { (names : List NameInfo) (store : List ℤ) (next : Option ℤ) (e : Expr) (z : ℤ) → kind_of_expression names e ≡ Logical → value names store next e ≡ Ok z → z ≡ truth (is_true z) }
{}

/// The operators of an expression are its own and those of its operands and subscripts. In the plain dialect no value
/// overflows: what is no word is wrapped around.
pub fn dialects_settle_operators()
    ensures operations { (checked : Bool) (op : Op) (args : List Expr) → HasDialect checked (Apply op args) ↔ ((is_of_dialect checked op ≡ true) × All (HasDialect checked) args) }
    ensures reads { (checked : Bool) (access : Access) → HasDialect checked (Read access) ↔ All (HasDialect checked) access.subs }
    ensures plain { (names : List NameInfo) (store : List ℤ) (next : Option ℤ) (e : Expr) → HasDialect false e → value names store next e ≢ Err Overflow }

    // So no run of a program of the plain dialect traps by overflow.
    ensures runs { (p : Program) (input : List ℤ) (n line : ℕ) → IsOfDialect false p → (source p input n).mark ≢ Trapped Overflow line }
{}
