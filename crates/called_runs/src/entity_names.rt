//! Laws on the names that entities have in the list, as contracts of functions that do nothing.

ghost use Rattle.std.specs.Prelude.{◌≡◌, Bool, ℕ, List, None, Option, Some, slice_get};
ghost use Rattle.f77_tree.specs.declared.statements.Labelled.{Labelled};
ghost use Rattle.layout_rules.specs.Declarations.{dims_of, kind_of};
ghost use Rattle.layout_rules.specs.Executables.{kind_or_integer};
ghost use Rattle.program_units.specs.declared.entity.Entity.{Entity};
ghost use Rattle.program_units.specs.declared.entity.Entity.TheVariants.{InBlock};
ghost use Rattle.program_units.specs.Entities.{block_list, entity_of};
ghost use Rattle.program_units.specs.Expansion.{declared_in, whole_list};
ghost use Rattle.program_units.specs.Names.{name_for};
ghost use Rattle.program_units.specs.Refusals.{unit_refusal};
ghost use Rattle.program_units.specs.Storage.{IsOfRun};
ghost use Rattle.program_units.specs.Texts.{IsText};
ghost use Rattle.program_units.specs.Units.{unit_at, units};

use copied_values::{lists_declare, names_keep_their_declarations};
use f77_layout::programs_are_well_formed;
use unit_laws::{
    names_of_texts_are_short, own_names_are_new, short_names_are_new, units_are_sources,
};

/// In a unit no name stands in COMMON twice, so the name at each place of a block stands for this place.
pub fn names_of_blocks_stand_once()
    ensures { (stmts : List Labelled) (checked : Bool) → IsText stmts
        → unit_refusal stmts checked ≡ None
        → (k : ℕ) (block : Option (List ℕ)) (i : ℕ) (x : List ℕ)
        → slice_get (block_list (unit_at (units stmts) k) block) i ≡ Some x
        → entity_of (units stmts) k x ≡ InBlock block i }
{
    programs_are_well_formed();
    units_are_sources();
}

/// Two entities that units of the run have names for have different names in the list, where the name of an entity has the kind
/// and the dimensions that the entity was declared with.
pub fn entities_keep_their_declarations()
    ensures apart { (stmts : List Labelled) (checked : Bool) → IsText stmts
        → unit_refusal stmts checked ≡ None
        → (e f : Entity) → IsOfRun (units stmts) e
        → IsOfRun (units stmts) f
        → name_for (units stmts) e ≡ name_for (units stmts) f
        → e ≡ f }
    ensures kinds { (stmts : List Labelled) (checked : Bool) → IsText stmts
        → unit_refusal stmts checked ≡ None
        → (e : Entity) → IsOfRun (units stmts) e
        → kind_or_integer (kind_of (whole_list (units stmts)) (name_for (units stmts) e))
        ≡ kind_or_integer (kind_of (declared_in (units stmts) e).0 (declared_in (units stmts) e).1) }
    ensures dims { (stmts : List Labelled) (checked : Bool) → IsText stmts
        → unit_refusal stmts checked ≡ None
        → (e : Entity) → IsOfRun (units stmts) e
        → dims_of (whole_list (units stmts)) (name_for (units stmts) e)
        ≡ dims_of (declared_in (units stmts) e).0 (declared_in (units stmts) e).1 }
{
    names_of_blocks_stand_once();
    own_names_are_new();
    short_names_are_new();
    names_of_texts_are_short();
    lists_declare();
    names_keep_their_declarations();
}
