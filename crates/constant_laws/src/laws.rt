//! What closed tables say of runs, as contracts of functions that do nothing.

ghost use Rattle.std.specs.Prelude.{◌≡◌, ◌<◌, ◌+◌, ℕ, ℤ, List, Bool, true};
ghost use Rattle.closed_walks.specs.Graph.{to};
ghost use Rattle.f77_tree.specs.declared.programs.Program.{Program};
ghost use Rattle.f77_tree.specs.Run.{Running};
ghost use Rattle.f77_tree.specs.WellFormed.{IsWellFormed};
ghost use Rattle.alias_classes.specs.Classes.{ClassTable, IsClasses, class_count};
ghost use Rattle.cfg_build.specs.Flow.{flow};
ghost use Rattle.cfg_build.specs.Passes.{passes};
ghost use Rattle.region_tree.specs.Tree.{Tree, IsRegionTree};
ghost use Rattle.dep_routing.specs.Place.{Place};
ghost use Rattle.dep_routing.specs.Routing.{Routing, IsRouting};
ghost use Rattle.dep_routing.specs.Sound.{comes_to};
ghost use Rattle.dep_routing.specs.Touches.{AreTouches, piece_kind};
ghost use Rattle.const_prop.specs.Closed.{IsClosed, is_switch};
ghost use Rattle.const_prop.specs.Known.{IsSomething};
ghost use Rattle.constant_laws.specs.Laws.{KnownExpressionsHaveTheirValues, DecidedPiecesGoOn, LiveDecisionsAreKnown, ConstantsAreOneTable};
ghost use Rattle.const_prop.specs.Live.{IsLive};
ghost use Rattle.const_prop.specs.Right.{AreRouted, IsRightAt, IsDecidedAt};
ghost use Rattle.const_prop.specs.Table.{Knowns};

use crate::facts::{place_facts, run_facts, word_facts};
use const_prop::program_facts;
use dep_routing::next_edges;
use region_tree::one_tree;

/// The lines of a well-formed program are routed by its own touches.
pub fn own_touches_route()
    ensures { (p : Program) (c : ClassTable) (touches : ℕ → ℕ → Bool) (tree : Tree) (r : Routing) → IsWellFormed p → IsClasses p c → IsRegionTree (flow p.execs).graph tree → AreTouches p c touches → IsRouting (flow p.execs).graph tree touches (class_count c + 1) r → AreRouted p c touches tree r }
{}

/// What a closed table tells is so in each run. After each pass of a run that goes on, something is known where each line stands, and
/// one value that is known there of a word is the word. Something is decided of each branch and each hold to which the run comes, and
/// where one out-edge is decided, the run takes it.
pub fn constants_are_right()
    ensures values { (p : Program) (c : ClassTable) (touches : ℕ → ℕ → Bool) (tree : Tree) (r : Routing) (t : Knowns) (input : List ℤ) (n : ℕ) → AreRouted p c touches tree r → IsClosed p (flow p.execs) c touches r t → (passes p input n).mark ≡ Running → IsRightAt p c touches tree r.lines t (passes p input n) }
    ensures decisions { (p : Program) (c : ClassTable) (touches : ℕ → ℕ → Bool) (tree : Tree) (r : Routing) (t : Knowns) (input : List ℤ) (n : ℕ) → AreRouted p c touches tree r → IsClosed p (flow p.execs) c touches r t → (passes p input n).mark ≡ Running → is_switch (piece_kind p (comes_to p input n)) ≡ true → IsDecidedAt p input t n }
{
    place_facts();
    program_facts();
    run_facts();
    word_facts();
}

/// Runs take live edges alone. Where each line stands on a live edge something is known, and something is decided of each branch and
/// each hold to which a live edge leads.
pub fn live_edges_have_values()
    ensures values { (p : Program) (c : ClassTable) (touches : ℕ → ℕ → Bool) (tree : Tree) (r : Routing) (t : Knowns) (e line f : ℕ) → AreRouted p c touches tree r → IsClosed p (flow p.execs) c touches r t → IsLive p t e → line < r.lines → Place (flow p.execs).graph tree touches line e f → IsSomething (t.value line f) }
    ensures decisions { (p : Program) (c : ClassTable) (touches : ℕ → ℕ → Bool) (tree : Tree) (r : Routing) (t : Knowns) (e : ℕ) → AreRouted p c touches tree r → IsClosed p (flow p.execs) c touches r t → IsLive p t e → is_switch (piece_kind p (to (flow p.execs).graph e)) ≡ true → IsSomething (t.decision (to (flow p.execs).graph e)) }
    ensures runs { (p : Program) (c : ClassTable) (touches : ℕ → ℕ → Bool) (tree : Tree) (r : Routing) (t : Knowns) (input : List ℤ) (n : ℕ) → AreRouted p c touches tree r → IsClosed p (flow p.execs) c touches r t → (passes p input n).mark ≡ Running → IsLive p t (passes p input n).edge }
{
    constants_are_right();
    place_facts();
    program_facts();
    run_facts();
}

/// What a closed table tells of an expression is its value: where a run comes to a piece that touches each class that the expression
/// needs, and a value of the expression is known on the edge by which it comes, the expression has that value there.
pub fn known_expressions_have_their_values()
    ensures { KnownExpressionsHaveTheirValues }
{
    place_facts();
    program_facts();
    run_facts();
    word_facts();
}

/// A branch or a hold at which one out-edge is decided doesn't trap: a run that comes to it goes on by that edge, and the pass changes
/// and writes nothing.
pub fn decided_pieces_go_on()
    ensures { DecidedPiecesGoOn }
{
    place_facts();
    program_facts();
    run_facts();
    word_facts();
}

/// The one out-edge that is decided at a branch to which a live edge leads is the one that it takes by its selector, whose value is
/// known on that edge; at a hold it is the first.
pub fn live_decisions_are_known()
    ensures { LiveDecisionsAreKnown }
{
    place_facts();
    program_facts();
}

/// A program has one table of constants, whatever routing of its lines it is made over.
pub fn one_table_of_constants()
    ensures { ConstantsAreOneTable }
{
    next_edges();
    one_tree();
    program_facts();
}
