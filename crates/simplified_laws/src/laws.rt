//! Laws on what is kept of a program, as contracts of functions that do nothing.

ghost use Rattle.std.specs.Prelude.{◌≡◌, ℕ};
ghost use Rattle.f77_tree.specs.declared.programs.Exec.{Exec};
ghost use Rattle.f77_tree.specs.declared.programs.Program.{Program};
ghost use Rattle.cfg_build.specs.Control.{IsReachedExec};
ghost use Rattle.cfg_build.specs.Steps.{own_node};
ghost use Rattle.simplified_laws.specs.ItemPlaces.{MarksStandAtItems, StatementsStandInOrder};
ghost use Rattle.simplified_forms.specs.Items.{own_piece};
ghost use Rattle.simplified_laws.specs.LiveItems.{DosAreItems, FirstExecutableIsItem, ItemsLeadToItems, JumpsAreItems, LiveExecutablesAreItems, RestsAreItems};
ghost use Rattle.simplified_laws.specs.LiveRanges.{LiveIncrementsHaveLiveStarts, LiveRangesHaveLiveStarts};
ghost use Rattle.simplified_laws.specs.LiveWays.{FirstExecutableIsLive, LiveExecutablesLeadOn};

use cfg_build::{
    chains_lead_to_successors, executables_have_own_pieces, flow_graph_has_shape,
    flow_graph_is_strong, pieces_have_ways_out,
};
use closed_walks::reaching_is_told;
use constant_laws::live_decisions_are_known;

/// The piece that runs an executable to which control can come is the own piece of its chain: it is the only piece that does.
pub fn own_pieces_stand_in_chains()
    ensures { (p : Program) (k : ℕ) (exec : Exec) → IsReachedExec p.names p.execs p.loops k exec → own_piece p k ≡ own_node p.execs k }
{
    executables_have_own_pieces();
}

/// By the decisions of a closed table control can come to the first executable, and where it can come to an executable, it can come to
/// each successor that the executable may go to.
pub fn live_executables_lead_on()
    ensures first { FirstExecutableIsLive }
    ensures leads { LiveExecutablesLeadOn }
{
    chains_lead_to_successors();
    flow_graph_has_shape();
    flow_graph_is_strong();
    live_decisions_are_known();
    reaching_is_told();
}

/// By the decisions of a closed table control comes into the range of a DO from its beginning alone: where it can come to an executable
/// in the range, and so where it can come to the increment, it can come to the beginning.
pub fn live_ranges_have_live_starts()
    ensures ranges { LiveRangesHaveLiveStarts }
    ensures increments { LiveIncrementsHaveLiveStarts }
{
    chains_lead_to_successors();
    executables_have_own_pieces();
    flow_graph_has_shape();
    flow_graph_is_strong();
    live_decisions_are_known();
    reaching_is_told();
    pieces_have_ways_out();
}

/// The first executable is an item of a closed table, and so is each to which control can come. Each successor to which an item may go
/// is one to which control can come; so the statements of items lead to items. The beginning and the increment of a DO are items
/// together.
pub fn items_lead_to_items()
    ensures first { FirstExecutableIsItem }
    ensures live { LiveExecutablesAreItems }
    ensures leads { ItemsLeadToItems }
    ensures rests { RestsAreItems }
    ensures jumps { JumpsAreItems }
    ensures dos { DosAreItems }
{
    live_executables_lead_on();
    live_ranges_have_live_starts();
    executables_have_own_pieces();
    flow_graph_has_shape();
    flow_graph_is_strong();
    live_decisions_are_known();
}

/// The statements of items stand one after another in the simplified form, in the order of the items, and the mark of an item is the first
/// of its statements.
pub fn statements_stand_in_order()
    ensures marks { MarksStandAtItems }
    ensures statements { StatementsStandInOrder }
{}
