//! What games mean for the runs of their programs.

ghost use Rattle.std.specs.Prelude.{Bool};
ghost use Rattle.f77_tree.specs.declared.programs.Program.{Program};
ghost use Rattle.f77_tree.specs.WellFormed.{IsWellFormed};
ghost use Rattle.job_terms.specs.declared.task.Told.{Told};
ghost use Rattle.program_nets.specs.Game.{fork_game, operation_game};
ghost use Rattle.job_terms.specs.Tasks.{Asked, Forks, Play};
ghost use Rattle.job_laws.specs.GameLaws.{GameLaws, GamesAreDue};
ghost use Rattle.job_laws.specs.Headline.{MeansOn};
ghost use Rattle.job_laws.specs.SourceRuns.{run_of};

use alias_classes::{CLASS_WORDS, classes_are_counted, one_numbering};
use cfg_build::flow_graph_is_strong;
use dep_routing::one_routing;
use f77_tree::runs_stop_first;
use firing::{due_orders_end, every_order_follows, runs_end};
use fork_board::{forks_begin_soundly, forks_simulate_programs, forks_stay_in_lockstep};
use op_board::{
    operation_nets_begin_soundly, operation_nets_pass_pieces_whole,
    operation_nets_simulate_programs, operation_nets_stay_in_lockstep,
};
use op_net::OpNet;
use range_lines::one_range_touching;
use read_forks::ForkNet;

/// Games mean what the runs of their programs do.
pub fn games_mean()
    ensures { (p : Program) (told : Told) (asked : Asked) (checked : Bool) → IsWellFormed p → MeansOn (Play told asked) checked p (run_of p) }
{
    game_laws();
    flow_graph_is_strong();
}

/// So do the games in which the loads of a group fire in any order.
pub fn forks_mean()
    ensures { (p : Program) (nodes : Bool) (asked : Asked) (checked : Bool) → IsWellFormed p → MeansOn (Forks nodes asked) checked p (run_of p) }
{
    fork_game_laws();
    flow_graph_is_strong();
}

// What is known of the games of nets whose operations fire in turn.
fn game_laws()
    ensures { GameLaws operation_game }
{
    runs_end::<OpNet<'static, CLASS_WORDS>>();
    due_orders_end::<OpNet<'static, CLASS_WORDS>>();
    every_order_follows::<OpNet<'static, CLASS_WORDS>>();
    operation_nets_begin_soundly();
    operation_nets_simulate_programs();
    one_numbering();
    one_range_touching();
    one_routing();
    classes_are_counted();
    runs_stop_first();
}

// What is known of the games of nets in which the loads of a group fire in any order.
fn fork_game_laws()
    ensures { GameLaws fork_game }
{
    runs_end::<ForkNet<'static, CLASS_WORDS>>();
    due_orders_end::<ForkNet<'static, CLASS_WORDS>>();
    every_order_follows::<ForkNet<'static, CLASS_WORDS>>();
    forks_begin_soundly();
    forks_simulate_programs();
    operation_nets_simulate_programs();
    one_numbering();
    one_range_touching();
    one_routing();
    classes_are_counted();
    runs_stop_first();
}

/// Something is due of each game of a program over data, whatever its limit, its picks and what is told of it.
pub fn games_are_due()
    ensures { GamesAreDue operation_game }
{
    runs_end::<OpNet<'static, CLASS_WORDS>>();
    operation_nets_begin_soundly();
    operation_nets_stay_in_lockstep();
    operation_nets_pass_pieces_whole();
}

/// So it is with the games in which the loads of a group fire in any order.
pub fn forks_are_due()
    ensures { GamesAreDue fork_game }
{
    runs_end::<ForkNet<'static, CLASS_WORDS>>();
    forks_begin_soundly();
    forks_stay_in_lockstep();
}
