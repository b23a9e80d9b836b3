//! Games that are played without the program that they come from.

ghost use Rattle.std.specs.Prelude.{◌≡◌, ◌≢◌, ◌≤◌, ℕ, None};
ghost use Rattle.df_io.specs.Faults.{Rose};
ghost use Rattle.firing.specs.Control.{IsInStep};
ghost use Rattle.firing.specs.Play.{Plays, moment};
ghost use Rattle.job_terms.specs.Answers.{AnswersAs};
ghost use Rattle.game_jobs.specs.DueGames.{IsGameOf};
ghost use Rattle.program_nets.specs.Playing.{way_by};

use df_io::Sink;
use firing::{PlayEnd, Show, SourceOrder, follow, play, runs_end};
use job_terms::{Status, tell_limit, tell_trap};

/// Plays a game up to a rest, a trap or the limit, by the picks, or without picks in the source's own order, writes what is shown of
/// the firings, and after that the line that tells of a trap or of the limit. It takes no memory.
pub fn tell_game<S: SourceOrder, K: Sink>(
    sys: &mut S,
    picks: &[u32],
    limit: u64,
    show: Show,
    sink: &mut K,
) -> Status
    requires sound { S.sound (S.net sys.old) (S.marking sys.old) }
    requires in_step { IsInStep (S.moves (S.net sys.old)) (S.in_step (S.net sys.old)) (S.marking sys.old) (S.place sys.old) }
    requires control { S.place sys.old ≢ None }
    ensures due { AnswersAs (IsGameOf (way_by (S.moves (S.net sys.old)) (S.course (S.net sys.old)) picks.now) (moment (S.marking sys.old) (S.place sys.old)) limit show) (K.got sink.old) (K.got sink.new) result }
    ensures words { result ≢ Status.Usage }
    ensures reads { result ≢ Status.ReadFault }
    ensures memory { result ≢ Status.NoMemory }
    ensures later { K.faults sink.old ≤ K.faults sink.new }
    ensures fault { result ≡ Status.WriteFault → Rose (K.faults sink.old) (K.faults sink.new) }
{
    runs_end::<S>();
    match play_game(sys, picks, limit, show, sink) {
        PlayEnd::Rest(_) => Status::Done,
        PlayEnd::Trapped(trap, line) => tell_trap(trap, line, sink),
        PlayEnd::Limit => tell_limit(limit, sink),
        PlayEnd::WriteFault(_) => Status::WriteFault,
    }
}

/// Fires nodes up to a rest, a trap or the limit, by the picks, or without picks in the source's own order, writes what is shown of
/// them, and answers how it ended, with the marking at the end in the system. It takes no memory.
pub fn play_game<S: SourceOrder, K: Sink>(
    sys: &mut S,
    picks: &[u32],
    limit: u64,
    show: Show,
    sink: &mut K,
) -> PlayEnd
    requires sound { S.sound (S.net sys.old) (S.marking sys.old) }
    requires in_step { IsInStep (S.moves (S.net sys.old)) (S.in_step (S.net sys.old)) (S.marking sys.old) (S.place sys.old) }
    ensures plays { Plays (way_by (S.moves (S.net sys.old)) (S.course (S.net sys.old)) picks.now) (moment (S.marking sys.old) (S.place sys.old)) limit show (moment (S.marking sys.new) (S.place sys.new)) (K.got sink.old) (K.got sink.new) result }
    ensures sound { S.sound (S.net sys.old) (S.marking sys.new) }
    ensures later { K.faults sink.old ≤ K.faults sink.new }
    ensures fault { (n : ℕ) → result ≡ PlayEnd.WriteFault n → Rose (K.faults sink.old) (K.faults sink.new) }
{
    if picks.is_empty() {
        follow(sys, limit, show, sink)
    } else {
        play(sys, picks, limit, show, sink)
    }
}
