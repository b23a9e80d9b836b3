// One firing, and what is shown of firings.

ghost use Rattle.std.specs.Prelude.{◌≡◌, ◌≢◌, ◌≤◌, ◌<◌, None, IfOk, OnOk, OnErr};
ghost use Rattle.std.specs.Io.KnownBytes.{Appends};
ghost use Rattle.df_io.specs.Faults.{Rose};
ghost use Rattle.df_io.specs.Write.{AppendsPrefix};
ghost use Rattle.firing.specs.Control.{IsInStep, steered};
ghost use Rattle.firing.specs.Moves.{CanFire, FiredIs, line_after};
ghost use Rattle.firing.specs.Play.{shown_of, told};

use crate::name_line::write_name;
use crate::{Fired, Show, StepSystem};
use df_io::{Sink, WriteFault, write_all};
use op_table::Trap;

// Fires a node that can fire, and writes what is shown of it. Each firing by picks goes through this one and those below, in which there
// is mostly nothing to do.
#[inline(always)]
pub fn step<S: StepSystem, K: Sink>(
    sys: &mut S,
    k: u32,
    show: Show,
    sink: &mut K,
) -> Result<Fired, WriteFault>
    requires can { CanFire (S.moves (S.net sys.old)) (S.marking sys.old) k }
    requires sound { S.sound (S.net sys.old) (S.marking sys.old) }
    requires in_step { IsInStep (S.moves (S.net sys.old)) (S.in_step (S.net sys.old)) (S.marking sys.old) (S.place sys.old) }
    ensures net { S.net sys.new ≡ S.net sys.old }
    ensures marking { S.marking sys.new ≡ (S.moves (S.net sys.old)).fired (S.marking sys.old) k }
    ensures place { S.place sys.new ≡ steered (S.course (S.net sys.old)) (S.marking sys.old) (S.place sys.old) k }
    ensures sound { S.sound (S.net sys.old) (S.marking sys.new) }
    ensures in_step { IsInStep (S.moves (S.net sys.old)) (S.in_step (S.net sys.old)) (S.marking sys.new) (S.place sys.new) }
    ensures keeps { S.keeps sys.old → S.keeps sys.new }
    ensures fired { IfOk result (FiredIs (S.moves (S.net sys.old)) (S.marking sys.old) k) }
    ensures all { OnOk result (Appends (K.got sink.old) (K.got sink.new) (shown_of (S.moves (S.net sys.old)) show (S.marking sys.old) k)) }
    ensures prefix { OnErr result (AppendsPrefix (K.got sink.old) (K.got sink.new) (shown_of (S.moves (S.net sys.old)) show (S.marking sys.old) k)) }
    ensures later { K.faults sink.old ≤ K.faults sink.new }
    ensures fault { OnErr result (Rose (K.faults sink.old) (K.faults sink.new)) }
{
    let fired = sys.fire(k);
    show_fired(sys, k, fired, show, sink)?;
    Ok(fired)
}

// Writes what is shown of firings, by the node and the answer of the last one.
#[inline(always)]
pub fn show_fired<S: StepSystem, K: Sink>(
    sys: &S,
    k: u32,
    fired: Fired,
    show: Show,
    sink: &mut K,
) -> Result<(), WriteFault>
    requires node { k < (S.moves (S.net sys.now)).nodes }
    ensures all { OnOk result (Appends (K.got sink.old) (K.got sink.new) (told (S.moves (S.net sys.now)) show k fired (S.last sys.now))) }
    ensures prefix { OnErr result (AppendsPrefix (K.got sink.old) (K.got sink.new) (told (S.moves (S.net sys.now)) show k fired (S.last sys.now))) }
    ensures later { K.faults sink.old ≤ K.faults sink.new }
    ensures fault { OnErr result (Rose (K.faults sink.old) (K.faults sink.new)) }
{
    match show {
        Show::Output => write_line(sys, fired, sink),
        Show::Nodes => write_name(sink, k, sys.name(k)),
        Show::Nothing => Ok(()),
    }
}

// Writes the line of a firing that wrote one.
#[inline(always)]
fn write_line<S: StepSystem, K: Sink>(sys: &S, fired: Fired, sink: &mut K) -> Result<(), WriteFault>
    ensures all { OnOk result (Appends (K.got sink.old) (K.got sink.new) (line_after fired (S.last sys.now))) }
    ensures prefix { OnErr result (AppendsPrefix (K.got sink.old) (K.got sink.new) (line_after fired (S.last sys.now))) }
    ensures later { K.faults sink.old ≤ K.faults sink.new }
    ensures fault { OnErr result (Rose (K.faults sink.old) (K.faults sink.new)) }
{
    match fired {
        Fired::Line => write_all(sink, sys.line()),
        Fired::Moved | Fired::Trapped => Ok(()),
    }
}

// What has trapped after a firing that answered this.
#[inline(always)]
pub fn trap_after<S: StepSystem>(sys: &S, fired: Fired) -> Option<(Trap, u32)>
    requires { fired ≢ Fired.Trapped → (S.moves (S.net sys.now)).trap (S.marking sys.now) ≡ None }
    ensures { result ≡ (S.moves (S.net sys.now)).trap (S.marking sys.now) }
{
    match fired {
        Fired::Trapped => sys.trap(),
        Fired::Moved | Fired::Line => None,
    }
}
