// What every order of firing has in common, as contracts of a function that does nothing.

ghost use Rattle.std.specs.Prelude.{◌≢◌, ℕ, List, None};
ghost use Rattle.firing.specs.Control.{IsInStep};
ghost use Rattle.firing.specs.declared.playing.PlayEnd.{PlayEnd};
ghost use Rattle.firing.specs.OrderLaws.{OrdersRestAlike, OrdersTrapAlike, ShorterOrdersWritePrefixes, OrdersFollowSources, DueOrdersEnd, RunsByPicksGoOn, RunsHaveOneEnd, RunsAreLongest};
ghost use Rattle.firing.specs.Play.{Moment, Way, by_order, by_picks};
ghost use Rattle.firing.specs.Resuming.{GoesOn};
ghost use Rattle.firing.specs.Runs.{HasEnd, HasOrder, IsRun};

use crate::{SourceOrder, StepSystem};

/// Where one order of firing comes to rest without a trap, each does, after as many firings, at the same marking. Where
/// one traps, none ends without that trap, and each that ends has the same output. Of two orders the one with
/// no more serial firings writes a prefix of what the other writes, where that one doesn't trap.
pub fn every_order<S: StepSystem>()
    ensures rest { (net : S.Net) → OrdersRestAlike (S.sound net) (S.moves net) }
    ensures trap { (net : S.Net) → OrdersTrapAlike (S.sound net) (S.moves net) }
    ensures prefix { (net : S.Net) → ShorterOrdersWritePrefixes (S.sound net) (S.moves net) }
{}

/// Where one order stays in lockstep with a source that is given by its output and stage after each number of steps, every order
/// follows the source: its output is a prefix of the source's, it comes to rest only where the source has ended, after as
/// many firings and at the same marking, and it traps only where the source has trapped, with the same trap and output.
/// Where the source ends, every order comes to rest; where it traps, none ends otherwise.
pub fn every_order_follows<S: StepSystem>()
    ensures { (net : S.Net) → OrdersFollowSources (S.sound net) (S.moves net) }
{}

/// A run that was stopped can go on. After the first a firings a run by picks goes on as a run from there by the picks
/// turned by a, and a run in the source's own order as such a run from there. So a run that stopped at the limit a and one
/// from there up to a limit b are one run up to the limit a + b.
pub fn runs_go_on<S: StepSystem>()
    ensures picks { (net : S.Net) → RunsByPicksGoOn (S.moves net) (S.course net) }
    ensures order { (net : S.Net) (start : Moment S.Marking S.Place) (a : ℕ) → GoesOn (by_order (S.moves net) (S.course net)) start a (by_order (S.moves net) (S.course net)) }
{}

/// Each run by picks comes to an end, of its own or at the limit, and so does each in the source's own order, where control has a
/// place that can stand beside the marking. A run has one end and one number of firings, of which there are never more, and its
/// firings are an order with the same output.
pub fn runs_end<S: SourceOrder>()
    ensures picks { (net : S.Net) (picks : List ℕ) (start : Moment S.Marking S.Place) (limit : ℕ) → HasEnd (by_picks (S.moves net) (S.course net) picks) start limit }
    ensures order { (net : S.Net) (start : Moment S.Marking S.Place) (limit : ℕ) → S.sound net start.marking → IsInStep (S.moves net) (S.in_step net) start.marking start.control → start.control ≢ None → HasEnd (by_order (S.moves net) (S.course net)) start limit }
    ensures one { RunsHaveOneEnd S.Marking S.Place }
    ensures longest { RunsAreLongest S.Marking S.Place }
    ensures nodes { (w : Way S.Marking S.Place) (start : Moment S.Marking S.Place) (limit n : ℕ) (end : PlayEnd) → IsRun w start limit n end → HasOrder w start n }
{}

/// Where the nodes that are due come to an end within the limit, a run in the source's own order doesn't stop at the limit.
pub fn due_orders_end<S: SourceOrder>()
    ensures { (net : S.Net) → DueOrdersEnd (S.moves net) (S.course net) }
{}
