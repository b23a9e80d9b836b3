//! Laws of the firings of loads, as contracts of functions that do nothing.

ghost use Rattle.firing.specs.Moves.{CanFire};
ghost use Rattle.std.specs.Prelude.{ℕ};
ghost use Rattle.op_board.specs.OperationNets.{OperationNet};
ghost use Rattle.fork_board.specs.ForkTokens.{ForkTokens, first_fork_tokens, fork_moves};
ghost use Rattle.fork_board.specs.SoundForks.{ForksCanCome};
ghost use Rattle.read_forks.specs.LoadedGroups.{AreNear};
ghost use Rattle.read_forks.specs.LoadSteps.{LoadsFireLineByLine};

/// What the firing of a load comes to is what comes of it where first its operands are taken and its value is given, and then one line
/// that it needs after another is told that it has fired.
pub fn loads_fire_line_by_line()
    ensures { LoadsFireLineByLine }
{}

/// The loads that have fired on a line since it came to a group are of that group: so it is where nothing has fired, and so it stays.
pub fn fired_loads_are_near()
    ensures begins { (x : OperationNet) → AreNear x (first_fork_tokens x) }
    ensures stays { (x : OperationNet) (m : ForkTokens) (k : ℕ) → ForksCanCome x m → CanFire (fork_moves x) m k → AreNear x m → AreNear x ((fork_moves x).fired m k) }
{}
