ghost use Rattle.sample_nets.specs.Forks.{any_fork, fork_moves};
ghost use Rattle.firing.specs.Laws.{IsLawful};

/// Two readers of one word keep the laws of firing: each takes it and puts itself down on the word's line, whichever comes
/// first, and the writer waits for both.
pub fn readers_keep_the_laws()
    ensures { IsLawful any_fork fork_moves }
{}
