//! The constants of a part of DATA (ANSI X3.9-1978, section 9), run by run.

ghost use Rattle.std.specs.Prelude.{◌≡◌, ◌≤◌, ◌<◌, [], ◌++◌, replicate, MatchOption, IfSome, IfNone};
ghost use Rattle.storage_checks.specs.Runs.{all_constants};

use f77_tree::{InitValue, Lit};
use std::marker::Model;

/// The constants that are left of a part, each as often as it stands there. Contracts see them as a list.
#[derive(Drop)]
pub(crate) struct Constants<'a> {
    values: &'a [InitValue],
    /// How many of the constants of these values were taken.
    taken: u32,
}

impl<'a> Model for Constants<'a> {
    ghost use Rattle.std.specs.Prelude.{List, drop};
    ghost use Rattle.f77_tree.specs.declared.declarations.Lit.{Lit};
    ghost use Rattle.storage_checks.specs.Runs.{all_constants};

    ghost Value = { List Lit };

    ghost view = { λ c. drop c.taken (all_constants c.values.now) };
}

/// A constant as often as it comes first.
#[derive(Clone, Copy)]
pub(crate) struct Run {
    pub(crate) value: Lit,
    pub(crate) times: u32,
}

impl<'a> Constants<'a> {
    /// All constants of a part.
    pub(crate) fn new(values: &'a [InitValue]) -> Constants<'a>
        ensures { result ≡ all_constants values.now }
    {
        Constants { values, taken: 0 }
    }

    /// Takes the first constant as often as it stands there, but at most so often.
    pub(crate) fn take(&mut self, most: u32) -> Option<Run>
        requires { 0 < most }
        ensures taken { MatchOption result (self.old ≡ []) (λ run. self.old ≡ replicate run.times run.value ++ self.new) }
        ensures some { IfSome result (λ run. 0 < run.times) }
        ensures bound { IfSome result (λ run. run.times ≤ most) }
        ensures none { IfNone result (self.new ≡ []) }
    {
        while let Some((first, rest)) = self.values.split_first() {
            if self.taken < first.times {
                let times = most.min(first.times - self.taken);
                self.taken += times;
                return Some(Run {
                    value: first.value,
                    times,
                });
            }
            self.values = rest;
            self.taken -= first.times;
        }
        None
    }
}
