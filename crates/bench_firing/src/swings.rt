ghost use Rattle.std.specs.Prelude.{◌≡◌, ◌-◌, ◌*◌, ◌<◌, ◌^◌, length, vec_len};
ghost use Rattle.bench_firing.specs.Swinging.{has_token, other_node};

use df_io::NoMemory;
use firing::{Fired, NodeName, ReadyMarks, ReadySet, StepSystem, mark_ready, retest_fired};
use op_table::Trap;
use std::alloc::Global;

/// Pairs of nodes that pass a token to and fro. The pairs before the first live one have none.
#[derive(Drop)]
pub struct Swings {
    count: u32,
    first: u32,
    even_has: Vec<bool>,
    // Whether the set is kept, and the node that the last firing has made ready.
    kept: bool,
    woken: [u32; 1],
    set: ReadySet,
    ghost few: { 2 * count < 2 ^ 32 },
    ghost room: { length set ≡ 2 * count },
    ghost woken_one: { length woken ≡ 1 },
}

impl Swings {
    ghost use Rattle.std.specs.Prelude.{◌≡◌, ◌*◌, ◌<◌, ◌^◌, ℕ, Bool, true, [], ◌∷◌, IfOk, vec_len};
    ghost use Rattle.firing.specs.Marks.{AreMarks, DifferAt};
    ghost use Rattle.bench_firing.specs.Swinging.{is_ready, other_node};
    ghost use Rattle.bench_firing.specs.SwingsView.{pairs_of, rest_of};

    /// So many pairs, of which those from `first` on have a token at their even node. They have no order of their own.
    pub fn new(alloc: Global, count: u32, first: u32) -> Result<Swings, NoMemory>
        requires { count < 2 ^ 31 }
        ensures count { IfOk result (λ s. s.count ≡ count) }
        ensures tokens { IfOk result (λ s. vec_len s.even_has ≡ count) }
    {
        let even_has = vec![in alloc; true; count as usize]?;
        let set = ReadySet::with_room(alloc, 2 * count)?;
        Ok(Swings {
            count,
            first,
            even_has,
            kept: false,
            woken: [0],
            set,
        })
    }

    // Keeps the set after a node has fired.
    fn retest(&mut self, k: u32)
        requires node { k < 2 * self.old.count }
        requires pairs { vec_len self.old.even_has ≡ self.old.count }
        requires woken { self.old.woken ≡ other_node k ∷ [] }
        ensures rest { rest_of self.new ≡ rest_of self.old }
        ensures marks { self.old.kept ≡ true → (before : ℕ → Bool) → AreMarks (2 * self.old.count) before self.old.set → DifferAt (2 * self.old.count) k (other_node k ∷ []) before (is_ready (pairs_of self.old) self.old.even_has.items) → AreMarks (2 * self.old.count) (is_ready (pairs_of self.old) self.old.even_has.items) self.new.set }
    {
        if self.kept {
            retest_fired(self, k);
        }
    }
}

// The other node of a pair.
fn other(k: u32) -> u32
    requires { k < 2 ^ 32 - 1 }
    ensures { result ≡ other_node k }
{
    if k % 2 == 0 { k + 1 } else { k - 1 }
}

// Whether the token of the node's pair is the node's.
fn has_token(even: bool, k: u32) -> bool
    ensures { result ≡ has_token even k }
{
    if k % 2 == 0 { even } else { !even }
}

impl ReadyMarks for Swings {
    ghost use Rattle.bench_firing.specs.Swinging.{has_pairs, is_ready};
    ghost use Rattle.bench_firing.specs.SwingsView.{Unmarked, rest_of};

    ghost Rest = { Unmarked };

    ghost rest = { rest_of };

    ghost marks = { λ s. s.set };

    ghost count = { λ rest. 2 * rest.pairs.count };

    ghost is_ready = { λ rest. is_ready rest.pairs rest.even_has };

    ghost testable = { λ rest. has_pairs rest.pairs rest.even_has };

    ghost woken = { λ rest. rest.woken };

    fn mark_count(&self) -> u32 {
        2 * self.count
    }

    fn test(&self, k: u32) -> bool {
        let pair = k / 2;
        self.first <= pair && has_token(self.even_has[pair as usize], k)
    }

    fn woken(&self) -> &[u32] {
        &self.woken
    }

    fn mark(&mut self, k: u32, ready: bool) {
        self.set.put(k, ready);
    }
}

impl StepSystem for Swings {
    ghost use Rattle.std.specs.Prelude.{⊤, Bool, List, [], None};
    ghost use Rattle.bench_firing.specs.Swinging.{Pairs, swing_moves, has_pairs};
    ghost use Rattle.bench_firing.specs.SwingLaws.{swing_laws};
    ghost use Rattle.bench_firing.specs.SwingsView.{KeepsSet};

    ghost Net = { Pairs };

    ghost Marking = { List Bool };

    ghost Place = { ⊤ };

    ghost net = { λ s. record { count = s.count; first = s.first } };

    ghost marking = { λ s. s.even_has.items };

    ghost place = { λ _. None };

    ghost last = { λ _. [] };

    ghost keeps = { KeepsSet };

    ghost sound = { has_pairs };

    ghost moves = { swing_moves };

    ghost course = { λ _. record { due = λ _ _. None; moved = λ _ p. p } };

    ghost in_step = { λ _ _ _. ⊤ };

    fn nodes(&self) -> u32 {
        2 * self.count
    }

    fn ready(&self, k: u32) -> bool {
        self.test(k)
    }

    fn keep_ready(&mut self) {
        self.kept = true;
        mark_ready(self);
    }

    fn ready_count(&self) -> u32 {
        self.set.len()
    }

    fn ready_at(&self, nth: u32) -> u32 {
        self.set.at(nth)
    }

    fn fire(&mut self, k: u32) -> Fired {
        self.even_has[(k / 2) as usize] = k % 2 == 1;
        self.woken = [other(k)];
        self.retest(k);
        Fired::Moved
    }

    fn line(&self) -> &[u8] {
        &[]
    }

    fn trap(&self) -> Option<(Trap, u32)> {
        None
    }

    fn name(&self, k: u32) -> NodeName {
        NodeName::Act(k)
    }

    ghost lawful = { swing_laws };

    ghost steady = { λ _. record { kept = λ _ _ _ _ _ _ _ _. tt } };
}
