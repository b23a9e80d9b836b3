//! Marks of the ready nodes, for systems that keep their set by tests.

ghost use Rattle.std.specs.Prelude.{◌≡◌, ◌<◌, ℕ, Bool, List, length, set, All};
ghost use Rattle.firing.specs.Marks.{AreMarks, DifferAt};

/// Nodes with a mark for each, which tells whether it is ready. The marks are kept by tests of the nodes that a firing can have
/// made ready. A system can use it to keep the set of its ready nodes.
pub trait ReadyMarks {
    /// All that marks leave as it is.
    ghost Rest: { Type 0 };

    ghost rest: { Self → Self.Rest };

    /// The marks, in number order.
    ghost marks: { Self → List Bool };

    ghost count: { Self.Rest → ℕ };

    ghost is_ready: { Self.Rest → ℕ → Bool };

    /// Holds where nodes can be tested.
    ghost testable: { Self.Rest → Type 0 };

    /// The nodes that the last firing can have made ready.
    ghost woken: { Self.Rest → List ℕ };

    /// How many marks there are, one for each node.
    fn mark_count(&self) -> u32
        ensures count { result ≡ Self.count (Self.rest self.now) }
        ensures room { length (Self.marks self.now) ≡ result };

    /// Whether a node has all that it needs.
    fn test(&self, k: u32) -> bool
        requires node { k < Self.count (Self.rest self.now) }
        requires testable { Self.testable (Self.rest self.now) }
        ensures { result ≡ Self.is_ready (Self.rest self.now) k };

    /// The nodes that the last firing can have made ready, in any order, and others besides. Each is tested as often as it
    /// is named, so a system does well to name it once.
    fn woken(&self) -> &[u32]
        ensures { result.now ≡ Self.woken (Self.rest self.now) };

    /// Marks a node, or takes its mark away.
    fn mark(&mut self, k: u32, ready: bool)
        requires { k < Self.count (Self.rest self.old) }
        ensures marks { Self.marks self.new ≡ set (Self.marks self.old) k ready }
        ensures rest { Self.rest self.new ≡ Self.rest self.old };
}

// Marks the node exactly where it is ready.
fn retest<S: ReadyMarks>(sys: &mut S, k: u32)
    requires node { k < S.count (S.rest sys.old) }
    requires testable { S.testable (S.rest sys.old) }
    ensures marks { S.marks sys.new ≡ set (S.marks sys.old) k (S.is_ready (S.rest sys.old) k) }
    ensures rest { S.rest sys.new ≡ S.rest sys.old }
{
    let ready = sys.test(k);
    sys.mark(k, ready);
}

/// Marks exactly the ready nodes.
pub fn mark_ready<S: ReadyMarks>(sys: &mut S)
    requires testable { S.testable (S.rest sys.old) }
    ensures marks { AreMarks (S.count (S.rest sys.old)) (S.is_ready (S.rest sys.old)) (S.marks sys.new) }
    ensures rest { S.rest sys.new ≡ S.rest sys.old }
{
    for k in 0..sys.mark_count() {
        retest(sys, k);
    }
}

/// Tests the node that fired and those that its firing can have made ready. Where the marks told which nodes were ready before,
/// and the firing made no others ready or unready, they tell it again.
pub fn retest_fired<S: ReadyMarks>(sys: &mut S, k: u32)
    requires node { k < S.count (S.rest sys.old) }
    requires room { length (S.marks sys.old) ≡ S.count (S.rest sys.old) }
    requires testable { S.testable (S.rest sys.old) }
    requires woken { All (λ j. j < S.count (S.rest sys.old)) (S.woken (S.rest sys.old)) }
    ensures marks { (before : ℕ → Bool) → AreMarks (S.count (S.rest sys.old)) before (S.marks sys.old) → DifferAt (S.count (S.rest sys.old)) k (S.woken (S.rest sys.old)) before (S.is_ready (S.rest sys.old)) → AreMarks (S.count (S.rest sys.old)) (S.is_ready (S.rest sys.old)) (S.marks sys.new) }
    ensures rest { S.rest sys.new ≡ S.rest sys.old }
{
    retest(sys, k);
    let count = sys.woken().len();
    for i in 0..count {
        let j = sys.woken()[i];
        retest(sys, j);
    }
}
