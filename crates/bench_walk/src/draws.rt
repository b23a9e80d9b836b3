//! Random graphs.

ghost use Rattle.std.specs.Prelude.{◌≡◌, ◌+◌, ◌<◌, ◌^◌, IfOk};
ghost use Rattle.closed_walks.specs.Graph.{edge_count};

use closed_walks::Digraph;
use df_sequence::NoMemory;
use std::alloc::Global;

/// Numbers that look random, the same in every run: a linear congruential generator, of which the upper half is used.
#[derive(Drop)]
pub(crate) struct Draws {
    state: u64,
}

impl Draws {
    pub(crate) fn new(seed: u64) -> Self {
        Draws { state: seed }
    }

    /// A number below the bound.
    pub(crate) fn below(&mut self, bound: u32) -> u32
        requires { 0 < bound }
        ensures { result < bound }
    {
        self.state = self
            .state
            .wrapping_mul(6_364_136_223_846_793_005)
            .wrapping_add(1_442_695_040_888_963_407);
        (self.state >> 32) as u32 % bound
    }

    /// A graph of so many nodes, with so many edges drawn at random, and after them the first so many of a ring.
    pub(crate) fn graph(
        &mut self,
        alloc: Global,
        nodes: u32,
        drawn: u32,
        ring: u32,
    ) -> Result<Digraph, NoMemory>
        requires some { 0 < nodes }
        requires few { drawn + ring < 2 ^ 31 }
        ensures edges { IfOk result (λ g. edge_count g ≡ drawn + ring) }
    {
        let mut g = Digraph::new(alloc, nodes)?;
        for e in 0..drawn + ring {
            let (from, to) = if e < drawn {
                (self.below(nodes), self.below(nodes))
            } else {
                ((e - drawn) % nodes, (e - drawn + 1) % nodes)
            };
            g.add_edge(alloc, from, to)?;
        }
        Ok(g)
    }
}
