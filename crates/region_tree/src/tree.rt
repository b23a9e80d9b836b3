//! The table of regions.

ghost use Rattle.std.specs.Prelude.{◌≡◌, ◌<◌, ◌^◌, length};

use std::marker::Model;

/// The regions of a flow graph, numbered from 1 in the order of their entries; 0 stands for no region. Contracts see a `Tree`.
#[derive(Drop)]
pub struct RegionTree {
    pub(crate) entries: Vec<u32>,
    pub(crate) exits: Vec<u32>,
    pub(crate) parents: Vec<u32>,
    pub(crate) innermost: Vec<u32>,
}

impl Model for RegionTree {
    ghost use Rattle.region_tree.specs.Tree.{Tree};

    ghost Value = { Tree };

    ghost use Rattle.region_tree.specs.RegionTable.{tree_of, IsKept};

    ghost view = { tree_of };

    ghost invariant = { IsKept };
}

impl RegionTree {
    ghost use Rattle.region_tree.specs.Tree.{IsNumber, entry_of, exit_of, parent_of, innermost_of, region_count};

    /// How many regions there are.
    pub fn count(&self) -> u32
        ensures count { result ≡ region_count self.now }
        ensures few { result < 2 ^ 31 }
    {
        (self.entries.len() - 1) as u32
    }

    /// The edge by which the region is entered.
    pub fn entry(&self, r: u32) -> u32
        requires { IsNumber self.now r }
        ensures { result ≡ entry_of self.now r }
    {
        self.entries[r as usize]
    }

    /// The edge by which the region is left.
    pub fn exit(&self, r: u32) -> u32
        requires { IsNumber self.now r }
        ensures { result ≡ exit_of self.now r }
    {
        self.exits[r as usize]
    }

    /// The smallest other region that contains the region, or 0.
    pub fn parent(&self, r: u32) -> u32
        requires { IsNumber self.now r }
        ensures { result ≡ parent_of self.now r }
    {
        self.parents[r as usize]
    }

    /// The smallest region that holds the node, or 0.
    pub fn innermost(&self, node: u32) -> u32
        requires { node < length self.now.innermost }
        ensures { result ≡ innermost_of self.now node }
    {
        self.innermost[node as usize]
    }
}
