ghost use Rattle.std.specs.Prelude.{◌≡◌, ◌≢◌, ◌+◌, ◌<◌, ◌^◌, List, length, IfOk};
ghost use Rattle.layout_rules.specs.Storage.{Spot, alone};
ghost use Rattle.storage_association.specs.Trees.{AreTrees, IsForest, IsRooted, hung, node_at, JoinsTrees};
ghost use Rattle.layout_rules.specs.Spots.{IsReach};

use df_sequence::NoMemory;
use std::alloc::Global;

/// A name in a tree of names: so far after its parent, and the root of so many names. A root is its own parent; what the
/// count of another name was when it was hung under its parent.
#[derive(Clone, Copy, Drop)]
pub(crate) struct Node {
    parent: u32,
    offset: i64,
    count: u32,
}

/// The root of a name's tree, and how many words the name begins after it.
#[derive(Clone, Copy, Drop)]
pub(crate) struct Rooted {
    pub(crate) root: u32,
    pub(crate) distance: i64,
}

/// What became of an equation between two names.
#[derive(Clone, Copy, Drop)]
pub(crate) enum Joined {
    /// The names were in one tree, the second so many words after the first.
    Same { distance: i64 },
    /// A root was hung under another one, after which it begins so many words.
    Hung { child: u32, root: u32, offset: i64 },
}

/// Places of names relative to each other: a tree for each storage, by size and without shorter paths, so that a search
/// writes nothing.
///
/// Galler and Fischer, "An improved equivalence algorithm", CACM 7, 1964.
#[derive(Drop)]
pub(crate) struct Forest {
    nodes: Vec<Node>,
}

impl Forest {
    /// So many names, each in a storage of its own.
    pub(crate) fn new(alloc: Global, count: u32) -> Result<Forest, NoMemory>
        ensures { IfOk result (λ forest. IsForest forest.nodes.items (alone count)) }
    {
        let mut nodes = Vec::with_capacity(alloc, count as usize)?;
        for name in 0..count {
            nodes.push(Node {
                parent: name,
                offset: 0,
                count: 1,
            })?;
        }
        Ok(Forest { nodes })
    }

    /// The root of a name's tree.
    pub(crate) fn find(&self, name: u32) -> Rooted
        requires trees { AreTrees self.now.nodes.items }
        requires known { name < length self.now.nodes.items }
        requires few { length self.now.nodes.items < 2 ^ 32 }
        ensures { (spots : List Spot) → IsForest self.now.nodes.items spots → IsRooted self.now.nodes.items spots name result }
    {
        let mut root = name;
        let mut distance = 0;
        loop {
            let node = self.nodes[root as usize];
            if node.parent == root {
                return Rooted { root, distance };
            }
            distance += node.offset;
            root = node.parent;
        }
    }

    /// Links two names, of which the second begins so many words after the first. Where they are in two trees, the one with
    /// fewer names is hung under the other.
    pub(crate) fn join(&mut self, from: u32, to: u32, distance: i64) -> Joined
        requires trees { AreTrees self.old.nodes.items }
        requires first { from < length self.old.nodes.items }
        requires second { to < length self.old.nodes.items }
        requires few { length self.old.nodes.items < 2 ^ 32 }
        requires reach { IsReach distance }
        ensures { JoinsTrees self.old.nodes.items self.new.nodes.items (record { from = from; to = to; distance = distance }) result }
    {
        let a = self.find(from);
        let b = self.find(to);
        if a.root == b.root {
            let distance = b.distance - a.distance;
            return Joined::Same { distance };
        }
        // The second root after the first one.
        let offset = a.distance + distance - b.distance;
        if self.nodes[a.root as usize].count < self.nodes[b.root as usize].count {
            self.hang(a.root, b.root, -offset)
        } else {
            self.hang(b.root, a.root, offset)
        }
    }

    // Hangs a root under another one, so many words after it.
    fn hang(&mut self, child: u32, root: u32, offset: i64) -> Joined
        requires child { child < length self.old.nodes.items }
        requires root { root < length self.old.nodes.items }
        requires differ { child ≢ root }
        requires few { (node_at self.old.nodes.items root).count + (node_at self.old.nodes.items child).count < 2 ^ 32 }
        ensures nodes { self.new.nodes.items ≡ hung self.old.nodes.items child root offset }
        ensures answer { result ≡ Joined.Hung child root offset }
    {
        let node = &mut self.nodes[child as usize];
        node.parent = root;
        node.offset = offset;
        let count = node.count;
        self.nodes[root as usize].count += count;
        Joined::Hung {
            child,
            root,
            offset,
        }
    }
}
