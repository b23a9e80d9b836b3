//! The lines that the nodes of regions touch.

ghost use Rattle.std.specs.Prelude.{◌≡◌, ◌<◌, ◌*◌, ℕ, true, false, length, IfOk};
ghost use Rattle.class_set.specs.ClassSet.{holds};
ghost use Rattle.class_set.specs.Members.{IsWidth};
ghost use Rattle.closed_walks.specs.Region.{IsFlowGraph};
ghost use Rattle.region_tree.specs.Tree.{IsRegionTree};
ghost use Rattle.dep_routing.specs.Noise.{HaveParents, IsMarkedUp, IsMarkedFrom, AreNoisy, marks_of};
ghost use Rattle.dep_routing.specs.Touch.{touches_in};

use crate::TouchList;
use crate::facts::tree_facts;
use class_set::ClassSet;
use closed_walks::Digraph;
use df_sequence::NoMemory;
use region_tree::RegionTree;
use std::alloc::Global;

/// For each region the lines that a node in it touches. What is touched in a region is touched in all that contain it, so that
/// lines need to go up from a node only as far as some of them weren't there yet.
pub(crate) fn noisy_regions<const W: usize>(
    alloc: Global,
    g: &Digraph,
    t: &RegionTree,
    touch: &TouchList<W>,
) -> Result<Vec<ClassSet<W>>, NoMemory>
    requires width { IsWidth W }
    requires flow { IsFlowGraph g.now }
    requires tree { IsRegionTree g.now t.now }
    requires nodes { length touch.now ≡ g.now.nodes }
    ensures size { IfOk result (λ sets. length sets.items ≡ length t.now.entries) }
    ensures noisy { IfOk result (λ sets. (line : ℕ) → AreNoisy g.now t.now (touches_in touch.now) line (marks_of sets.items line)) }
{
    tree_facts();
    let mut sets = vec![in alloc; ClassSet::empty(); t.count() as usize + 1]?;
    for node in 0..g.nodes() {
        add_up(t, t.innermost(node), touch.at(node), &mut sets);
    }
    Ok(sets)
}

/// Adds the lines to the set of the region and of those that contain it, up to one that has them all.
fn add_up<const W: usize>(
    t: &RegionTree,
    region: u32,
    lines: &ClassSet<W>,
    sets: &mut Vec<ClassSet<W>>,
)
    requires width { IsWidth W }
    requires parents { HaveParents t.now }
    requires size { length sets.old.items ≡ length t.now.entries }
    requires region { region < length t.now.entries }
    requires up { (line : ℕ) → IsMarkedUp t.now (marks_of sets.old.items line) }
    ensures size { length sets.new.items ≡ length sets.old.items }
    ensures added { (line : ℕ) → holds lines.now line ≡ true → IsMarkedFrom t.now region (marks_of sets.old.items line) (marks_of sets.new.items line) }
    ensures others { (line : ℕ) → holds lines.now line ≡ false → marks_of sets.new.items line ≡ marks_of sets.old.items line }
{
    let mut r = region;
    while r != 0 && !has_all(&sets[r as usize], lines) {
        sets[r as usize] = sets[r as usize].union(lines);
        r = t.parent(r);
    }
}

/// Whether all of the lines are members of the set.
fn has_all<const W: usize>(set: &ClassSet<W>, lines: &ClassSet<W>) -> bool
    requires { IsWidth W }
    ensures all { result ≡ true → (line : ℕ) → holds lines.now line ≡ true → holds set.now line ≡ true }
    ensures lacks { result ≡ false → (line : ℕ) × (line < 64 * W) × (holds lines.now line ≡ true) × (holds set.now line ≡ false) }
{
    lines.difference(set).next_after(None).is_none()
}
