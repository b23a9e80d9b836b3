//! What the statements of an item are made from, and its expressions, in which constants stand for what is known.

ghost use Rattle.std.specs.Prelude.{◌≡◌, ◌<◌, map, All, length, IfOk};
ghost use Rattle.f77_tree.specs.CanRun.{CanPrint};
ghost use Rattle.f77_tree.specs.Value.{IsAccess, IsExpression};
ghost use Rattle.const_prop.specs.Closed.{words_on};
ghost use Rattle.const_prop.specs.KnownRows.{edges_of};
ghost use Rattle.const_prop.specs.Table.{knowns_of};
ghost use Rattle.simplified_forms.specs.Folding.{folded, folded_access, folded_item};
ghost use Rattle.simplified_forms.specs.Plans.{mark_in, IsScene};

use crate::folding::{FoldedExpr, FoldedExprs, fold_all, fold_whole};
use crate::plan::Plan;
use alias_classes::Classes;
use const_prop::Table;
use df_sequence::{Copied, LabelList, NoMemory, Sequence};
use f77_tree::{Access, Expr, Item, ItemList, Program};
use std::alloc::Global;

/// A program with its classes, its table of constants and its plan, and one of its executables with the edge to the piece that runs it.
#[derive(Drop)]
pub(crate) struct Scene<'a, const W: usize> {
    pub(crate) p: &'a Program,
    pub(crate) c: &'a Classes<'a, W>,
    pub(crate) t: &'a Table<W>,
    pub(crate) checked: bool,
    pub(crate) plan: &'a Plan,
    pub(crate) k: u32,
    pub(crate) edge: u32,
}

impl<'a, const W: usize> Scene<'a, W> {
    /// The expression in which constants stand for what is known.
    pub(crate) fn fold(&self, alloc: Global, e: &Expr) -> Result<Expr, NoMemory>
        requires scene { IsScene self.now.p.now self.now.c.now self.now.t.now self.now.plan.now }
        requires edge { self.now.edge < edges_of self.now.t.now.known }
        requires expression { IsExpression self.now.p.now.names e.now }
        ensures { IfOk result (λ x. x ≡ folded self.now.p.now.names self.now.checked (words_on self.now.c.now (knowns_of self.now.t.now) self.now.edge) e.now) }
    {
        let FoldedExpr { tree, known: _ } = fold_whole(
            alloc,
            self.p,
            self.c,
            self.t,
            self.checked,
            self.edge,
            e,
        )?;
        Ok(tree)
    }

    /// The access whose subscripts are folded.
    pub(crate) fn fold_access(&self, alloc: Global, access: &Access) -> Result<Access, NoMemory>
        requires scene { IsScene self.now.p.now self.now.c.now self.now.t.now self.now.plan.now }
        requires edge { self.now.edge < edges_of self.now.t.now.known }
        requires access { IsAccess self.now.p.now.names access.now }
        ensures { IfOk result (λ x. x ≡ folded_access self.now.p.now.names self.now.checked (words_on self.now.c.now (knowns_of self.now.t.now) self.now.edge) access.now) }
    {
        let FoldedExprs { trees, known: _ } = fold_all(
            alloc,
            self.p,
            self.c,
            self.t,
            self.checked,
            self.edge,
            &access.subs,
        )?;
        Ok(Access {
            name: access.name,
            subs: trees,
        })
    }

    /// The items whose expressions are folded.
    pub(crate) fn fold_items(&self, alloc: Global, items: &ItemList) -> Result<ItemList, NoMemory>
        requires scene { IsScene self.now.p.now self.now.c.now self.now.t.now self.now.plan.now }
        requires edge { self.now.edge < edges_of self.now.t.now.known }
        requires items { All (CanPrint self.now.p.now.names) items.now }
        ensures { IfOk result (λ xs. xs ≡ map (folded_item self.now.p.now.names self.now.checked (words_on self.now.c.now (knowns_of self.now.t.now) self.now.edge)) items.now) }
    {
        let mut all = Sequence::new(alloc);
        for item in items.as_slice() {
            all.push(self.fold_item(alloc, item)?)?;
        }
        Ok(all)
    }

    fn fold_item(&self, alloc: Global, item: &Item) -> Result<Item, NoMemory>
        requires scene { IsScene self.now.p.now self.now.c.now self.now.t.now self.now.plan.now }
        requires edge { self.now.edge < edges_of self.now.t.now.known }
        requires item { CanPrint self.now.p.now.names item.now }
        ensures { IfOk result (λ x. x ≡ folded_item self.now.p.now.names self.now.checked (words_on self.now.c.now (knowns_of self.now.t.now) self.now.edge) item.now) }
    {
        match item {
            Item::Value(e) => Ok(Item::Value(self.fold(alloc, e)?)),
            Item::Chars(text) => Ok(Item::Chars(text.copy(alloc)?)),
        }
    }

    /// The number of the mark of an executable.
    pub(crate) fn mark(&self, k: u32) -> u32
        requires scene { IsScene self.now.p.now self.now.c.now self.now.t.now self.now.plan.now }
        requires k { k < length self.now.p.now.execs }
        ensures { result ≡ mark_in self.now.p.now (knowns_of self.now.t.now) self.now.plan.now k }
    {
        self.plan.mark(k)
    }

    /// The numbers of the marks of executables.
    pub(crate) fn marks(&self, alloc: Global, targets: &LabelList) -> Result<LabelList, NoMemory>
        requires scene { IsScene self.now.p.now self.now.c.now self.now.t.now self.now.plan.now }
        requires targets { All (λ k. k < length self.now.p.now.execs) targets.now }
        ensures { IfOk result (λ xs. xs ≡ map (mark_in self.now.p.now (knowns_of self.now.t.now) self.now.plan.now) targets.now) }
    {
        let mut all = Sequence::new(alloc);
        for target in targets.as_slice() {
            all.push(self.mark(*target))?;
        }
        Ok(all)
    }
}
