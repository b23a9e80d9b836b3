//! Numbers for expressions.

ghost use Rattle.std.specs.Prelude.{◌≡◌, ◌<◌, ◌%◌, ℕ, [], All, Contains, Some, length, slice_get, slice_index_or, OnOk, IfOk, MatchOption};
ghost use Rattle.redundancy.specs.Digests.{digest as spec_digest};
ghost use Rattle.redundancy.specs.Numbers.{IsNumbered, IsTable};

use crate::listed::Listed;
use crate::trees::{are_same, digest};
use df_sequence::{Copied, NoMemory};
use f77_tree::Expr;
use std::alloc::Global;

/// Different expressions, numbered in the order in which they came. The bucket of an expression, by its digest, has its number.
#[derive(Drop)]
pub(crate) struct Table {
    pub(crate) exprs: Vec<Expr>,
    pub(crate) buckets: Vec<Listed<usize>>,
}

impl Table {
    /// An empty table with so many buckets.
    pub(crate) fn new(alloc: Global, buckets: u32) -> Result<Self, NoMemory>
        requires { 0 < buckets }
        ensures table { IfOk result (λ t. IsTable t.exprs.items t.buckets.items) }
        ensures empty { IfOk result (λ t. t.exprs.items ≡ []) }
    {
        Ok(Table {
            exprs: Vec::new(alloc),
            buckets: no_numbers(alloc, buckets)?,
        })
    }

    /// The number of the expression, if it has one.
    pub(crate) fn find(&self, e: &Expr) -> Option<usize>
        requires { IsTable self.now.exprs.items self.now.buckets.items }
        ensures { MatchOption result (Contains self.now.exprs.items e.now → ⊥) (λ k. slice_get self.now.exprs.items k ≡ Some e.now) }
    {
        find_among(&self.exprs, self.buckets[self.bucket(e)].as_slice(), e)
    }

    // The bucket that has the number of the expression, where there is one.
    fn bucket(&self, e: &Expr) -> usize
        requires { 0 < length self.now.buckets.items }
        ensures { result ≡ spec_digest e.now % length self.now.buckets.items }
    {
        (digest(e) % self.buckets.len() as u64) as usize
    }

    /// The number of the expression. A copy of it gets the next one where it is new.
    pub(crate) fn number(&mut self, alloc: Global, e: &Expr) -> Result<usize, NoMemory>
        requires { IsTable self.old.exprs.items self.old.buckets.items }
        ensures table { OnOk result (IsTable self.new.exprs.items self.new.buckets.items) }
        ensures number { IfOk result (λ k. IsNumbered e.now self.old.exprs.items self.new.exprs.items k) }
    {
        if let Some(k) = self.find(e) {
            return Ok(k);
        }
        let k = self.exprs.len();
        let at = self.bucket(e);
        self.buckets[at].push(k)?;
        self.exprs.push(e.copy(alloc)?)?;
        Ok(k)
    }
}

// So many empty buckets.
fn no_numbers(alloc: Global, buckets: u32) -> Result<Vec<Listed<usize>>, NoMemory>
    ensures count { IfOk result (λ lists. length lists.items ≡ buckets) }
    ensures empty { IfOk result (λ lists. (b : ℕ) → slice_index_or lists.items b [] ≡ []) }
{
    let mut lists = Vec::new(alloc);
    for _ in 0..buckets {
        lists.push(Listed::new(alloc))?;
    }
    Ok(lists)
}

// Which of these numbers the expression has.
fn find_among(exprs: &Vec<Expr>, numbers: &[usize], e: &Expr) -> Option<usize>
    requires { All (λ k. k < length exprs.now.items) numbers.now }
    ensures { MatchOption result ((k : ℕ) → Contains numbers.now k → slice_get exprs.now.items k ≡ Some e.now → ⊥) (λ k. slice_get exprs.now.items k ≡ Some e.now) }
{
    for k in numbers {
        if are_same(&exprs[*k], e) {
            return Some(*k);
        }
    }
    None
}
