//! Where a part leads.

ghost use Rattle.std.specs.Prelude.{◌≡◌, [], ◌∷◌, ◌++◌, OnOk, OnErr};

use crate::parts::Target;
use df_sequence::NoMemory;
use smallvec::SmallVec;
use std::alloc::Global;
use std::marker::Model;

/// Targets, in order. Contracts see the list of them. Most parts lead to few, and those lie in the list itself.
#[derive(Drop)]
pub struct Outs {
    targets: SmallVec<Target, 3>,
}

impl Model for Outs {
    ghost use Rattle.std.specs.Prelude.{List};
    ghost use Rattle.cfg_build.specs.declared.parts.Target.{Target};

    ghost Value = { List Target };

    ghost view = { λ outs. outs.targets.items };
}

impl Outs {
    /// No target. It takes no memory.
    pub(crate) fn new(alloc: Global) -> Self
        ensures { result ≡ [] }
    {
        Outs {
            targets: SmallVec::new(alloc),
        }
    }

    /// Puts a target at the end.
    pub(crate) fn push(&mut self, target: Target) -> Result<(), NoMemory>
        ensures ok { OnOk result (self.new ≡ self.old ++ target ∷ []) }
        ensures err { OnErr result (self.new ≡ self.old) }
    {
        self.targets.push(target)?;
        Ok(())
    }

    /// All targets, in order.
    pub(crate) fn as_slice(&self) -> &[Target]
        ensures items { result.now ≡ self.now }
    {
        self.targets.as_slice()
    }
}
