//! What is asked of a unit where another one calls it.
ghost use Rattle.std.specs.Prelude.{◌≡◌, not, IfOk};
ghost use Rattle.declared_names.specs.KeptDeclarations.{said_by};
ghost use Rattle.unit_checks.specs.Alike.{are_alike_told};
ghost use Rattle.unit_checks.specs.Interfaces.{IsInterfaceOf};

use crate::alike::are_alike;
use crate::dummies::storage_names;
use declared_names::{AppearingNames, NameDeclarations};
use df_sequence::NoMemory;
use f77_tree::{Labelled, Name};
use program_units::dummies;
use std::alloc::Global;

/// What is asked of a unit where another one calls it.
#[derive(Drop)]
pub(crate) struct UnitInterface {
    pub(crate) declared: NameDeclarations,
    pub(crate) dummies: Vec<Name>,
    /// The names in COMMON, EQUIVALENCE and DATA.
    pub(crate) storage: AppearingNames,
}

impl UnitInterface {
    /// Reads a unit.
    pub(crate) fn of(alloc: Global, unit: &[Labelled]) -> Result<UnitInterface, NoMemory>
        ensures { IfOk result (λ interface. IsInterfaceOf unit.now interface) }
    {
        let declared = NameDeclarations::of(alloc, unit)?;
        let dummies = dummies(alloc, unit)?;
        let storage = storage_names(alloc, &declared, unit)?;
        Ok(UnitInterface {
            declared,
            dummies,
            storage,
        })
    }

    /// Whether a CALL of another unit in this one has arguments that aren't as its dummies are.
    pub(crate) fn calls_wrongly(&self, callee: &UnitInterface, arguments: &[Name]) -> bool
        ensures { result ≡ not (are_alike_told (said_by self.now.declared) (said_by callee.now.declared) arguments.now callee.now.dummies.items) }
    {
        !are_alike(&self.declared, &callee.declared, arguments, &callee.dummies)
    }
}
