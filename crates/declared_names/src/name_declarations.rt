//! What the declarations of some statements say of names, for those who read a list of statements without its layout.

ghost use Rattle.std.specs.Prelude.{◌≡◌, IfOk};
ghost use Rattle.declared_names.specs.Described.{described, is_array_told};
ghost use Rattle.declared_names.specs.KeptDeclarations.{said_by};

use crate::declarations::Declarations;
use df_sequence::NoMemory;
use f77_tree::{Dim, DimList, Kind, Labelled, Name};
use std::alloc::Global;

/// What the declarations of a list of statements say of names (ANSI X3.9-1978, sections 4.1, 5 and 8). Where something is
/// declared twice, the first declaration holds.
#[derive(Drop)]
pub struct NameDeclarations {
    pub(crate) declared: Declarations,
}

impl NameDeclarations {
    /// Reads the declarations of all the statements.
    ///
    /// # Errors
    ///
    /// `NoMemory` where memory runs out.
    pub fn of(alloc: Global, stmts: &[Labelled]) -> Result<NameDeclarations, NoMemory>
        ensures { IfOk result (λ told. said_by told ≡ described stmts.now) }
    {
        Ok(NameDeclarations {
            declared: Declarations::of(alloc, stmts)?,
        })
    }

    /// The kind of a name: that of a type statement, else that of its first letter. A real name has none.
    pub fn kind(&self, name: &Name) -> Option<Kind>
        ensures { result ≡ (said_by self.now).kind name.now }
    {
        self.declared.kind(name)
    }

    /// The dimensions of a name. A scalar has none.
    pub fn dims(&self, name: &Name) -> &[Dim]
        ensures { result.now ≡ (said_by self.now).dims name.now }
    {
        self.declared.dims(name)
    }

    /// A list of the dimensions of a name.
    ///
    /// # Errors
    ///
    /// `NoMemory` where memory runs out.
    pub fn dims_of(&self, alloc: Global, name: &Name) -> Result<DimList, NoMemory>
        ensures { IfOk result (λ dims. dims ≡ (said_by self.now).dims name.now) }
    {
        self.declared.dims_of(alloc, name)
    }

    /// Whether the name has dimensions.
    pub fn is_array(&self, name: &Name) -> bool
        ensures { result ≡ is_array_told (said_by self.now) name.now }
    {
        self.declared.is_array(name)
    }
}
