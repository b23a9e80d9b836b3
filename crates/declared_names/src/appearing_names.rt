//! The names that appear in statements, for those who read a list of statements without its layout.

ghost use Rattle.std.specs.Prelude.{◌≡◌, ◌<◌, [], length, fold, Some, slice_get, bytes_eq, OnOk};
ghost use Rattle.std.specs.List.{list_any, position_or_len};
ghost use Rattle.layout_rules.specs.Appearances.{appearing, names_in, with_name};
ghost use Rattle.declared_names.specs.Described.{is_array_told};
ghost use Rattle.declared_names.specs.KeptDeclarations.{said_by};

use crate::appearances::Appeared;
use crate::name_declarations::NameDeclarations;
use df_sequence::NoMemory;
use f77_tree::{Name, RawExpr, Stmt};
use std::alloc::Global;
use std::marker::Model;
use symbol_table::Names;

/// Names, each once, in the order in which they first appear.
#[derive(Drop)]
pub struct AppearingNames {
    seen: Appeared,
}

impl Model for AppearingNames {
    ghost use Rattle.std.specs.Prelude.{ℕ, List, map};

    ghost Value = { List (List ℕ) };

    ghost view = { λ a. map (λ info. info.name) a.seen.names };
}

impl AppearingNames {
    /// No names. It takes no memory.
    pub fn new(alloc: Global) -> AppearingNames
        ensures { result ≡ [] }
    {
        AppearingNames {
            seen: Appeared {
                names: Names::new(alloc),
                has_real: false,
            },
        }
    }

    /// Adds a name where it isn't among them yet.
    ///
    /// # Errors
    ///
    /// `NoMemory` where memory runs out.
    pub fn note(
        &mut self,
        alloc: Global,
        declared: &NameDeclarations,
        name: &Name,
    ) -> Result<(), NoMemory>
        ensures { OnOk result (self.new ≡ with_name self.old name.now) }
    {
        self.seen.note(alloc, &declared.declared, name)
    }

    /// Adds the names of an expression, from left to right. The name of an intrinsic function is none, unless it is an
    /// array's.
    ///
    /// # Errors
    ///
    /// `NoMemory` where memory runs out.
    pub fn note_in(
        &mut self,
        alloc: Global,
        declared: &NameDeclarations,
        e: &RawExpr,
    ) -> Result<(), NoMemory>
        ensures { OnOk result (self.new ≡ fold with_name self.old (names_in (is_array_told (said_by declared.now)) e.now)) }
    {
        self.seen.note_in(alloc, &declared.declared, e)
    }

    /// Adds the names of a statement, from left to right. Names of programs, of blocks and of subroutines are none, and
    /// neither are those in the lists of SUBROUTINE and CALL.
    ///
    /// # Errors
    ///
    /// `NoMemory` where memory runs out.
    pub fn note_stmt(
        &mut self,
        alloc: Global,
        declared: &NameDeclarations,
        stmt: &Stmt,
    ) -> Result<(), NoMemory>
        ensures { OnOk result (self.new ≡ fold with_name self.old (appearing (is_array_told (said_by declared.now)) stmt.now)) }
    {
        self.seen.note_stmt(alloc, &declared.declared, stmt)
    }

    /// Whether the name is among them.
    pub fn has(&self, name: &Name) -> bool
        ensures { result ≡ list_any (bytes_eq name.now) self.now }
    {
        self.seen.names.has(name)
    }

    /// How many names there are.
    pub fn len(&self) -> u32
        ensures { result ≡ length self.now }
    {
        self.seen.names.len()
    }

    /// The index of a name, or the number of names where the name isn't among them.
    pub fn index(&self, name: &Name) -> u32
        ensures { result ≡ position_or_len (bytes_eq name.now) self.now }
    {
        self.seen.names.index(name)
    }

    /// The name at an index.
    pub fn name(&self, k: u32) -> &Name
        requires { k < length self.now }
        ensures { slice_get self.now k ≡ Some result.now }
    {
        self.seen.names.name(k)
    }
}
