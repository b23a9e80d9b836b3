//! The names, nearly all in codes of four bytes.

ghost use Rattle.std.specs.Prelude.{◌≡◌, ◌<◌, [], ◌∷◌, ◌++◌, Some, length, slice_get, IfSome, OnOk};
ghost use Rattle.firing.specs.declared.system.NodeName.TheVariants.{Act, Merge, Op, Switch};
ghost use Rattle.node_names.specs.Names.{name_by, name_told};

use df_sequence::NoMemory;
use firing::NodeName;
use std::alloc::Global;
use std::marker::Model;

/// A name: the piece, and four times the other number, with the kind of the name added.
#[derive(Clone, Copy, Debug, PartialEq, Eq)]
struct Code {
    piece: u16,
    turn: u16,
}

/// Names of nodes, in order. Contracts see them as a list.
#[derive(Drop)]
pub struct NameList {
    codes: Vec<Code>,
    /// The names from the first one on whose numbers are too great for a code.
    long: Vec<NodeName>,
}

impl Model for NameList {
    ghost use Rattle.std.specs.Prelude.{List};
    ghost use Rattle.firing.specs.declared.system.NodeName.{NodeName};
    ghost use Rattle.node_names.specs.Names.{names_of};

    ghost Value = { List NodeName };

    ghost view = { names_of };
}

impl NameList {
    /// No name. It takes no memory.
    pub fn new(alloc: Global) -> Self
        ensures { result ≡ [] }
    {
        NameList {
            codes: Vec::new(alloc),
            long: Vec::new(alloc),
        }
    }

    /// How many names there are.
    pub fn len(&self) -> usize
        ensures { result ≡ length self.now }
    {
        self.codes.len() + self.long.len()
    }

    /// The name at a place, counted from 0.
    #[inline]
    pub fn at(&self, k: usize) -> NodeName
        requires { k < length self.now }
        ensures { slice_get self.now k ≡ Some result }
    {
        if k < self.codes.len() {
            name_told(self.codes[k])
        } else {
            self.long[k - self.codes.len()]
        }
    }

    /// Puts a name after the others. It takes four bytes, or twelve from the first one on that has a piece of 2^16 or more, or an
    /// operation or a line of 2^14 or more. Errors: memory runs out.
    pub fn push(&mut self, name: NodeName) -> Result<(), NoMemory>
        ensures { OnOk result (self.new ≡ self.old ++ name ∷ []) }
    {
        match code_of(name) {
            Some(code) if self.long.is_empty() => self.codes.push(code)?,
            _ => self.long.push(name)?,
        }
        Ok(())
    }
}

/// The name that a code stands for.
#[inline]
fn name_told(code: Code) -> NodeName
    ensures { result ≡ name_told code }
{
    let piece = u32::from(code.piece);
    let number = u32::from(code.turn / 4);
    match code.turn % 4 {
        0 => NodeName::Op(piece, number),
        1 => NodeName::Switch(piece, number),
        2 => NodeName::Merge(piece, number),
        _ => NodeName::Act(piece),
    }
}

/// The code of a name, unless its numbers are too great.
fn code_of(name: NodeName) -> Option<Code>
    ensures { IfSome result (λ code. name_told code ≡ name) }
{
    match name {
        NodeName::Op(piece, number) => code_with(0, piece, number),
        NodeName::Switch(piece, number) => code_with(1, piece, number),
        NodeName::Merge(piece, number) => code_with(2, piece, number),
        NodeName::Act(piece) => code_with(3, piece, 0),
    }
}

/// The code of a name of this kind.
fn code_with(kind: u16, piece: u32, number: u32) -> Option<Code>
    requires { kind < 4 }
    ensures { IfSome result (λ code. name_told code ≡ name_by kind piece number) }
{
    if number < 16384 {
        match u16::try_from(piece) {
            Ok(piece) => Some(Code {
                piece,
                turn: number as u16 * 4 + kind,
            }),
            Err(_) => None,
        }
    } else {
        None
    }
}
