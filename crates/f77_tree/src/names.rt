ghost use Rattle.std.specs.List.{list_all};
ghost use Rattle.std.specs.Prelude.{◌≡◌, ◌<◌, ◌≤◌, ◌↔◌, ◌||◌, Some, IsSome, IsTrue, IfSome, length, slice_get, slice_index_or};
ghost use Rattle.f77_tree.specs.Name.{is_name, is_capital, is_figure};

use std::marker::Model;

/// A symbolic name: a capital letter and up to five capital letters or digits (ANSI X3.9-1978, section 2.2).
/// Contracts see it as the list of its characters.
#[derive(Debug, Drop)]
pub struct Name {
    bytes: [u8; 6],
    len: usize,
}

impl Model for Name {
    ghost use Rattle.std.specs.Prelude.{◌≡◌, ◌≤◌, ℕ, List, take, true};
    ghost use Rattle.f77_tree.specs.Name.{is_name};

    ghost Value = { List ℕ };

    ghost view = { λ n. take n.len n.bytes };

    ghost invariant = { λ n. (n.len ≤ 6) × (is_name (take n.len n.bytes) ≡ true) };
}

impl Name {
    /// The name of these characters, or none where they are no name.
    pub fn new(bytes: &[u8]) -> Option<Name>
        ensures some { IsSome result ↔ IsTrue (is_name bytes.now) }
        ensures name { IfSome result (λ name. name ≡ bytes.now) }
    {
        if !is_symbolic(bytes) {
            return None;
        }
        let mut name = [0; 6];
        name[..bytes.len()].copy_from_slice(bytes);
        Some(Name {
            bytes: name,
            len: bytes.len(),
        })
    }

    /// The characters.
    pub fn as_bytes(&self) -> &[u8]
        ensures { result.now ≡ self.now }
    {
        &self.bytes[..self.len]
    }

    /// How many characters there are: one to six. They are those of a name, whatever the name came from.
    pub fn len(&self) -> u32
        ensures len { result ≡ length self.now }
        ensures some { 1 ≤ result }
        ensures few { result ≤ 6 }
        ensures name { IsTrue (is_name self.now) }
    {
        self.len as u32
    }

    /// The character at a place, counted from 0.
    pub fn at(&self, k: u32) -> &u8
        requires { k < length self.now }
        ensures item { slice_get self.now k ≡ Some result.now }
        ensures lookup { result.now ≡ slice_index_or self.now k result.now }
    {
        &self.bytes[k as usize]
    }

    // The same name once more.
    pub(crate) fn again(&self) -> Name
        ensures { result ≡ self.now }
    {
        Name {
            bytes: self.bytes,
            len: self.len,
        }
    }
}

// Whether the characters are a name.
fn is_symbolic(bytes: &[u8]) -> bool
    ensures { result ≡ is_name bytes.now }
{
    if bytes.is_empty() || bytes.len() > 6 {
        return false;
    }
    is_letter(bytes[0]) && are_symbolic(bytes)
}

// Whether each character may stand in a name.
fn are_symbolic(bytes: &[u8]) -> bool
    ensures { result ≡ list_all (λ b. is_capital b || is_figure b) bytes.now }
{
    bytes.iter().all(|&b| is_letter(b) || is_digit(b))
}

fn is_letter(b: u8) -> bool
    ensures { result ≡ is_capital b }
{
    65 <= b && b <= 90
}

fn is_digit(b: u8) -> bool
    ensures { result ≡ is_figure b }
{
    48 <= b && b <= 57
}
