//! The names and the character constants of a text, each kept once.

ghost use Rattle.std.specs.Prelude.{◌≡◌, [], length, option_map, bytes_eq, IfOk, OnOk, string_bytes, string_eq};
ghost use Rattle.indexmap.specs.IndexSet.{index_of_by, insert_index, insert_key};
ghost use Rattle.fortran_tree.specs.Spellings.{spellings, spelling_of};

use crate::LowerError;
use indexmap::IndexSet;
use std::alloc::Global;

/// A name of the text, in upper case.
#[derive(Clone, Copy, PartialEq, Eq, Hash)]
pub struct Name(usize);

/// The names of a text in the order in which they appear, and its character constants.
#[derive(Drop)]
pub struct Names {
    spellings: IndexSet<String>,
    texts: Vec<String>,
}

impl Names {
    /// No names.
    pub fn new(alloc: Global) -> Names
        ensures { spellings result ≡ [] }
    {
        Names {
            spellings: IndexSet::new(alloc),
            texts: Vec::new(alloc),
        }
    }

    /// The name with this spelling, which goes last if the text doesn't have it yet.
    pub fn named(&mut self, spelling: String) -> Result<Name, LowerError>
        ensures index { IfOk result (λ name. name.0 ≡ insert_index string_eq self.old.spellings spelling) }
        ensures names { OnOk result (self.new.spellings.keys ≡ insert_key string_eq self.old.spellings.keys spelling) }
    {
        Ok(Name(self.spellings.insert_full(spelling)?.0))
    }

    /// The name with this spelling, where the text has it.
    pub fn known(&self, spelling: &str) -> Option<Name>
        ensures { option_map (λ name. name.0) result ≡ index_of_by (λ key. bytes_eq spelling.now (string_bytes key)) self.now.spellings }
    {
        Some(Name(self.spellings.get_index_of(spelling)?))
    }

    /// How a name is spelled.
    pub fn spelling(&self, name: Name) -> &str
        ensures { result.now ≡ spelling_of self.now name }
    {
        match self.spellings.get_index(name.0) {
            Some(spelling) => spelling.as_str(),
            None => "",
        }
    }

    /// Keeps the characters of a constant, and gives its number.
    pub(crate) fn keep_text(&mut self, text: String) -> Result<usize, LowerError> {
        let number = self.texts.len();
        self.texts.push(text)?;
        Ok(number)
    }

    /// The characters of a constant.
    pub(crate) fn text(&self, number: usize) -> &str {
        match self.texts.get(number) {
            Some(text) => text.as_str(),
            None => "",
        }
    }

    /// How many names there are.
    pub fn count(&self) -> usize
        ensures { result ≡ length (spellings self.now) }
    {
        self.spellings.len()
    }

    /// The name with this number, counted from 0.
    pub fn at(&self, number: usize) -> Name
        ensures { result.0 ≡ number }
    {
        Name(number)
    }
}
