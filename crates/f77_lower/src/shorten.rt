//! Names of six letters and digits in place of longer ones, and of those with `_`.

use fortran_tree::{Head, LowerError, Name, Names, Place, Reason, Statement};
use function_rules::is_known_intrinsic;
use indexmap::{IndexMap, IndexSet};
use std::alloc::Global;

/// How long a name is at most (ANSI X3.9-1978, 2.2).
const LONGEST: usize = 6;

/// Whether a name has to be another one.
fn is_long(spelling: &str) -> bool {
    spelling.len() > LONGEST || spelling.as_bytes().contains(&b'_')
}

/// The first characters of a name that are no `_`, at most so many.
fn beginning(alloc: Global, spelling: &str, most: usize) -> Result<String, LowerError> {
    let mut short = String::new(alloc);
    for byte in spelling
        .as_bytes()
        .iter()
        .filter(|byte| **byte != b'_')
        .take(most)
    {
        short.push(char::from(*byte))?;
    }
    Ok(short)
}

/// Whether a spelling is free.
fn is_free(names: &Names, taken: &IndexSet<String>, spelling: &str) -> bool {
    names.known(spelling).is_none() && !taken.contains(spelling) && !is_known_intrinsic(spelling)
}

/// The short names that were given.
#[derive(Drop)]
struct Shortener {
    alloc: Global,
    /// The words of IMPLICIT, which are no names.
    kept: IndexSet<Name>,
    taken: IndexSet<String>,
    /// For the first six letters and digits of names the number up to which they were tried.
    tried: IndexMap<String, u32>,
    shorts: IndexMap<Name, String>,
}

impl Shortener {
    /// A free name with the same first letter.
    fn short(&mut self, names: &Names, spelling: &str) -> Result<Option<String>, LowerError> {
        let first = beginning(self.alloc, spelling, LONGEST)?;
        let Some(tried) = self.tried.get(&first).copied() else {
            self.tried.insert(first.clone()?, 1)?;
            if is_free(names, &self.taken, first.as_str()) {
                return Ok(Some(first));
            }
            return self.numbered(names, spelling, first, 2);
        };
        self.numbered(names, spelling, first, tried.saturating_add(1))
    }

    /// The same with a number, of which this is the least that is tried.
    fn numbered(
        &mut self,
        names: &Names,
        spelling: &str,
        first: String,
        least: u32,
    ) -> Result<Option<String>, LowerError> {
        for number in least..10000u32 {
            let digits = format!(in self.alloc; "{number}")?;
            let mut short = beginning(self.alloc, spelling, LONGEST.saturating_sub(digits.len()))?;
            short.push_str(digits.as_str())?;
            if is_free(names, &self.taken, short.as_str()) {
                self.tried.insert(first, number)?;
                return Ok(Some(short));
            }
        }
        Ok(None)
    }

    /// Gives a name a short one, where it has to have one.
    fn take(&mut self, names: &Names, name: Name) -> Result<(), LowerError> {
        let spelling = names.spelling(name);
        if !is_long(spelling) || self.kept.contains(&name) {
            return Ok(());
        }
        let Some(short) = self.short(names, spelling)? else {
            return Err(Place { line: 1, column: 1 }.refused(Reason::Names));
        };
        self.taken.insert(short.clone()?)?;
        self.shorts.insert(name, short)?;
        Ok(())
    }
}

/// The words of IMPLICIT, which are no names.
fn words(alloc: Global, statements: &[Statement]) -> Result<IndexSet<Name>, LowerError> {
    let mut words = IndexSet::new(alloc);
    for statement in statements {
        if matches!(statement.head, Head::Implicit) {
            for node in &statement.body {
                if let Some(name) = node.name() {
                    words.insert(name)?;
                }
            }
        }
    }
    Ok(words)
}

/// For each long name of the text a short one.
pub(crate) fn short_names(
    alloc: Global,
    names: &Names,
    statements: &[Statement],
) -> Result<IndexMap<Name, String>, LowerError> {
    let mut shortener = Shortener {
        alloc,
        kept: words(alloc, statements)?,
        taken: IndexSet::new(alloc),
        tried: IndexMap::new(alloc),
        shorts: IndexMap::new(alloc),
    };
    for number in 0..names.count() {
        shortener.take(names, names.at(number))?;
    }
    let Shortener { shorts, .. } = shortener;
    Ok(shorts)
}
