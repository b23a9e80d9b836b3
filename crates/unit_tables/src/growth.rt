//! How many statements the rules add to a program.

ghost use Rattle.std.specs.Prelude.{◌≡◌, ◌+◌, ◌<◌, ◌≤◌, IfErr, OnOk};
ghost use Rattle.fortran_tree.specs.declared.error.LowerError.TheVariants.{Refused};
ghost use Rattle.fortran_tree.specs.declared.error.Reason.TheVariants.{Grown};
ghost use Rattle.unit_tables.specs.Growth.{count_of, greater_rule, greatest_rule, nothing_added, why_many, with_more};

use fortran_tree::{LowerError, Place, Reason, Rule};

/// How many statements a program has at most.
pub const MOST_STATEMENTS: usize = 4000;

/// How many statements a source has, and how many each rule has added to them.
#[derive(Clone, Copy)]
pub struct Growth {
    pub source: usize,
    pub loops: usize,
    pub lists: usize,
    pub block_data: usize,
    pub functions: usize,
    pub arguments: usize,
    pub bounds: usize,
}

impl Growth {
    /// A source of so many statements, of which none was lowered.
    pub fn of(source: usize) -> Growth
        ensures { result ≡ nothing_added source }
    {
        Growth {
            source,
            loops: 0,
            lists: 0,
            block_data: 0,
            functions: 0,
            arguments: 0,
            bounds: 0,
        }
    }

    /// How many statements a rule has added.
    pub fn count(&self, rule: Rule) -> usize
        ensures { result ≡ count_of self.now rule }
    {
        match rule {
            Rule::Loops => self.loops,
            Rule::Lists => self.lists,
            Rule::BlockData => self.block_data,
            Rule::Functions => self.functions,
            Rule::Arguments => self.arguments,
            Rule::Bounds => self.bounds,
        }
    }

    /// Keeps that a rule adds so many statements.
    ///
    /// # Errors
    ///
    /// Refused, at `place`, where that rule alone adds more than 4,000.
    pub fn add(&mut self, rule: Rule, more: usize, place: Place) -> Result<(), LowerError>
        ensures added { OnOk result (self.new ≡ with_more self.old rule more) }
        ensures within { OnOk result (count_of self.old rule + more ≤ MOST_STATEMENTS) }
        ensures refused { IfErr result (λ e. e ≡ Refused place.line place.column (Grown rule)) }
        ensures past { IfErr result (λ _. MOST_STATEMENTS < count_of self.old rule + more) }
    {
        let count = self.count(rule).saturating_add(more);
        if count > MOST_STATEMENTS {
            return Err(place.refused(Reason::Grown(rule)));
        }
        match rule {
            Rule::Loops => self.loops = count,
            Rule::Lists => self.lists = count,
            Rule::BlockData => self.block_data = count,
            Rule::Functions => self.functions = count,
            Rule::Arguments => self.arguments = count,
            Rule::Bounds => self.bounds = count,
        }
        Ok(())
    }

    /// The one of two rules that has added more.
    fn greater(&self, first: Rule, second: Rule) -> Rule
        ensures { result ≡ greater_rule self.now first second }
    {
        if self.count(first) < self.count(second) {
            second
        } else {
            first
        }
    }

    /// The rule that has added most.
    fn greatest(&self) -> Rule
        ensures { result ≡ greatest_rule self.now }
    {
        let first = self.greater(Rule::Functions, Rule::Arguments);
        let second = self.greater(Rule::Bounds, Rule::Lists);
        let third = self.greater(Rule::Loops, Rule::BlockData);
        self.greater(self.greater(first, second), third)
    }

    /// Why a lowered program has more than 4,000 statements: since the source has, or by the rule that added most.
    pub fn reason(&self) -> Reason
        ensures { result ≡ why_many self.now }
    {
        if self.source > MOST_STATEMENTS {
            Reason::TooMany
        } else {
            Reason::Grown(self.greatest())
        }
    }
}
