//! Which subscripts of a program are seen in range.

ghost use Rattle.std.specs.Prelude.{◌≡◌, ◌<◌, ◌*◌, [], false, length, slice_index_or, slice_get, Some, None, replicate, IfOk};
ghost use Rattle.class_set.specs.Members.{IsWidth};
ghost use Rattle.f77_tree.specs.WellFormed.{IsWellFormed};
ghost use Rattle.f77_tree.specs.CanRun.{CanExecute};
ghost use Rattle.alias_classes.specs.Classes.{IsClasses, class_count};
ghost use Rattle.range_lines.specs.Ranges.{AreRanges, after_exec};

use crate::flags::Flags;
use crate::marks::row_of;
use crate::reaches::{Reach, loop_reaches};
use alias_classes::Classes;
use df_sequence::NoMemory;
use f77_tree::{Exec, ExecKind, Program};
use std::alloc::Global;
use std::marker::Model;

/// For each executable of a program which of its subscripts are seen in range, in the order in which they are checked.
#[derive(Drop)]
pub struct Ranges {
    rows: Vec<Flags>,
}

impl Model for Ranges {
    ghost use Rattle.std.specs.Prelude.{List, Bool};

    ghost Value = { List (List Bool) };

    ghost view = { λ r. r.rows.items };
}

impl Ranges {
    /// The subscripts that are seen in range. It takes a few steps for each operation of the program, and some for each class that an
    /// executable writes.
    pub fn new<const W: usize>(
        alloc: Global,
        p: &Program,
        c: &Classes<W>,
    ) -> Result<Ranges, NoMemory>
        requires width { IsWidth W }
        requires program { IsWellFormed p.now }
        requires classes { IsClasses p.now c.now }
        requires few { class_count c.now < 64 * W }
        ensures { IfOk result (λ ranges. AreRanges p.now c.now ranges) }
    {
        let reaches = loop_reaches(alloc, p, c)?;
        let mut current = no_reaches(alloc, p.names.len())?;
        let mut rows = Vec::new(alloc);
        for k in 0..p.execs.len() {
            let exec = p.execs.at(k);
            executable_fits(p, k, exec);
            rows.push(row_of(alloc, p, &current, k, &exec.kind)?)?;
            advance(p, &mut current, exec, reaches[k as usize]);
        }
        Ok(Ranges { rows })
    }

    /// How many subscripts an executable has.
    pub fn subs(&self, exec: u32) -> usize
        requires { exec < length self.now }
        ensures { result ≡ length (slice_index_or self.now exec []) }
    {
        self.rows[exec as usize].len()
    }

    /// Whether a subscript of an executable is seen in range.
    pub fn seen(&self, exec: u32, k: u32) -> bool
        requires executable { exec < length self.now }
        requires subscript { k < length (slice_index_or self.now exec []) }
        ensures { result ≡ slice_index_or (slice_index_or self.now exec []) k false }
    {
        self.rows[exec as usize].at(k)
    }
}

/// Before the first executable no name has a reach.
pub(crate) fn no_reaches(alloc: Global, names: u32) -> Result<Vec<Option<Reach>>, NoMemory>
    ensures { IfOk result (λ current. current.items ≡ replicate names None) }
{
    let mut current = Vec::new(alloc);
    for _k in 0..names {
        current.push(None)?;
    }
    Ok(current)
}

/// From an executable that begins a DO on, its variable has the reach of that.
pub(crate) fn advance(
    p: &Program,
    current: &mut Vec<Option<Reach>>,
    exec: &Exec,
    reach: Option<Reach>,
)
    requires executes { CanExecute p.now exec.now.kind }
    requires each { length current.old.items ≡ length p.now.names }
    ensures { current.new.items ≡ after_exec exec.now.kind reach current.old.items }
{
    if let ExecKind::DoStart { var, .. } = &exec.kind {
        current[*var as usize] = reach;
    }
}

/// An executable of a well-formed program can run.
pub(crate) fn executable_fits(p: &Program, k: u32, exec: &Exec)
    requires program { IsWellFormed p.now }
    requires executable { slice_get p.now.execs k ≡ Some exec.now }
    ensures { CanExecute p.now exec.now.kind }
{}
