//! The main program with copies in place of its CALLs, and with what is merged.
ghost use Rattle.std.specs.Prelude.{◌≡◌, ◌<◌, ◌≤◌, ◌^◌, ℕ, List, length, nat_lt, not, bytes_eq, IfOk};
ghost use Rattle.indexmap.specs.IndexMap.{get};
ghost use Rattle.layout_rules.specs.Order.{rank};
ghost use Rattle.program_units.specs.CallTable.{unit_named};
ghost use Rattle.program_units.specs.Expansion.{declared_first as declared_first_of, total_width, whole_list as whole_list_of};
ghost use Rattle.program_units.specs.Heights.{NoneCallsItself};
ghost use Rattle.inlined_copies.specs.LabelCounts.{labels_of};
ghost use Rattle.inlined_copies.specs.NamedTables.{AreTablesFor};
ghost use Rattle.program_units.specs.Units.{AreFit};

use crate::merging::Merging;
use crate::unit_tables::unit_tables;
use df_sequence::{NoMemory, Sequence};
use f77_tree::{Labelled, LabelledList, Name, Stmt};
use indexmap::IndexMap;
use inlined_copies::{CopyOf, CopyTables, LabelCounts, label_counts};
use program_units::Units;
use std::alloc::Global;

// A copy has fewer labels than this.
const MOST_LABELS: u32 = 1 << 20;

/// The list of a text whose units nothing refuses. It takes a time linear in the list and in the text, but for the counts of
/// labels, which take as many rounds over all CALLs as there are units.
pub(crate) fn whole_list(
    alloc: Global,
    us: &Units,
    index: &IndexMap<Name, usize>,
    put: &Merging,
) -> Result<LabelledList, NoMemory>
    requires same { put.now.new.now.text.now.us.now ≡ us.now }
    requires index { (name : List ℕ) → get bytes_eq index.now name ≡ unit_named us.now name }
    requires none { NoneCallsItself us.now }
    requires fit { AreFit us.now }
    requires few { total_width us.now ≤ 4000 }
    ensures { IfOk result (λ list. list ≡ whole_list_of us.now) }
{
    let counts = label_counts(alloc, us, index, MOST_LABELS)?;
    let units = LabelCounts {
        us,
        index,
        counts: &counts,
    };
    let tables = unit_tables(alloc, put.new, &units)?;
    let copies = CopyTables {
        units,
        tables: &tables,
    };
    let list = put_whole(alloc, &copies, put)?;
    in_sequence(alloc, list)
}

// The list, by the tables of all units.
fn put_whole(alloc: Global, copies: &CopyTables, put: &Merging) -> Result<Vec<Labelled>, NoMemory>
    requires same { put.now.new.now.text.now.us.now ≡ copies.now.units.us.now }
    requires tables { AreTablesFor copies.now }
    requires few { total_width copies.now.units.us.now ≤ 4000 }
    ensures { IfOk result (λ list. list.items ≡ whole_list_of copies.now.units.us.now) }
{
    let us = copies.units.us;
    let main = us.at(0);
    let copy = CopyOf {
        table: &copies.tables[0],
        arguments: &[],
        base: 0,
    };
    let first = declared_first(main);
    let before = labels_in_main(&copies.units, &main[..first]);
    let mut out = Vec::new(alloc);
    copies.put_pieces(alloc, &mut out, us.len(), 0, &copy, 0, &main[..first])?;
    put.put_all(alloc, &mut out)?;
    copies.put_pieces(alloc, &mut out, us.len(), 0, &copy, before, &main[first..])?;
    Ok(out)
}

// The statements of a program, as the list that layout reads.
fn in_sequence(alloc: Global, stmts: Vec<Labelled>) -> Result<LabelledList, NoMemory>
    requires few { length stmts.items ≤ 4000 }
    ensures { IfOk result (λ list. list ≡ stmts.items) }
{
    let mut list = Sequence::with_capacity(alloc, stmts.len())?;
    for s in stmts {
        list.push(s)?;
    }
    Ok(list)
}

// How many statements of the main program stand before its first DATA or executable statement.
fn declared_first(main: &[Labelled]) -> usize
    ensures count { result ≡ declared_first_of main.now }
    ensures inside { result ≤ length main.now }
{
    for i in 0..main.len() {
        if !is_declared_first(&main[i].stmt) {
            return i;
        }
    }
    main.len()
}

// Whether a statement stands before DATA and executable statements.
fn is_declared_first(stmt: &Stmt) -> bool
    ensures { result ≡ not (nat_lt 2 (rank stmt.now)) }
{
    matches!(
        stmt,
        Stmt::Program
            | Stmt::Implicit(_)
            | Stmt::ImplicitNone
            | Stmt::TypeOf(_, _)
            | Stmt::Dimension(_)
            | Stmt::Common(_)
            | Stmt::Equivalence(_)
    )
}

// How many labels stand for statements of the main program.
fn labels_in_main(units: &LabelCounts, stmts: &[Labelled]) -> u32
    requires { labels_of units.now.us.now units.now.counts.now 0 stmts.now < 2 ^ 20 }
    ensures { result ≡ labels_of units.now.us.now units.now.counts.now 0 stmts.now }
{
    let mut total = 0;
    for s in stmts {
        total += units.labels(0, s);
    }
    total
}
