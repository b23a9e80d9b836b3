//! What pieces write and decide.

ghost use Rattle.std.specs.Prelude.{◌≡◌, ◌<◌, ◌^◌, ◌↔◌, [], pos, IsTrue, length};
ghost use Rattle.closed_walks.specs.Graph.{edge_count};
ghost use Rattle.op_table.specs.Operators.{which_of_three, picked};
ghost use Rattle.op_table.specs.Trips.{at_least_zero};
ghost use Rattle.f77_tree.specs.CanRun.{CanExecute};
ghost use Rattle.f77_tree.specs.Control.{targets_of};
ghost use Rattle.alias_classes.specs.Writes.{ExecWritesOrCounts};
ghost use Rattle.const_prop.specs.Closed.{words_on, selected as spec_selected};
ghost use Rattle.const_prop.specs.Closed.{written as spec_written};
ghost use Rattle.const_prop.specs.Known.{as_known as spec_as_known};
ghost use Rattle.const_prop.specs.KnownRows.{edges_of};
ghost use Rattle.const_prop.specs.Setting.{IsSetting};
ghost use Rattle.const_prop.specs.Table.{knowns};

use crate::known::Known;
use crate::known_rows::KnownRows;
use crate::known_values::known_value;
use crate::setting::Setting;
use alias_classes::known_word;
use f77_tree::ExecKind;

/// The value where it is told, else any.
fn as_known(value: Option<i32>) -> Known
    ensures { result ≡ spec_as_known value }
{
    match value {
        Some(v) => Known::One(v),
        None => Known::Any,
    }
}

/// What an executable leaves on a line that it writes.
pub(crate) fn written<const W: usize>(
    s: &Setting<W>,
    rows: &KnownRows<W>,
    edge: u32,
    kind: &ExecKind,
    line: u32,
) -> Known
    requires setting { IsSetting s.now.program.now s.now.flow.now s.now.classes.now s.now.touch.now s.now.lines.now s.now.one_word.items s.now.outs.items s.now.touched.items }
    requires lines { rows.now.lines ≡ s.now.lines.now.lines }
    requires edges { edges_of rows.now ≡ edge_count s.now.flow.now.graph }
    requires edge { edge < edge_count s.now.flow.now.graph }
    requires line { line < s.now.lines.now.lines }
    requires exec { CanExecute s.now.program.now kind.now }
    ensures { result ≡ spec_written s.now.program.now.names s.now.classes.now (words_on s.now.classes.now (knowns rows.now []) edge) kind.now line }
{
    let one_word = s.one_word[line as usize];
    match kind {
        ExecKind::Assign { target, value, .. } => {
            let word = known_word(&s.program.names, s.program.initial.as_slice(), target);
            if word.is_some() && one_word {
                as_known(known_value(s.program, s.classes, rows, edge, value))
            } else {
                Known::Any
            }
        }
        ExecKind::DoStart { first, .. } => {
            if one_word {
                as_known(known_value(s.program, s.classes, rows, edge, first))
            } else {
                Known::Any
            }
        }
        _ => Known::Any,
    }
}

/// Whether an executable writes to a word of the line, or may do so.
pub(crate) fn writes<const W: usize>(s: &Setting<W>, kind: &ExecKind, line: u32) -> bool
    requires setting { IsSetting s.now.program.now s.now.flow.now s.now.classes.now s.now.touch.now s.now.lines.now s.now.one_word.items s.now.outs.items s.now.touched.items }
    requires exec { CanExecute s.now.program.now kind.now }
    ensures { IsTrue result ↔ ExecWritesOrCounts s.now.classes.now kind.now line }
{
    match kind {
        ExecKind::Assign { target, .. } => s.classes.hits(target).holds(line),
        ExecKind::DoStart { loop_no, var, .. } | ExecKind::DoNext { loop_no, var, .. } => {
            s.classes.of_word(s.program.names.at(*var).place) == line
                || s.classes.of_loop(*loop_no) == line
        }
        _ => false,
    }
}

/// The place of the out-edge that the known selector of a branch takes, among those of the branch.
pub(crate) fn selected<const W: usize>(
    s: &Setting<W>,
    rows: &KnownRows<W>,
    edge: u32,
    kind: &ExecKind,
) -> Known
    requires setting { IsSetting s.now.program.now s.now.flow.now s.now.classes.now s.now.touch.now s.now.lines.now s.now.one_word.items s.now.outs.items s.now.touched.items }
    requires lines { rows.now.lines ≡ s.now.lines.now.lines }
    requires edges { edges_of rows.now ≡ edge_count s.now.flow.now.graph }
    requires edge { edge < edge_count s.now.flow.now.graph }
    requires exec { CanExecute s.now.program.now kind.now }
    requires few { length (targets_of kind.now) < 2 ^ 31 }
    ensures { result ≡ spec_selected s.now.program.now.names (words_on s.now.classes.now (knowns rows.now []) edge) kind.now }
{
    match kind {
        ExecKind::Test { cond, .. } => match known_value(s.program, s.classes, rows, edge, cond) {
            Some(z) => Known::One(if z != 0 { 0 } else { 1 }),
            None => Known::Any,
        },
        ExecKind::Sign { value, .. } => match known_value(s.program, s.classes, rows, edge, value) {
            Some(z) => Known::One(place_by_sign(z)),
            None => Known::Any,
        },
        ExecKind::Pick { value, targets, .. } => match known_value(
            s.program, s.classes, rows, edge, value,
        ) {
            Some(z) => Known::One(place_by_number(z, targets.len())),
            None => Known::Any,
        },
        _ => Known::Any,
    }
}

/// The place among the out-edges of an arithmetic IF.
fn place_by_sign(z: i32) -> i32
    ensures { result ≡ pos (at_least_zero (which_of_three z)) }
{
    if z < 0 {
        0
    } else if z == 0 {
        1
    } else {
        2
    }
}

/// The place among the out-edges of a computed GO TO.
fn place_by_number(z: i32, targets: u32) -> i32
    requires { targets < 2 ^ 31 }
    ensures { result ≡ pos (at_least_zero (picked z (pos targets))) }
{
    if z < 1 || targets < z as u32 {
        targets as i32
    } else {
        z - 1
    }
}
