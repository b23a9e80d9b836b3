//! The making of the table of constants.

ghost use Rattle.std.specs.Prelude.{◌≡◌, ◌≤◌, ◌+◌, ◌*◌, length, IfOk};
ghost use Rattle.class_set.specs.Members.{IsWidth};
ghost use Rattle.closed_walks.specs.Graph.{edge_count};
ghost use Rattle.f77_tree.specs.WellFormed.{IsWellFormed};
ghost use Rattle.alias_classes.specs.Classes.{IsClasses, class_count};
ghost use Rattle.cfg_build.specs.Flow.{flow};
ghost use Rattle.dep_routing.specs.Touch.{touches_in};
ghost use Rattle.dep_routing.specs.Touches.{AreTouches};
ghost use Rattle.const_prop.specs.Closed.{IsConstants};
ghost use Rattle.const_prop.specs.KnownRows.{edges_of};
ghost use Rattle.const_prop.specs.Right.{IsProgramRouting};
ghost use Rattle.const_prop.specs.Table.{knowns_of};

use crate::facts::program_facts;
use crate::setting::Setting;
use crate::table::Table;
use crate::work::Work;
use alias_classes::Classes;
use cfg_build::Flow;
use dep_routing::{Lines, TouchList, next_edges};
use df_sequence::NoMemory;
use f77_tree::Program;
use std::alloc::Global;

/// The constants of a program: the least closed table over its wires. It takes a few steps for each wire and each time that more is
/// known there, which is twice at most.
pub fn constants<const W: usize>(
    alloc: Global,
    p: &Program,
    f: &Flow,
    c: &Classes<W>,
    touch: &TouchList<W>,
    l: &Lines<W>,
) -> Result<Table<W>, NoMemory>
    requires width { IsWidth W }
    requires program { IsWellFormed p.now }
    requires flow { f.now ≡ flow p.now.execs }
    requires classes { IsClasses p.now c.now }
    requires pieces { length touch.now ≡ f.now.graph.nodes }
    requires touches { AreTouches p.now c.now (touches_in touch.now) }
    requires routing { IsProgramRouting p.now (touches_in touch.now) (class_count c.now + 1) l.now }
    ensures lines { IfOk result (λ t. t.known.lines ≡ l.now.lines) }
    ensures edges { IfOk result (λ t. edges_of t.known ≡ edge_count f.now.graph) }
    ensures pieces { IfOk result (λ t. length t.decisions ≡ f.now.graph.nodes) }
    ensures constants { IfOk result (λ t. IsConstants p.now f.now c.now (touches_in touch.now) l.now (knowns_of t)) }
{
    program_facts();
    next_edges();
    lines_are_few(c);
    let s = Setting::new(alloc, p, f, c, touch, l)?;
    let mut work = Work::blank(alloc, &s)?;
    work.open(&s);
    work.settle(&s);
    let Work {
        known,
        decisions,
        pending: _,
        waits: _,
    } = work;
    Ok(Table { known, decisions })
}

/// The lines of a program, output and its classes, are no more than a set can have.
fn lines_are_few<const W: usize>(c: &Classes<W>)
    requires { IsWidth W }
    ensures { class_count c.now + 1 ≤ 64 * W }
{
    let _count = c.count();
}
