// The lines of tokens of a program, as a part of a text.

ghost use Rattle.std.specs.Prelude.{◌≡◌, ◌<◌, ◌≤◌, ◌++◌, ◌∷◌, [], All, Some, length, slice_get, IfOk, OnOk, OnErr, codes, if◌then◌else◌};
ghost use Rattle.std.specs.Fmt.{decimal};
ghost use Rattle.alias_classes.specs.Classes.{IsClasses};
ghost use Rattle.class_set.specs.ClassSet.{holds};
ghost use Rattle.df_io.specs.Faults.{Rose};
ghost use Rattle.df_io.specs.TextBuffer.{IsWrittenBut};
ghost use Rattle.df_io.specs.Write.{AppendsPrefix};
ghost use Rattle.f77_tree.specs.Value.{IsAccess};
ghost use Rattle.f77_tree.specs.WellFormed.{IsWellFormed};
ghost use Rattle.f77_tree.specs.Loops.{begun, Loop};
ghost use Rattle.graph_texts.specs.GraphText.{class_lines, line_lines, loop_line as spec_loop_line, loop_lines};
ghost use Rattle.graph_texts.specs.NameSets.{AreNameSets, IsNameSet, held_names};

use crate::graph_line::{loop_line, numbered};
use alias_classes::{CLASS_WORDS, Classes};
use class_set::ClassSet;
use df_io::{NoMemory, Sink, TextBuffer, WriteFault};
use df_sequence::Sequence;
use f77_tree::{
    Access, Exec, ExecKind, Expr, NameInfo, NameInfoList, Program, well_formed_programs_can_run,
};
use std::alloc::Global;

/// For each name the classes of its words.
pub fn name_sets(
    alloc: Global,
    p: &Program,
    c: &Classes<CLASS_WORDS>,
) -> Result<Vec<ClassSet<CLASS_WORDS>>, NoMemory>
    requires program { IsWellFormed p.now }
    requires classes { IsClasses p.now c.now }
    ensures { IfOk result (λ sets. AreNameSets p.now.names c.now sets.items) }
{
    let mut sets = Vec::with_capacity(alloc, p.names.len() as usize)?;
    for name in 0..p.names.len() {
        sets.push(name_set(alloc, p, c, name)?)?;
    }
    Ok(sets)
}

// The classes of the words of a name.
fn name_set(
    alloc: Global,
    p: &Program,
    c: &Classes<CLASS_WORDS>,
    name: u32,
) -> Result<ClassSet<CLASS_WORDS>, NoMemory>
    requires program { IsWellFormed p.now }
    requires classes { IsClasses p.now c.now }
    requires name { name < length p.now.names }
    ensures { IfOk result (λ set. (info : NameInfo) → slice_get p.now.names name ≡ Some info → IsNameSet c.now info set) }
{
    well_formed_programs_can_run();
    let anywhere = anywhere_in(alloc, &p.names, name)?;
    Ok(c.hits(&anywhere))
}

// An access of the name whose subscripts nothing is known of, so that it hits each class of the name.
fn anywhere_in(alloc: Global, names: &NameInfoList, name: u32) -> Result<Access, NoMemory>
    requires { name < length names.now }
    ensures access { IfOk result (IsAccess names.now) }
    ensures name { IfOk result (λ access. access.name ≡ name) }
    ensures unknown { IfOk result (λ access. All (λ e. e ≡ Expr.Input) access.subs) }
{
    let mut subs = Sequence::new(alloc);
    for _ in 0..names.at(name).dims.len() {
        subs.push(Expr::Input)?;
    }
    Ok(Access { name, subs })
}

/// Appends the lines: that of output, the classes of words with their names, and the classes of the DOs with the lines of their
/// statements.
pub fn tell_lines<K: Sink>(
    p: &Program,
    c: &Classes<CLASS_WORDS>,
    name_sets: &[ClassSet<CLASS_WORDS>],
    buffer: &mut TextBuffer,
    sink: &mut K,
) -> Result<(), WriteFault>
    requires program { IsWellFormed p.now }
    requires classes { IsClasses p.now c.now }
    requires sets { AreNameSets p.now.names c.now name_sets.now }
    ensures text { OnOk result (IsWrittenBut buffer.new (K.got sink.old) (K.got sink.new) (buffer.old ++ line_lines p.now c.now)) }
    ensures prefix { OnErr result (AppendsPrefix (K.got sink.old) (K.got sink.new) (buffer.old ++ line_lines p.now c.now)) }
    ensures later { K.faults sink.old ≤ K.faults sink.new }
    ensures fault { OnErr result (Rose (K.faults sink.old) (K.faults sink.new)) }
{
    buffer.append(b"L 0 *OUT\n", sink)?;
    tell_classes(p, c, name_sets, buffer, sink)?;
    tell_loops(p, c, buffer, sink)
}

// Appends the classes of words with their names.
fn tell_classes<K: Sink>(
    p: &Program,
    c: &Classes<CLASS_WORDS>,
    name_sets: &[ClassSet<CLASS_WORDS>],
    buffer: &mut TextBuffer,
    sink: &mut K,
) -> Result<(), WriteFault>
    requires classes { IsClasses p.now c.now }
    requires sets { AreNameSets p.now.names c.now name_sets.now }
    ensures text { OnOk result (IsWrittenBut buffer.new (K.got sink.old) (K.got sink.new) (buffer.old ++ class_lines p.now.names c.now)) }
    ensures prefix { OnErr result (AppendsPrefix (K.got sink.old) (K.got sink.new) (buffer.old ++ class_lines p.now.names c.now)) }
    ensures later { K.faults sink.old ≤ K.faults sink.new }
    ensures fault { OnErr result (Rose (K.faults sink.old) (K.faults sink.new)) }
{
    for class in 1..c.count() - p.loops + 1 {
        tell_class(&p.names, name_sets, class, buffer, sink)?;
    }
    Ok(())
}

// Appends a class with its names.
fn tell_class<K: Sink>(
    names: &NameInfoList,
    name_sets: &[ClassSet<CLASS_WORDS>],
    class: u32,
    buffer: &mut TextBuffer,
    sink: &mut K,
) -> Result<(), WriteFault>
    requires { length name_sets.now ≡ length names.now }
    ensures text { OnOk result (IsWrittenBut buffer.new (K.got sink.old) (K.got sink.new) (buffer.old ++ (codes "L " ++ decimal class ++ held_names names.now name_sets.now class ++ 10 ∷ []))) }
    ensures prefix { OnErr result (AppendsPrefix (K.got sink.old) (K.got sink.new) (buffer.old ++ (codes "L " ++ decimal class ++ held_names names.now name_sets.now class ++ 10 ∷ []))) }
    ensures later { K.faults sink.old ≤ K.faults sink.new }
    ensures fault { OnErr result (Rose (K.faults sink.old) (K.faults sink.new)) }
{
    buffer.append(numbered(b"L ", class).as_bytes(), sink)?;
    tell_names(names, name_sets, class, buffer, sink)?;
    buffer.append(b"\n", sink)
}

// Appends the names in whose sets the class is, each after a blank.
fn tell_names<K: Sink>(
    names: &NameInfoList,
    name_sets: &[ClassSet<CLASS_WORDS>],
    class: u32,
    buffer: &mut TextBuffer,
    sink: &mut K,
) -> Result<(), WriteFault>
    requires { length name_sets.now ≡ length names.now }
    ensures text { OnOk result (IsWrittenBut buffer.new (K.got sink.old) (K.got sink.new) (buffer.old ++ held_names names.now name_sets.now class)) }
    ensures prefix { OnErr result (AppendsPrefix (K.got sink.old) (K.got sink.new) (buffer.old ++ held_names names.now name_sets.now class)) }
    ensures later { K.faults sink.old ≤ K.faults sink.new }
    ensures fault { OnErr result (Rose (K.faults sink.old) (K.faults sink.new)) }
{
    for k in 0..names.len() {
        let set = &name_sets[k as usize];
        tell_name(names.at(k), set, class, buffer, sink)?;
    }
    Ok(())
}

// Appends the name after a blank, where its set has the class.
fn tell_name<K: Sink>(
    info: &NameInfo,
    set: &ClassSet<CLASS_WORDS>,
    class: u32,
    buffer: &mut TextBuffer,
    sink: &mut K,
) -> Result<(), WriteFault>
    ensures text { OnOk result (IsWrittenBut buffer.new (K.got sink.old) (K.got sink.new) (buffer.old ++ (if holds set.now class then 32 ∷ info.now.name else []))) }
    ensures prefix { OnErr result (AppendsPrefix (K.got sink.old) (K.got sink.new) (buffer.old ++ (if holds set.now class then 32 ∷ info.now.name else []))) }
    ensures later { K.faults sink.old ≤ K.faults sink.new }
    ensures fault { OnErr result (Rose (K.faults sink.old) (K.faults sink.new)) }
{
    if !set.holds(class) {
        return Ok(());
    }
    buffer.append(b" ", sink)?;
    buffer.append(info.name.as_bytes(), sink)
}

// Appends the classes of the DOs.
fn tell_loops<K: Sink>(
    p: &Program,
    c: &Classes<CLASS_WORDS>,
    buffer: &mut TextBuffer,
    sink: &mut K,
) -> Result<(), WriteFault>
    requires program { IsWellFormed p.now }
    requires classes { IsClasses p.now c.now }
    ensures text { OnOk result (IsWrittenBut buffer.new (K.got sink.old) (K.got sink.new) (buffer.old ++ loop_lines c.now p.now.execs)) }
    ensures prefix { OnErr result (AppendsPrefix (K.got sink.old) (K.got sink.new) (buffer.old ++ loop_lines c.now p.now.execs)) }
    ensures later { K.faults sink.old ≤ K.faults sink.new }
    ensures fault { OnErr result (Rose (K.faults sink.old) (K.faults sink.new)) }
{
    for k in 0..p.execs.len() {
        tell_loop(p.execs.at(k), c, buffer, sink)?;
    }
    Ok(())
}

// Appends the class of the DO that the executable begins, if it does.
fn tell_loop<K: Sink>(
    exec: &Exec,
    c: &Classes<CLASS_WORDS>,
    buffer: &mut TextBuffer,
    sink: &mut K,
) -> Result<(), WriteFault>
    requires { (loop : Loop) → begun exec.now.kind ≡ Some loop → loop.number < c.now.loops }
    ensures text { OnOk result (IsWrittenBut buffer.new (K.got sink.old) (K.got sink.new) (buffer.old ++ spec_loop_line c.now exec.now.kind exec.now.line)) }
    ensures prefix { OnErr result (AppendsPrefix (K.got sink.old) (K.got sink.new) (buffer.old ++ spec_loop_line c.now exec.now.kind exec.now.line)) }
    ensures later { K.faults sink.old ≤ K.faults sink.new }
    ensures fault { OnErr result (Rose (K.faults sink.old) (K.faults sink.new)) }
{
    match exec.kind {
        ExecKind::DoStart { loop_no, .. } => {
            let line = loop_line(c.of_loop(loop_no), exec.line);
            buffer.append(line.as_str().as_bytes(), sink)
        }
        _ => Ok(()),
    }
}
