// The nodes of a net of operations, as a part of a text.

ghost use Rattle.std.specs.Prelude.{◌≡◌, ◌<◌, ◌≤◌, ◌∷◌, ◌++◌, [], codes, filter, length, MatchOption, OnOk, OnErr};
ghost use Rattle.std.specs.Fmt.{decimal};
ghost use Rattle.std.specs.List.{range_with_len};
ghost use Rattle.alias_classes.specs.declared.TheConstants.{CLASS_WORDS};
ghost use Rattle.class_set.specs.ClassSet.{holds};
ghost use Rattle.df_io.specs.Faults.{Rose};
ghost use Rattle.df_io.specs.TextBuffer.{IsWrittenBut};
ghost use Rattle.df_io.specs.Write.{AppendsPrefix};
ghost use Rattle.op_board.specs.OperationNets.{operation_node};
ghost use Rattle.operation_tables.specs.GraphView.{operations_of};
ghost use Rattle.operation_tables.specs.Telling.{IsOperation};
ghost use Rattle.operation_tables.specs.Waits.{node_total};
ghost use Rattle.graph_texts.specs.Below.{IsLastBelow, IsNextBelow};
ghost use Rattle.graph_texts.specs.GivenText.{given_text};
ghost use Rattle.graph_texts.specs.GraphText.{has_operands as has_operands_in, node_line, node_lines, node_text, numbers_text, operands_text, value_lines, value_text};

use crate::graph_line::numbered;
use crate::operation_names::name_of;
use alias_classes::CLASS_WORDS;
use class_set::ClassSet;
use df_io::{Sink, TextBuffer, WriteFault};
use firing::NodeName;
use operation_lists::Operand;
use operation_tables::OpGraph;

/// Appends the nodes of a net with so many lines: each with its name, and an operation with what it does and the lines that it needs.
pub fn tell_nodes<K: Sink>(
    net: &OpGraph<'_, CLASS_WORDS>,
    lines: u32,
    buffer: &mut TextBuffer,
    sink: &mut K,
) -> Result<(), WriteFault>
    requires lines { lines ≡ (operations_of net.now).net.routing.lines }
    ensures text { OnOk result (IsWrittenBut buffer.new (K.got sink.old) (K.got sink.new) (buffer.old ++ node_lines (operations_of net.now))) }
    ensures prefix { OnErr result (AppendsPrefix (K.got sink.old) (K.got sink.new) (buffer.old ++ node_lines (operations_of net.now))) }
    ensures later { K.faults sink.old ≤ K.faults sink.new }
    ensures fault { OnErr result (Rose (K.faults sink.old) (K.faults sink.new)) }
{
    for k in 0..net.nodes() {
        tell_node(net, lines, k, buffer, sink)?;
    }
    Ok(())
}

// Appends the line of a node.
fn tell_node<K: Sink>(
    net: &OpGraph<'_, CLASS_WORDS>,
    lines: u32,
    k: u32,
    buffer: &mut TextBuffer,
    sink: &mut K,
) -> Result<(), WriteFault>
    requires lines { lines ≡ (operations_of net.now).net.routing.lines }
    requires node { k < node_total (operations_of net.now) }
    ensures text { OnOk result (IsWrittenBut buffer.new (K.got sink.old) (K.got sink.new) (buffer.old ++ node_line (operations_of net.now) k)) }
    ensures prefix { OnErr result (AppendsPrefix (K.got sink.old) (K.got sink.new) (buffer.old ++ node_line (operations_of net.now) k)) }
    ensures later { K.faults sink.old ≤ K.faults sink.new }
    ensures fault { OnErr result (Rose (K.faults sink.old) (K.faults sink.new)) }
{
    tell_numbered(b"N ", k, buffer, sink)?;
    tell_name(net, lines, k, buffer, sink)?;
    buffer.append(b"\n", sink)
}

// Appends the name of a node, after a blank.
fn tell_name<K: Sink>(
    net: &OpGraph<'_, CLASS_WORDS>,
    lines: u32,
    k: u32,
    buffer: &mut TextBuffer,
    sink: &mut K,
) -> Result<(), WriteFault>
    requires lines { lines ≡ (operations_of net.now).net.routing.lines }
    requires node { k < node_total (operations_of net.now) }
    ensures text { OnOk result (IsWrittenBut buffer.new (K.got sink.old) (K.got sink.new) (buffer.old ++ node_text (operations_of net.now) (operation_node (operations_of net.now) k))) }
    ensures prefix { OnErr result (AppendsPrefix (K.got sink.old) (K.got sink.new) (buffer.old ++ node_text (operations_of net.now) (operation_node (operations_of net.now) k))) }
    ensures later { K.faults sink.old ≤ K.faults sink.new }
    ensures fault { OnErr result (Rose (K.faults sink.old) (K.faults sink.new)) }
{
    match net.name(k) {
        NodeName::Op(piece, i) => tell_operation(net, lines, k, piece, i, buffer, sink),
        NodeName::Switch(piece, line) => tell_two(b" SWITCH ", piece, line, buffer, sink),
        NodeName::Merge(piece, line) => tell_two(b" MERGE ", piece, line, buffer, sink),
        NodeName::Act(piece) => tell_numbered(b" ACT ", piece, buffer, sink),
    }
}

// Appends the name of an operation, with what it does and the lines that it needs.
fn tell_operation<K: Sink>(
    net: &OpGraph<'_, CLASS_WORDS>,
    lines: u32,
    k: u32,
    piece: u32,
    i: u32,
    buffer: &mut TextBuffer,
    sink: &mut K,
) -> Result<(), WriteFault>
    requires lines { lines ≡ (operations_of net.now).net.routing.lines }
    requires node { k < node_total (operations_of net.now) }
    requires operation { operation_node (operations_of net.now) k ≡ NodeName.Op piece i }
    ensures text { OnOk result (IsWrittenBut buffer.new (K.got sink.old) (K.got sink.new) (buffer.old ++ node_text (operations_of net.now) (NodeName.Op piece i))) }
    ensures prefix { OnErr result (AppendsPrefix (K.got sink.old) (K.got sink.new) (buffer.old ++ node_text (operations_of net.now) (NodeName.Op piece i))) }
    ensures later { K.faults sink.old ≤ K.faults sink.new }
    ensures fault { OnErr result (Rose (K.faults sink.old) (K.faults sink.new)) }
{
    tell_two(b" OP ", piece, i, buffer, sink)?;
    tell_word(name_of(net.op_name(k)).as_bytes(), buffer, sink)?;
    tell_below(&net.needs(k), lines, buffer, sink)
}

// Appends a word after a blank.
fn tell_word<K: Sink>(word: &[u8], buffer: &mut TextBuffer, sink: &mut K) -> Result<(), WriteFault>
    ensures text { OnOk result (IsWrittenBut buffer.new (K.got sink.old) (K.got sink.new) (buffer.old ++ (32 ∷ word.now))) }
    ensures prefix { OnErr result (AppendsPrefix (K.got sink.old) (K.got sink.new) (buffer.old ++ (32 ∷ word.now))) }
    ensures later { K.faults sink.old ≤ K.faults sink.new }
    ensures fault { OnErr result (Rose (K.faults sink.old) (K.faults sink.new)) }
{
    buffer.append(b" ", sink)?;
    buffer.append(word, sink)
}

// Appends a number after a blank.
fn tell_number<K: Sink>(n: u32, buffer: &mut TextBuffer, sink: &mut K) -> Result<(), WriteFault>
    ensures text { OnOk result (IsWrittenBut buffer.new (K.got sink.old) (K.got sink.new) (buffer.old ++ (32 ∷ decimal n))) }
    ensures prefix { OnErr result (AppendsPrefix (K.got sink.old) (K.got sink.new) (buffer.old ++ (32 ∷ decimal n))) }
    ensures later { K.faults sink.old ≤ K.faults sink.new }
    ensures fault { OnErr result (Rose (K.faults sink.old) (K.faults sink.new)) }
{
    buffer.append(numbered(b" ", n).as_bytes(), sink)
}

/// Appends a word of at most eight characters and a number.
pub fn tell_numbered<K: Sink>(
    word: &[u8],
    n: u32,
    buffer: &mut TextBuffer,
    sink: &mut K,
) -> Result<(), WriteFault>
    requires { length word.now ≤ 8 }
    ensures text { OnOk result (IsWrittenBut buffer.new (K.got sink.old) (K.got sink.new) (buffer.old ++ (word.now ++ decimal n))) }
    ensures prefix { OnErr result (AppendsPrefix (K.got sink.old) (K.got sink.new) (buffer.old ++ (word.now ++ decimal n))) }
    ensures later { K.faults sink.old ≤ K.faults sink.new }
    ensures fault { OnErr result (Rose (K.faults sink.old) (K.faults sink.new)) }
{
    buffer.append(numbered(word, n).as_bytes(), sink)
}

// Appends a word of at most eight characters and two numbers.
fn tell_two<K: Sink>(
    word: &[u8],
    a: u32,
    b: u32,
    buffer: &mut TextBuffer,
    sink: &mut K,
) -> Result<(), WriteFault>
    requires { length word.now ≤ 8 }
    ensures text { OnOk result (IsWrittenBut buffer.new (K.got sink.old) (K.got sink.new) (buffer.old ++ (word.now ++ decimal a ++ 32 ∷ decimal b))) }
    ensures prefix { OnErr result (AppendsPrefix (K.got sink.old) (K.got sink.new) (buffer.old ++ (word.now ++ decimal a ++ 32 ∷ decimal b))) }
    ensures later { K.faults sink.old ≤ K.faults sink.new }
    ensures fault { OnErr result (Rose (K.faults sink.old) (K.faults sink.new)) }
{
    tell_numbered(word, a, buffer, sink)?;
    tell_number(b, buffer, sink)
}

// Appends the members of a set that are below a number, rising, each after a blank.
fn tell_below<K: Sink>(
    set: &ClassSet<CLASS_WORDS>,
    end: u32,
    buffer: &mut TextBuffer,
    sink: &mut K,
) -> Result<(), WriteFault>
    ensures text { OnOk result (IsWrittenBut buffer.new (K.got sink.old) (K.got sink.new) (buffer.old ++ numbers_text (filter (holds set.now) (range_with_len 0 end)))) }
    ensures prefix { OnErr result (AppendsPrefix (K.got sink.old) (K.got sink.new) (buffer.old ++ numbers_text (filter (holds set.now) (range_with_len 0 end)))) }
    ensures later { K.faults sink.old ≤ K.faults sink.new }
    ensures fault { OnErr result (Rose (K.faults sink.old) (K.faults sink.new)) }
{
    let mut before = None;
    while let Some(n) = next_below(set, before, end) {
        tell_number(n, buffer, sink)?;
        before = Some(n);
    }
    Ok(())
}

// The least member of a set above a number, where it is below another one.
fn next_below(set: &ClassSet<CLASS_WORDS>, before: Option<u32>, end: u32) -> Option<u32>
    ensures { MatchOption result (IsLastBelow (holds set.now) before end) (IsNextBelow (holds set.now) before end) }
{
    match set.next_after(before) {
        Some(n) => { if n < end { Some(n) } else { None } }
        None => None,
    }
}

/// Appends the operands of the operations that have some.
pub fn tell_values<K: Sink>(
    net: &OpGraph<'_, CLASS_WORDS>,
    buffer: &mut TextBuffer,
    sink: &mut K,
) -> Result<(), WriteFault>
    ensures text { OnOk result (IsWrittenBut buffer.new (K.got sink.old) (K.got sink.new) (buffer.old ++ value_lines (operations_of net.now))) }
    ensures prefix { OnErr result (AppendsPrefix (K.got sink.old) (K.got sink.new) (buffer.old ++ value_lines (operations_of net.now))) }
    ensures later { K.faults sink.old ≤ K.faults sink.new }
    ensures fault { OnErr result (Rose (K.faults sink.old) (K.faults sink.new)) }
{
    for k in 0..net.nodes() {
        tell_value(net, k, buffer, sink)?;
    }
    Ok(())
}

// Appends the line of the operands of a node, if it has some.
fn tell_value<K: Sink>(
    net: &OpGraph<'_, CLASS_WORDS>,
    k: u32,
    buffer: &mut TextBuffer,
    sink: &mut K,
) -> Result<(), WriteFault>
    requires node { k < node_total (operations_of net.now) }
    ensures text { OnOk result (IsWrittenBut buffer.new (K.got sink.old) (K.got sink.new) (buffer.old ++ value_text (operations_of net.now) k (operation_node (operations_of net.now) k))) }
    ensures prefix { OnErr result (AppendsPrefix (K.got sink.old) (K.got sink.new) (buffer.old ++ value_text (operations_of net.now) k (operation_node (operations_of net.now) k))) }
    ensures later { K.faults sink.old ≤ K.faults sink.new }
    ensures fault { OnErr result (Rose (K.faults sink.old) (K.faults sink.new)) }
{
    let has = has_operands(net, k);
    if has {
        tell_operands_line(net, k, buffer, sink)
    } else {
        Ok(())
    }
}

// Appends the line of the operands of an operation.
fn tell_operands_line<K: Sink>(
    net: &OpGraph<'_, CLASS_WORDS>,
    k: u32,
    buffer: &mut TextBuffer,
    sink: &mut K,
) -> Result<(), WriteFault>
    requires node { k < node_total (operations_of net.now) }
    requires operation { IsOperation (operation_node (operations_of net.now) k) }
    ensures text { OnOk result (IsWrittenBut buffer.new (K.got sink.old) (K.got sink.new) (buffer.old ++ (codes "V " ++ decimal k ++ operands_text (operations_of net.now) (operation_node (operations_of net.now) k) ++ 10 ∷ []))) }
    ensures prefix { OnErr result (AppendsPrefix (K.got sink.old) (K.got sink.new) (buffer.old ++ (codes "V " ++ decimal k ++ operands_text (operations_of net.now) (operation_node (operations_of net.now) k) ++ 10 ∷ []))) }
    ensures later { K.faults sink.old ≤ K.faults sink.new }
    ensures fault { OnErr result (Rose (K.faults sink.old) (K.faults sink.new)) }
{
    tell_numbered(b"V ", k, buffer, sink)?;
    tell_operands(net, k, buffer, sink)?;
    buffer.append(b"\n", sink)
}

// Whether the node is an operation with operands.
fn has_operands(net: &OpGraph<'_, CLASS_WORDS>, k: u32) -> bool
    requires node { k < node_total (operations_of net.now) }
    ensures { result ≡ has_operands_in (operations_of net.now) (operation_node (operations_of net.now) k) }
{
    match net.name(k) {
        NodeName::Op(_, _) => 0 < net.operands(k),
        _ => false,
    }
}

// Appends the operands of an operation.
fn tell_operands<K: Sink>(
    net: &OpGraph<'_, CLASS_WORDS>,
    k: u32,
    buffer: &mut TextBuffer,
    sink: &mut K,
) -> Result<(), WriteFault>
    requires node { k < node_total (operations_of net.now) }
    requires operation { IsOperation (operation_node (operations_of net.now) k) }
    ensures text { OnOk result (IsWrittenBut buffer.new (K.got sink.old) (K.got sink.new) (buffer.old ++ operands_text (operations_of net.now) (operation_node (operations_of net.now) k))) }
    ensures prefix { OnErr result (AppendsPrefix (K.got sink.old) (K.got sink.new) (buffer.old ++ operands_text (operations_of net.now) (operation_node (operations_of net.now) k))) }
    ensures later { K.faults sink.old ≤ K.faults sink.new }
    ensures fault { OnErr result (Rose (K.faults sink.old) (K.faults sink.new)) }
{
    for i in 0..net.operands(k) {
        tell_operand(net.operand(k, i), buffer, sink)?;
    }
    Ok(())
}

// Appends an operand after a blank: the node that gives it, or its known value.
fn tell_operand<K: Sink>(
    operand: Operand,
    buffer: &mut TextBuffer,
    sink: &mut K,
) -> Result<(), WriteFault>
    ensures text { OnOk result (IsWrittenBut buffer.new (K.got sink.old) (K.got sink.new) (buffer.old ++ given_text operand)) }
    ensures prefix { OnErr result (AppendsPrefix (K.got sink.old) (K.got sink.new) (buffer.old ++ given_text operand)) }
    ensures later { K.faults sink.old ≤ K.faults sink.new }
    ensures fault { OnErr result (Rose (K.faults sink.old) (K.faults sink.new)) }
{
    match operand {
        Operand::Node(giver) => tell_number(giver, buffer, sink),
        Operand::Known(z) => {
            buffer.append(b" =", sink)?;
            buffer.append_signed(z, sink)
        }
    }
}
