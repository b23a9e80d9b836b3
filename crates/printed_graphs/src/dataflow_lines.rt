//! Reads the lines of a dataflow graph.

ghost use Rattle.std.specs.Prelude.{◌≡◌, ◌++◌, ◌∷◌, All, IfOk, length, flat_map, codes};
ghost use Rattle.printed_graphs.specs.GraphReading.{is_work, size_at, token_line_at, line_name_at, after_names, after_two, operation_at, node_at, node_line_at, operand_at, after_operands, value_at, after_values, wires_at, bypass_at, after_bypasses, graph_at};
ghost use Rattle.printed_graphs.specs.Names.{work_text};
ghost use Rattle.printed_graphs.specs.Printable.{IsPrintableLine, IsPrintableName, IsPrintableNode, IsPrintableValue, IsPrintableOperand, IsPrintableWires, IsPrintableBypass, IsPrintableGraph};
ghost use Rattle.printed_graphs.specs.Reading.{Gives, Passes, PassesInMemory, after_name, lines_at};
ghost use Rattle.printed_graphs.specs.Words.{lines_from};
ghost use Rattle.printed_graphs.specs.DataflowText.{size_text, names_text, line_name_text, token_line_text, node_text, node_line_text, operand_text, value_text, wires_text, bypass_text, graph_text};

use crate::cursor::Cursor;
use crate::fault::Stop;
use crate::words::work_of;
use crate::{Bypass, Node, Operand, PrintedGraph, TokenLine, Value, Wires, Work};
use std::alloc::Global;

// How many lines and nodes there are.
#[derive(Clone, Copy)]
struct Size {
    lines: u32,
    nodes: u32,
}

/// A dataflow graph.
#[tactic(auto, unfolding(crate::specs::GraphReading::graph_at))]
pub(crate) fn read_graph(alloc: Global, cursor: &mut Cursor<'_>) -> Result<PrintedGraph, Stop>
    ensures text { IfOk result (λ graph. cursor.old.rest.now ≡ graph_text graph ++ cursor.new.rest.now) }
    ensures after { PassesInMemory result cursor.new.rest.now (graph_at cursor.old.rest.now) }
    ensures printable { IfOk result IsPrintableGraph }
{
    let size = read_size(cursor)?;
    let lines = read_token_lines(alloc, size.lines, cursor)?;
    let nodes = read_nodes(alloc, size.nodes, cursor)?;
    let values = read_values(alloc, cursor)?;
    let wires = read_all_wires(alloc, size.lines, cursor)?;
    let bypasses = read_bypasses(alloc, cursor)?;
    Ok(PrintedGraph {
        lines,
        nodes,
        values,
        wires,
        bypasses,
    })
}

// The first line.
#[tactic(auto, unfolding(crate::specs::GraphReading::size_at))]
fn read_size(cursor: &mut Cursor<'_>) -> Result<Size, Stop>
    ensures text { IfOk result (λ n. cursor.old.rest.now ≡ size_text n.lines n.nodes ++ cursor.new.rest.now) }
    ensures after { Gives result cursor.new.rest.now (size_at cursor.old.rest.now) }
{
    cursor.passes(b"LINES ")?;
    let lines = cursor.number()?;
    cursor.passes(b" NODES ")?;
    let nodes = cursor.number()?;
    cursor.passes(b"\n")?;
    Ok(Size { lines, nodes })
}

// So many token lines.
fn read_token_lines(
    alloc: Global,
    count: u32,
    cursor: &mut Cursor<'_>,
) -> Result<Vec<TokenLine>, Stop>
    ensures text { IfOk result (λ v. cursor.old.rest.now ≡ lines_from token_line_text 0 v.items ++ cursor.new.rest.now) }
    ensures after { PassesInMemory result cursor.new.rest.now (lines_at token_line_at 0 count cursor.old.rest.now) }
    ensures printable { IfOk result (λ v. All IsPrintableLine v.items) }
    ensures count { IfOk result (λ v. length v.items ≡ count) }
{
    let mut all = Vec::new(alloc);
    for k in 0..count {
        all.push(read_token_line(alloc, k, cursor)?)?;
    }
    Ok(all)
}

// The token line with this number.
#[tactic(auto, unfolding(crate::specs::GraphReading::token_line_at))]
fn read_token_line(alloc: Global, k: u32, cursor: &mut Cursor<'_>) -> Result<TokenLine, Stop>
    ensures text { IfOk result (λ line. cursor.old.rest.now ≡ token_line_text k line ++ cursor.new.rest.now) }
    ensures after { PassesInMemory result cursor.new.rest.now (token_line_at k cursor.old.rest.now) }
    ensures printable { IfOk result IsPrintableLine }
{
    cursor.passes(b"L ")?;
    cursor.expects(k)?;
    let line = read_line_name(alloc, cursor)?;
    cursor.passes(b"\n")?;
    Ok(line)
}

// What a token line is of.
#[tactic(auto, unfolding(crate::specs::GraphReading::line_name_at, crate::specs::Reading::after_short))]
fn read_line_name(alloc: Global, cursor: &mut Cursor<'_>) -> Result<TokenLine, Stop>
    ensures text { IfOk result (λ line. cursor.old.rest.now ≡ line_name_text line ++ cursor.new.rest.now) }
    ensures after { PassesInMemory result cursor.new.rest.now (line_name_at cursor.old.rest.now) }
    ensures printable { IfOk result IsPrintableLine }
{
    if cursor.takes(b" *OUT") {
        return Ok(TokenLine::Output);
    }
    if cursor.takes(b" *DO") {
        return Ok(TokenLine::Loop(cursor.number()?));
    }
    Ok(TokenLine::Class(read_names(alloc, cursor)?))
}

// All names that come next, each after a blank.
fn read_names(alloc: Global, cursor: &mut Cursor<'_>) -> Result<Vec<Vec<u8>>, Stop>
    ensures text { IfOk result (λ v. cursor.old.rest.now ≡ names_text v.items ++ cursor.new.rest.now) }
    ensures after { PassesInMemory result cursor.new.rest.now (after_names cursor.old.rest.now) }
    ensures printable { IfOk result (λ v. All IsPrintableName v.items) }
{
    let mut all = Vec::new(alloc);
    while cursor.takes(b" ") {
        all.push(Vec::from_slice(alloc, cursor.word())?)?;
    }
    Ok(all)
}

// So many nodes.
fn read_nodes(alloc: Global, count: u32, cursor: &mut Cursor<'_>) -> Result<Vec<Node>, Stop>
    ensures text { IfOk result (λ v. cursor.old.rest.now ≡ lines_from node_line_text 0 v.items ++ cursor.new.rest.now) }
    ensures after { PassesInMemory result cursor.new.rest.now (lines_at node_line_at 0 count cursor.old.rest.now) }
    ensures printable { IfOk result (λ v. All IsPrintableNode v.items) }
    ensures count { IfOk result (λ v. length v.items ≡ count) }
{
    let mut all = Vec::new(alloc);
    for k in 0..count {
        all.push(read_node_line(alloc, k, cursor)?)?;
    }
    Ok(all)
}

// The line of the node with this number.
#[tactic(auto, unfolding(crate::specs::GraphReading::node_line_at))]
fn read_node_line(alloc: Global, k: u32, cursor: &mut Cursor<'_>) -> Result<Node, Stop>
    ensures text { IfOk result (λ node. cursor.old.rest.now ≡ node_line_text k node ++ cursor.new.rest.now) }
    ensures after { PassesInMemory result cursor.new.rest.now (node_line_at k cursor.old.rest.now) }
    ensures printable { IfOk result IsPrintableNode }
{
    cursor.passes(b"N ")?;
    cursor.expects(k)?;
    let node = read_node(alloc, cursor)?;
    cursor.passes(b"\n")?;
    Ok(node)
}

// A node after its number.
#[tactic(auto, unfolding(crate::specs::GraphReading::node_at))]
fn read_node(alloc: Global, cursor: &mut Cursor<'_>) -> Result<Node, Stop>
    ensures text { IfOk result (λ node. cursor.old.rest.now ≡ node_text node ++ cursor.new.rest.now) }
    ensures after { PassesInMemory result cursor.new.rest.now (node_at cursor.old.rest.now) }
    ensures printable { IfOk result IsPrintableNode }
{
    if cursor.takes(b" SWITCH ") {
        return read_switch(cursor);
    }
    if cursor.takes(b" MERGE ") {
        return read_merge(cursor);
    }
    read_operation(alloc, cursor)
}

// A switch after its name.
#[tactic(auto, unfolding(crate::specs::GraphReading::after_two))]
fn read_switch(cursor: &mut Cursor<'_>) -> Result<Node, Stop>
    ensures text { IfOk result (λ node. node_text node ++ cursor.new.rest.now ≡ codes " SWITCH " ++ cursor.old.rest.now) }
    ensures after { Passes result cursor.new.rest.now (after_two cursor.old.rest.now) }
    ensures printable { IfOk result IsPrintableNode }
{
    let piece = cursor.number()?;
    let line = cursor.field()?;
    Ok(Node::Switch { piece, line })
}

// A merge after its name.
#[tactic(auto, unfolding(crate::specs::GraphReading::after_two))]
fn read_merge(cursor: &mut Cursor<'_>) -> Result<Node, Stop>
    ensures text { IfOk result (λ node. node_text node ++ cursor.new.rest.now ≡ codes " MERGE " ++ cursor.old.rest.now) }
    ensures after { Passes result cursor.new.rest.now (after_two cursor.old.rest.now) }
    ensures printable { IfOk result IsPrintableNode }
{
    let piece = cursor.number()?;
    let line = cursor.field()?;
    Ok(Node::Merge { piece, line })
}

// An operation.
#[tactic(auto, unfolding(crate::specs::GraphReading::operation_at))]
fn read_operation(alloc: Global, cursor: &mut Cursor<'_>) -> Result<Node, Stop>
    ensures text { IfOk result (λ node. cursor.old.rest.now ≡ node_text node ++ cursor.new.rest.now) }
    ensures after { PassesInMemory result cursor.new.rest.now (operation_at cursor.old.rest.now) }
    ensures printable { IfOk result IsPrintableNode }
{
    cursor.passes(b" OP ")?;
    let piece = cursor.number()?;
    let number = cursor.field()?;
    cursor.passes(b" ")?;
    let work = read_work(cursor)?;
    let lines = cursor.numbers(alloc)?;
    Ok(Node::Operation {
        piece,
        number,
        work,
        lines,
    })
}

// What an operation does.
#[tactic(auto, unfolding(crate::specs::Reading::after_name))]
fn read_work(cursor: &mut Cursor<'_>) -> Result<Work, Stop>
    ensures text { IfOk result (λ work. cursor.old.rest.now ≡ work_text work ++ cursor.new.rest.now) }
    ensures after { Passes result cursor.new.rest.now (after_name is_work cursor.old.rest.now) }
{
    match work_of(cursor.word()) {
        Some(work) => Ok(work),
        None => Err(Stop::Unread),
    }
}

// The operands of operations, as long as they come.
fn read_values(alloc: Global, cursor: &mut Cursor<'_>) -> Result<Vec<Value>, Stop>
    ensures text { IfOk result (λ v. cursor.old.rest.now ≡ flat_map value_text v.items ++ cursor.new.rest.now) }
    ensures after { PassesInMemory result cursor.new.rest.now (after_values cursor.old.rest.now) }
    ensures printable { IfOk result (λ v. All IsPrintableValue v.items) }
{
    let mut all = Vec::new(alloc);
    while cursor.takes(b"V ") {
        all.push(read_value(alloc, cursor)?)?;
    }
    Ok(all)
}

// The operands of an operation, after the letter of their line.
#[tactic(auto, unfolding(crate::specs::GraphReading::value_at))]
fn read_value(alloc: Global, cursor: &mut Cursor<'_>) -> Result<Value, Stop>
    ensures text { IfOk result (λ value. value_text value ++ cursor.new.rest.now ≡ codes "V " ++ cursor.old.rest.now) }
    ensures after { PassesInMemory result cursor.new.rest.now (value_at cursor.old.rest.now) }
    ensures printable { IfOk result IsPrintableValue }
{
    let node = cursor.number()?;
    let operands = read_operands(alloc, cursor)?;
    cursor.passes(b"\n")?;
    Ok(Value { node, operands })
}

// All operands that come next, each after a blank.
fn read_operands(alloc: Global, cursor: &mut Cursor<'_>) -> Result<Vec<Operand>, Stop>
    ensures text { IfOk result (λ v. cursor.old.rest.now ≡ flat_map operand_text v.items ++ cursor.new.rest.now) }
    ensures after { PassesInMemory result cursor.new.rest.now (after_operands cursor.old.rest.now) }
    ensures printable { IfOk result (λ v. All IsPrintableOperand v.items) }
{
    let mut all = Vec::new(alloc);
    while cursor.takes(b" ") {
        all.push(read_operand(cursor)?)?;
    }
    Ok(all)
}

// An operand after its blank.
#[tactic(auto, unfolding(crate::specs::GraphReading::operand_at, crate::specs::Reading::after_short))]
fn read_operand(cursor: &mut Cursor<'_>) -> Result<Operand, Stop>
    ensures text { IfOk result (λ operand. operand_text operand ++ cursor.new.rest.now ≡ 32 ∷ cursor.old.rest.now) }
    ensures after { Passes result cursor.new.rest.now (operand_at cursor.old.rest.now) }
    ensures printable { IfOk result IsPrintableOperand }
{
    if cursor.takes(b"=") {
        return Ok(Operand::Known(cursor.signed_number()?));
    }
    Ok(Operand::From(cursor.number()?))
}

// The wires of so many lines.
fn read_all_wires(alloc: Global, count: u32, cursor: &mut Cursor<'_>) -> Result<Vec<Wires>, Stop>
    ensures text { IfOk result (λ v. cursor.old.rest.now ≡ lines_from wires_text 0 v.items ++ cursor.new.rest.now) }
    ensures after { PassesInMemory result cursor.new.rest.now (lines_at wires_at 0 count cursor.old.rest.now) }
    ensures printable { IfOk result (λ v. All IsPrintableWires v.items) }
    ensures count { IfOk result (λ v. length v.items ≡ count) }
{
    let mut all = Vec::new(alloc);
    for k in 0..count {
        all.push(read_wires(alloc, k, cursor)?)?;
    }
    Ok(all)
}

// The wires of the line with this number.
#[tactic(auto, unfolding(crate::specs::GraphReading::wires_at))]
fn read_wires(alloc: Global, k: u32, cursor: &mut Cursor<'_>) -> Result<Wires, Stop>
    ensures text { IfOk result (λ wires. cursor.old.rest.now ≡ wires_text k wires ++ cursor.new.rest.now) }
    ensures after { PassesInMemory result cursor.new.rest.now (wires_at k cursor.old.rest.now) }
    ensures printable { IfOk result IsPrintableWires }
{
    cursor.passes(b"W ")?;
    cursor.expects(k)?;
    let edges = cursor.numbers(alloc)?;
    cursor.passes(b"\n")?;
    Ok(Wires { edges })
}

// The regions that lines bypass, as long as they come.
fn read_bypasses(alloc: Global, cursor: &mut Cursor<'_>) -> Result<Vec<Bypass>, Stop>
    ensures text { IfOk result (λ v. cursor.old.rest.now ≡ flat_map bypass_text v.items ++ cursor.new.rest.now) }
    ensures after { PassesInMemory result cursor.new.rest.now (after_bypasses cursor.old.rest.now) }
    ensures printable { IfOk result (λ v. All IsPrintableBypass v.items) }
{
    let mut all = Vec::new(alloc);
    while cursor.takes(b"H ") {
        all.push(read_bypass(cursor)?)?;
    }
    Ok(all)
}

// A region that a line bypasses, after the letter of its line.
#[tactic(auto, unfolding(crate::specs::GraphReading::bypass_at))]
fn read_bypass(cursor: &mut Cursor<'_>) -> Result<Bypass, Stop>
    ensures text { IfOk result (λ bypass. bypass_text bypass ++ cursor.new.rest.now ≡ codes "H " ++ cursor.old.rest.now) }
    ensures after { Passes result cursor.new.rest.now (bypass_at cursor.old.rest.now) }
    ensures printable { IfOk result IsPrintableBypass }
{
    let line = cursor.number()?;
    let edge = cursor.field()?;
    let next = cursor.field()?;
    cursor.passes(b"\n")?;
    Ok(Bypass { line, edge, next })
}
