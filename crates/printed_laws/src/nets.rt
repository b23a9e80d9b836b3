//! Nets of operations as they are made.

ghost use Rattle.std.specs.Prelude.{◌<◌};
ghost use Rattle.op_table.specs.Words.{IsWord};
ghost use Rattle.op_board.specs.OperationNets.{operation_node};
ghost use Rattle.operation_tables.specs.GraphView.{operations_of};
ghost use Rattle.operation_tables.specs.Telling.{IsOperation};
ghost use Rattle.operation_tables.specs.Waits.{node_total};
ghost use Rattle.printed_laws.specs.ShortNet.{HasShortOperands, IsShortGiven, IsShortNet, HasShortOperandsAt};

use crate::numbers::stays_short;
use firing::NodeName;
use operation_lists::Operand;
use operation_tables::OpGraph;

/// Each net of operations that is made has nodes that are counted in 32 bits, and so are the operands of each operation. They are the
/// numbers of nodes, or words.
pub fn nets_are_short<const W: usize>(net: &OpGraph<'_, W>)
    ensures { IsShortNet (operations_of net.now) }
{
    for k in 0..net.nodes() {
        node_is_short(net, k);
    }
}

// The operands of a node.
fn node_is_short<const W: usize>(net: &OpGraph<'_, W>, k: u32)
    requires { k < node_total (operations_of net.now) }
    ensures { HasShortOperands (operations_of net.now) (operation_node (operations_of net.now) k) }
{
    match net.name(k) {
        NodeName::Op(_, _) => operands_are_short(net, k),
        NodeName::Switch(_, _) | NodeName::Merge(_, _) | NodeName::Act(_) => {}
    }
}

// The operands of an operation.
fn operands_are_short<const W: usize>(net: &OpGraph<'_, W>, k: u32)
    requires node { k < node_total (operations_of net.now) }
    requires operation { IsOperation (operation_node (operations_of net.now) k) }
    ensures { HasShortOperandsAt (operations_of net.now) k }
{
    let count = net.operands(k);
    stays_short(count);
    for i in 0..count {
        operand_is_short(net.operand(k, i));
    }
}

// What an operand in memory tells: the number of a node, or a word.
fn operand_is_short(operand: Operand)
    ensures { IsShortGiven operand }
{
    match operand {
        Operand::Node(giver) => stays_short(giver),
        Operand::Known(z) => stays_word(z),
    }
}

// A number that is kept in 32 bits with its sign is a word.
fn stays_word(z: i32)
    ensures { IsWord z }
{}
