//! Which nodes of a net are loads.

ghost use Rattle.std.specs.Prelude.{◌≡◌, ◌<◌, length, IfOk};
ghost use Rattle.op_board.specs.OperationNets.{operation_node};
ghost use Rattle.op_net.specs.NetView.{net_of};
ghost use Rattle.operation_tables.specs.Waits.{node_total};
ghost use Rattle.fork_board.specs.ForkTokens.{is_load_node};
ghost use Rattle.read_forks.specs.LoadSpots.{IsLoadAt};
ghost use Rattle.read_forks.specs.LoadFlags.{AreLoadFlags};

use df_sequence::NoMemory;
use firing::{NodeName, StepSystem};
use op_net::OpNet;
use std::alloc::Global;

/// For each node of a net whether it is a load.
pub(crate) fn load_flags<const W: usize>(
    alloc: Global,
    net: &OpNet<W>,
) -> Result<Vec<bool>, NoMemory>
    ensures flags { IfOk result (λ flags. AreLoadFlags (net_of net.now) flags.items) }
    ensures room { IfOk result (λ flags. length flags.items ≡ node_total (net_of net.now)) }
{
    let mut flags = Vec::with_capacity(alloc, net.nodes() as usize)?;
    for k in 0..net.nodes() {
        flags.push(is_load(net, k))?;
    }
    Ok(flags)
}

// Whether a node is a load.
fn is_load<const W: usize>(net: &OpNet<W>, k: u32) -> bool
    requires { k < node_total (net_of net.now) }
    ensures { result ≡ is_load_node (net_of net.now) (operation_node (net_of net.now) k) }
{
    match load_of(net, k) {
        Some(_) => true,
        None => false,
    }
}

/// The piece and the number of a node, if it is a load.
pub(crate) fn load_of<const W: usize>(net: &OpNet<W>, k: u32) -> Option<(u32, u32)>
    requires { k < node_total (net_of net.now) }
    ensures { IsLoadAt (net_of net.now) (operation_node (net_of net.now) k) result }
{
    match net.name(k) {
        NodeName::Op(piece, i) => {
            if net.loads(piece, i) {
                Some((piece, i))
            } else {
                None
            }
        }
        NodeName::Switch(_, _) => None,
        NodeName::Merge(_, _) => None,
        NodeName::Act(_) => None,
    }
}
