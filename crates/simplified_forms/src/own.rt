//! The pieces that run executables, and the edges to them.

ghost use Rattle.std.specs.Prelude.{◌≡◌, ◌==◌, ◌&&◌, nat_lt, length, IfOk};
ghost use Rattle.std.specs.List.{position_or_len, range_with_len};
ghost use Rattle.closed_walks.specs.Graph.{edge_count, to};
ghost use Rattle.cfg_build.specs.Flow.{flow};
ghost use Rattle.simplified_forms.specs.Items.{kind_at, is_own as is_own_kind, own_piece};
ghost use Rattle.simplified_forms.specs.Tables.{IsTable};

use cfg_build::{Flow, Piece, PieceKind};
use df_sequence::NoMemory;
use f77_tree::{ExecKind, Program};
use std::alloc::Global;

/// For each executable the piece that runs it, or the number of pieces, where control can't come to the executable and none does.
pub fn own_pieces(alloc: Global, p: &Program, f: &Flow) -> Result<Vec<u32>, NoMemory>
    requires { f.now ≡ flow p.now.execs }
    ensures { IfOk result (λ own. IsTable (own_piece p.now) (length p.now.execs) own.items) }
{
    let mut own = vec![in alloc; f.pieces(); p.execs.len() as usize]?;
    for node in (0..f.pieces()).rev() {
        let piece = f.piece(node);
        if is_own(p, piece) {
            own[piece.exec as usize] = node;
        }
    }
    Ok(own)
}

/// Whether the piece runs its executable.
fn is_own(p: &Program, piece: Piece) -> bool
    ensures { result ≡ (nat_lt piece.exec (length p.now.execs) && is_own_kind piece.kind (kind_at p.now piece.exec)) }
{
    if p.execs.len() <= piece.exec {
        return false;
    }
    match piece.kind {
        PieceKind::Act | PieceKind::Pass | PieceKind::End => true,
        PieceKind::Branch => !matches!(p.execs.at(piece.exec).kind, ExecKind::DoStart { .. }),
        PieceKind::Start | PieceKind::Join | PieceKind::Hold => false,
    }
}

/// For each piece the first edge to it, or the number of edges where there is none.
pub(crate) fn edges_to(alloc: Global, f: &Flow) -> Result<Vec<u32>, NoMemory>
    ensures { IfOk result (λ edges. IsTable (λ node. position_or_len (λ e. to f.now.graph e == node) (range_with_len 0 (edge_count f.now.graph))) f.now.graph.nodes edges.items) }
{
    let g = f.graph();
    let mut edges = vec![in alloc; g.edges(); f.pieces() as usize]?;
    for e in (0..g.edges()).rev() {
        edges[g.to(e) as usize] = e;
    }
    Ok(edges)
}
