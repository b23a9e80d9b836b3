// The lines of a text that tells regions. Each is made in a small array, without memory.

ghost use Rattle.std.specs.Prelude.{◌≡◌, ◌≤◌, [], ◌∷◌, ◌++◌, length};
ghost use Rattle.std.specs.Fmt.{decimal};
ghost use Rattle.graph_jobs.specs.Regions.{counts_line as spec_counts_line, piece_line as spec_piece_line, edge_line as spec_edge_line, region_line as spec_region_line, kind_name as spec_kind_name};

use arrayvec::ArrayString;
use cfg_build::{Piece, PieceKind};
use itoa::Buffer;

/// How many pieces, edges, classes and regions there are.
pub fn counts_line(pieces: u32, edges: u32, classes: u64, regions: u32) -> ArrayString<96>
    ensures { result.bytes ≡ spec_counts_line pieces edges classes regions }
{
    let mut buffer = Buffer::new();
    let mut text = ArrayString::new();
    text.push_str("PIECES ");
    text.push_str(buffer.format(pieces));
    text.push_str(" EDGES ");
    text.push_str(buffer.format(edges));
    text.push_str(" CLASSES ");
    text.push_str(buffer.format(classes));
    text.push_str(" REGIONS ");
    text.push_str(buffer.format(regions));
    text.push_str("\n");
    text
}

/// A piece: its number, its kind, and its line in the source.
pub fn piece_line(k: u32, piece: Piece) -> ArrayString<48>
    ensures { result.bytes ≡ spec_piece_line k piece }
{
    let mut buffer = Buffer::new();
    let mut text = ArrayString::new();
    text.push_str("P ");
    text.push_str(buffer.format(k));
    text.push_str(" ");
    text.push_str(kind_name(piece.kind));
    text.push_str(" ");
    text.push_str(buffer.format(piece.line));
    text.push_str("\n");
    text
}

// The kind of a piece as it is written.
fn kind_name(kind: PieceKind) -> &'static str
    ensures name { result.now ≡ spec_kind_name kind }
    ensures short { length result.now ≤ 6 }
{
    match kind {
        PieceKind::Start => "START",
        PieceKind::Act => "ACT",
        PieceKind::Pass => "PASS",
        PieceKind::Branch => "BRANCH",
        PieceKind::Join => "JOIN",
        PieceKind::Hold => "HOLD",
        PieceKind::End => "END",
    }
}

/// An edge: its number, the pieces at which it begins and ends, and its class.
pub fn edge_line(e: u32, from: u32, to: u32, class: u32) -> ArrayString<48>
    ensures { result.bytes ≡ spec_edge_line e from to class }
{
    four_numbers("E ", e, from, to, class)
}

/// A region: its number, the edges by which it is entered and left, and the smallest region around it.
pub fn region_line(r: u32, entry: u32, exit: u32, parent: u32) -> ArrayString<48>
    ensures { result.bytes ≡ spec_region_line r entry exit parent }
{
    four_numbers("R ", r, entry, exit, parent)
}

// Four numbers after a word of two characters, with blanks between them.
fn four_numbers(word: &str, a: u32, b: u32, c: u32, d: u32) -> ArrayString<48>
    requires { length word.now ≤ 2 }
    ensures { result.bytes ≡ word.now ++ decimal a ++ 32 ∷ [] ++ decimal b ++ 32 ∷ [] ++ decimal c ++ 32 ∷ [] ++ decimal d ++ 10 ∷ [] }
{
    let mut buffer = Buffer::new();
    let mut text = ArrayString::new();
    text.push_str(word);
    text.push_str(buffer.format(a));
    text.push_str(" ");
    text.push_str(buffer.format(b));
    text.push_str(" ");
    text.push_str(buffer.format(c));
    text.push_str(" ");
    text.push_str(buffer.format(d));
    text.push_str("\n");
    text
}
