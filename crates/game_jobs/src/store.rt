//! The store after a game, as a text.

ghost use Rattle.std.specs.Prelude.{◌≡◌, ◌≤◌, ◌+ℤ◌, ◌≤ℤ◌, ◌∷◌, ◌++◌, length, OnOk, OnErr, pos};
ghost use Rattle.std.specs.Io.KnownBytes.{Appends};
ghost use Rattle.df_io.specs.Faults.{Rose};
ghost use Rattle.df_io.specs.Write.{AppendsPrefix};
ghost use Rattle.f77_tree.specs.Declarations.{AreDims, IsDim, IsNameInfo};
ghost use Rattle.f77_tree.specs.Value.{extent, size_of};
ghost use Rattle.f77_tree.specs.WellFormed.{IsWellFormed};
ghost use Rattle.op_net.specs.NetView.{marking_of};
ghost use Rattle.program_nets.specs.Game.{store_in};
ghost use Rattle.game_jobs.specs.StoreText.{fired_line as spec_fired_line, name_line, store_text, word_text as spec_word_text};

use alias_classes::CLASS_WORDS;
use arrayvec::ArrayString;
use df_io::{Sink, WriteFault, write_all};
use f77_tree::{Dim, DimList, Kind, NameInfo, Program};
use itoa::Buffer;
use op_net::OpNet;

/// Writes each name with its words in the order of their storage, and then how many nodes fired. It takes no memory.
pub fn tell_store<K: Sink>(
    program: &Program,
    net: &OpNet<'_, CLASS_WORDS>,
    firings: u64,
    sink: &mut K,
) -> Result<(), WriteFault>
    requires program { IsWellFormed program.now }
    requires words { length (store_in (marking_of net.now)) ≡ program.now.words }
    ensures all { OnOk result (Appends (K.got sink.old) (K.got sink.new) (store_text program.now.names (store_in (marking_of net.now)) ++ spec_fired_line firings)) }
    ensures prefix { OnErr result (AppendsPrefix (K.got sink.old) (K.got sink.new) (store_text program.now.names (store_in (marking_of net.now)) ++ spec_fired_line firings)) }
    ensures later { K.faults sink.old ≤ K.faults sink.new }
    ensures fault { OnErr result (Rose (K.faults sink.old) (K.faults sink.new)) }
{
    for info in program.names.as_slice() {
        tell_name(info, net, sink)?;
    }
    let line = fired_line(firings);
    write_all(sink, line.as_str().as_bytes())
}

// Writes a name with its words.
fn tell_name<K: Sink>(
    info: &NameInfo,
    net: &OpNet<'_, CLASS_WORDS>,
    sink: &mut K,
) -> Result<(), WriteFault>
    requires name { IsNameInfo info.now }
    requires inside { (pos info.now.place +ℤ size_of info.now.dims) ≤ℤ pos (length (store_in (marking_of net.now))) }
    requires few { length (store_in (marking_of net.now)) ≤ 262144 }
    ensures all { OnOk result (Appends (K.got sink.old) (K.got sink.new) (name_line (store_in (marking_of net.now)) info.now)) }
    ensures prefix { OnErr result (AppendsPrefix (K.got sink.old) (K.got sink.new) (name_line (store_in (marking_of net.now)) info.now)) }
    ensures later { K.faults sink.old ≤ K.faults sink.new }
    ensures fault { OnErr result (Rose (K.faults sink.old) (K.faults sink.new)) }
{
    write_all(sink, info.name.as_bytes())?;
    for k in info.place..info.place + size(&info.dims) {
        let text = word_text(info.kind, net.word(k));
        write_all(sink, text.as_str().as_bytes())?;
    }
    write_all(sink, b"\n")
}

// How many words a name of these dimensions has.
fn size(dims: &DimList) -> u32
    requires { AreDims dims.now }
    ensures { pos result ≡ size_of dims.now }
{
    let mut size = 1;
    for dim in dims.as_slice() {
        size *= width(dim);
    }
    size
}

// How many subscripts a dimension has.
fn width(dim: &Dim) -> u32
    requires order { IsDim dim.now }
    requires few { extent dim.now ≤ℤ pos 262144 }
    ensures { pos result ≡ extent dim.now }
{
    (dim.hi - dim.lo + 1) as u32
}

// A word of a name of this kind after a blank: a number, or a truth as `T` or `F`.
fn word_text(kind: Kind, word: i32) -> ArrayString<16>
    ensures { result.bytes ≡ 32 ∷ spec_word_text kind word }
{
    let mut buffer = Buffer::new();
    let mut text = ArrayString::new();
    text.push_str(" ");
    match kind {
        Kind::Integer => text.push_str(buffer.format(word)),
        Kind::Logical if word == 0 => text.push_str("F"),
        Kind::Logical => text.push_str("T"),
    }
    text
}

// How many nodes fired.
fn fired_line(firings: u64) -> ArrayString<32>
    ensures { result.bytes ≡ spec_fired_line firings }
{
    let mut buffer = Buffer::new();
    let mut text = ArrayString::new();
    text.push_str("FIRED ");
    text.push_str(buffer.format(firings));
    text.push_str("\n");
    text
}
