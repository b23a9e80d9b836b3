//! The words of items of DATA (ANSI X3.9-1978, section 9).

ghost use Rattle.std.specs.Prelude.{◌<◌, ◌+◌, ◌^◌};

use f77_tree::Kind;

/// Words that follow one another, all of one kind: those of a name, or of one element.
#[derive(Clone, Copy)]
pub(crate) struct Span {
    pub(crate) first: u64,
    pub(crate) len: u32,
    pub(crate) kind: Kind,
    ghost some: { 0 < len },
    ghost room: { first + len < 2 ^ 64 },
}
