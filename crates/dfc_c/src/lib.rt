//! `dfc` for callers in C, and through it in any language: words and a text in, the exit status and the bytes out. Nothing is kept between
//! calls. `examples/c/dfc.h` is the header.
#![tactic(auto)]

ghost use Rattle.std.specs.Prelude.{◌≡◌, ◌≤◌, All};
ghost use Rattle.std.specs.Str.{IsUtf8};
ghost use Rattle.dfc_c.specs.Call.{IsAnswer};
ghost use Rattle.dfc_c.specs.Words.{words_in};

mod gathered;
mod words;

use crate::gathered::Gathered;
use crate::words::{NoWords, words_of};
use df_io::NeverSource;
use dfc_driver::dfc_main;
use std::alloc::Global;

// Memory ran out.
const NO_MEMORY: u8 = 7;

// The words can't be read.
const NO_WORDS: u8 = 8;

/// Does what `dfc` does with the words between the blanks of `words` and with `text` on standard input. It answers the exit status, or 8 where a word is
/// no UTF-8. `written` becomes the number of bytes that `dfc` writes, and the first of `out` become these bytes, as far as there is room: where there is less
/// than `written` says, the caller may call again with more. Status 6 tells that there was no memory for what is written.
#[unsafe(no_mangle)]
pub extern "C" fn dfc_call(
    alloc: Global,
    words: &[u8],
    text: &[u8],
    out: &mut [u8],
    written: &mut u64,
) -> u8
    ensures answer { result ≤ 7 → IsAnswer words.now text.now out.old out.new written.new result }
    ensures words { result ≡ 8 → All IsUtf8 (words_in words.now) → ⊥ }
    ensures bound { result ≤ 8 }
{
    *written = 0;
    let given = match words_of(alloc, words) {
        Ok(given) => given,
        Err(NoWords::NoText) => return NO_WORDS,
        Err(NoWords::NoMemory) => return NO_MEMORY,
    };
    let Ok(mut source) = NeverSource::new(alloc, text) else {
        return NO_MEMORY;
    };
    let mut sink = Gathered::new(alloc);
    let status = dfc_main(alloc, &given, &mut source, &mut sink);
    let bytes = sink.bytes();
    let shown = bytes.len().min(out.len());
    out[..shown].copy_from_slice(&bytes[..shown]);
    *written = bytes.len() as u64;
    status
}
