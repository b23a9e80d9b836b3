//! Text that is appended to what was written before.
ghost use Rattle.std.specs.Prelude.{◌≡◌, ◌++◌, decimal, OnOk};
ghost use Rattle.f77_tree.specs.Grammar.{truth_text};
ghost use Rattle.f77_tree.specs.StatementGrammar.{signed_text, character_text, characters_text};
ghost use Rattle.flat_programs.specs.Declarations.{signed};
ghost use Rattle.flat_programs.specs.Typeset.{comma_at};

use df_sequence::NoMemory;
use itoa::Buffer;

/// Appends characters.
pub(crate) fn append(text: &[u8], out: &mut Vec<u8>) -> Result<(), NoMemory>
    ensures { OnOk result (out.new.items ≡ out.old.items ++ text.now) }
{
    out.extend_from_slice(text)?;
    Ok(())
}

/// Appends a number in decimal.
pub(crate) fn append_number(n: u32, out: &mut Vec<u8>) -> Result<(), NoMemory>
    ensures { OnOk result (out.new.items ≡ out.old.items ++ decimal n) }
{
    let mut buffer = Buffer::new();
    append(buffer.format(n).as_bytes(), out)
}

/// Appends a number in decimal, with its sign where it is below 0.
pub(crate) fn append_signed(z: i32, out: &mut Vec<u8>) -> Result<(), NoMemory>
    ensures { OnOk result (out.new.items ≡ out.old.items ++ signed_text (signed z)) }
{
    let mut buffer = Buffer::new();
    append(buffer.format(z).as_bytes(), out)
}

/// Appends a logical constant.
pub(crate) fn append_truth(b: bool, out: &mut Vec<u8>) -> Result<(), NoMemory>
    ensures { OnOk result (out.new.items ≡ out.old.items ++ truth_text b) }
{
    append(if b { b".TRUE." } else { b".FALSE." }, out)
}

/// Appends a comma before each item of a list but the first, which has the index 0.
pub(crate) fn append_comma(k: u32, out: &mut Vec<u8>) -> Result<(), NoMemory>
    ensures { OnOk result (out.new.items ≡ out.old.items ++ comma_at k) }
{
    if k == 0 {
        return Ok(());
    }
    append(b",", out)
}

/// Appends a character constant.
pub(crate) fn append_characters(characters: &[u8], out: &mut Vec<u8>) -> Result<(), NoMemory>
    ensures { OnOk result (out.new.items ≡ out.old.items ++ characters_text characters.now) }
{
    append(b"'", out)?;
    for c in characters {
        append_character(*c, out)?;
    }
    append(b"'", out)
}

/// Appends a character of a character constant: an apostrophe is written as two.
fn append_character(c: u8, out: &mut Vec<u8>) -> Result<(), NoMemory>
    ensures { OnOk result (out.new.items ≡ out.old.items ++ character_text c) }
{
    if c == b'\'' {
        return append(b"''", out);
    }
    append(&[c], out)
}
