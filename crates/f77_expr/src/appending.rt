ghost use Rattle.std.specs.Prelude.{nat_abs, decimal, ◌≤ℤ◌, pos};
ghost use Rattle.f77_tree.specs.Grammar.{truth_text};
ghost use Rattle.f77_expr.specs.Appending.{Appended};

use df_sequence::NoMemory;
use itoa::Buffer;

// Appends characters.
pub fn append(text: &[u8], out: &mut Vec<u8>) -> Result<(), NoMemory>
    ensures { Appended out.old.items text.now out.new.items result }
{
    out.extend_from_slice(text)?;
    Ok(())
}

// Appends a number in decimal.
pub fn append_number(z: i32, out: &mut Vec<u8>) -> Result<(), NoMemory>
    requires { pos 0 ≤ℤ z }
    ensures { Appended out.old.items (decimal (nat_abs z)) out.new.items result }
{
    let mut buffer = Buffer::new();
    append(buffer.format(z).as_bytes(), out)
}

// Appends a logical constant.
pub fn append_truth(b: bool, out: &mut Vec<u8>) -> Result<(), NoMemory>
    ensures { Appended out.old.items (truth_text b) out.new.items result }
{
    append(if b { b".TRUE." } else { b".FALSE." }, out)
}
