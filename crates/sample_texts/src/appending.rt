//! Lines that are appended to what was written before.
ghost use Rattle.std.specs.Prelude.{◌≡◌, ◌++◌, ◌-◌, decimal, length, replicate, OnOk};
ghost use Rattle.sample_texts.specs.SampleText.{labelled, statement};

use df_sequence::NoMemory;
use itoa::Buffer;

/// Appends a statement without a label.
pub(crate) fn append_statement(text: &[u8], out: &mut Vec<u8>) -> Result<(), NoMemory>
    ensures { OnOk result (out.new.items ≡ out.old.items ++ statement text.now) }
{
    out.extend_from_slice(b"      ")?;
    out.extend_from_slice(text)?;
    out.extend_from_slice(b"\n")?;
    Ok(())
}

/// Appends a statement without a label that ends with a number.
pub(crate) fn append_up_to_number(before: &[u8], n: u32, out: &mut Vec<u8>) -> Result<(), NoMemory>
    ensures { OnOk result (out.new.items ≡ out.old.items ++ statement (before.now ++ decimal n)) }
{
    let mut buffer = Buffer::new();
    out.extend_from_slice(b"      ")?;
    out.extend_from_slice(before)?;
    out.extend_from_slice(buffer.format(n).as_bytes())?;
    out.extend_from_slice(b"\n")?;
    Ok(())
}

/// Appends a statement without a label that has a number in it.
pub(crate) fn append_around_number(
    before: &[u8],
    n: u32,
    after: &[u8],
    out: &mut Vec<u8>,
) -> Result<(), NoMemory>
    ensures { OnOk result (out.new.items ≡ out.old.items ++ statement (before.now ++ decimal n ++ after.now)) }
{
    let mut buffer = Buffer::new();
    out.extend_from_slice(b"      ")?;
    out.extend_from_slice(before)?;
    out.extend_from_slice(buffer.format(n).as_bytes())?;
    out.extend_from_slice(after)?;
    out.extend_from_slice(b"\n")?;
    Ok(())
}

/// Appends a statement with a label.
pub(crate) fn append_labelled(label: u32, text: &[u8], out: &mut Vec<u8>) -> Result<(), NoMemory>
    ensures { OnOk result (out.new.items ≡ out.old.items ++ labelled label text.now) }
{
    let mut buffer = Buffer::new();
    append_justified(buffer.format(label).as_bytes(), out)?;
    out.extend_from_slice(b" ")?;
    out.extend_from_slice(text)?;
    out.extend_from_slice(b"\n")?;
    Ok(())
}

/// Appends digits on the right of five columns.
fn append_justified(digits: &[u8], out: &mut Vec<u8>) -> Result<(), NoMemory>
    ensures { OnOk result (out.new.items ≡ out.old.items ++ replicate (5 - length digits.now) 32 ++ digits.now) }
{
    let blanks = 5usize.saturating_sub(digits.len());
    out.extend_from_slice(&b"     "[..blanks])?;
    out.extend_from_slice(digits)?;
    Ok(())
}
