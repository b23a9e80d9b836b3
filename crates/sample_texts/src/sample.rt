//! Sample programs.
ghost use Rattle.std.specs.Prelude.{◌≡◌, ◌≤◌, ◌++◌, IfOk, OnOk};
ghost use Rattle.sample_texts.specs.SampleText.{block_lines, first_lines, jump_lines, last_lines, loop_lines, sample_text as spec_sample_text};

use crate::appending::{
    append_around_number, append_labelled, append_statement, append_up_to_number,
};
use df_sequence::NoMemory;
use std::alloc::Global;

/// The text of the sample program with this number, from 1 to 2,000: the greater the number, the longer the text.
#[tactic(auto, unfolding(crate::specs::SampleText::sample_text))]
pub fn sample_text(alloc: Global, n: u32) -> Result<Vec<u8>, NoMemory>
    requires least { 1 ≤ n }
    requires most { n ≤ 2000 }
    ensures { IfOk result (λ text. text.items ≡ spec_sample_text n) }
{
    let mut text = Vec::new(alloc);
    append_first(&mut text)?;
    for block in 0..(n + 11) / 12 {
        append_block(block + 1, &mut text)?;
    }
    append_last(&mut text)?;
    Ok(text)
}

// Appends the lines before the blocks.
fn append_first(out: &mut Vec<u8>) -> Result<(), NoMemory>
    ensures { OnOk result (out.new.items ≡ out.old.items ++ first_lines) }
{
    append_statement(b"INTEGER A(4),B,C", out)?;
    append_statement(b"EQUIVALENCE (A(2),B)", out)
}

// Appends the lines after the blocks.
fn append_last(out: &mut Vec<u8>) -> Result<(), NoMemory>
    ensures { OnOk result (out.new.items ≡ out.old.items ++ last_lines) }
{
    append_statement(b"PRINT *,B,C,J", out)?;
    append_statement(b"END", out)
}

// Appends a block.
fn append_block(block: u32, out: &mut Vec<u8>) -> Result<(), NoMemory>
    requires least { 1 ≤ block }
    requires most { block ≤ 2000 }
    ensures { OnOk result (out.new.items ≡ out.old.items ++ block_lines block) }
{
    append_loop(block, 2 * block - 1, out)?;
    append_jump(2 * block, out)
}

// Appends the loop of a block, which ends at the label.
fn append_loop(block: u32, label: u32, out: &mut Vec<u8>) -> Result<(), NoMemory>
    ensures { OnOk result (out.new.items ≡ out.old.items ++ loop_lines block label) }
{
    append_up_to_number(b"J=", block, out)?;
    append_around_number(b"DO ", label, b" I=1,4", out)?;
    append_statement(b"A(I)=A(I)+J", out)?;
    append_up_to_number(b"IF(A(I).GT.B)GO TO ", label, out)?;
    append_statement(b"C=C+B*J", out)?;
    append_labelled(label, b"B=B+1", out)
}

// Appends the statements that follow the loop, with the label of the last one.
fn append_jump(label: u32, out: &mut Vec<u8>) -> Result<(), NoMemory>
    ensures { OnOk result (out.new.items ≡ out.old.items ++ jump_lines label) }
{
    append_statement(b"K=C-J", out)?;
    append_up_to_number(b"IF(K.LT.B)GO TO ", label, out)?;
    append_statement(b"C=K-1", out)?;
    append_labelled(label, b"A(1)=C", out)
}
