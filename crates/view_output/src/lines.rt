ghost use Rattle.std.specs.Prelude.{◌≡◌, ◌==◌, ◌-◌, suc, not, drop, [], IfSome, IsNone};
ghost use Rattle.std.specs.List.{position, prefix_len};
ghost use Rattle.view_output.specs.Lines.{line_after};

/// A line of a text, counted from 1, without its end, or nothing past the last one.
#[tactic(auto, using(crate::proofs::Breaks::line_skipped, crate::proofs::Breaks::line_at_end, crate::proofs::Breaks::nothing_after))]
pub fn line_of(text: &[u8], number: u64) -> &[u8]
    ensures { result.now ≡ line_after (number - 1) text.now }
{
    let mut rest = text;
    for skipped in 1..number {
        match after_line(rest) {
            Some(after) => rest = after,
            None => return &[],
        }
    }
    first_line(rest)
}

// The first line of a text.
fn first_line(text: &[u8]) -> &[u8]
    ensures { result.now ≡ line_after 0 text.now }
{
    match first_break(text) {
        Some(end) => &text[..end],
        None => text,
    }
}

// The text after its first line, if an LF ends that.
fn after_line(text: &[u8]) -> Option<&[u8]>
    ensures some { IfSome result (λ rest. rest.now ≡ drop (suc (prefix_len (λ c. not (c == 10)) text.now)) text.now) }
    ensures none { IsNone result → drop (suc (prefix_len (λ c. not (c == 10)) text.now)) text.now ≡ [] }
{
    let end = first_break(text)?;
    Some(&text[end + 1..])
}

// The place of the first LF.
fn first_break(text: &[u8]) -> Option<usize>
    ensures { result ≡ position (λ c. c == 10) text.now }
{
    text.iter().position(|c| *c == b'\n')
}
