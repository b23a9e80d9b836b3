//! A table of rounds with bars.

ghost use Rattle.std.specs.Prelude.{◌≡◌, ◌<◌, Some, drop, replicate, take};
ghost use Rattle.std.specs.Fmt.{WritesOnOk};
ghost use Rattle.trace_profiles.specs.Profiles.{all_of, bar_of, line_text, row_text, rows_text};
ghost use Rattle.trace_profiles.specs.Rounds.{greatest as spec_greatest};
ghost use Rattle.trace_profiles.specs.Rows.{TellsRow};

use std::fmt;

// The most rows of a table.
const ROWS: usize = 40;

// The longest bar.
const LONGEST: u64 = 50;

/// How wide rounds are, in 40 rows at most: the first and the last round of each row, how many nodes could have
/// fired in them, and the mean width of them as a bar.
#[derive(Clone, Copy)]
pub struct Table<'a>(pub &'a [u32]);

impl fmt::Display for Table<'_> {
    ghost output = { λ t. Some (rows_text t.0.now 40) };

    #[tactic(auto, using(crate::proofs::MoreRows::one_row_more))]
    fn fmt<W: fmt::Write>(&self, f: &mut fmt::Formatter<W>) -> fmt::Result {
        for number in 0..ROWS {
            put_row(self.0, number, f)?;
        }
        Ok(())
    }
}

// Writes the row with this number, if it has any rounds.
fn put_row<W: fmt::Write>(widths: &[u32], number: usize, f: &mut fmt::Formatter<W>) -> fmt::Result
    requires { number < 40 }
    ensures { WritesOnOk W.write_str_gives f.old result (row_text widths.now number) f.new }
{
    match row_of(widths, number) {
        Some(row) => write!(f, "{row}"),
        None => Ok(()),
    }
}

// A row: its first and its last round, how many nodes fire in them, and how long its bar is.
#[derive(Clone, Copy)]
struct Row {
    first: usize,
    last: usize,
    all: u64,
    bar: u64,
}

impl fmt::Display for Row {
    ghost output = { λ r. Some (line_text r.first r.last r.all r.bar) };

    #[tactic(auto, unfolding(crate::specs::Profiles::line_text))]
    fn fmt<W: fmt::Write>(&self, f: &mut fmt::Formatter<W>) -> fmt::Result {
        let Row {
            first,
            last,
            all,
            bar,
        } = *self;
        let bar = Bar(bar);
        writeln!(f, "{first}-{last} {all} {bar}")
    }
}

// A bar of this length.
#[derive(Clone, Copy)]
struct Bar(u64);

impl fmt::Display for Bar {
    ghost output = { λ b. Some (replicate b.0 35) };

    fn fmt<W: fmt::Write>(&self, f: &mut fmt::Formatter<W>) -> fmt::Result {
        for done in 0..self.0 {
            f.write_str("#")?;
        }
        Ok(())
    }
}

// The row with this number, counted from 0, if it has any rounds.
#[tactic(auto, using(crate::proofs::MoreRows::few_before))]
fn row_of(widths: &[u32], number: usize) -> Option<Row>
    requires { number < 40 }
    ensures { TellsRow widths.now number result }
{
    let size = widths.len() / ROWS + 1;
    let before = number * size;
    let part = part_of(widths, before, size);
    if part.is_empty() {
        return None;
    }
    let all = sum_of(part);
    Some(Row {
        first: before + 1,
        last: before + part.len(),
        all,
        bar: bar_length(all, part.len() as u64, u64::from(greatest(widths))),
    })
}

// The widths of `size` rounds, before which so many stand.
fn part_of(widths: &[u32], before: usize, size: usize) -> &[u32]
    ensures { result.now ≡ take size (drop before widths.now) }
{
    match widths.get(before..) {
        Some(rest) => rest.get(..size).unwrap_or(rest),
        None => &[],
    }
}

/// The greatest width.
pub fn greatest(widths: &[u32]) -> u32
    ensures { result ≡ spec_greatest widths.now }
{
    let mut most = 0u32;
    for width in widths {
        most = most.max(*width);
    }
    most
}

// How many nodes fire in all of these rounds.
fn sum_of(widths: &[u32]) -> u64
    ensures { result ≡ all_of widths.now }
{
    let mut all = 0u64;
    for width in widths {
        all = all.saturating_add(u64::from(*width));
    }
    all
}

// How long the bar is of `all` in so many rounds, where the longest bar stands for `widest`, unless that is short.
fn bar_length(all: u64, rounds: u64, widest: u64) -> u64
    ensures { result ≡ bar_of all rounds widest }
{
    if rounds == 0 || widest == 0 {
        return 0;
    }
    let longest = widest.min(LONGEST);
    (all.saturating_mul(longest) / rounds / widest).min(LONGEST)
}
