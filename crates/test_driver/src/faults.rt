//! Each call of the source and of the sink fails in turn, under each job.

ghost use Rattle.std.specs.Prelude.{◌<◌};

use df_io::{MemSink, MemSource, NoMemory};
use dfc_driver::dfc_main;
use std::alloc::Global;
use std::test::Fail;

/// The arguments of each run. A sample reads no text.
pub(crate) const RUNS: &str = "regions
graph
fire
fire picks=7,3,5
fire limit=3
trace
trace picks=1
trace limit=3
store
store limit=5
forks
forks picks=1
forks nodes
forks nodes limit=1 picks=1
regen
run
run limit=2
regen checked
run checked
fire checked
sample 0001";

/// The texts, with `;` where a line ends: one of two ways, two loads of one word, a trap after two lines, and a refusal.
const TEXTS: &str = "      I=2;      IF(I.GT.1)J=5;      PRINT *,J;      END;
      J=I+1;      K=I+2;      PRINT *,J+K;      END;
      PRINT *,(-2147483647-1)/(-1);      PRINT *,2**(-1),(-1)**(-3);      PRINT *,0**(-1);      END;
      I=2;      X=I;      END;";

/// The number of a call that is never made.
const NEVER: u32 = u32::MAX;

/// How many bytes a call gives or takes at most, where calls fail.
const PIECE: u32 = 16;

/// More calls than any run makes.
const CALLS: u32 = 10_000;

/// The lines of a text.
pub(crate) fn lines(alloc: Global, text: &str) -> Result<Vec<u8>, NoMemory> {
    let mut lines = Vec::new(alloc);
    for c in text.as_bytes() {
        lines.push(if *c == b';' { b'\n' } else { *c })?;
    }
    Ok(lines)
}

/// The arguments of a run.
pub(crate) fn arguments(alloc: Global, run: &str) -> Result<Vec<String>, NoMemory> {
    let mut words = Vec::new(alloc);
    for word in run.split(' ') {
        words.push(String::from_str(alloc, word)?)?;
    }
    Ok(words)
}

/// A run: its status, and what it wrote.
#[derive(Drop)]
pub(crate) struct Told {
    pub(crate) status: u8,
    pub(crate) sink: MemSink,
}

impl Told {
    /// Runs over a source and a sink that fail at these calls, one of the source and one of the sink, and of which one call gives
    /// or takes so many bytes at most.
    fn new(
        alloc: Global,
        words: &Vec<String>,
        text: &[u8],
        failing: [u32; 2],
        piece: u32,
    ) -> Result<Told, NoMemory>
        requires { 0 < piece }
    {
        let mut source = MemSource::new(alloc, text, &failing[..1], piece)?;
        let mut sink = MemSink::new(alloc, 1_000_000, &failing[1..], piece)?;
        let status = dfc_main(alloc, words, &mut source, &mut sink);
        Ok(Told { status, sink })
    }

    /// Runs where nothing fails, and each call gives and takes all.
    pub(crate) fn whole(alloc: Global, words: &Vec<String>, text: &[u8]) -> Result<Told, NoMemory> {
        Told::new(alloc, words, text, [NEVER, NEVER], 65536)
    }

    fn is_as(&self, whole: &Told) -> bool {
        self.status == whole.status && self.sink.written() == whole.sink.written()
    }

    fn is_part(&self, whole: &Told) -> bool {
        let written = self.sink.written();
        let due = whole.sink.written();
        written.len() < due.len() && due.starts_with(written)
    }
}

/// Whether it makes no difference that calls give and take single bytes.
fn takes_single_bytes(
    alloc: Global,
    words: &Vec<String>,
    text: &[u8],
    whole: &Told,
) -> Result<bool, NoMemory> {
    Ok(Told::new(alloc, words, text, [NEVER, NEVER], 1)?.is_as(whole))
}

/// Whether each of so many reads is blamed where it fails, with nothing written, and no other.
fn blames_reads(
    alloc: Global,
    words: &Vec<String>,
    text: &[u8],
    whole: &Told,
    reads: usize,
) -> Result<bool, NoMemory> {
    for call in 0..CALLS {
        let told = Told::new(alloc, words, text, [call, NEVER], PIECE)?;
        if told.status != 5 {
            return Ok(call as usize == reads && told.is_as(whole));
        }
        if !told.sink.written().is_empty() {
            return Ok(false);
        }
    }
    Ok(false)
}

/// Whether each write is blamed where it fails, with a part written that grows from call to call, and after the last one none.
fn blames_writes(
    alloc: Global,
    words: &Vec<String>,
    text: &[u8],
    whole: &Told,
) -> Result<bool, NoMemory> {
    let mut least = 0;
    for call in 0..CALLS {
        let told = Told::new(alloc, words, text, [NEVER, call], PIECE)?;
        if told.status != 6 {
            return Ok(told.is_as(whole));
        }
        if !told.is_part(whole) || told.sink.written().len() < least {
            return Ok(false);
        }
        least = told.sink.written().len() + 1;
    }
    Ok(false)
}

/// What is wrong with a run where calls fail or give little.
fn wrong(alloc: Global, run: &str, text: &[u8]) -> Result<Option<&'static str>, NoMemory> {
    let words = arguments(alloc, run)?;
    let whole = Told::whole(alloc, &words, text)?;
    // One call more than the text has pieces tells its end.
    let reads = if run.starts_with("sample") {
        0
    } else {
        text.len().div_ceil(PIECE as usize) + 1
    };
    if !takes_single_bytes(alloc, &words, text, &whole)? {
        return Ok(Some("single bytes"));
    }
    if !blames_reads(alloc, &words, text, &whole, reads)? {
        return Ok(Some("a read"));
    }
    if !blames_writes(alloc, &words, text, &whole)? {
        return Ok(Some("a write"));
    }
    Ok(None)
}

#[test]
fn each_call_fails_in_turn(rt: HostRuntime) -> Result<(), Fail> {
    for text in TEXTS.lines() {
        let text = lines(rt.alloc(), text)?;
        for run in RUNS.lines() {
            let found = wrong(rt.alloc(), run, text.as_slice())?;
            assert_eq!(&rt; found, None, "under {run}");
        }
    }
    Ok(())
}
