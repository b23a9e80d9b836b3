//! A source and a sink that can't fail are never blamed.

ghost use Rattle.std.specs.Prelude.{◌≢◌};

use crate::faults::{RUNS, Told, arguments, lines};
use df_io::{NeverSink, NeverSource};
use dfc_driver::dfc_main;
use std::alloc::Global;
use std::test::Fail;

const TEXT: &str = "      I=2;      J=I*I+1;      PRINT *,J,I;      END;";

/// The status of a run. Its clauses follow from what `dfc_main` promises of each source and each sink.
fn status_over(
    alloc: Global,
    words: &Vec<String>,
    source: &mut NeverSource,
    sink: &mut NeverSink,
) -> u8
    ensures source { result ≢ 5 }
    ensures sink { result ≢ 6 }
{
    dfc_main(alloc, words, source, sink)
}

#[test]
fn blames_neither(rt: HostRuntime) -> Result<(), Fail> {
    let text = lines(rt.alloc(), TEXT)?;
    for run in RUNS.lines() {
        let words = arguments(rt.alloc(), run)?;
        let whole = Told::whole(rt.alloc(), &words, text.as_slice())?;
        let mut source = NeverSource::new(rt.alloc(), text.as_slice())?;
        let mut sink = NeverSink::new();
        let status = status_over(rt.alloc(), &words, &mut source, &mut sink);
        let is_as = status == whole.status && sink.count() == whole.sink.written().len() as u64;
        assert!(&rt; is_as, "under {run}");
    }
    Ok(())
}
