//! What the names of a text with three subroutines become.

use copied_names::{Becomes, CopiedName, copied_names, write_names};
use df_io::MemSink;
use std::alloc::Global;
use std::test::Fail;
use view_output::Output;

/// The text, with `;` where a line ends. The main program has a name like those that are given, one block alone, and one with
/// other names than a subroutine. Two subroutines share a block, and one is never called.
const TEXT: &str = "      INTEGER A(3),B,P,QQ,Y00002;
      COMMON /BLK/ P,QQ /LST/ Y00002;
      B=2;
      P=5;
      CALL FILL(A,B);
      CALL SHOW(A);
      END;
      SUBROUTINE FILL(X,N);
      INTEGER X(3),N,I,Q,R,ONLY;
      COMMON /BLK/ Q,R /OWN/ ONLY;
      DO 10 I=1,3;
   10 X(I)=I*N+Q;
      ONLY=7;
      R=8;
      END;
      SUBROUTINE SHOW(A);
      INTEGER A(3),K,SAME;
      COMMON /OWN/ SAME;
      DO 10 K=1,2;
   10 PRINT *,A(K),SAME;
      END;
      SUBROUTINE NEVER(N);
      L=N;
      END;";

/// What is told, a name a line. What `dfc store` prints of the text is A 7 9 11, B 2, P 5, QQ 8, Y00002 0, Y00001 4, Y00003 7, Y00004 3: so
/// Y00001 is I after three rounds, QQ is R, Y00003 is ONLY, and Y00004 is K after two.
const TOLD: &str = "FILL X argument 1
FILL N argument 2
FILL I Y00001
FILL Q P
FILL R QQ
FILL ONLY Y00003
SHOW A argument 1
SHOW K Y00004
SHOW SAME Y00003
NEVER L Y00005
NEVER N argument 1";

/// How many bytes that is, with the end of the last line.
const LENGTH: u32 = 169;

/// The bytes of a text with lines that end at `;`.
fn bytes(alloc: Global) -> Result<Vec<u8>, Fail> {
    let mut bytes = Vec::new(alloc);
    for c in TEXT.as_bytes() {
        if *c != b';' {
            bytes.push(*c)?;
        }
    }
    bytes.push(b'\n')?;
    Ok(bytes)
}

/// The line of a name.
fn line(alloc: Global, name: &CopiedName) -> Result<Vec<u8>, Fail> {
    let mut line = Vec::new(alloc);
    line.extend_from_slice(name.unit.as_bytes())?;
    line.push(b' ')?;
    line.extend_from_slice(name.name.as_bytes())?;
    line.push(b' ')?;
    match &name.becomes {
        Becomes::Argument(1) => line.extend_from_slice(b"argument 1")?,
        Becomes::Argument(_) => line.extend_from_slice(b"argument 2")?,
        Becomes::Named(new) => line.extend_from_slice(new.as_bytes())?,
    }
    Ok(line)
}

#[test]
fn names_become_those_of_the_store(rt: HostRuntime) -> Result<(), Fail> {
    let text = bytes(rt.alloc())?;
    if text.len() >= 1_000_000 {
        return Err(Fail::from("too long"));
    }
    let Ok(names) = copied_names(rt.alloc(), &text, false) else {
        return Err(Fail::from("refused"));
    };
    assert!(&rt; names.len() == TOLD.lines().count());
    for (name, due) in names.iter().zip(TOLD.lines()) {
        let told = line(rt.alloc(), name)?;
        assert!(&rt; told.as_slice() == due.as_bytes(), "not {due}");
    }
    Ok(())
}

/// Whether the lines of these names fit into so many bytes.
fn fit(alloc: Global, names: &[CopiedName], room: u32) -> Result<bool, Fail> {
    let Ok(mut output) = Output::new(alloc, MemSink::new(alloc, room, &[], 1000)?) else {
        return Err(Fail::from("no memory"));
    };
    Ok(write_names(names, &mut output).is_ok() && output.finish().is_ok())
}

#[test]
fn names_are_written_in_full(rt: HostRuntime) -> Result<(), Fail> {
    let text = bytes(rt.alloc())?;
    if text.len() >= 1_000_000 {
        return Err(Fail::from("too long"));
    }
    let Ok(names) = copied_names(rt.alloc(), &text, false) else {
        return Err(Fail::from("refused"));
    };
    assert!(&rt; fit(rt.alloc(), &names, LENGTH)?);
    assert!(&rt; !fit(rt.alloc(), &names, LENGTH - 1)?);
    Ok(())
}
