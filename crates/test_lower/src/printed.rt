use fortran_tree::{Name, Names, Printer, read_statements};
use indexmap::IndexMap;
use std::test::Fail;

const SOURCE: &[u8] =
    b"      program sum_up\n\tinteger total ! the sum\n      total = 0\n      do i = 1, 10\n        if (mod(i,2) .eq. 0) total = total + i\n      end do\n      print *, 'it''s', total\n      end\n";

const PRINTED: &str =
    "      PROGRAM SUM_UP\n      INTEGER TOTAL\n      TOTAL=0\n      DO I=1,10\n      IF (MOD(I,2).EQ.0) TOTAL=TOTAL+I\n      END DO\n      PRINT *,'it''s',TOTAL\n      END\n";

#[test]
fn reads_and_prints(rt: HostRuntime) -> Result<(), Fail> {
    let alloc = rt.alloc();
    let mut names = Names::new(alloc);
    let statements = read_statements(alloc, &mut names, SOURCE)?;
    let spellings: IndexMap<Name, String> = IndexMap::new(alloc);
    let mut printer = Printer::new(alloc);
    for statement in &statements {
        printer.print(alloc, &names, &spellings, statement)?;
    }
    let (text, _places) = printer.finish();
    assert_eq!(rt; text.as_str(), PRINTED);
    Ok(())
}
