//! A subscript that ends at the bound of its array, and one that ends past it.
ghost use Rattle.std.specs.Prelude.{◌≡◌, length};

use alias_classes::{CLASS_WORDS, classes_of};
use f77_source::read_program;
use range_lines::Ranges;
use std::alloc::Global;
use std::test::Fail;

/// Whether the first subscript of the executable is seen in range; nothing where it has none.
fn first_seen(ranges: &Ranges, execs: u32, exec: u32) -> Option<bool>
    requires { execs ≡ length ranges.now }
{
    if exec < execs && ranges.subs(exec) > 0 {
        return Some(ranges.seen(exec, 0));
    }
    None
}

/// The same of the second executable of a text.
fn second_seen(alloc: Global, text: &[u8; 61]) -> Result<Option<bool>, Fail> {
    let Ok(program) = read_program(alloc, text, false) else {
        return Err(Fail::from("no program"));
    };
    let classes = classes_of::<CLASS_WORDS>(alloc, &program)?;
    let ranges = Ranges::new(alloc, &program, &classes)?;
    Ok(first_seen(&ranges, program.execs.len(), 1))
}

#[test]
fn subscripts_are_seen_in_range(rt: HostRuntime) -> Result<(), Fail> {
    for (text, seen) in [
        (
            b"      INTEGER A(3)\n      DO 9 I=1,3\n    9 A(I)=I*I\n      END\n",
            Some(true),
        ),
        (
            b"      INTEGER A(3)\n      DO 9 I=1,4\n    9 A(I)=I*I\n      END\n",
            Some(false),
        ),
    ] {
        assert!(rt; second_seen(rt.alloc(), text)? == seen);
    }
    Ok(())
}
