//! An expression, read from a place in a text.
use df_sequence::{CharList, NoMemory, Sequence};
use f77_expr::parse_expr;
use f77_tree::RawExpr;
use op_table::Op;
use std::alloc::Global;
use std::test::Fail;

fn characters(alloc: Global, text: &[u8; 10]) -> Result<CharList, NoMemory> {
    let mut list = Sequence::new(alloc);
    for c in text {
        if list.len() < 10 {
            list.push(*c)?;
        }
    }
    Ok(list)
}

#[test]
fn an_expression_is_read_in_a_text(rt: HostRuntime) -> Result<(), Fail> {
    let text = characters(rt.alloc(), b"I=A(2)-B,C")?;
    assert!(rt; text.len() == 10);
    let parsed = parse_expr(rt.alloc(), &text, 2)?;
    assert!(rt; parsed.next == 8);
    assert!(rt; matches!(&parsed.expr, RawExpr::Apply(Op::Sub, operands) if operands.len() == 2));
    Ok(())
}
