//! The words that stand for token lines and for what operations do.

use op_table::Op;
use printed_graphs::{PrintedGraph, TokenLine};
use svg_text::{ChartFault, Escaped};

/// Appends the names of a token line: `output`, `A`, `A=B`, `DO 4`. Of more than `most` names only the first ones.
///
/// # Errors
///
/// `NoMemory`.
pub fn put_line(
    text: &mut String,
    graph: &PrintedGraph,
    line: u32,
    most: usize,
) -> Result<(), ChartFault> {
    match graph.lines.get(line as usize) {
        Some(TokenLine::Output) => text.push_str("output")?,
        Some(TokenLine::Class(names)) => put_names(text, names, most)?,
        Some(TokenLine::Loop(number)) => write!(text, "DO {number}")?,
        None => text.push_str("?")?,
    }
    Ok(())
}

// Appends names with `=` between them.
fn put_names(text: &mut String, names: &[Vec<u8>], most: usize) -> Result<(), ChartFault> {
    let mut between = "";
    for (k, name) in names.iter().enumerate() {
        if k == most {
            text.push_str("=..")?;
            return Ok(());
        }
        let name = Escaped(name.as_slice());
        write!(text, "{between}{name}")?;
        between = "=";
    }
    Ok(())
}

/// The sign of an operator with two operands, as a program writes it, or none where it is a call or a step of the
/// compiler.
pub fn sign(op: Op) -> Option<&'static str> {
    match op {
        Op::Add | Op::AddChecked => Some("+"),
        Op::Sub | Op::SubChecked => Some("-"),
        Op::Mul | Op::MulChecked => Some("*"),
        Op::Div => Some("/"),
        Op::Pow | Op::PowChecked => Some("**"),
        Op::Lt => Some(".LT."),
        Op::Le => Some(".LE."),
        Op::Eq => Some(".EQ."),
        Op::Ne => Some(".NE."),
        Op::Ge => Some(".GE."),
        Op::Gt => Some(".GT."),
        Op::And => Some(".AND."),
        Op::Or => Some(".OR."),
        Op::Eqv => Some(".EQV."),
        Op::Neqv => Some(".NEQV."),
        _ => None,
    }
}
