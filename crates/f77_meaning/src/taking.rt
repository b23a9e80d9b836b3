// Which values take a word of the data.

ghost use Rattle.std.specs.Prelude.{◌≡◌, map};
ghost use Rattle.f77_tree.specs.Execution.{words_taken, count_if, is_input, is_truth};

use f77_tree::Expr;
use op_table::Op;

// How many words of the data a value takes: one, where it is the next word or the truth of that.
pub fn count_taken(e: &Expr) -> usize
    ensures { result ≡ words_taken e.now }
{
    match e {
        Expr::Input => 1,
        Expr::Apply(op, args) => count_taken_by(*op, args.as_slice()),
        _ => 0,
    }
}

// How many words an operator at these operands takes.
fn count_taken_by(op: Op, args: &[Expr]) -> usize
    ensures { result ≡ count_if (is_truth op) (map is_input args.now) }
{
    if is_truth(op) && args.len() == 1 && is_input(&args[0]) {
        1
    } else {
        0
    }
}

fn is_truth(op: Op) -> bool
    ensures { result ≡ is_truth op }
{
    matches!(op, Op::Truth)
}

fn is_input(e: &Expr) -> bool
    ensures { result ≡ is_input e.now }
{
    matches!(e, Expr::Input)
}
