//! How the program and its commands are used.

ghost use Rattle.std.specs.Prelude.{IsTrue};
ghost use Rattle.view_commands.specs.Help.{is_help_of};

use crate::commands::Command;

/// What `--version` prints.
pub const VERSION: &str = "dfc_view 1\n";

/// What `--help` prints.
pub const HELP: &str = "\
usage: dfc_view COMMAND [OPTION] [--wide] [FILE [WORDS]]
       dfc_view COMMAND --help
       dfc_view --help | -h | --version

chart               each token line from statement to statement, as SVG
rounds              which nodes could have fired at once in a run, as SVG
page                both in a page for a browser, which steps through a run
deps                which statements depend on which, and by what
independent A B     whether the statements at lines A and B wait for one another
check FILE..        what is wrong with each file, and what to write instead
names               which unit and name a copy in the graph stands for
run                 what the program prints
lower               the program in the language of dfc, from everyday Fortran
dot                 a picture of the graph for Graphviz
json                all that is known, as JSON
profile             how many nodes fire in each round

FILE is a program; after --wide it is everyday Fortran. WORDS are those of dfc
trace: [limit=N] [picks=N,N..] [data=N,N..] [checked], and after them `forks`
where loads fire in any order. Without FILE standard input has what dfc printed
of a program: the texts of dfc regions, dfc graph and dfc trace, each or none,
in this order; check, names, run and lower take a FILE alone.

Status: 0 done, 1 no such command or option, or check found a fault, 2 the
program is refused, or the text can't be read or lacks what is asked for, 3 and
4 as dfc fire has them, 5 the file or standard input failed, 6 standard output
failed, 7 memory ran out, 8 the arguments can't be read.
";

/// What `COMMAND --help` prints.
pub fn help_of(command: Command) -> &'static str
    ensures { IsTrue (is_help_of command result.now) }
{
    match command {
        Command::Chart => CHART,
        Command::Rounds => ROUNDS,
        Command::Page => PAGE,
        Command::Deps => DEPS,
        Command::Independent => INDEPENDENT,
        Command::Dot => DOT,
        Command::Json => JSON,
        Command::Profile => PROFILE,
        Command::Check => CHECK,
        Command::Names => NAMES,
        Command::Lower => LOWER,
        Command::Run => RUN,
    }
}

const CHART: &str = "\
usage: dfc_view chart [[--wide] FILE [checked]]

Draws each token line from statement to statement, as SVG: a row for each
statement, a lane for each token line, a mark where a node takes the token, a
box for each region. A lane that runs straight through a box bypasses it.
";

const ROUNDS: &str = "\
usage: dfc_view rounds [[--wide] FILE [WORDS]]

Draws a run with as many processors as it can use, as SVG: a row for each line
of the program, a column for each round, a cell for each firing.
";

const PAGE: &str = "\
usage: dfc_view page [[--wide] FILE [WORDS]]

Writes a page for a browser, which needs nothing else: the chart, the rounds,
and the run, step by step. Of FILE it has two runs, the second one by picks.
";

const DEPS: &str = "\
usage: dfc_view deps [--json] [[--wide] FILE [checked]]

Tells which statements depend on which: the lines of both, the kind of the
dependence, its variables, and whether it goes from one round of a loop to a
later one.
";

const INDEPENDENT: &str = "\
usage: dfc_view independent A B [[--wide] FILE [checked]]

Tells whether the statements at lines A and B of the program wait for one
another.
";

const DOT: &str = "\
usage: dfc_view dot [--regions | --lines N,N..] [[--wide] FILE [checked]]

Writes a picture for Graphviz: of the dataflow graph, with its wires where the
flow graph is known; else of the flow graph. --regions: the flow graph, with its
regions as nested boxes. --lines: of the token lines these alone.
";

const JSON: &str = "\
usage: dfc_view json [--trace] [[--wide] FILE [WORDS]]

Writes all that is known of the program, as JSON: of FILE both graphs, and where
WORDS tell a run also its trace. --trace: of a run a line for each firing, which
is an object with the node, the line of its statement and the round, and one for
the end.
";

const PROFILE: &str = "\
usage: dfc_view profile [[--wide] FILE [WORDS]]

Tells how many nodes fire in each round of a run.
";

const CHECK: &str = "\
usage: dfc_view check [--wide] FILE..

Tells what is wrong with each file: the place, the line, a sentence that says
what is wrong, and one that says what to write instead. Of a program it tells
each statement that traps whenever it is executed, since constants make that
sure. The status is 1 where anything is wrong.
";

const NAMES: &str = "\
usage: dfc_view names [--wide] FILE

Tells for each name that dfc made for a copy of a subroutine the unit and the
name that it stands for.
";

const LOWER: &str = "\
usage: dfc_view lower [--map] FILE

Writes the program, which may be in everyday Fortran, in the language of dfc.
--map: for each line of that text the line of FILE, and the names made shorter.
";

const RUN: &str = "\
usage: dfc_view run [--wide] FILE [WORDS]

Runs the program, and writes what it prints. The status is that of dfc fire.
";
