//! What the words after the program's name ask for.

ghost use Rattle.std.specs.Prelude.{◌≡◌, map};
ghost use Rattle.std.specs.String.{string_bytes};
ghost use Rattle.view_commands.specs.Numbers.{Answers};
ghost use Rattle.view_commands.specs.Words.{about_program as spec_about_program, asked_by, asked_of as spec_asked_of, asked_with, asks_help as spec_asks_help, file_of as spec_file_of, files_of as spec_files_of, form_of as spec_form_of, is_option as spec_is_option, job_meant, lines_of as spec_lines_of, lowered_of as spec_lowered_of, names_of as spec_names_of, option_on, pair_of as spec_pair_of, picture_of as spec_picture_of, program_meant, program_of as spec_program_of, shown_of, task_meant};

use crate::commands::{Command, command_of};
use crate::numbers::{number_in, numbers_in};
use crate::run_words::{any_begins, begins};
use std::alloc::Global;
use view_output::{Fault, Lines};

/// What is asked for.
#[derive(Drop)]
pub enum Job<'a> {
    /// How the program is used.
    Help,
    /// How a command is used.
    HelpOf(Command),
    /// Which program it is.
    Version,
    /// Something of the program in a file, or else of the one that standard input tells.
    Show(Task, Option<Program<'a>>),
    /// What is wrong with texts.
    Check(Files<'a>),
    /// What the names of copies stand for.
    Names(Program<'a>),
    /// The text of a program in the language of `dfc`, or the map of its lines and names to those of the file.
    Lower(Program<'a>, LoweredForm),
    /// What a program prints.
    Run(Program<'a>),
}

/// What is written of a lowered program.
#[derive(Clone, Copy, Debug, PartialEq, Eq)]
pub enum LoweredForm {
    /// Its text.
    Text,
    /// For each line of the text that of the file, and for each name that was made shorter that of the file.
    Map,
}

/// A program in a file.
#[derive(Clone, Copy)]
pub struct Program<'a> {
    /// Whether it is everyday Fortran, which is lowered into the language of `dfc`.
    pub is_wide: bool,
    /// The name of the file.
    pub name: &'a str,
    /// The words for its run.
    pub words: &'a [String],
}

/// Files that are checked.
#[derive(Clone, Copy)]
pub struct Files<'a> {
    /// Whether they are everyday Fortran.
    pub is_wide: bool,
    /// Their names.
    pub names: &'a [String],
}

/// What is shown of a program.
#[derive(Drop)]
pub enum Task {
    /// The lane chart.
    Chart,
    /// A picture of the run by rounds.
    Rounds,
    /// A page with both.
    Page,
    /// A picture of the flow graph with its regions.
    Regions,
    /// A picture of the dataflow graph, or else of the flow graph.
    Dot(Lines),
    /// All of it, as JSON.
    Json,
    /// The trace as lines of JSON, one for each firing.
    JsonTrace,
    /// The profile of the trace.
    Profile,
    /// The dependences between statements.
    Dependences,
    /// The same as JSON.
    DependencesJson,
    /// Whether the statements at two lines of the text wait for one another.
    Independent(u32, u32),
}

/// The job that the words ask for, or `Usage` where they have no meaning.
pub fn job_of(alloc: Global, words: &[String]) -> Result<Job<'_>, Fault>
    ensures { Answers job_meant result (asked_by (map string_bytes words.now)) }
{
    match words {
        [word, rest @ ..] => match command_of(word.as_str()) {
            Some(command) => job_with(alloc, command, rest),
            None => about_program(word.as_str(), rest),
        },
        [] => Err(Fault::Usage),
    }
}

// What is asked about the program itself, by a word alone.
fn about_program<'a>(word: &str, rest: &'a [String]) -> Result<Job<'a>, Fault>
    ensures { Answers job_meant result (spec_about_program word.now (map string_bytes rest.now)) }
{
    if !rest.is_empty() {
        return Err(Fault::Usage);
    }
    match word {
        "-h" => Ok(Job::Help),
        "--help" => Ok(Job::Help),
        "--version" => Ok(Job::Version),
        _ => Err(Fault::Usage),
    }
}

// The job of a command with the words after it.
fn job_with(alloc: Global, command: Command, words: &[String]) -> Result<Job<'_>, Fault>
    ensures { Answers job_meant result (asked_with command (map string_bytes words.now)) }
{
    if asks_help(words) {
        Ok(Job::HelpOf(command))
    } else {
        asked_of(alloc, command, words)
    }
}

// Whether the words after a command ask how it is used.
fn asks_help(words: &[String]) -> bool
    ensures { result ≡ spec_asks_help (map string_bytes words.now) }
{
    match words {
        [word] => word.as_str() == "--help",
        _ => false,
    }
}

// The same, where no help is asked for.
fn asked_of(alloc: Global, command: Command, words: &[String]) -> Result<Job<'_>, Fault>
    ensures { Answers job_meant result (spec_asked_of command (map string_bytes words.now)) }
{
    match command {
        Command::Chart => show(Task::Chart, words),
        Command::Rounds => show(Task::Rounds, words),
        Command::Page => show(Task::Page, words),
        Command::Profile => show(Task::Profile, words),
        Command::Dot => picture_of(alloc, words),
        Command::Json => match after_option("--trace", words) {
            (true, words) => show(Task::JsonTrace, words),
            (false, words) => show(Task::Json, words),
        },
        Command::Deps => match after_option("--json", words) {
            (true, words) => show(Task::DependencesJson, words),
            (false, words) => show(Task::Dependences, words),
        },
        Command::Independent => pair_of(alloc, words),
        Command::Check => files_of(words),
        Command::Names => names_of(words),
        Command::Lower => lowered_of(words),
        Command::Run => Ok(Job::Run(program_of(words)?)),
    }
}

// What is shown of the program that words name, or else of the one that standard input tells.
fn show(task: Task, words: &[String]) -> Result<Job<'_>, Fault>
    ensures { Answers job_meant result (shown_of (task_meant task) (map string_bytes words.now)) }
{
    match words {
        [] => Ok(Job::Show(task, None)),
        _ => Ok(Job::Show(task, Some(program_of(words)?))),
    }
}

// The picture that the words after `dot` ask for.
fn picture_of(alloc: Global, words: &[String]) -> Result<Job<'_>, Fault>
    ensures { Answers job_meant result (spec_picture_of (map string_bytes words.now)) }
{
    match words {
        [option, rest @ ..] if option.as_str() == "--regions" => show(Task::Regions, rest),
        [option, rest @ ..] if option.as_str() == "--lines" => lines_of(alloc, rest),
        _ => show(Task::Dot(Lines::All), words),
    }
}

// The picture of these token lines.
fn lines_of(alloc: Global, words: &[String]) -> Result<Job<'_>, Fault>
    ensures { Answers job_meant result (spec_lines_of (map string_bytes words.now)) }
{
    match words {
        [lines, rest @ ..] => {
            let numbers = numbers_in(alloc, lines.as_str().as_bytes())?;
            show(Task::Dot(Lines::Only(numbers)), rest)
        }
        [] => Err(Fault::Usage),
    }
}

// The statements at two lines.
fn pair_of(alloc: Global, words: &[String]) -> Result<Job<'_>, Fault>
    ensures { Answers job_meant result (spec_pair_of (map string_bytes words.now)) }
{
    match words {
        [first, second, rest @ ..] => {
            let first = number_in(alloc, first.as_str().as_bytes())?;
            let second = number_in(alloc, second.as_str().as_bytes())?;
            show(Task::Independent(first, second), rest)
        }
        _ => Err(Fault::Usage),
    }
}

// The files that are checked, one or more.
fn files_of(words: &[String]) -> Result<Job<'_>, Fault>
    ensures { Answers job_meant result (spec_files_of (map string_bytes words.now)) }
{
    let (is_wide, names) = after_option("--wide", words);
    if names.is_empty() || any_begins(names, "-") {
        return Err(Fault::Usage);
    }
    Ok(Job::Check(Files { is_wide, names }))
}

// The program whose names are told. Nothing stands after it.
fn names_of(words: &[String]) -> Result<Job<'_>, Fault>
    ensures { Answers job_meant result (spec_names_of (map string_bytes words.now)) }
{
    let program = program_of(words)?;
    match program.words {
        [] => Ok(Job::Names(program)),
        _ => Err(Fault::Usage),
    }
}

// The file that is lowered. Nothing stands after it.
fn lowered_of(words: &[String]) -> Result<Job<'_>, Fault>
    ensures { Answers job_meant result (spec_lowered_of (map string_bytes words.now)) }
{
    let (with_map, words) = after_option("--map", words);
    let program = file_of(true, words)?;
    match program.words {
        [] => Ok(Job::Lower(program, form_of(with_map))),
        _ => Err(Fault::Usage),
    }
}

// The text, or the map.
fn form_of(with_map: bool) -> LoweredForm
    ensures { result ≡ spec_form_of with_map }
{
    if with_map {
        LoweredForm::Map
    } else {
        LoweredForm::Text
    }
}

// The program that words name.
fn program_of(words: &[String]) -> Result<Program<'_>, Fault>
    ensures { Answers program_meant result (spec_program_of (map string_bytes words.now)) }
{
    let (is_wide, words) = after_option("--wide", words);
    file_of(is_wide, words)
}

// The program in the file that words name, of which the first is no option.
fn file_of(is_wide: bool, words: &[String]) -> Result<Program<'_>, Fault>
    ensures { Answers program_meant result (spec_file_of is_wide (map string_bytes words.now)) }
{
    match words {
        [name, words @ ..] if !is_option(name.as_str()) => Ok(Program {
            is_wide,
            name: name.as_str(),
            words,
        }),
        _ => Err(Fault::Usage),
    }
}

// Whether an option is the first of the words, and the words after it.
fn after_option<'a>(option: &str, words: &'a [String]) -> (bool, &'a [String])
    ensures { (result.0, map string_bytes result.1.now) ≡ option_on option.now (map string_bytes words.now) }
{
    match words {
        [word, rest @ ..] if word.as_str() == option => (true, rest),
        _ => (false, words),
    }
}

// Whether a word is an option.
fn is_option(word: &str) -> bool
    ensures { result ≡ spec_is_option word.now }
{
    begins(word, "-")
}
