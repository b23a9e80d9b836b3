//! Dependences as lines of text.

ghost use Rattle.std.specs.Prelude.{◌≡◌, ◌&&◌, ◌++◌, IfOk, OnOk, codes, flat_map, string_bytes};
ghost use Rattle.std.specs.Fmt.{decimal};
ghost use Rattle.dependence_texts.specs.Lines.{back_text as spec_back_text, dependence_text, end_text as spec_end_text, independence_text as spec_independence_text, is_never, kind_text, line_of, names_text, spaced, wait_text as spec_wait_text};
ghost use Rattle.dependence_texts.specs.Told.{ToldDependences, ToldIndependence, fault_of as spec_fault_of};
ghost use Rattle.view_output.specs.Told.{told};

use crate::parts::WaitLine;
use df_io::Sink;
use graph_dependences::{Dependence, DependenceFault, Kind, Wait, dependences, waits};
use printed_graphs::{PrintedFlow, PrintedGraph, TokenLine};
use std::alloc::{AllocError, Global};
use view_output::{Fault, Output};

/// Writes a line for each dependence: the lines of the two statements, what it is, by which names, and whether a loop carries it.
pub fn write_dependences<K: Sink + Drop>(
    alloc: Global,
    flow: &PrintedFlow,
    graph: &PrintedGraph,
    output: &mut Output<K>,
) -> Result<(), Fault>
    ensures { OnOk result (ToldDependences graph.now flow.now (told K.got output.old) (told K.got output.new)) }
{
    let all = dependences(alloc, graph, flow).map_err(fault_of)?;
    let text = dependences_text(alloc, graph, all.as_slice())?;
    output.bytes(text.as_slice())
}

// A line for each dependence.
fn dependences_text(
    alloc: Global,
    graph: &PrintedGraph,
    all: &[Dependence],
) -> Result<Vec<u8>, AllocError>
    ensures { IfOk result (λ text. text.items ≡ flat_map (dependence_text graph.now) all.now) }
{
    let mut text = Vec::new(alloc);
    for dependence in all {
        add_dependence(alloc, graph, *dependence, &mut text)?;
    }
    Ok(text)
}

/// Writes how the statements at two lines of the text wait for one another.
pub fn write_independence<K: Sink + Drop>(
    alloc: Global,
    flow: &PrintedFlow,
    graph: &PrintedGraph,
    first: u32,
    second: u32,
    output: &mut Output<K>,
) -> Result<(), Fault>
    ensures { OnOk result (ToldIndependence graph.now flow.now first second (told K.got output.old) (told K.got output.new)) }
{
    let forth = waits(alloc, graph, flow, first, second).map_err(fault_of)?;
    let back = waits(alloc, graph, flow, second, first).map_err(fault_of)?;
    let text = independence_text(alloc, first, second, forth, back)?;
    output.text(text.as_str())?;
    Ok(())
}

// How two statements wait for one another.
fn independence_text(
    alloc: Global,
    first: u32,
    second: u32,
    forth: Wait,
    back: Wait,
) -> Result<String, AllocError>
    ensures { IfOk result (λ text. string_bytes text ≡ spec_independence_text first second forth back) }
{
    if are_never(forth, back) {
        let text = format!(in alloc; "INDEPENDENT\n")?;
        return Ok(text);
    }
    let forth = wait_text(alloc, second, first, forth)?;
    let back = back_text(alloc, first, second, back)?;
    let text = format!(in alloc; "{forth}{back}")?;
    Ok(text)
}

// How the first statement waits for the second, if that is another one and it does.
fn back_text(alloc: Global, first: u32, second: u32, back: Wait) -> Result<String, AllocError>
    ensures { IfOk result (λ text. string_bytes text ≡ spec_back_text first second back) }
{
    if first == second {
        Ok(String::new(alloc))
    } else {
        wait_text(alloc, first, second, back)
    }
}

// Whether neither of two statements waits for the other.
fn are_never(forth: Wait, back: Wait) -> bool
    ensures { result ≡ (is_never forth && is_never back) }
{
    forth == Wait::Never && back == Wait::Never
}

// How a statement waits for another, if it does.
fn wait_text(alloc: Global, who: u32, whom: u32, wait: Wait) -> Result<String, AllocError>
    ensures { IfOk result (λ text. string_bytes text ≡ spec_wait_text who whom wait) }
{
    match wait {
        Wait::Never => Ok(String::new(alloc)),
        Wait::Carried => wait_line(alloc, who, whom, " CARRIED\n"),
        Wait::Always => wait_line(alloc, who, whom, "\n"),
    }
}

// That a statement waits for another.
fn wait_line(alloc: Global, who: u32, whom: u32, end: &str) -> Result<String, AllocError>
    ensures { IfOk result (λ text. string_bytes text ≡ decimal who ++ codes " WAITS FOR " ++ decimal whom ++ end.now) }
{
    let line = WaitLine { who, whom, end };
    let text = format!(in alloc; "{line}")?;
    Ok(text)
}

// Appends the line of a dependence.
fn add_dependence(
    alloc: Global,
    graph: &PrintedGraph,
    dependence: Dependence,
    text: &mut Vec<u8>,
) -> Result<(), AllocError>
    ensures { OnOk result (text.new.items ≡ text.old.items ++ dependence_text graph.now dependence) }
{
    let Dependence { from, to, .. } = dependence;
    let kind = kind_word(dependence.kind);
    let head = format!(in alloc; "{from} -> {to} {kind}")?;
    text.extend_from_slice(head.as_bytes())?;
    add_names(alloc, graph, dependence.token_line, text)?;
    text.extend_from_slice(end_text(dependence.is_carried).as_bytes())
}

// How the line of a dependence ends.
fn end_text(is_carried: bool) -> &'static str
    ensures { result.now ≡ spec_end_text is_carried }
{
    if is_carried { " CARRIED\n" } else { "\n" }
}

// Appends what a token line stands for, each name after a space.
fn add_names(
    alloc: Global,
    graph: &PrintedGraph,
    line: Option<u32>,
    text: &mut Vec<u8>,
) -> Result<(), AllocError>
    ensures { OnOk result (text.new.items ≡ text.old.items ++ names_text (line_of graph.now line)) }
{
    let Some(line) = line else {
        return Ok(());
    };
    match graph.lines.get(line as usize) {
        Some(TokenLine::Class(names)) => add_spaced(names.as_slice(), text),
        Some(TokenLine::Loop(line)) => {
            let name = format!(in alloc; " *DO{line}")?;
            text.extend_from_slice(name.as_bytes())
        }
        Some(TokenLine::Output) | None => Ok(()),
    }
}

// Appends names, each after a space.
fn add_spaced(names: &[Vec<u8>], text: &mut Vec<u8>) -> Result<(), AllocError>
    ensures { OnOk result (text.new.items ≡ text.old.items ++ flat_map spaced names.now) }
{
    for name in names {
        text.extend_from_slice(b" ")?;
        text.extend_from_slice(name.as_slice())?;
    }
    Ok(())
}

/// What a kind of dependence is called.
pub fn kind_word(kind: Kind) -> &'static str
    ensures { result.now ≡ kind_text kind }
{
    match kind {
        Kind::Flow => "FLOW",
        Kind::Anti => "ANTI",
        Kind::Output => "OUTPUT",
        Kind::Order => "ORDER",
        Kind::Control => "CONTROL",
    }
}

/// Why nothing is told.
pub fn fault_of(fault: DependenceFault) -> Fault
    ensures { result ≡ spec_fault_of fault }
{
    match fault {
        DependenceFault::TooLarge => Fault::TooLong,
        DependenceFault::NoMemory => Fault::NoMemory,
    }
}
