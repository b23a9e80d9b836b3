//! Dependences as JSON. docs/dependences.schema.json is its schema.

ghost use Rattle.std.specs.Prelude.{◌≡◌, ◌++◌, IfOk, OnOk, codes, string_bytes};
ghost use Rattle.dependence_texts.specs.Json.{carried_json as spec_carried_json, dependence_json, dependences_json as spec_dependences_json, head_json as spec_head_json, names_json, quoted, separated};
ghost use Rattle.dependence_texts.specs.Lines.{line_of};
ghost use Rattle.dependence_texts.specs.Told.{ToldJson};
ghost use Rattle.view_output.specs.Told.{told};

use crate::lines::{fault_of, kind_word};
use crate::parts::Head;
use df_io::Sink;
use graph_dependences::{Dependence, dependences};
use printed_graphs::{PrintedFlow, PrintedGraph, TokenLine};
use std::alloc::{AllocError, Global};
use view_output::{Fault, Output};

/// Writes an object with the list of all dependences.
pub fn write_dependences_json<K: Sink + Drop>(
    alloc: Global,
    flow: &PrintedFlow,
    graph: &PrintedGraph,
    output: &mut Output<K>,
) -> Result<(), Fault>
    ensures { OnOk result (ToldJson graph.now flow.now (told K.got output.old) (told K.got output.new)) }
{
    let all = dependences(alloc, graph, flow).map_err(fault_of)?;
    let text = dependences_json(alloc, graph, all.as_slice())?;
    output.bytes(text.as_slice())?;
    Ok(())
}

// An object with the list of dependences.
#[tactic(auto, unfolding(crate::specs::Json::dependences_json))]
fn dependences_json(
    alloc: Global,
    graph: &PrintedGraph,
    all: &[Dependence],
) -> Result<Vec<u8>, AllocError>
    ensures { IfOk result (λ text. text.items ≡ spec_dependences_json graph.now all.now) }
{
    let mut text = Vec::from_slice(alloc, b"{\"format\":1,\"dependences\":[\n ")?;
    add_all(alloc, graph, all, &mut text)?;
    text.extend_from_slice(b"]}\n")?;
    Ok(text)
}

// Appends dependences, each on a line of its own.
fn add_all(
    alloc: Global,
    graph: &PrintedGraph,
    all: &[Dependence],
    text: &mut Vec<u8>,
) -> Result<(), AllocError>
    ensures { OnOk result (text.new.items ≡ text.old.items ++ separated (codes ",\n ") (dependence_json graph.now) all.now) }
{
    let Some((first, others)) = all.split_first() else {
        return Ok(());
    };
    add_dependence(alloc, graph, *first, text)?;
    for dependence in others {
        text.extend_from_slice(b",\n ")?;
        add_dependence(alloc, graph, *dependence, text)?;
    }
    Ok(())
}

// Appends a dependence.
fn add_dependence(
    alloc: Global,
    graph: &PrintedGraph,
    dependence: Dependence,
    text: &mut Vec<u8>,
) -> Result<(), AllocError>
    ensures { OnOk result (text.new.items ≡ text.old.items ++ dependence_json graph.now dependence) }
{
    let head = head_json(alloc, dependence)?;
    text.extend_from_slice(head.as_bytes())?;
    add_names(alloc, graph, dependence.token_line, text)?;
    text.extend_from_slice(carried_json(dependence.is_carried).as_bytes())
}

// How a dependence begins.
#[tactic(auto, unfolding(crate::specs::Json::head_json))]
fn head_json(alloc: Global, dependence: Dependence) -> Result<String, AllocError>
    ensures { IfOk result (λ text. string_bytes text ≡ spec_head_json dependence) }
{
    let head = Head {
        from: dependence.from,
        to: dependence.to,
        kind: kind_word(dependence.kind),
    };
    let text = format!(in alloc; "{head}")?;
    Ok(text)
}

// How a dependence ends.
fn carried_json(is_carried: bool) -> &'static str
    ensures { result.now ≡ spec_carried_json is_carried }
{
    if is_carried {
        "],\"carried\":true}"
    } else {
        "],\"carried\":false}"
    }
}

// Appends what a token line stands for.
fn add_names(
    alloc: Global,
    graph: &PrintedGraph,
    line: Option<u32>,
    text: &mut Vec<u8>,
) -> Result<(), AllocError>
    ensures { OnOk result (text.new.items ≡ text.old.items ++ names_json (line_of graph.now line)) }
{
    let Some(line) = line else {
        return Ok(());
    };
    match graph.lines.get(line as usize) {
        Some(TokenLine::Class(names)) => add_all_quoted(names.as_slice(), text),
        Some(TokenLine::Loop(line)) => {
            let name = format!(in alloc; "\"*DO{line}\"")?;
            text.extend_from_slice(name.as_bytes())
        }
        Some(TokenLine::Output) | None => Ok(()),
    }
}

// Appends names, with commas between them.
fn add_all_quoted(names: &[Vec<u8>], text: &mut Vec<u8>) -> Result<(), AllocError>
    ensures { OnOk result (text.new.items ≡ text.old.items ++ separated (codes ",") quoted names.now) }
{
    let Some((first, others)) = names.split_first() else {
        return Ok(());
    };
    add_quoted(first.as_slice(), text)?;
    for name in others {
        text.extend_from_slice(b",")?;
        add_quoted(name.as_slice(), text)?;
    }
    Ok(())
}

// Appends a name between quotes.
fn add_quoted(name: &[u8], text: &mut Vec<u8>) -> Result<(), AllocError>
    ensures { OnOk result (text.new.items ≡ text.old.items ++ (codes "\"" ++ name.now ++ codes "\"")) }
{
    text.extend_from_slice(b"\"")?;
    text.extend_from_slice(name)?;
    text.extend_from_slice(b"\"")
}
