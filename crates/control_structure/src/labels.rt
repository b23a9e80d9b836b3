//! Labels: where they stand, and whether each one that is used stands where it may.

ghost use Rattle.std.specs.Prelude.{◌≡◌, All, None, IfOk, not};
ghost use Rattle.std.specs.List.{list_any};
ghost use Rattle.layout_rules.specs.Faults.{first_line};
ghost use Rattle.control_structure.specs.LabelTable.{ArePlacesOf, place_in};
ghost use Rattle.layout_rules.specs.Labels.{IsLabel, bears, is_labelled_twice, jumps, lacks_label, used};
ghost use Rattle.layout_rules.specs.Source.{IsSource};

use crate::roles::{may_be_target, role_in};
use crate::room::make_room;
use df_sequence::NoMemory;
use f77_tree::{Labelled, Stmt};
use std::alloc::Global;

/// The places of labels.
#[derive(Drop)]
pub struct Labels {
    /// For each label the place of the first statement that has it, and `count` where none has it. It reaches as far as the labels
    /// of the statements.
    places: Vec<u32>,
    /// The number of statements.
    count: u32,
}

impl Labels {
    /// The places of the labels of these statements.
    pub fn of(alloc: Global, stmts: &[Labelled]) -> Result<Labels, NoMemory>
        requires { IsSource stmts.now }
        ensures { IfOk result (ArePlacesOf stmts.now) }
    {
        let count = stmts.len() as u32;
        let mut places = Vec::new(alloc);
        for (i, s) in stmts.iter().enumerate() {
            make_room(&mut places, s.label, count)?;
            let label = s.label as usize;
            if places[label] == count {
                places[label] = i as u32;
            }
        }
        Ok(Labels { places, count })
    }

    /// The place of the statement with the label, and the number of statements where there is none.
    pub fn place(&self, label: u32) -> u32
        ensures { result ≡ place_in self.now label }
    {
        match self.places.get(label as usize) {
            Some(place) => *place,
            None => self.count,
        }
    }
}

/// The line of the first statement whose label stands on an earlier one too (ANSI X3.9-1978, section 3.4).
pub fn first_labelled_twice(stmts: &[Labelled], labels: &Labels) -> Option<u32>
    requires source { IsSource stmts.now }
    requires places { ArePlacesOf stmts.now labels.now }
    ensures { result ≡ first_line is_labelled_twice stmts.now }
{
    for (i, s) in stmts.iter().enumerate() {
        if s.label != 0 && labels.place(s.label) != i as u32 {
            return Some(s.line);
        }
    }
    None
}

/// Whether a statement has the label to which control may go.
fn is_borne(stmts: &[Labelled], labels: &Labels, label: u32) -> bool
    requires once { first_line is_labelled_twice stmts.now ≡ None }
    requires places { ArePlacesOf stmts.now labels.now }
    requires label { IsLabel label }
    ensures { result ≡ list_any (bears label) stmts.now }
{
    match stmts.get(labels.place(label) as usize) {
        Some(s) => may_be_target(role_in(&s.stmt)),
        None => false,
    }
}

/// Whether one of these labels stands on no statement to which control may go.
fn is_one_lacking(stmts: &[Labelled], labels: &Labels, targets: &[u32]) -> bool
    requires once { first_line is_labelled_twice stmts.now ≡ None }
    requires places { ArePlacesOf stmts.now labels.now }
    requires targets { All IsLabel targets.now }
    ensures { result ≡ list_any (λ label. not (list_any (bears label) stmts.now)) targets.now }
{
    for label in targets {
        if !is_borne(stmts, labels, *label) {
            return true;
        }
    }
    false
}

/// Whether a statement may jump to a label that stands on no statement to which control may go.
fn lacks_target(stmt: &Stmt, stmts: &[Labelled], labels: &Labels) -> bool
    requires once { first_line is_labelled_twice stmts.now ≡ None }
    requires places { ArePlacesOf stmts.now labels.now }
    requires targets { All IsLabel (jumps stmt.now) }
    ensures { result ≡ list_any (λ label. not (list_any (bears label) stmts.now)) (jumps stmt.now) }
{
    match stmt {
        Stmt::GoTo(label) => is_one_lacking(stmts, labels, &[*label]),
        Stmt::PickGoTo(targets, _) => is_one_lacking(stmts, labels, targets.as_slice()),
        Stmt::SignIf(_, negative, zero, positive) => {
            is_one_lacking(stmts, labels, &[*negative, *zero, *positive])
        }
        Stmt::ThenIf(_, inner) => lacks_target(inner.get(), stmts, labels),
        _ => false,
    }
}

/// Whether a statement uses a label that stands on no statement to which control may go.
fn lacks_one(stmts: &[Labelled], labels: &Labels, stmt: &Stmt) -> bool
    requires once { first_line is_labelled_twice stmts.now ≡ None }
    requires places { ArePlacesOf stmts.now labels.now }
    requires targets { All IsLabel (used stmt.now) }
    ensures { result ≡ list_any (λ label. not (list_any (bears label) stmts.now)) (used stmt.now) }
{
    match stmt {
        Stmt::Do(label, _, _, _, _) => is_one_lacking(stmts, labels, &[*label]),
        _ => lacks_target(stmt, stmts, labels),
    }
}

/// The line of the first statement that uses a label which stands on no executable statement, or on ELSE IF or ELSE
/// (ANSI X3.9-1978, section 11).
pub fn first_lacking_label(stmts: &[Labelled], labels: &Labels) -> Option<u32>
    requires source { IsSource stmts.now }
    requires once { first_line is_labelled_twice stmts.now ≡ None }
    requires places { ArePlacesOf stmts.now labels.now }
    ensures { result ≡ first_line (lacks_label stmts.now) stmts.now }
{
    for s in stmts {
        if lacks_one(stmts, labels, &s.stmt) {
            return Some(s.line);
        }
    }
    None
}
