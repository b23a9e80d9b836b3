//! The table of constants.

ghost use Rattle.std.specs.Prelude.{◌≡◌, ◌<◌, ◌+◌, length};
ghost use Rattle.f77_tree.specs.KnownWith.{known_with};
ghost use Rattle.f77_tree.specs.Value.{IsExpression};
ghost use Rattle.f77_tree.specs.WellFormed.{IsWellFormed};
ghost use Rattle.alias_classes.specs.Classes.{IsClasses, class_count};
ghost use Rattle.const_prop.specs.Closed.{words_on};
ghost use Rattle.const_prop.specs.KnownRows.{edges_of};

use crate::facts::program_facts;
use crate::known::Known;
use crate::known_rows::KnownRows;
use crate::known_values::known_value;
use alias_classes::Classes;
use f77_tree::{Expr, Program};
use std::marker::Model;

/// For each line and edge what is known of the word of the line there, and for each branch or hold which out-edge it takes.
#[derive(Drop)]
pub struct Table<const W: usize> {
    pub(crate) known: KnownRows<W>,
    pub(crate) decisions: Vec<Known>,
}

impl<const W: usize> Model for Table<W> {
    ghost use Rattle.const_prop.specs.Table.{Held, held_of};

    ghost Value = { Held W };

    ghost view = { held_of };
}

impl<const W: usize> Table<W> {
    ghost use Rattle.const_prop.specs.Table.{knowns_of};

    /// What is known of the word of the line where the line stands on this edge, a wire of it.
    pub fn value(&self, line: u32, edge: u32) -> Known
        requires line { line < self.now.known.lines }
        requires edge { edge < edges_of self.now.known }
        ensures { result ≡ (knowns_of self.now).value line edge }
    {
        self.known.get(line, edge)
    }

    /// The value of an expression of the program where control takes the edge, so far as it follows from the words that have one value
    /// there. What is told of a line where it doesn't stand means nothing, so this is to be asked for expressions of the piece at which
    /// the edge ends. It takes a few steps for each part of the expression.
    pub fn known_value(&self, p: &Program, c: &Classes<W>, edge: u32, e: &Expr) -> Option<i32>
        requires program { IsWellFormed p.now }
        requires classes { IsClasses p.now c.now }
        requires lines { self.now.known.lines ≡ class_count c.now + 1 }
        requires edge { edge < edges_of self.now.known }
        requires expression { IsExpression p.now.names e.now }
        ensures { result ≡ known_with p.now.names (words_on c.now (knowns_of self.now) edge) e.now }
    {
        program_facts();
        known_value(p, c, &self.known, edge, e)
    }

    /// What is known of the out-edge that control takes at this branch or hold: its place among those of the piece, from 0.
    pub fn decision(&self, piece: u32) -> Known
        requires { piece < length self.now.decisions }
        ensures { result ≡ (knowns_of self.now).decision piece }
    {
        self.decisions[piece as usize]
    }
}
