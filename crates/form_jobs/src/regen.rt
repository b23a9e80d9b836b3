//! The text of a program's rewritten form.

ghost use Rattle.std.specs.Prelude.{◌≡◌, ◌≢◌, ◌≤◌};
ghost use Rattle.df_io.specs.Faults.{Rose};
ghost use Rattle.alias_classes.specs.Number.{HasFewClasses};
ghost use Rattle.f77_tree.specs.Dialects.{IsOfDialect};
ghost use Rattle.f77_tree.specs.WellFormed.{IsWellFormed};
ghost use Rattle.job_terms.specs.Answers.{AnswersAs, Tells};
ghost use Rattle.form_jobs.specs.DueForms.{IsDueRegen};
ghost use Rattle.job_terms.specs.Due.{done};

use crate::rewriting_end::tell_end;
use df_io::{Sink, WriteFault, write_all};
use f77_tree::Program;
use job_terms::Status;
use rewriting::rewrite_text;
use std::alloc::Global;

/// Writes the text of a program's rewritten form, in a dialect. All memory is taken before the first byte is written.
pub fn tell_regen<K: Sink>(alloc: Global, program: &Program, checked: bool, sink: &mut K) -> Status
    requires program { IsWellFormed program.now }
    requires dialect { IsOfDialect checked program.now }
    requires few { HasFewClasses program.now }
    ensures due { AnswersAs (IsDueRegen program.now checked) (K.got sink.old) (K.got sink.new) result }
    ensures words { result ≢ Status.Usage }
    ensures reads { result ≢ Status.ReadFault }
    ensures later { K.faults sink.old ≤ K.faults sink.new }
    ensures fault { result ≡ Status.WriteFault → Rose (K.faults sink.old) (K.faults sink.new) }
{
    match rewrite_text(alloc, program, checked) {
        Ok(text) => tell_text(text.as_slice(), sink),
        Err(end) => tell_end(end, sink),
    }
}

// Writes a text.
fn tell_text<K: Sink>(text: &[u8], sink: &mut K) -> Status
    ensures tells { Tells (done text.now) (K.got sink.old) (K.got sink.new) result }
    ensures later { K.faults sink.old ≤ K.faults sink.new }
    ensures fault { result ≡ Status.WriteFault → Rose (K.faults sink.old) (K.faults sink.new) }
{
    match write_all(sink, text) {
        Ok(()) => Status::Done,
        Err(WriteFault) => Status::WriteFault,
    }
}
