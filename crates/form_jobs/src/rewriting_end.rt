//! What is told where a program has no rewritten form.

ghost use Rattle.std.specs.Prelude.{◌≡◌, ◌≢◌, ◌≤◌};
ghost use Rattle.df_io.specs.Faults.{Rose};
ghost use Rattle.job_terms.specs.Answers.{AnswersAs};
ghost use Rattle.form_jobs.specs.DueForms.{IsDueByEnd};

use df_io::Sink;
use job_terms::{Code, Status, tell_refusal};
use rewriting::RewriteEnd;

/// Writes which limit the rewriting of a program passes. A limit has no line of the source.
pub fn tell_end<K: Sink>(end: RewriteEnd, sink: &mut K) -> Status
    ensures due { AnswersAs (IsDueByEnd end) (K.got sink.old) (K.got sink.new) result }
    ensures words { result ≢ Status.Usage }
    ensures reads { result ≢ Status.ReadFault }
    ensures later { K.faults sink.old ≤ K.faults sink.new }
    ensures fault { result ≡ Status.WriteFault → Rose (K.faults sink.old) (K.faults sink.new) }
{
    match end {
        RewriteEnd::TooManyNames => tell_refusal(0, Code::TooManyNames, sink),
        RewriteEnd::TooManyStatements => {
            tell_refusal(0, Code::Text(f77_source::Code::TooManyStatements), sink)
        }
        RewriteEnd::LongText => tell_refusal(0, Code::LongText, sink),
        RewriteEnd::NoMemory => Status::NoMemory,
    }
}
