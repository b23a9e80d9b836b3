//! The kinds of the words of DATA against those of its constants, run by run (ANSI X3.9-1978, section 9).

ghost use Rattle.std.specs.Prelude.{◌≡◌, map, flat_map};
ghost use Rattle.f77_tree.specs.declared.declarations.Kind.{Kind};
ghost use Rattle.f77_tree.specs.InitialWords.{lit_kind};
ghost use Rattle.layout_rules.specs.StorageFaults.{same_kind, are_same_kinds};
ghost use Rattle.storage_checks.specs.Runs.{all_constants, span_kinds, TakesKind};

use crate::constants::Constants;
use crate::data_spans::Span;
use f77_tree::{InitValue, Kind, Lit};

/// Whether there are as many constants as words, each of the kind of its word.
pub(crate) fn fits(spans: &[Span], values: &[InitValue]) -> bool
    ensures { result ≡ are_same_kinds (flat_map span_kinds spans.now) (map lit_kind (all_constants values.now)) }
{
    let mut constants = Constants::new(values);
    for span in spans {
        if !takes(&mut constants, span.len, span.kind) {
            return false;
        }
    }
    constants.take(1).is_none()
}

// Whether the next constants, so many of them, are of this kind. It takes them, unless they aren't.
fn takes(constants: &mut Constants<'_>, len: u32, kind: Kind) -> bool
    ensures { TakesKind len kind constants.old constants.new result }
{
    let mut left = len;
    while left > 0 {
        let Some(first) = constants.take(left) else {
            return false;
        };
        if !is_of_kind(kind, first.value) {
            return false;
        }
        left -= first.times;
    }
    true
}

fn is_of_kind(kind: Kind, value: Lit) -> bool
    ensures { result ≡ same_kind kind (lit_kind value) }
{
    match (kind, value) {
        (Kind::Integer, Lit::Int(_)) | (Kind::Logical, Lit::Truth(_)) => true,
        _ => false,
    }
}
