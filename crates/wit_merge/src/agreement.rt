//! What holds against a merge before anything is made.
ghost use Rattle.std.specs.Prelude.{◌≡◌, ◌⊎◌, IfErr, OnOk};
ghost use Rattle.wit_elaboration.specs.Valid.{IsValid};
ghost use Rattle.wit_graph_data.specs.declared.error_kind.ResolveErrorKind.TheVariants.{OutOfMemory};
ghost use Rattle.wit_merge_match.specs.Differing.{merge_of_graphs_by};
ghost use Rattle.wit_merge_match.specs.steps.Matched.{AreMatches};
ghost use Rattle.wit_merge_spec.specs.Cause.{IsMergeCause};
ghost use Rattle.wit_merge.specs.steps.MergeSteps.{DoAgree};

use std::alloc::Global;
use wit_data::{Span, Text};
use wit_graph_data::{Cause, Graph, ResolveErrorKind, ResolveResult};
use wit_merge_match::{Matches, find_mismatch, find_stability_mismatch, spans_fit};

/// Refuses what is matched and differs (24), stabilities that can't be joined (8), and a span that can't be moved (27).
pub(crate) fn check_agreement(
    alloc: Global,
    graph: &Graph,
    other: &Graph,
    matches: &Matches,
    offset: u32,
) -> ResolveResult<()>
    requires graph { IsValid graph.now }
    requires other { IsValid other.now }
    requires matches { AreMatches graph.now other.now matches.now }
    ensures agree { OnOk result (DoAgree (merge_of_graphs_by graph.now other.now offset)) }
    ensures cause { IfErr result (λ e.
        (e ≡ OutOfMemory) ⊎ IsMergeCause (merge_of_graphs_by graph.now other.now offset) e) }
{
    if let Some(message) = find_mismatch(alloc, graph, other, matches)? {
        return Err(ResolveErrorKind::Semantic {
            span: Span::unknown(),
            message: Text::from_string(message),
            cause: Cause::MergeMismatch,
        }
        .into());
    }
    if let Some(pair) = find_stability_mismatch(graph, other, matches)? {
        return Err(ResolveErrorKind::StabilityMismatch {
            span: Span::unknown(),
            from: pair.from,
            into: pair.into,
        }
        .into());
    }
    if !spans_fit(other, offset) {
        return Err(ResolveErrorKind::OffsetOverflow.into());
    }
    Ok(())
}
