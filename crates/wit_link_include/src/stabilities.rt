//! The stability of an interface that is there, with that of one that comes joined to it.
ghost use Rattle.std.specs.Prelude.{◌≡◌, IfErr, OnOk};
ghost use Rattle.wit_remap_spec.specs.Joined.{include_stability, Disagree};
ghost use Rattle.wit_graph_data.specs.declared.error_kind.ResolveErrorKind.TheVariants.{StabilityMismatch};

use std::mem;
use wit_data::{Span, Stability};
use wit_graph_data::{ResolveErrorKind, ResolveResult};

/// Joins a stability that comes to one that is there. A known one replaces an unknown one; a `@since` of another
/// package says nothing, and leaves it unknown. Two known ones that differ are refused (8).
pub(crate) fn join_stability(
    other: bool,
    span: Span,
    from: Stability,
    into: &mut Stability,
) -> ResolveResult<()>
    ensures ok { OnOk result (into.new ≡ include_stability other from into.old) }
    ensures fine { OnOk result
        (Disagree from into.old → include_stability other from into.old ≡ from → ⊥) }
    ensures cause { IfErr result (λ kind.
        (kind ≡ StabilityMismatch span from into.old) × Disagree from into.old
        × (include_stability other from into.old ≡ from)) }
{
    if other && from.is_stable() {
        *into = Stability::Unknown;
        return Ok(());
    }
    if from.is_unknown() || from == *into {
        return Ok(());
    }
    if into.is_unknown() {
        *into = from;
        return Ok(());
    }
    let into = mem::replace(into, Stability::Unknown);
    Err(ResolveErrorKind::StabilityMismatch { span, from, into }.into())
}
