//! The errors of refused upgrades.
ghost use Rattle.std.specs.Prelude.{◌≡◌, IfErr, IfOk, None};
ghost use Rattle.wit_graph_data.specs.declared.cause.Cause.TheVariants as cause;
ghost use Rattle.wit_graph_data.specs.declared.error_kind.ResolveErrorKind.TheVariants.{OutOfMemory, Semantic};
ghost use Rattle.wit_semver.specs.SemverMerged.{semver_merge_text};
ghost use Rattle.wit_semver.specs.steps.Parts.{missing_text, disagreement_text};

use std::alloc::Global;
use wit_data::{InterfaceId, Span, Text, WorldKey};
use wit_graph_data::{Cause, Graph, ResolveError, ResolveErrorKind, ResolveResult};

/// 25: the newest interface on a track has no type of this name.
pub(crate) fn type_missing(
    alloc: Global,
    graph: &Graph,
    old: InterfaceId,
    new: InterfaceId,
    name: &Text,
) -> ResolveResult<ResolveError>
    ensures error { IfOk result (λ e.
        e
        ≡ Semantic None (semver_merge_text graph.now old new (missing_text name.now))
        cause.UpgradeMismatch) }
    ensures memory { IfErr result (λ e. e ≡ OutOfMemory) }
{
    let reason = format!(in alloc; "type `{name}` is missing")?;
    upgrade_mismatch(alloc, graph, old, new, &reason)
}

/// 25: a function that both interfaces have isn't the same.
pub(crate) fn functions_disagree(
    alloc: Global,
    graph: &Graph,
    old: InterfaceId,
    new: InterfaceId,
    mismatch: &str,
) -> ResolveResult<ResolveError>
    ensures error { IfOk result (λ e.
        e
        ≡ Semantic None (semver_merge_text graph.now old new (disagreement_text mismatch.now))
        cause.UpgradeMismatch) }
    ensures memory { IfErr result (λ e. e ≡ OutOfMemory) }
{
    let reason = format!(in alloc; "failed to merge interfaces: {mismatch}")?;
    upgrade_mismatch(alloc, graph, old, new, &reason)
}

/// 25: an interface can't be replaced by another one for this reason.
fn upgrade_mismatch(
    alloc: Global,
    graph: &Graph,
    old: InterfaceId,
    new: InterfaceId,
    reason: &str,
) -> ResolveResult<ResolveError>
    ensures error { IfOk result (λ e.
        e
        ≡ Semantic None (semver_merge_text graph.now old new reason.now)
        cause.UpgradeMismatch) }
    ensures memory { IfErr result (λ e. e ≡ OutOfMemory) }
{
    let old = graph.name_world_key(alloc, &WorldKey::Interface(old))?;
    let new = graph.name_world_key(alloc, &WorldKey::Interface(new))?;
    let message = format!(in alloc;
        "failed to upgrade `{old}` to `{new}`, was this semver-compatible update not semver compatible?: {reason}"
    )?;
    Ok(ResolveErrorKind::Semantic {
        span: Span::unknown(),
        message: Text::from_string(message),
        cause: Cause::UpgradeMismatch,
    }
    .into())
}
