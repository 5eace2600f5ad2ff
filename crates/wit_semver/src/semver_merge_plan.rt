//! A world whose imports are to be merged by tracks.
ghost use Rattle.std.specs.Prelude.{◌≡◌, IfOk, nat_eq};
ghost use Rattle.std.specs.Map.{lookup};
ghost use Rattle.wit_elaboration.specs.Valid.{IsValid};
ghost use Rattle.wit_semver.specs.SemverMerged.{semver_merge};
ghost use Rattle.wit_semver.specs.steps.Replacing.{IsSemverMergeReady, semver_merge_of};

use crate::replaced::replacements;
use std::alloc::{AllocError, Global};
use wit_data::{InterfaceId, Table, TrackRule, World};
use wit_graph_data::Graph;

/// A world of a graph whose imports are to be merged by a rule of tracks, and what replaces each of its imports that
/// is replaced.
#[derive(Drop)]
pub(crate) struct SemverMergePlan<'a> {
    pub(crate) graph: &'a Graph,
    pub(crate) world: &'a World,
    /// Contracts alone read it: it says by what `replaced` was found.
    pub(crate) rule: TrackRule,
    pub(crate) replaced: Table<InterfaceId, InterfaceId>,
}

impl<'a> SemverMergePlan<'a> {
    /// It finds what replaces which.
    pub(crate) fn new(
        alloc: Global,
        graph: &'a Graph,
        world: &'a World,
        rule: TrackRule,
    ) -> Result<SemverMergePlan<'a>, AllocError>
        requires { IsValid graph.now }
        ensures ready { IfOk result (λ plan. IsSemverMergeReady plan) }
        ensures of { IfOk result
            (λ plan. semver_merge_of plan ≡ semver_merge rule graph.now world.now) }
    {
        let replaced = replacements(alloc, graph, world, rule)?;
        Ok(SemverMergePlan {
            graph,
            world,
            rule,
            replaced,
        })
    }
}

/// What replaces an interface, None where it stays.
pub(crate) fn replacement_of(
    replaced: &Table<InterfaceId, InterfaceId>,
    id: InterfaceId,
) -> Option<InterfaceId>
    ensures { result ≡ lookup (nat_eq id) replaced.now }
{
    replaced.get(&id).copied()
}
