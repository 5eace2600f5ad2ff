//! Adding packages one after another, all or none.
ghost use Rattle.std.specs.Prelude.{◌≡◌, ◌⊎◌, IfErr, IfOk, OnErr, OnOk};
ghost use Rattle.std.specs.List.{AllByRecursion};
ghost use Rattle.wit_elaboration.specs.Valid.{IsValid};
ghost use Rattle.wit_graph_data.specs.declared.error_kind.ResolveErrorKind.{ResolveErrorKind};
ghost use Rattle.wit_graph_data.specs.declared.error_kind.ResolveErrorKind.TheVariants.{OutOfMemory};
ghost use Rattle.wit_link.specs.Appending.{AreAdded, CanAppend, IsOneRefused};
ghost use Rattle.wit_link.specs.Caches.{AreCachesOf, HaveGrown};
ghost use Rattle.wit_remap.specs.Grown.{Grown};

use crate::adding::append_with;
use crate::caches::{CachesMark, GraphCaches};
use std::alloc::Global;
use wit_data::{Items, PackageId, UnresolvedPackage};
use wit_graph_data::{Features, Graph, ResolveResult};
use wit_remap::Mark;

/// Adds `is_shaped` packages to a valid graph, one after another, and answers their ids in order. The spans of each
/// move by the offset beside it. The graph stays valid.
///
/// Refused if `append` refuses one of them, and for memory (28). A refusal leaves the graph as it was.
pub fn append_all(
    alloc: Global,
    graph: &mut Graph,
    features: &Features,
    packages: Items<(UnresolvedPackage, u32)>,
) -> ResolveResult<Items<PackageId>>
    requires packages { AllByRecursion CanAppend packages }
    requires valid { IsValid graph.old }
    ensures ok { IfOk result (λ ids. AreAdded features.now graph.old packages graph.new ids) }
    ensures valid { IsValid graph.new }
    ensures unchanged { OnErr result (graph.new ≡ graph.old) }
    ensures cause { IfErr result
        (λ kind. (kind ≡ OutOfMemory) ⊎ IsOneRefused features.now graph.old packages kind) }
    ensures refuses { (kind : ResolveErrorKind) → IsOneRefused features.now graph.old packages kind
        → OnOk result ⊥ }
{
    let mut caches = GraphCaches::of(alloc, graph)?;
    append_all_with(alloc, graph, &mut caches, features, packages)
}

/// As `append_all`, with caches of the graph, which become those of the new graph. So it costs as much as is added. A
/// refusal leaves graph and caches as they were.
pub fn append_all_with(
    alloc: Global,
    graph: &mut Graph,
    caches: &mut GraphCaches,
    features: &Features,
    packages: Items<(UnresolvedPackage, u32)>,
) -> ResolveResult<Items<PackageId>>
    requires packages { AllByRecursion CanAppend packages }
    requires valid { IsValid graph.old }
    requires caches { AreCachesOf graph.old caches.old }
    ensures ok { IfOk result (λ ids. AreAdded features.now graph.old packages graph.new ids) }
    ensures valid { IsValid graph.new }
    ensures caches { AreCachesOf graph.new caches.new }
    ensures unchanged { OnErr result (graph.new ≡ graph.old) }
    ensures grown { Grown graph.old graph.new }
    ensures known { HaveGrown caches.old caches.new }
    ensures cause { IfErr result
        (λ kind. (kind ≡ OutOfMemory) ⊎ IsOneRefused features.now graph.old packages kind) }
    ensures refuses { (kind : ResolveErrorKind) → IsOneRefused features.now graph.old packages kind
        → OnOk result ⊥ }
{
    let mark = Mark::of(graph);
    let known = CachesMark::of(caches);
    let added = append_each(alloc, graph, caches, features, packages);
    if added.is_err() {
        mark.cut(graph);
        known.cut(caches);
    }
    added
}

/// The same, where after a refusal the packages before the refused one stay.
fn append_each(
    alloc: Global,
    graph: &mut Graph,
    caches: &mut GraphCaches,
    features: &Features,
    packages: Items<(UnresolvedPackage, u32)>,
) -> ResolveResult<Items<PackageId>>
    requires packages { AllByRecursion CanAppend packages }
    requires valid { IsValid graph.old }
    requires caches { AreCachesOf graph.old caches.old }
    ensures ok { IfOk result (λ ids. AreAdded features.now graph.old packages graph.new ids) }
    ensures valid { IsValid graph.new }
    ensures caches { AreCachesOf graph.new caches.new }
    ensures grown { Grown graph.old graph.new }
    ensures known { HaveGrown caches.old caches.new }
    ensures cause { IfErr result
        (λ kind. (kind ≡ OutOfMemory) ⊎ IsOneRefused features.now graph.old packages kind) }
{
    let mut ids = Items::new(alloc);
    for (package, offset) in packages.into_vec() {
        let id = append_with(alloc, graph, caches, features, package, offset)?;
        ids.push(id)?;
    }
    Ok(ids)
}
