//! Adding a package to a graph.
ghost use Rattle.std.specs.Prelude.{◌≡◌, ◌⊎◌, IfErr, IfOk, OnErr, OnOk};
ghost use Rattle.wit_link_spec.specs.steps.AdditionRefs.{activity_of, new_ids_of, values_of};
ghost use Rattle.wit_link_spec.specs.Cause.{IsAdditionCause};
ghost use Rattle.wit_elaboration.specs.Elaboration.{graph_uses};
ghost use Rattle.wit_elaboration.specs.Valid.{IsValid};
ghost use Rattle.wit_graph_data.specs.declared.error_kind.ResolveErrorKind.{ResolveErrorKind};
ghost use Rattle.wit_graph_data.specs.declared.error_kind.ResolveErrorKind.TheVariants.{OutOfMemory};
ghost use Rattle.wit_data.specs.Shape.{IsShaped};
ghost use Rattle.wit_link.specs.Appending.{IsAdded, addition};
ghost use Rattle.wit_link.specs.Caches.{AreCachesOf, HaveGrown};
ghost use Rattle.wit_link.specs.steps.Checked.{IsChecked, IsNameTaken, IsNew};
ghost use Rattle.wit_link_spec.specs.Added.{with_parts};
ghost use Rattle.wit_link.specs.steps.Including.{ready_worlds};
ghost use Rattle.wit_remap.specs.Grown.{Begins, Grown};

use crate::caches::{CachesMark, GraphCaches};
use crate::checking::{Checked, check};
use crate::fits::spans_fit;
use crate::including::update_includes;
use std::alloc::{AllocError, Global};
use wit_data::{Items, PackageId, Span, UnresolvedPackage};
use wit_elaboration::Elaborator;
use wit_graph_data::{Features, Graph, ResolveError, ResolveErrorKind, ResolveResult};
use wit_link_include::add_world;
use wit_link_spec::AdditionRef;
use wit_link_spec::laws::{included_are_there, includes_can_be, pushes_stay_valid, worlds_can_be};
use wit_remap::{Mark, Part, UpdatedWorld, add_parts};

/// Adds an `is_shaped` package to a valid graph under the features that are on, its spans moved by an offset, and
/// answers its id. The graph stays valid.
///
/// Refused if a package of that name is there (5), if a package, world, interface or type that it names isn't there (1,
/// 2, 3, 13) or is no resource (14), if it doesn't meet a gate (9, 10), if an active thing needs one that is left out
/// (11, 12), if a result holds a borrow (15), if an include brings a label that is there (7), a stability that
/// disagrees (8) or a renaming of nothing (16), if labels aren't strongly unique (17), if a setter has no getter (18),
/// if something that exports need from outside is exported (4), if a span would pass 4294967295 (27), and for memory
/// (28). A refusal leaves the graph as it was.
///
/// Source: `append` of wit-parser 0.263.0.
pub fn append(
    alloc: Global,
    graph: &mut Graph,
    features: &Features,
    package: UnresolvedPackage,
    span_offset: u32,
) -> ResolveResult<PackageId>
    requires shaped { IsShaped «package» }
    requires valid { IsValid graph.old }
    ensures ok { IfOk result
        (λ id. IsAdded (addition features.now graph.old «package» span_offset) graph.new id) }
    ensures valid { IsValid graph.new }
    ensures unchanged { OnErr result (graph.new ≡ graph.old) }
    ensures grown { Grown graph.old graph.new }
    ensures cause { IfErr result (λ kind.
        (kind ≡ OutOfMemory)
        ⊎ IsAdditionCause (addition features.now graph.old «package» span_offset) kind) }
    ensures refuses { (kind : ResolveErrorKind)
        → IsAdditionCause (addition features.now graph.old «package» span_offset) kind
        → OnOk result ⊥ }
{
    let mut caches = GraphCaches::of(alloc, graph)?;
    append_with(alloc, graph, &mut caches, features, package, span_offset)
}

/// As `append`, with caches of the graph, which become those of the new graph. So it costs as much as is added. A
/// refusal leaves graph and caches as they were.
///
/// Source: `append` of wit-parser 0.263.0.
pub fn append_with(
    alloc: Global,
    graph: &mut Graph,
    caches: &mut GraphCaches,
    features: &Features,
    package: UnresolvedPackage,
    span_offset: u32,
) -> ResolveResult<PackageId>
    requires shaped { IsShaped «package» }
    requires valid { IsValid graph.old }
    requires caches { AreCachesOf graph.old caches.old }
    ensures ok { IfOk result
        (λ id. IsAdded (addition features.now graph.old «package» span_offset) graph.new id) }
    ensures valid { IsValid graph.new }
    ensures caches { AreCachesOf graph.new caches.new }
    ensures unchanged { OnErr result (graph.new ≡ graph.old) }
    ensures grown { Grown graph.old graph.new }
    ensures known { HaveGrown caches.old caches.new }
    ensures cause { IfErr result (λ kind.
        (kind ≡ OutOfMemory)
        ⊎ IsAdditionCause (addition features.now graph.old «package» span_offset) kind) }
    ensures refuses { (kind : ResolveErrorKind)
        → IsAdditionCause (addition features.now graph.old «package» span_offset) kind
        → OnOk result ⊥ }
{
    if graph.package_names.contains_key(&package.name) {
        return Err(name_taken(package, span_offset));
    }
    if !spans_fit(&package, span_offset) {
        return Err(ResolveError::from(ResolveErrorKind::OffsetOverflow));
    }
    let checked = check(
        alloc,
        &AdditionRef {
            graph,
            features,
            unresolved: &package,
            offset: span_offset,
        },
        &mut caches.met,
    )?;
    let mark = Mark::of(graph);
    let known = CachesMark::of(caches);
    let added = add_checked(
        alloc,
        graph,
        &mut caches.elaborator,
        features,
        checked,
        package,
        span_offset,
    );
    if added.is_err() {
        mark.cut(graph);
        known.cut(caches);
    }
    added
}

/// The refusal of a package whose name is there.
fn name_taken(package: UnresolvedPackage, span_offset: u32) -> ResolveError
    ensures { IsNameTaken span_offset «package» result }
{
    match package.package_name_span.moved(span_offset) {
        Some(span1) => ResolveError::from(ResolveErrorKind::DuplicatePackage {
            name: package.into_name(),
            span1,
            span2: Span::unknown(),
        }),
        None => ResolveError::from(ResolveErrorKind::OffsetOverflow),
    }
}

/// Adds a package of which all has been looked at but its worlds. After a refusal the graph may have grown at its
/// ends, and the rows of the elaborator at theirs.
fn add_checked(
    alloc: Global,
    graph: &mut Graph,
    elaborator: &mut Elaborator,
    features: &Features,
    checked: Checked,
    package: UnresolvedPackage,
    span_offset: u32,
) -> ResolveResult<PackageId>
    requires shaped { IsShaped «package» }
    requires valid { IsValid graph.old }
    requires uses { elaborator.old ≡ graph_uses graph.old }
    requires new { IsNew (addition features.now graph.old «package» span_offset) }
    requires checked { IsChecked (addition features.now graph.old «package» span_offset) }
    requires activity { checked.activity
        ≡ activity_of (addition features.now graph.old «package» span_offset) }
    requires new_ids { checked.new_ids
        ≡ new_ids_of (addition features.now graph.old «package» span_offset) }
    requires values { checked.values
        ≡ values_of (addition features.now graph.old «package» span_offset) }
    ensures ok { IfOk result
        (λ id. IsAdded (addition features.now graph.old «package» span_offset) graph.new id) }
    ensures valid { OnOk result (IsValid graph.new) }
    ensures uses { OnOk result (elaborator.new ≡ graph_uses graph.new) }
    ensures grown { Grown graph.old graph.new }
    ensures rows { Begins elaborator.old elaborator.new }
    ensures cause { IfErr result (λ kind.
        (kind ≡ OutOfMemory)
        ⊎ IsAdditionCause (addition features.now graph.old «package» span_offset) kind) }
{
    pushes_stay_valid();
    includes_can_be();
    worlds_can_be();
    included_are_there();
    let id = PackageId::from_index(graph.packages.len());
    let worlds = add_updated(alloc, graph, features, checked, package, span_offset)?;
    let types = graph.types.as_slice();
    elaborator.grow(alloc, types, graph.interfaces.as_slice())?;
    for updated in worlds.into_vec() {
        let UpdatedWorld {
            id: _,
            world,
            includes,
        } = updated;
        add_world(alloc, graph, elaborator, world, &includes, id)?;
    }
    Ok(id)
}

/// Adds the types and interfaces of a package under their new ids, and the package, and answers its worlds with theirs.
fn add_updated(
    alloc: Global,
    graph: &mut Graph,
    features: &Features,
    checked: Checked,
    package: UnresolvedPackage,
    span_offset: u32,
) -> Result<Items<UpdatedWorld>, AllocError>
    requires shaped { IsShaped «package» }
    requires valid { IsValid graph.old }
    requires new { IsNew (addition features.now graph.old «package» span_offset) }
    requires checked { IsChecked (addition features.now graph.old «package» span_offset) }
    requires activity { checked.activity
        ≡ activity_of (addition features.now graph.old «package» span_offset) }
    requires new_ids { checked.new_ids
        ≡ new_ids_of (addition features.now graph.old «package» span_offset) }
    requires values { checked.values
        ≡ values_of (addition features.now graph.old «package» span_offset) }
    ensures ok { OnOk result
        (graph.new ≡ with_parts (addition features.now graph.old «package» span_offset)) }
    ensures worlds { IfOk result (λ worlds.
        worlds ≡ ready_worlds (addition features.now graph.old «package» span_offset)) }
    ensures grown { Grown graph.old graph.new }
{
    let Checked {
        activity,
        new_ids,
        values,
    } = checked;
    let part = Part {
        features,
        activity: &activity,
    };
    let updated = add_parts(alloc, graph, &part, &new_ids, values, package, span_offset)?;
    update_includes(alloc, updated, &new_ids, span_offset)
}
