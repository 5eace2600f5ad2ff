//! Groups of packages that are added together: their files at the end of the sources, their packages in order.
ghost use Rattle.std.specs.Prelude.{◌≡◌, ◌⊎◌, ◌<◌, ◌+◌, ◌++◌, ◌^◌, [], ◌∷◌, Contains, IfErr, IfOk, OnErr, OnOk, map};
ghost use Rattle.std.specs.List.{AllByRecursion};
ghost use Rattle.wit_graph_data.specs.declared.error_kind.ResolveErrorKind.{ResolveErrorKind};
ghost use Rattle.wit_graph_data.specs.declared.error_kind.ResolveErrorKind.TheVariants.{OutOfMemory};
ghost use Rattle.wit_data.specs.declared.unresolved.UnresolvedPackage.{UnresolvedPackage};
ghost use Rattle.wit_link.specs.Appending.{CanAppend, FilesPassTheEnd, IsAdditionsCause, files_end, packages_of};
ghost use Rattle.wit_remap.specs.Grown.{Begins};
ghost use Rattle.wit_resolve_graph.specs.steps.Grouping.{AreAddedTogether};
ghost use Rattle.wit_resolve_graph.specs.State.{AreKept};
ghost use Rattle.wit_resolve_graph.specs.Step.{with_files};
ghost use Rattle.wit_link.specs.GroupOrder.{IsSortCause, names_of};
ghost use Rattle.wit_sources.specs.SourceMap.{with_sources};

use crate::kept::Kept;
use std::alloc::{AllocError, Global};
use wit_data::{
    Items, PackageId, PackageName, SourceMap, UnresolvedPackage, UnresolvedPackageGroup,
};
use wit_graph_data::{Features, Graph, ResolveResult};
use wit_link::{CachesMark, append_all_with, sort_groups};
use wit_remap::Mark;

/// Puts the files of groups at the end of a source map, in order, and answers their packages, the nested
/// ones of a group before its main one, each with the position where its group's files begin.
///
/// Refused where the end would pass 4294967295 (27), and for memory (28); the map is as before then.
pub(crate) fn place_groups(
    alloc: Global,
    source_map: &mut SourceMap,
    main: UnresolvedPackageGroup,
    deps: Items<UnresolvedPackageGroup>,
) -> ResolveResult<Items<(UnresolvedPackage, u32)>>
    ensures ok { IfOk result (λ packages. packages ≡ packages_of source_map.old.end (main ∷ deps)) }
    ensures files { OnOk result (source_map.new ≡ with_files source_map.old (main ∷ deps)) }
    ensures fits { OnOk result (files_end source_map.old.end (main ∷ deps) < 2 ^ 32) }
    ensures unchanged { OnErr result (source_map.new ≡ source_map.old) }
    ensures cause { IfErr result
        (λ kind. (kind ≡ OutOfMemory) ⊎ FilesPassTheEnd source_map.old.end (main ∷ deps) kind) }
{
    let files = source_map.len();
    let end = source_map.end();
    let placed = place_each(alloc, source_map, main, deps);
    if placed.is_err() {
        source_map.truncate(files, end);
    }
    placed
}

/// The same, where after a refusal some of the files are at the end.
fn place_each(
    alloc: Global,
    source_map: &mut SourceMap,
    main: UnresolvedPackageGroup,
    deps: Items<UnresolvedPackageGroup>,
) -> ResolveResult<Items<(UnresolvedPackage, u32)>>
    ensures ok { IfOk result (λ packages. packages ≡ packages_of source_map.old.end (main ∷ deps)) }
    ensures files { OnOk result (source_map.new ≡ with_files source_map.old (main ∷ deps)) }
    ensures fits { OnOk result (files_end source_map.old.end (main ∷ deps) < 2 ^ 32) }
    ensures begins { Begins source_map.old.files source_map.new.files }
    ensures cause { IfErr result
        (λ kind. (kind ≡ OutOfMemory) ⊎ FilesPassTheEnd source_map.old.end (main ∷ deps) kind) }
{
    let mut packages = Items::new(alloc);
    place_group(alloc, source_map, &mut packages, main)?;
    for group in deps.into_vec() {
        place_group(alloc, source_map, &mut packages, group)?;
    }
    Ok(packages)
}

/// Puts the files of a group at the end of a source map, and its packages at the end of packages.
fn place_group(
    alloc: Global,
    source_map: &mut SourceMap,
    packages: &mut Items<(UnresolvedPackage, u32)>,
    group: UnresolvedPackageGroup,
) -> ResolveResult<()>
    ensures ok { OnOk result
        (packages.new ≡ packages.old ++ packages_of source_map.old.end (group ∷ [])) }
    ensures files { OnOk result (source_map.new ≡ with_sources source_map.old group.source_map) }
    ensures fits { OnOk result (source_map.old.end + group.source_map.end < 2 ^ 32) }
    ensures begins { Begins source_map.old.files source_map.new.files }
    ensures cause { IfErr result
        (λ kind. (kind ≡ OutOfMemory) ⊎ FilesPassTheEnd source_map.old.end (group ∷ []) kind) }
{
    let UnresolvedPackageGroup {
        main,
        nested,
        source_map: files,
    } = group;
    let offset = source_map.append(alloc, files)?;
    take_packages(packages, nested, main, offset)?;
    Ok(())
}

/// Adds nested packages and a main one at the end of packages, with an offset.
fn take_packages(
    packages: &mut Items<(UnresolvedPackage, u32)>,
    nested: Items<UnresolvedPackage>,
    main: UnresolvedPackage,
    offset: u32,
) -> Result<(), AllocError>
    ensures { OnOk result (packages.new
        ≡ packages.old ++ map (λ (u : UnresolvedPackage). (u, offset)) (nested ++ main ∷ [])) }
{
    for package in nested.into_vec() {
        packages.push((package, offset))?;
    }
    packages.push((main, offset))
}

/// Adds packages to a graph in the order of `sort_groups`, each with its spans moved by its offset, and
/// answers the id of the one of a name.
///
/// Refused as `sort_groups` and `append_all` say; the graph is then as before. What is kept is of the graph, and
/// becomes that of the new graph.
pub(crate) fn add_packages(
    alloc: Global,
    graph: &mut Graph,
    kept: &mut Kept,
    features: &Features,
    packages: Items<(UnresolvedPackage, u32)>,
    name: &PackageName,
) -> ResolveResult<PackageId>
    requires packages { AllByRecursion CanAppend packages }
    requires named { Contains (names_of packages) name.now }
    requires kept { AreKept graph.old kept.old }
    ensures ok { IfOk result
        (λ id. AreAddedTogether features.now graph.old packages name.now id graph.new) }
    ensures kept { AreKept graph.new kept.new }
    ensures unchanged { OnErr result (graph.new ≡ graph.old) }
    ensures cause { IfErr result (λ kind.
        (kind ≡ OutOfMemory)
        ⊎ (IsSortCause packages kind ⊎ IsAdditionsCause features.now graph.old packages kind)) }
    ensures refuses { (kind : ResolveErrorKind)
        → IsSortCause packages kind ⊎ IsAdditionsCause features.now graph.old packages kind
        → OnOk result ⊥ }
{
    let sorted = sort_groups(alloc, packages)?;
    let mark = Mark::of(graph);
    let known = CachesMark::of(&kept.caches);
    append_all_with(alloc, graph, &mut kept.caches, features, sorted)?;
    kept.follow(alloc, graph, mark, known)?;
    match graph.package_names.get(name) {
        Some(id) => Ok(*id),
        None => unreachable!(),
    }
}
