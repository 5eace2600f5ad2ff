//! What is found by its name in a table of packages, or of a package.
ghost use Rattle.std.specs.Prelude.{◌≡◌, IfOk, None, get_or, map, option_and_then};
ghost use Rattle.std.specs.Map.{lookup};
ghost use Rattle.wit_names.specs.PackageName.{same_package};
ghost use Rattle.wit_graph_data.specs.declared.graph.Package.{Package};
ghost use Rattle.wit_merge_match.specs.steps.Matched.{interface_under, world_under};

use std::alloc::{AllocError, Global};
use wit_data::{Interface, InterfaceId, Items, PackageId, World, WorldId};
use wit_graph_data::Graph;

/// Of each package of the other graph that of the graph with its name.
pub(crate) fn package_matches(
    alloc: Global,
    graph: &Graph,
    other: &Graph,
) -> Result<Items<Option<PackageId>>, AllocError>
    ensures { IfOk result (λ found.
        found
        ≡ map (λ (home : Package). lookup (same_package home.name) graph.now.package_names)
        other.now.packages) }
{
    let mut found = Items::new(alloc);
    for home in other.packages.as_slice() {
        found.push(graph.package_names.get(&home.name).copied())?;
    }
    Ok(found)
}

/// What is found at an index; None past the end.
pub(crate) fn match_at<T: Copy>(found: &Items<Option<T>>, index: usize) -> Option<T>
    ensures { result ≡ get_or found.now index None }
{
    match found.get(index) {
        Some(id) => *id,
        None => None,
    }
}

/// The package that is matched with one of the other graph.
fn matched_package(
    packages: &Items<Option<PackageId>>,
    home: Option<PackageId>,
) -> Option<PackageId>
    ensures { result ≡ option_and_then (λ p. get_or packages.now p None) home }
{
    match_at(packages, home?.index())
}

/// Of each world of the other graph that of its name in the package that is matched.
pub(crate) fn world_matches(
    alloc: Global,
    graph: &Graph,
    other: &Graph,
    packages: &Items<Option<PackageId>>,
) -> Result<Items<Option<WorldId>>, AllocError>
    ensures { IfOk result
        (λ found. found ≡ map (world_under graph.now packages.now) other.now.worlds) }
{
    let mut found = Items::new(alloc);
    for world in other.worlds.as_slice() {
        found.push(world_match(graph, packages, world))?;
    }
    Ok(found)
}

/// The world of the name of one of the other graph, in the package that is matched.
fn world_match(graph: &Graph, packages: &Items<Option<PackageId>>, world: &World) -> Option<WorldId>
    ensures { result ≡ world_under graph.now packages.now world.now }
{
    let home = matched_package(packages, world.package)?;
    graph.world_in(home, world.name.as_str())
}

/// Of each interface of the other graph that has a name, that of its name in the package that is matched; None of
/// those without.
pub(crate) fn named_interfaces(
    alloc: Global,
    graph: &Graph,
    other: &Graph,
    packages: &Items<Option<PackageId>>,
) -> Result<Items<Option<InterfaceId>>, AllocError>
    ensures { IfOk result
        (λ found. found ≡ map (interface_under graph.now packages.now) other.now.interfaces) }
{
    let mut found = Items::new(alloc);
    for interface in other.interfaces.as_slice() {
        found.push(interface_match(graph, packages, interface))?;
    }
    Ok(found)
}

/// The interface of the name of one of the other graph, in the package that is matched.
fn interface_match(
    graph: &Graph,
    packages: &Items<Option<PackageId>>,
    interface: &Interface,
) -> Option<InterfaceId>
    ensures { result ≡ interface_under graph.now packages.now interface.now }
{
    let name = interface.name.as_ref()?;
    let home = matched_package(packages, interface.package)?;
    graph.interface_in(home, name.as_str())
}
