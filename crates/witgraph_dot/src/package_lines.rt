//! What the lines of packages list.
ghost use Rattle.std.specs.Prelude.{◌≡◌, ◌++◌, OnOk, flat_map, fold};
ghost use Rattle.witgraph_dot.specs.Listed.{and_links, with_links};
ghost use Rattle.witgraph_dot.specs.Pushed.{graph_world, line_imports, line_includes, links_in_package, pushed};
ghost use Rattle.witgraph_dot.specs.steps.Parts.{links_for, world_links, with_brought};

use crate::listing::{Include, Listing};
use crate::names::{graph_interface, graph_world};
use std::alloc::{AllocError, Global};
use wit_resolve_graph::{
    Resolve, UnresolvedPackage, UnresolvedPackageGroup, World, WorldId, WorldKey,
};

/// Adds what the lines of groups list, which the graph has taken.
pub fn list_groups(
    alloc: Global,
    resolve: &Resolve,
    groups: &[UnresolvedPackageGroup],
    listing: &mut Listing,
) -> Result<(), AllocError>
    ensures imports { OnOk result (listing.new.imports
        ≡ pushed line_imports resolve.now.graph groups.now listing.old.imports) }
    ensures includes { OnOk result (listing.new.includes
        ≡ pushed line_includes resolve.now.graph groups.now listing.old.includes) }
{
    let mut includes = Vec::new(alloc);
    for group in groups {
        list_package(resolve, &group.main, listing, &mut includes)?;
        list_packages(resolve, group.nested.as_slice(), listing, &mut includes)?;
    }
    // A world that includes another gets what that has by then, so a chain of includes may take as many rounds as it has
    // links. A round that adds nothing is the last one.
    for _round in 0..includes.len() {
        let before = listing.sizes();
        list_included(alloc, &includes, listing)?;
        if listing.sizes() == before {
            return Ok(());
        }
    }
    Ok(())
}

/// Adds to what is listed for each world that includes another what is listed for that, in turn.
fn list_included(
    alloc: Global,
    includes: &[Include],
    listing: &mut Listing,
) -> Result<(), AllocError>
    ensures imports { OnOk result (listing.new.imports
        ≡ fold with_brought listing.old.imports includes.now) }
    ensures includes { OnOk result (listing.new.includes
        ≡ fold with_brought listing.old.includes includes.now) }
{
    for include in includes {
        let (world, included) = *include;
        let imports = listing.imports_of(alloc, included)?;
        listing.add_all(world, &imports)?;
        let others = listing.includes_of(alloc, included)?;
        listing.add_includes(world, &others)?;
    }
    Ok(())
}

/// Adds what the lines of packages list, and gathers their includes.
fn list_packages(
    resolve: &Resolve,
    packages: &[UnresolvedPackage],
    listing: &mut Listing,
    includes: &mut Vec<Include>,
) -> Result<(), AllocError>
    ensures imports { OnOk result (listing.new.imports
        ≡ with_links listing.old.imports
        (flat_map (links_in_package line_imports resolve.now.graph) packages.now)) }
    ensures includes { OnOk result (listing.new.includes
        ≡ with_links listing.old.includes
        (flat_map (links_in_package line_includes resolve.now.graph) packages.now)) }
    ensures gathered { OnOk result (includes.new.items
        ≡ includes.old.items
        ++ flat_map (links_in_package line_includes resolve.now.graph) packages.now) }
{
    for package in packages {
        list_package(resolve, package, listing, includes)?;
    }
    Ok(())
}

/// Adds what the lines of a package list, and gathers its includes.
fn list_package(
    resolve: &Resolve,
    package: &UnresolvedPackage,
    listing: &mut Listing,
    includes: &mut Vec<Include>,
) -> Result<(), AllocError>
    ensures imports { OnOk result (listing.new.imports
        ≡ with_links listing.old.imports
        (links_in_package line_imports resolve.now.graph «package».now)) }
    ensures includes { OnOk result (listing.new.includes
        ≡ with_links listing.old.includes
        (links_in_package line_includes resolve.now.graph «package».now)) }
    ensures gathered { OnOk result (includes.new.items
        ≡ includes.old.items
        ++ links_in_package line_includes resolve.now.graph «package».now) }
{
    for (index, world) in package.worlds.as_slice().iter().enumerate() {
        list_world(resolve, package, world, index, listing, includes)?;
    }
    Ok(())
}

/// Adds what the lines of a world list, which has this index in its package, where the graph has it, and gathers its includes.
fn list_world(
    resolve: &Resolve,
    package: &UnresolvedPackage,
    world: &World,
    index: usize,
    listing: &mut Listing,
    includes: &mut Vec<Include>,
) -> Result<(), AllocError>
    ensures imports { OnOk result (listing.new.imports
        ≡ with_links listing.old.imports
        (world_links (line_imports resolve.now.graph «package».now world.now)
        (graph_world resolve.now.graph «package».now index))) }
    ensures includes { OnOk result (listing.new.includes
        ≡ with_links listing.old.includes
        (world_links (line_includes resolve.now.graph «package».now world.now)
        (graph_world resolve.now.graph «package».now index))) }
    ensures gathered { OnOk result (includes.new.items
        ≡ includes.old.items
        ++ world_links (line_includes resolve.now.graph «package».now world.now)
        (graph_world resolve.now.graph «package».now index)) }
{
    let Some(id) = graph_world(resolve, package, WorldId::from_index(index)) else {
        return Ok(());
    };
    list_imports(resolve, package, world, id, listing)?;
    list_includes(resolve, package, world, id, listing, includes)
}

/// Adds what the `import` lines of a world list, which has this id in the graph.
fn list_imports(
    resolve: &Resolve,
    package: &UnresolvedPackage,
    world: &World,
    id: WorldId,
    listing: &mut Listing,
) -> Result<(), AllocError>
    ensures imports { OnOk result (listing.new.imports
        ≡ and_links listing.old.imports id
        (line_imports resolve.now.graph «package».now world.now)) }
    ensures includes { listing.new.includes ≡ listing.old.includes }
{
    for (key, _) in world.imports.iter() {
        if let WorldKey::Interface(interface) = key {
            if let Some(interface) = graph_interface(resolve, package, *interface) {
                listing.add(id, interface)?;
            }
        }
    }
    Ok(())
}

/// Adds what the `include` lines of a world include, which has this id in the graph, and gathers it.
fn list_includes(
    resolve: &Resolve,
    package: &UnresolvedPackage,
    world: &World,
    id: WorldId,
    listing: &mut Listing,
    includes: &mut Vec<Include>,
) -> Result<(), AllocError>
    ensures imports { listing.new.imports ≡ listing.old.imports }
    ensures includes { OnOk result (listing.new.includes
        ≡ with_links listing.old.includes
        (links_for (line_includes resolve.now.graph «package».now world.now) id)) }
    ensures gathered { OnOk result (includes.new.items
        ≡ includes.old.items
        ++ links_for (line_includes resolve.now.graph «package».now world.now) id) }
{
    for include in world.includes.as_slice() {
        if let Some(included) = graph_world(resolve, package, include.id) {
            listing.add_include(id, included)?;
            includes.push((id, included))?;
        }
    }
    Ok(())
}
