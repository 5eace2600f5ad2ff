//! Worlds and interfaces by their names.
ghost use Rattle.std.specs.Prelude.{◌≡◌};
ghost use Rattle.std.specs.Option.{option_map};
ghost use Rattle.witgraph_dot.specs.Pushed.{interface_by_name, graph_interface, is_interface_item, is_world_item, graph_world};
ghost use Rattle.witgraph_dot.specs.Tracks.{full_name};

use wit_resolve_graph::{
    AstItem, InterfaceId, PackageName, Resolve, Text, UnresolvedPackage, WorldId,
};

/// The interface of this name in the package of that name.
fn interface_by_name(resolve: &Resolve, owner: &PackageName, name: &str) -> Option<InterfaceId>
    ensures { result ≡ interface_by_name resolve.now.graph owner.now name.now }
{
    let id = resolve.package_names().get(owner)?;
    let package = resolve.packages().get(id.index())?;
    let interface = package.interfaces.get(name)?;
    Some(*interface)
}

/// Whether an item of another package is the interface of this id.
fn is_interface_item(item: &AstItem, id: InterfaceId) -> bool
    ensures { result ≡ is_interface_item id item.now }
{
    match item {
        AstItem::Interface(other) => *other == id,
        AstItem::World(_) => false,
    }
}

/// Whether an item of another package is the world of this id.
fn is_world_item(item: &AstItem, id: WorldId) -> bool
    ensures { result ≡ is_world_item id item.now }
{
    match item {
        AstItem::Interface(_) => false,
        AstItem::World(other) => *other == id,
    }
}

/// The interface of the graph that a package which is pushed names by this id of its own.
pub fn graph_interface(
    resolve: &Resolve,
    package: &UnresolvedPackage,
    id: InterfaceId,
) -> Option<InterfaceId>
    ensures { result ≡ graph_interface resolve.now.graph «package».now id }
{
    for (owner, items) in package.foreign_deps.iter() {
        for (name, (item, _)) in items.iter() {
            if is_interface_item(item, id) {
                return interface_by_name(resolve, owner, name);
            }
        }
    }
    let interface = package.interfaces.get(id.index())?;
    let name = interface.name.as_ref()?;
    interface_by_name(resolve, &package.name, name.as_str())
}

/// The world of the graph that a package which is pushed names by this id of its own.
pub fn graph_world(resolve: &Resolve, package: &UnresolvedPackage, id: WorldId) -> Option<WorldId>
    ensures { result ≡ graph_world resolve.now.graph «package».now id }
{
    for (owner, items) in package.foreign_deps.iter() {
        for (name, (item, _)) in items.iter() {
            if is_world_item(item, id) {
                return resolve.world_named(owner, name);
            }
        }
    }
    let world = package.worlds.get(id.index())?;
    resolve.world_named(&package.name, world.name.as_str())
}

/// The name of the package of an interface of the graph, and its own, where it has both.
pub fn full_name(resolve: &Resolve, id: InterfaceId) -> Option<(&PackageName, &Text)>
    ensures { option_map (λ names. (names.0.now, names.1.now)) result
        ≡ full_name resolve.now.graph id }
{
    let interface = resolve.interfaces().get(id.index())?;
    let package = interface.package?;
    let name = interface.name.as_ref()?;
    let owner = resolve.packages().get(package.index())?;
    Some((&owner.name, name))
}
