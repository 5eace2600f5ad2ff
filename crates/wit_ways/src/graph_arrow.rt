//! What leads where in a graph: which package depends on which, which interface uses which, and what worlds have.
ghost use Rattle.std.specs.Prelude.{◌≡◌, ◌++◌, ◌<◌, IfOk, None, OnOk, Some, filter_map, length, option_copied, flat_map};
ghost use Rattle.std.specs.List.{range_with_len};
ghost use Rattle.wit_data.specs.Entries.{Entry};
ghost use Rattle.wit_ways.specs.Arrows.{all_on, arrow_between, dependency_of, entries_in, graph_arrows, home_of, home_text, home_texts, interface_text, interface_texts, listed_by, named_by, package_arrows, world_dependencies};

use crate::arrow::{Arrow, arrow_between, called, item_text, package_text, placed};
use crate::entries::{WorldSide, add_entries, entries_of};
use crate::uses::uses_in;
use std::alloc::{AllocError, Global};
use wit_data::{
    Interface, InterfaceId, Items, PackageId, PackageName, Span, Text, World, WorldItem,
    type_interface_dep,
};
use wit_graph_data::{Features, Graph};
use wit_queries::package_deps::package_direct_deps;
use wit_values::NameSet;

/// What leads where in a graph: which package depends on which, which interface uses which, and what worlds have on a side;
/// at spans so many positions further on.
pub fn graph_arrows(
    alloc: Global,
    offset: u32,
    graph: &Graph,
    side: WorldSide,
) -> Result<Items<Arrow>, AllocError>
    ensures { IfOk result (λ arrows. arrows ≡ graph_arrows offset graph.now side) }
{
    let features = all_on(alloc);
    let (types, interfaces) = (graph.types.as_slice(), &graph.interfaces);
    let homes = home_texts(alloc, graph)?;
    let homes = homes.as_slice();
    let names = interface_texts(alloc, graph)?;
    let names = names.as_slice();
    let mut arrows = dependencies_in(alloc, graph)?;
    arrows.append(world_dependencies(alloc, offset, graph, homes, WorldSide::Imports)?)?;
    arrows.append(world_dependencies(alloc, offset, graph, homes, WorldSide::Exports)?)?;
    arrows.append(uses_in(alloc, &features, offset, types, interfaces, homes)?)?;
    arrows.append(uses_in(alloc, &features, offset, types, interfaces, names)?)?;
    arrows.append(entries_in(alloc, &features, offset, graph, names, side)?)?;
    Ok(arrows)
}

/// All features: in a graph all is active.
fn all_on(alloc: Global) -> Features
    ensures { result ≡ all_on }
{
    Features {
        names: NameSet::new(alloc),
        all: true,
    }
}

/// What each interface of a graph is called: by its package and its name, where it has both.
fn interface_texts(alloc: Global, graph: &Graph) -> Result<Items<Option<Text>>, AllocError>
    ensures { IfOk result (λ texts. texts ≡ interface_texts graph.now) }
{
    let mut texts = Items::new(alloc);
    for interface in graph.interfaces.as_slice() {
        texts.push(interface_text(alloc, graph, interface)?)?;
    }
    Ok(texts)
}

/// An interface by its package and its name, where it has both.
fn interface_text(
    alloc: Global,
    graph: &Graph,
    interface: &Interface,
) -> Result<Option<Text>, AllocError>
    ensures { IfOk result (λ text. text ≡ interface_text graph.now.packages interface.now) }
{
    let Some(name) = &interface.name else {
        return Ok(None);
    };
    match home_of(graph, interface.package) {
        Some(home) => Ok(Some(item_text(alloc, home, name.as_str())?)),
        None => Ok(None),
    }
}

/// The name of the package of an id.
pub fn home_of(graph: &Graph, id: Option<PackageId>) -> Option<&PackageName>
    ensures { option_copied result ≡ home_of graph.now.packages id }
{
    let id = id?;
    let package = graph.packages.get(id.index())?;
    Some(&package.name)
}

/// For each interface of a graph the text of the name of its package.
fn home_texts(alloc: Global, graph: &Graph) -> Result<Items<Option<Text>>, AllocError>
    ensures { IfOk result (λ texts. texts ≡ home_texts graph.now) }
{
    let mut texts = Items::new(alloc);
    for interface in graph.interfaces.as_slice() {
        texts.push(home_text(alloc, graph, interface.package)?)?;
    }
    Ok(texts)
}

/// The text of the name of the package of an id.
fn home_text(
    alloc: Global,
    graph: &Graph,
    id: Option<PackageId>,
) -> Result<Option<Text>, AllocError>
    ensures { IfOk result (λ text. text ≡ home_text graph.now.packages id) }
{
    match home_of(graph, id) {
        Some(home) => Ok(Some(package_text(alloc, home)?)),
        None => Ok(None),
    }
}

/// What the packages of a graph depend on.
fn dependencies_in(alloc: Global, graph: &Graph) -> Result<Items<Arrow>, AllocError>
    ensures { IfOk result (λ arrows. arrows
        ≡ flat_map (package_arrows graph.now)
        (range_with_len 0 (length graph.now.packages))) }
{
    let mut arrows = Items::new(alloc);
    for index in 0..graph.packages.len() {
        add_dependencies(alloc, graph, PackageId::from_index(index), &mut arrows)?;
    }
    Ok(arrows)
}

/// Notes what a package depends on.
fn add_dependencies(
    alloc: Global,
    graph: &Graph,
    package: PackageId,
    arrows: &mut Items<Arrow>,
) -> Result<(), AllocError>
    requires { «package» < length graph.now.packages }
    ensures { OnOk result (arrows.new ≡ arrows.old ++ package_arrows graph.now «package») }
{
    let from = home_text(alloc, graph, Some(package))?;
    for used in package_direct_deps(graph, package) {
        if let Some(arrow) = dependency_on(alloc, graph, &from, used)? {
            arrows.push(arrow)?;
        }
    }
    Ok(())
}

/// That a package depends on another, by whatever lines.
fn dependency_on(
    alloc: Global,
    graph: &Graph,
    from: &Option<Text>,
    used: PackageId,
) -> Result<Option<Arrow>, AllocError>
    ensures { IfOk result (λ arrow.
        arrow ≡ arrow_between from.now None (home_text graph.now.packages (Some used))) }
{
    let Some(from) = from else {
        return Ok(None);
    };
    let Some(to) = home_text(alloc, graph, Some(used))? else {
        return Ok(None);
    };
    arrow_between(from, Span::unknown(), &to)
}

/// Which package depends on which by a line of a world, on a side, where these are the packages of interfaces.
fn world_dependencies(
    alloc: Global,
    offset: u32,
    graph: &Graph,
    homes: &[Option<Text>],
    side: WorldSide,
) -> Result<Items<Arrow>, AllocError>
    ensures { IfOk result (λ arrows. arrows ≡ world_dependencies offset graph.now homes.now side) }
{
    let mut arrows = Items::new(alloc);
    for world in graph.worlds.as_slice() {
        add_world(alloc, offset, graph, homes, side, world, &mut arrows)?;
    }
    Ok(arrows)
}

/// Notes what the package of a world depends on by the world's entries on a side.
fn add_world(
    alloc: Global,
    offset: u32,
    graph: &Graph,
    homes: &[Option<Text>],
    side: WorldSide,
    world: &World,
    arrows: &mut Items<Arrow>,
) -> Result<(), AllocError>
    ensures { OnOk result (arrows.new
        ≡ arrows.old
        ++ filter_map (λ (e : Entry).
        dependency_of offset graph.now homes.now
        (home_text graph.now.packages world.now.«package») e.1)
        (listed_by side world.now)) }
{
    let from = home_text(alloc, graph, world.package)?;
    for (_, item) in entries_of(world, side).iter() {
        if let Some(arrow) = dependency_by(offset, graph, homes, &from, item)? {
            arrows.push(arrow)?;
        }
    }
    Ok(())
}

/// That a package depends on another by an entry of a world, where the entry stands somewhere.
fn dependency_by(
    offset: u32,
    graph: &Graph,
    homes: &[Option<Text>],
    from: &Option<Text>,
    item: &WorldItem,
) -> Result<Option<Arrow>, AllocError>
    ensures { IfOk result
        (λ arrow. arrow ≡ dependency_of offset graph.now homes.now from.now item.now) }
{
    let Some((used, span)) = named_by(graph, item) else {
        return Ok(None);
    };
    if !span.is_known() {
        return Ok(None);
    }
    let Some(from) = from else {
        return Ok(None);
    };
    let Some(to) = called(homes, used) else {
        return Ok(None);
    };
    arrow_between(from, placed(span, offset), to)
}

/// The interface that an entry of a world names, itself or by a type that it uses, and the span of the entry.
fn named_by(graph: &Graph, item: &WorldItem) -> Option<(InterfaceId, Span)>
    ensures { result ≡ named_by graph.now item.now }
{
    match item {
        WorldItem::Interface { id, span, .. } => Some((*id, *span)),
        WorldItem::Type_ { id, span } => {
            let used = type_interface_dep(graph.types.as_slice(), *id)?;
            Some((used, *span))
        }
        WorldItem::Function(_) => None,
    }
}

/// Which interfaces, by these names, the worlds of a graph have on a side, where they are active under these features.
fn entries_in(
    alloc: Global,
    features: &Features,
    offset: u32,
    graph: &Graph,
    names: &[Option<Text>],
    side: WorldSide,
) -> Result<Items<Arrow>, AllocError>
    ensures { IfOk result
        (λ arrows. arrows ≡ entries_in features.now offset graph.now names.now side) }
{
    let mut arrows = Items::new(alloc);
    for world in graph.worlds.as_slice() {
        if let Some(home) = home_of(graph, world.package) {
            add_entries(
                alloc,
                features,
                offset,
                names,
                side,
                home,
                world,
                &mut arrows,
            )?;
        }
    }
    Ok(arrows)
}
