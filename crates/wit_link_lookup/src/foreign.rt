//! The interfaces and worlds that a package names of other packages, found in the graph.
ghost use Rattle.std.specs.Prelude.{◌≡◌, ◌⊎◌, ◌<◌, ◌+◌, IfErr, IfOk, None, OnOk, false, is_some, length, map};
ghost use Rattle.std.specs.List.{range_with_len};
ghost use Rattle.wit_graph_data.specs.declared.error_kind.ResolveErrorKind.TheVariants.{OutOfMemory};
ghost use Rattle.wit_data.specs.Shape.{IsShaped};
ghost use Rattle.wit_link_spec.specs.steps.AdditionRefs.{activity_of, addition_of};
ghost use Rattle.wit_link_spec.specs.Cause.{IsAdditionCause};
ghost use Rattle.wit_link_spec.specs.Lookup.{named_items};
ghost use Rattle.wit_link_lookup.specs.steps.ForeignItems.{ArePackagesThere, AreThere, HasEntryFor, NamesItem, found_among, interface_in, item_in, named_before, named_is_active, with_item, world_in};

use crate::packages::{Home, find_home};
use crate::refusal::item_not_found;
use std::alloc::{AllocError, Global};
use wit_data::{AstItem, InterfaceId, Items, PackageId, WorldId};
use wit_graph_data::{Graph, ResolveResult};
use wit_link_spec::{Activity, AdditionRef};

/// Where the graph has the interfaces and the worlds of a package that are of other packages: an id for each,
/// None for its own and for what isn't there.
#[derive(Drop)]
pub(crate) struct Found {
    pub(crate) interfaces: Items<Option<InterfaceId>>,
    pub(crate) worlds: Items<Option<WorldId>>,
}

/// Finds what a package names of other packages. Refused where a package isn't there (1), or a world (2) or an
/// interface (3) that is active.
pub(crate) fn find_foreign(
    alloc: Global,
    addition: &AdditionRef<'_>,
    activity: &Activity,
) -> ResolveResult<Found>
    requires shaped { IsShaped addition.now.unresolved.now }
    requires activity { activity.now ≡ activity_of (addition_of addition.now) }
    ensures found { IfOk result (λ found.
        found
        ≡ found_among (addition_of addition.now)
        (named_items addition.now.unresolved.now.foreign_deps)) }
    ensures there { OnOk result (AreThere (addition_of addition.now)
        (named_items addition.now.unresolved.now.foreign_deps)) }
    ensures packages { OnOk result (ArePackagesThere (addition_of addition.now)
        (length addition.now.unresolved.now.foreign_deps)) }
    ensures cause { IfErr result
        (λ kind. (kind ≡ OutOfMemory) ⊎ IsAdditionCause (addition_of addition.now) kind) }
{
    let interfaces = nothing(alloc, addition.unresolved.interfaces.len())?;
    let worlds = nothing(alloc, addition.unresolved.worlds.len())?;
    let mut found = Found { interfaces, worlds };
    for index in 0..addition.unresolved.foreign_deps.len() {
        find_named(alloc, addition, activity, index, &mut found)?;
    }
    Ok(found)
}

/// So many times nothing.
fn nothing<T: Copy>(alloc: Global, count: usize) -> Result<Items<Option<T>>, AllocError>
    ensures { IfOk result (λ items. items ≡ map (λ _. None) (range_with_len 0 count)) }
{
    let mut items = Items::new(alloc);
    for _index in 0..count {
        items.push(None)?;
    }
    Ok(items)
}

/// Finds what is named of the package at an index.
fn find_named(
    alloc: Global,
    addition: &AdditionRef<'_>,
    activity: &Activity,
    index: usize,
    found: &mut Found,
) -> ResolveResult<()>
    requires shaped { IsShaped addition.now.unresolved.now }
    requires activity { activity.now ≡ activity_of (addition_of addition.now) }
    requires inside { index < length addition.now.unresolved.now.foreign_deps }
    requires before { found.old
        ≡ found_among (addition_of addition.now)
        (named_before addition.now.unresolved.now.foreign_deps index) }
    requires there { AreThere (addition_of addition.now)
        (named_before addition.now.unresolved.now.foreign_deps index) }
    requires packages { ArePackagesThere (addition_of addition.now) index }
    ensures found { OnOk result (found.new
        ≡ found_among (addition_of addition.now)
        (named_before addition.now.unresolved.now.foreign_deps (index + 1))) }
    ensures there { OnOk result (AreThere (addition_of addition.now)
        (named_before addition.now.unresolved.now.foreign_deps (index + 1))) }
    ensures packages { OnOk result (ArePackagesThere (addition_of addition.now) (index + 1)) }
    ensures cause { IfErr result
        (λ kind. (kind ≡ OutOfMemory) ⊎ IsAdditionCause (addition_of addition.now) kind) }
{
    let home = find_home(alloc, addition, index)?;
    for (requested, (item, _)) in home.items.iter() {
        if !find_item(addition.graph, &home, requested, item, found) {
            check_inactive(alloc, addition, activity, &home, requested, item)?;
        }
    }
    Ok(())
}

/// Finds an item of a package and notes where it is. Tells whether it is there.
fn find_item(
    graph: &Graph,
    home: &Home<'_>,
    requested: &str,
    item: &AstItem,
    found: &mut Found,
) -> bool
    requires { HasEntryFor found.old item.now }
    ensures found { found.new
        ≡ with_item found.old item.now (item_in graph.now home.now.id requested.now item.now) }
    ensures there { result ≡ is_some (item_in graph.now home.now.id requested.now item.now) }
{
    match *item {
        AstItem::Interface(id) => {
            let there = interface_of(graph, home.id, requested);
            let is_there = there.is_some();
            found.interfaces.set(id.index(), there);
            is_there
        }
        AstItem::World(id) => {
            let there = world_of(graph, home.id, requested);
            let is_there = there.is_some();
            found.worlds.set(id.index(), there);
            is_there
        }
    }
}

/// Refuses an item that isn't there, if it is active.
fn check_inactive(
    alloc: Global,
    addition: &AdditionRef<'_>,
    activity: &Activity,
    home: &Home<'_>,
    requested: &str,
    item: &AstItem,
) -> ResolveResult<()>
    requires shaped { IsShaped addition.now.unresolved.now }
    requires activity { activity.now ≡ activity_of (addition_of addition.now) }
    requires named { NamesItem (addition_of addition.now) home.now.name.now home.now.id
        requested.now item.now }
    requires absent { item_in addition.now.graph.now home.now.id requested.now item.now ≡ None }
    ensures inactive { OnOk result (named_is_active (addition_of addition.now) item.now ≡ false) }
    ensures cause { IfErr result
        (λ kind. (kind ≡ OutOfMemory) ⊎ IsAdditionCause (addition_of addition.now) kind) }
{
    let active = match *item {
        AstItem::Interface(id) => *activity.interfaces.at(id.index()),
        AstItem::World(id) => *activity.worlds.at(id.index()),
    };
    if !active {
        return Ok(());
    }
    let span = match *item {
        AstItem::Interface(id) => addition.unresolved.interfaces.at(id.index()).span,
        AstItem::World(id) => addition.unresolved.worlds.at(id.index()).span,
    };
    Err(item_not_found(alloc, addition, item, span, requested, home.name)?)
}

/// The interface of this name in a package, if there is one.
fn interface_of(graph: &Graph, home: Option<PackageId>, name: &str) -> Option<InterfaceId>
    ensures { result ≡ interface_in graph.now home name.now }
{
    graph.interface_in(home?, name)
}

/// The world of this name in a package, if there is one.
fn world_of(graph: &Graph, home: Option<PackageId>, name: &str) -> Option<WorldId>
    ensures { result ≡ world_in graph.now home name.now }
{
    graph.world_in(home?, name)
}
