//! Copies of what goes with a world, at the ends of a graph.
ghost use Rattle.std.specs.Prelude.{◌≡◌, ℕ, Bool, ◌<◌, Contains, IfOk, OnOk, Some, is_some, length, map, nat_eq, slice_get};
ghost use Rattle.std.specs.List.Sorted.{IsStrictlySortedBy};
ghost use Rattle.std.specs.Map.{keys_of, lookup};
ghost use Rattle.std.specs.Ordering.{nat_cmp};
ghost use Rattle.wit_data.specs.Kind.{type_references};
ghost use Rattle.wit_data.specs.declared.world.World.{World};
ghost use Rattle.wit_digraph.specs.Relation.{IsAcyclic};
ghost use Rattle.wit_link_spec.specs.Include.{belongs_to, copy_maps, is_copied, with_copies};
ghost use Rattle.wit_remap_spec.specs.Selected.{selected};
ghost use Rattle.wit_remap_spec.specs.Image.{interface_image, type_image};
ghost use Rattle.wit_remap.specs.Grown.{Grown};
ghost use Rattle.wit_link_include.specs.steps.Included.{IsOrigin, NamesBelonging, NamesThere, StayApart, maps_of, numbered, places, with_images};

use crate::belonging::belonging_interfaces;
use crate::copies::Copies;
use crate::leading::{leading, those_leading};
use crate::mentions::named_types;
use crate::numbering::{in_order, numbered};
use crate::origin::Origin;
use std::alloc::{AllocError, Global};
use wit_data::{
    IncludeName, Interface, InterfaceId, Items, PackageId, Table, TypeDef, TypeId, WorldId,
};
use wit_graph_data::Graph;
use wit_labels::Renamings;

/// Puts copies of what goes with world `from` at the ends of a graph's types and interfaces, for an include of it in
/// world `into` of package `home` under some renamings, and answers where things went.
///
/// World `from` is of the graph, in which no type refers to itself. The types that the entries of the world name are
/// there, and what belongs to the world is among what these refer to; no type with a name that doesn't belong to the
/// world refers to one that does, through whatever others.
///
/// The only error is want of memory. Some copies may be there then: the graph begins as it was, and a mark cuts it
/// back.
///
/// It takes a step for each renaming, for each entry of the world, for each type that these name, also through others
/// without a name or of the world, and for each type that one of these refers to; and what sorting takes for those
/// that are copied.
///
/// Source: `resolve_include` of wit-parser 0.263.0; what is copied is a rule of this project.
pub fn add_copies<'a>(
    alloc: Global,
    graph: &mut Graph,
    from: WorldId,
    names: &'a Items<IncludeName>,
    into: WorldId,
    home: PackageId,
) -> Result<Copies<'a>, AllocError>
    requires there { from < length graph.old.worlds }
    requires acyclic { IsAcyclic (type_references graph.old.types) }
    requires apart { (world : World) → slice_get graph.old.worlds from ≡ Some world
        → StayApart graph.old from world }
    requires named { (world : World) → slice_get graph.old.worlds from ≡ Some world
        → NamesThere graph.old world }
    requires belonging { (world : World) → slice_get graph.old.worlds from ≡ Some world
        → NamesBelonging graph.old from world }
    ensures ok { (world : World) → slice_get graph.old.worlds from ≡ Some world
        → OnOk result (graph.new
        ≡ with_copies graph.old from world
        (copy_maps graph.old from world names.now into home)) }
    ensures maps { (world : World) → slice_get graph.old.worlds from ≡ Some world
        → IfOk result
        (λ copies. maps_of copies ≡ copy_maps graph.old from world names.now into home) }
    ensures from { IfOk result (λ copies. copies.from ≡ from) }
    ensures grown { Grown graph.old graph.new }
{
    let names = Renamings::new(alloc, names)?;
    let interfaces = list_belonging(alloc, graph, from)?;
    let types = copied_types(alloc, graph, from, &interfaces)?;
    let copies = Copies {
        types,
        interfaces,
        from,
        into,
        home,
        names,
    };
    append_copies(alloc, graph, &copies)?;
    Ok(copies)
}

/// Where the interfaces that go with a world go. The graph stays as it is, with room for them.
fn list_belonging(
    alloc: Global,
    graph: &mut Graph,
    from: WorldId,
) -> Result<Table<InterfaceId, InterfaceId>, AllocError>
    requires { from < length graph.old.worlds }
    ensures table { (world : World) → slice_get graph.old.worlds from ≡ Some world
        → IfOk result (λ table.
        table
        ≡ numbered (length graph.old.interfaces)
        (places (belongs_to graph.old world) graph.old.interfaces)) }
    ensures same { graph.new ≡ graph.old }
{
    let ids = belonging_interfaces(alloc, graph, graph.worlds.at(from.index()))?;
    graph.interfaces.reserve(ids.len())?;
    numbered(alloc, ids.as_slice(), graph.interfaces.len())
}

/// Where the types that are copied go. The graph stays as it is, with room for them.
fn copied_types(
    alloc: Global,
    graph: &mut Graph,
    from: WorldId,
    belonging_interfaces: &Table<InterfaceId, InterfaceId>,
) -> Result<Table<TypeId, TypeId>, AllocError>
    requires there { from < length graph.old.worlds }
    requires belonging_interfaces { (world : World) → slice_get graph.old.worlds from ≡ Some world
        → (i : ℕ)
        → is_some (lookup (nat_eq i) belonging_interfaces.now) ≡ belongs_to graph.old world i }
    requires acyclic { IsAcyclic (type_references graph.old.types) }
    requires apart { (world : World) → slice_get graph.old.worlds from ≡ Some world
        → StayApart graph.old from world }
    requires named { (world : World) → slice_get graph.old.worlds from ≡ Some world
        → NamesThere graph.old world }
    requires belonging { (world : World) → slice_get graph.old.worlds from ≡ Some world
        → NamesBelonging graph.old from world }
    ensures table { (world : World) → slice_get graph.old.worlds from ≡ Some world
        → IfOk result (λ table.
        table
        ≡ numbered (length graph.old.types)
        (places (is_copied graph.old from world) graph.old.types)) }
    ensures same { graph.new ≡ graph.old }
{
    let origin = Origin {
        graph,
        id: from,
        world: graph.worlds.at(from.index()),
        belonging_interfaces,
    };
    let ids = copied_ids(alloc, &origin)?;
    graph.types.reserve(ids.len())?;
    numbered(alloc, ids.as_slice(), graph.types.len())
}

/// The types that an include of a world copies, in the order of their ids.
fn copied_ids(alloc: Global, origin: &Origin<'_>) -> Result<Items<TypeId>, AllocError>
    requires origin { IsOrigin origin.now }
    requires acyclic { IsAcyclic (type_references origin.now.graph.now.types) }
    requires apart { StayApart origin.now.graph.now origin.now.id origin.now.world.now }
    requires named { NamesThere origin.now.graph.now origin.now.world.now }
    requires belonging { NamesBelonging origin.now.graph.now origin.now.id origin.now.world.now }
    ensures rising { IfOk result (λ ids. IsStrictlySortedBy nat_cmp ids) }
    ensures places { IfOk result (λ ids.
        ids
        ≡ places (is_copied origin.now.graph.now origin.now.id origin.now.world.now)
        origin.now.graph.now.types) }
{
    let roots = named_types(alloc, origin)?;
    let known = leading(alloc, origin, roots.as_slice())?;
    in_order(those_leading(alloc, &known)?)
}

/// Puts the copies of what is active at the ends of a graph's types and interfaces.
fn append_copies(alloc: Global, graph: &mut Graph, copies: &Copies<'_>) -> Result<(), AllocError>
    requires types { (t : ℕ) → Contains (keys_of copies.now.types) t → t < length graph.old.types }
    requires interfaces { (i : ℕ) → Contains (keys_of copies.now.interfaces) i
        → i < length graph.old.interfaces }
    ensures ok { (type interface : ℕ → Bool)
        → keys_of copies.now.types ≡ places type graph.old.types
        → keys_of copies.now.interfaces ≡ places interface graph.old.interfaces
        → OnOk result (graph.new ≡ with_images graph.old (maps_of copies.now) type interface) }
    ensures grown { Grown graph.old graph.new }
{
    let types = type_copies(alloc, graph, copies)?;
    graph.types.append(types)?;
    let interfaces = interface_copies(alloc, graph, copies)?;
    graph.interfaces.append(interfaces)?;
    Ok(())
}

/// The copies of the types that are active.
fn type_copies(
    alloc: Global,
    graph: &Graph,
    copies: &Copies<'_>,
) -> Result<Items<TypeDef>, AllocError>
    requires { (t : ℕ) → Contains (keys_of copies.now.types) t → t < length graph.now.types }
    ensures { (kept : ℕ → Bool) → keys_of copies.now.types ≡ places kept graph.now.types
        → IfOk result (λ types.
        types ≡ map (type_image (maps_of copies.now)) (selected kept graph.now.types)) }
{
    let mut types = Items::new(alloc);
    for (id, _) in copies.types.iter() {
        types.push(copies.of_type(alloc, graph.types.at(id.index()))?)?;
    }
    Ok(types)
}

/// The copies of the interfaces that are active.
fn interface_copies(
    alloc: Global,
    graph: &Graph,
    copies: &Copies<'_>,
) -> Result<Items<Interface>, AllocError>
    requires { (i : ℕ) → Contains (keys_of copies.now.interfaces) i
        → i < length graph.now.interfaces }
    ensures { (kept : ℕ → Bool) → keys_of copies.now.interfaces ≡ places kept graph.now.interfaces
        → IfOk result (λ interfaces.
        interfaces
        ≡ map (interface_image (maps_of copies.now)) (selected kept graph.now.interfaces)) }
{
    let mut interfaces = Items::new(alloc);
    for (id, _) in copies.interfaces.iter() {
        interfaces.push(copies.of_interface(graph.interfaces.at(id.index()))?)?;
    }
    Ok(interfaces)
}
