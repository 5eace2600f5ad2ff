//! The parts of a package, added to a graph before its worlds.
ghost use Rattle.std.specs.Prelude.{◌≡◌, ◌++◌, ◌∷◌, [], IfOk, None, OnOk, length, map};
ghost use Rattle.std.specs.List.{IsDistinct};
ghost use Rattle.std.specs.Map.{keys_of, lookup};
ghost use Rattle.std.specs.Str.{bytes_eq};
ghost use Rattle.wit_link_spec.specs.steps.AdditionRefs.{activity_of, new_ids_of, values_of};
ghost use Rattle.wit_link_spec.specs.Added.{with_parts};
ghost use Rattle.wit_remap_spec.specs.Selected.{selected, selected_with_index};
ghost use Rattle.wit_link_spec.specs.Reasons.{IsResolved};
ghost use Rattle.wit_link_spec.specs.steps.NewThings.{is_new};
ghost use Rattle.wit_elaboration.specs.Valid.{IsValid};
ghost use Rattle.wit_remap_spec.specs.Kept.{cut_interface};
ghost use Rattle.wit_remap_spec.specs.Image.{interface_image, type_image};
ghost use Rattle.wit_data.specs.Each.{Each};
ghost use Rattle.wit_names.specs.PackageName.{same_package};
ghost use Rattle.wit_data.specs.Shape.{IsShaped};
ghost use Rattle.wit_remap.specs.steps.Fits.{CanMoveParts, added_worlds, addition, interfaces_at, moved_parts, updated_world, with_interfaces, Fits, InterfaceFits, TypeFits};
ghost use Rattle.wit_remap.specs.Grown.{Grown};
ghost use Rattle.wit_remap.specs.steps.Movers.{maps_of};
ghost use Rattle.wit_remap.specs.steps.Parts.{kept_of};
ghost use Rattle.wit_link_spec.specs.steps.Parts.{AdditionOverflows};

use crate::mover::Mover;
use crate::part::{Part, selected, selected_with_index};
use crate::tables::{interface_table, world_table};
use crate::update::Update;
use crate::worlds::{UpdatedWorld, updated_worlds};
use std::alloc::{AllocError, Global};
use std::mem;
use wit_data::{
    Docs, Interface, InterfaceId, Items, Names, PackageId, TryClone, TypeDef, TypeId,
    UnresolvedPackage, WorldId,
};
use wit_graph_data::{Graph, Package};
use wit_link_spec::{NewIds, Values};

/// Adds the types of a package that are its own, under their new ids, and the `own`s. Where there is no memory some of
/// them may be there.
fn add_types(
    graph: &mut Graph,
    mover: &Mover<'_>,
    types: Items<TypeDef>,
    owns: Items<TypeDef>,
) -> Result<(), AllocError>
    requires { Each (TypeFits (Fits mover.now.offset)) types }
    ensures ok { OnOk result (graph.new
        ≡ record graph.old {
          types = graph.old.types
              ++ (map (type_image (maps_of mover.now)) (selected
              (is_new (length graph.old.types) mover.now.new_ids.now.types) types)
              ++ owns);
        }) }
    ensures grown { Grown graph.old graph.new }
{
    let first = TypeId::from_index(graph.types.len());
    let mut own = selected(types, mover.new_ids.types.as_slice(), &first);
    own.update(mover);
    own.append(owns)?;
    graph.types.append(own)?;
    Ok(())
}

/// Adds the interfaces of a package that are its own, of each what is active, under their new ids, and answers the
/// table of those that have names.
fn add_interfaces(
    alloc: Global,
    graph: &mut Graph,
    mover: &Mover<'_>,
    part: &Part<'_>,
    interfaces: Items<Interface>,
) -> Result<Names<InterfaceId>, AllocError>
    requires fits { Each (InterfaceFits (Fits mover.now.offset)) interfaces }
    requires names { IsDistinct bytes_eq
        (keys_of (interfaces_at (maps_of mover.now) (selected_with_index
        (is_new (length graph.old.interfaces) mover.now.new_ids.now.interfaces)
        interfaces))) }
    ensures ok { OnOk result (graph.new
        ≡ record graph.old {
          interfaces = graph.old.interfaces
              ++ map (interface_image (maps_of mover.now))
              (map (cut_interface (kept_of part.now)) (selected
              (is_new (length graph.old.interfaces) mover.now.new_ids.now.interfaces)
              interfaces));
        }) }
    ensures table { IfOk result (λ table.
        table
        ≡ interfaces_at (maps_of mover.now) (selected_with_index
        (is_new (length graph.old.interfaces) mover.now.new_ids.now.interfaces)
        interfaces)) }
    ensures grown { Grown graph.old graph.new }
{
    let first = InterfaceId::from_index(graph.interfaces.len());
    let new_ids = mover.new_ids.interfaces.as_slice();
    let own = selected_with_index(alloc, interfaces, new_ids, &first)?;
    let table = interface_table(alloc, mover, own.as_slice())?;
    let updated = updated_interfaces(alloc, mover, part, own)?;
    graph.interfaces.append(updated)?;
    Ok(table)
}

/// Interfaces with new ids and spans, of each what is active.
fn updated_interfaces(
    alloc: Global,
    mover: &Mover<'_>,
    part: &Part<'_>,
    interfaces: Items<(usize, Interface)>,
) -> Result<Items<Interface>, AllocError>
    requires { Each (λ e. InterfaceFits (Fits mover.now.offset) e.1) interfaces }
    ensures { IfOk result (λ updated.
        updated
        ≡ map (λ e. interface_image (maps_of mover.now) (cut_interface (kept_of part.now) e.1))
        interfaces) }
{
    let mut updated = Items::new(alloc);
    for item in interfaces.into_vec() {
        let (_, mut interface) = item;
        part.cut_interface(&mut interface);
        interface.update(mover);
        updated.push(interface)?;
    }
    Ok(updated)
}

/// Adds a package under its name.
fn add_package(graph: &mut Graph, package: Package) -> Result<(), AllocError>
    requires { lookup (same_package «package».name) graph.old.package_names ≡ None }
    ensures ok { OnOk result (graph.new
        ≡ record graph.old {
          packages = graph.old.packages ++ «package» ∷ [];
          package_names = graph.old.package_names
              ++ («package».name, length graph.old.packages) ∷ [];
        }) }
    ensures grown { Grown graph.old graph.new }
{
    let id = PackageId::from_index(graph.packages.len());
    graph.package_names.push(package.name.try_clone()?, id)?;
    graph.packages.push(package)?;
    Ok(())
}

/// Adds the interfaces of a package that are its own, and the package with a table of its worlds.
fn add_with_worlds(
    alloc: Global,
    graph: &mut Graph,
    mover: &Mover<'_>,
    part: &Part<'_>,
    unresolved: UnresolvedPackage,
    worlds: Names<WorldId>,
) -> Result<(), AllocError>
    requires new { lookup (same_package unresolved.name) graph.old.package_names ≡ None }
    requires fits { Each (InterfaceFits (Fits mover.now.offset)) unresolved.interfaces }
    requires names { IsDistinct bytes_eq
        (keys_of (interfaces_at (maps_of mover.now) (selected_with_index
        (is_new (length graph.old.interfaces) mover.now.new_ids.now.interfaces)
        unresolved.interfaces))) }
    ensures ok { OnOk result (graph.new
        ≡ with_interfaces mover.now.new_ids.now (maps_of mover.now) (kept_of part.now) unresolved
        worlds graph.old) }
    ensures grown { Grown graph.old graph.new }
{
    let mut unresolved = unresolved;
    let interfaces = mem::replace(&mut unresolved.interfaces, Items::new(alloc));
    let interfaces = add_interfaces(alloc, graph, mover, part, interfaces)?;
    let docs = mem::replace(&mut unresolved.docs, Docs::none());
    let package = Package {
        name: unresolved.into_name(),
        docs,
        interfaces,
        worlds,
    };
    add_package(graph, package)
}

/// Adds a package at the ends of a graph, its parts under their new ids, and answers its worlds. Where there is no
/// memory some of its parts may be there.
fn move_parts(
    alloc: Global,
    graph: &mut Graph,
    mover: &Mover<'_>,
    part: &Part<'_>,
    owns: Items<TypeDef>,
    unresolved: UnresolvedPackage,
) -> Result<Items<UpdatedWorld>, AllocError>
    requires { CanMoveParts mover.now.new_ids.now (maps_of mover.now) (kept_of part.now) graph.old
        unresolved }
    ensures ok { OnOk result (graph.new
        ≡ moved_parts mover.now.new_ids.now (maps_of mover.now) (kept_of part.now) owns
        unresolved graph.old) }
    ensures worlds { IfOk result (λ worlds.
        worlds
        ≡ map (updated_world (maps_of mover.now) part.now)
        (selected_with_index (is_new (length graph.old.worlds) mover.now.new_ids.now.worlds)
        unresolved.worlds)) }
    ensures grown { Grown graph.old graph.new }
{
    let mut unresolved = unresolved;
    let types = mem::replace(&mut unresolved.types, Items::new(alloc));
    add_types(graph, mover, types, owns)?;
    let worlds = mem::replace(&mut unresolved.worlds, Items::new(alloc));
    let first = WorldId::from_index(graph.worlds.len());
    let own = selected_with_index(alloc, worlds, mover.new_ids.worlds.as_slice(), &first)?;
    let table = world_table(alloc, mover, own.as_slice())?;
    add_with_worlds(alloc, graph, mover, part, unresolved, table)?;
    updated_worlds(alloc, mover, part, own)
}

/// Adds the parts of a package to a graph: the types and interfaces that are its own and are active, the `own`s that
/// values ask for, and the package with its tables. Answers its worlds with new ids and spans, each with what it includes;
/// none of them is in the graph yet.
///
/// For an `is_shaped` package and a valid graph that has none of its name, where nothing leaves the package without
/// an image (1 to 3, 9 to 13) and its spans can be moved by the offset. What is active, what ids are remapped to and what values
/// ask for are those of this addition.
///
/// The only error is want of memory. Some parts may be there then: the graph begins as it was, and a mark cuts it
/// back.
///
/// Source: `append` of wit-parser 0.263.0.
pub fn add_parts(
    alloc: Global,
    graph: &mut Graph,
    part: &Part<'_>,
    new_ids: &NewIds,
    values: Values,
    unresolved: UnresolvedPackage,
    offset: u32,
) -> Result<Items<UpdatedWorld>, AllocError>
    requires shaped { IsShaped unresolved }
    requires valid { IsValid graph.old }
    requires image { IsResolved (addition part.now graph.old unresolved offset) }
    requires new { lookup (same_package unresolved.name) graph.old.package_names ≡ None }
    requires fits { AdditionOverflows (addition part.now graph.old unresolved offset) → ⊥ }
    requires activity { part.now.activity.now
        ≡ activity_of (addition part.now graph.old unresolved offset) }
    requires new_ids { new_ids.now ≡ new_ids_of (addition part.now graph.old unresolved offset) }
    requires values { values ≡ values_of (addition part.now graph.old unresolved offset) }
    ensures ok { OnOk result
        (graph.new ≡ with_parts (addition part.now graph.old unresolved offset)) }
    ensures worlds { IfOk result
        (λ worlds. worlds ≡ added_worlds (addition part.now graph.old unresolved offset)) }
    ensures grown { Grown graph.old graph.new }
{
    let Values {
        new_ids: values,
        owns,
    } = values;
    let id = PackageId::from_index(graph.packages.len());
    let mover = Mover {
        new_ids,
        values: &values,
        package: id,
        offset,
    };
    move_parts(alloc, graph, &mover, part, owns, unresolved)
}
