//! Types, which are matched by their names where their owners are.
ghost use Rattle.std.specs.Prelude.{◌≡◌, IfOk, map, option_and_then, slice_get};
ghost use Rattle.std.specs.Map.{lookup};
ghost use Rattle.std.specs.Str.{bytes_eq};
ghost use Rattle.wit_elaboration.specs.Valid.{IsValid};
ghost use Rattle.wit_data.specs.Ownership.{world_types};
ghost use Rattle.wit_data.specs.declared.world.World.{World};
ghost use Rattle.wit_graph_data.specs.Named.{interface_type};
ghost use Rattle.wit_merge_match.specs.steps.Matched.{type_under};

use crate::tables::match_at;
use std::alloc::{AllocError, Global};
use wit_data::{
    InterfaceId, Items, Text, TryClone, TypeDef, TypeId, TypeOwner, WorldId, WorldKey, item_type,
};
use wit_graph_data::Graph;

/// Of each type of the other graph that of its name of the owner that is matched.
pub(crate) fn type_matches(
    alloc: Global,
    graph: &Graph,
    other: &Graph,
    worlds: &Items<Option<WorldId>>,
    interfaces: &Items<Option<InterfaceId>>,
) -> Result<Items<Option<TypeId>>, AllocError>
    requires { IsValid graph.now }
    ensures { IfOk result
        (λ found. found ≡ map (type_under graph.now worlds.now interfaces.now) other.now.types) }
{
    let mut found = Items::new(alloc);
    for def in other.types.as_slice() {
        found.push(type_match(graph, worlds, interfaces, def)?)?;
    }
    Ok(found)
}

/// The type of the name of another and of the owner that is matched.
fn type_match(
    graph: &Graph,
    worlds: &Items<Option<WorldId>>,
    interfaces: &Items<Option<InterfaceId>>,
    def: &TypeDef,
) -> Result<Option<TypeId>, AllocError>
    requires { IsValid graph.now }
    ensures { IfOk result
        (λ found. found ≡ type_under graph.now worlds.now interfaces.now def.now) }
{
    let Some(name) = &def.name else {
        return Ok(None);
    };
    match def.owner {
        TypeOwner::Interface(id) => {
            let beside = match_at(interfaces, id.index());
            Ok(type_of_interface(graph, beside, name.as_str()))
        }
        TypeOwner::World(id) => type_of_world(graph, match_at(worlds, id.index()), name),
        TypeOwner::None => Ok(None),
    }
}

/// The type of a name that an interface lists.
fn type_of_interface(graph: &Graph, id: Option<InterfaceId>, name: &str) -> Option<TypeId>
    ensures { result ≡ option_and_then (interface_type graph.now name.now) id }
{
    let interface = graph.interfaces.get(id?.index())?;
    let listed = interface.types.get(name)?;
    Some(*listed)
}

/// The type of a name that a world lists.
fn type_of_world(
    graph: &Graph,
    id: Option<WorldId>,
    name: &Text,
) -> Result<Option<TypeId>, AllocError>
    requires { IsValid graph.now }
    ensures { IfOk result (λ found.
        found
        ≡ option_and_then (λ (there : World). lookup (bytes_eq name.now) (world_types there))
        (option_and_then (slice_get graph.now.worlds) id)) }
{
    let Some(id) = id else {
        return Ok(None);
    };
    let Some(world) = graph.worlds.get(id.index()) else {
        return Ok(None);
    };
    let key = WorldKey::Name(name.try_clone()?);
    match world.imports.get(&key) {
        Some(item) => Ok(item_type(item)),
        None => Ok(None),
    }
}
