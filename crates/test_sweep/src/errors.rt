//! Errors, and where the things of what was added are, which is an error for what was left out.
ghost use Rattle.std.specs.Prelude.{◌<◌, length};

use crate::marks::{bare, call, copied, tell};
use crate::sources::one_file;
use std::alloc::Global;
use wit_graph::{ResolveError, ResolveErrorKind};
use wit_items::{InterfaceId, Items, PackageId, SourceMap, Span, TypeId, WorldId};
use wit_link::Remap;

/// An error made by hand.
pub fn make_error(rt: &impl Print, alloc: Global) -> Option<()> {
    let message = String::from_str(alloc, "bad").ok()?;
    bare(rt, "new_semantic, kind_mut and From");
    let mut error = ResolveError::new_semantic(Span::new(13, 18), message);
    let span = error.kind_mut().span();
    let other = ResolveError::from(ResolveErrorKind::OffsetOverflow);
    tell(rt, Ok((span, other.number())))?;
    let map = one_file(alloc)?;
    ask_error(rt, alloc, &error, &map)
}

/// What is asked of an error.
pub fn ask_error(
    rt: &impl Print,
    alloc: Global,
    error: &ResolveError,
    map: &SourceMap,
) -> Option<()> {
    copied(rt, "try_clone of ResolveError", error)?;
    copied(rt, "try_clone of ResolveErrorKind", error.kind())?;
    bare(rt, "number, kind and span of an error");
    tell(rt, Ok((error.number(), error.kind().span())))?;
    call(rt, "render");
    tell(rt, error.render(alloc, map))
}

// ---- where things are

/// Of each list the first is there and the second is left out.
fn one_of_two(alloc: Global) -> Option<Remap> {
    let mut types: Items<Option<TypeId>> = Items::new(alloc);
    types.push(Some(TypeId::from_index(5))).ok()?;
    types.push(None).ok()?;
    let mut interfaces: Items<Option<InterfaceId>> = Items::new(alloc);
    interfaces.push(Some(InterfaceId::from_index(5))).ok()?;
    interfaces.push(None).ok()?;
    let mut worlds: Items<Option<WorldId>> = Items::new(alloc);
    worlds.push(Some(WorldId::from_index(5))).ok()?;
    worlds.push(None).ok()?;
    let packages: Items<PackageId> = Items::new(alloc);
    Some(Remap::from_lists(types, interfaces, worlds, packages))
}

pub fn map_ids(rt: &impl Print, alloc: Global) -> Option<()> {
    let remap = one_of_two(alloc)?;
    copied(rt, "try_clone of Remap", &remap)?;
    if remap.types().len() != 2 || remap.interfaces().len() != 2 || remap.worlds().len() != 2 {
        return None;
    }
    map_each(rt, alloc, &remap, 0)?;
    map_each(rt, alloc, &remap, 1)
}

/// What stands at this index of each list. Where it is there, no memory is taken.
fn map_each(rt: &impl Print, alloc: Global, remap: &Remap, index: usize) -> Option<()>
    requires types { index < length remap.now.types }
    requires interfaces { index < length remap.now.interfaces }
    requires worlds { index < length remap.now.worlds }
{
    let span = Span::new(3, 4);
    let (ty, world) = (TypeId::from_index(index), WorldId::from_index(index));
    let interface = InterfaceId::from_index(index);
    mark_map(rt, index, "map_type");
    tell(rt, remap.map_type(alloc, ty, span))?;
    mark_map(rt, index, "map_interface");
    tell(rt, remap.map_interface(alloc, interface, span))?;
    mark_map(rt, index, "map_interface_for_type");
    tell(rt, remap.map_interface_for_type(alloc, interface, span))?;
    mark_map(rt, index, "map_world");
    tell(rt, remap.map_world(alloc, world, span))?;
    mark_map(rt, index, "map_world_for_type");
    tell(rt, remap.map_world_for_type(alloc, world, span))
}

fn mark_map(rt: &impl Print, index: usize, name: &str) {
    if index == 0 {
        bare(rt, name);
    } else {
        call(rt, name);
    }
}
