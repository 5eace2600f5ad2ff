//! The includes of a package's worlds, with the ids and spans that they have in the graph.
ghost use Rattle.std.specs.Prelude.{◌≡◌, IfOk, map};
ghost use Rattle.wit_link.specs.steps.Including.{include_at, world_with};

use std::alloc::{AllocError, Global};
use wit_data::{Items, WorldInclude};
use wit_link_spec::NewIds;
use wit_remap::UpdatedWorld;

/// Worlds of which the includes have new ids and spans. A span that can't be moved is answered as want of memory: all
/// spans were seen to fit.
pub(crate) fn update_includes(
    alloc: Global,
    worlds: Items<UpdatedWorld>,
    new_ids: &NewIds,
    offset: u32,
) -> Result<Items<UpdatedWorld>, AllocError>
    ensures { IfOk result (λ new. new ≡ map (world_with new_ids.now offset) worlds) }
{
    let mut new = Items::new(alloc);
    for world in worlds.into_vec() {
        new.push(world_with(alloc, world, new_ids, offset)?)?;
    }
    Ok(new)
}

/// The same of one world.
fn world_with(
    alloc: Global,
    world: UpdatedWorld,
    new_ids: &NewIds,
    offset: u32,
) -> Result<UpdatedWorld, AllocError>
    ensures { IfOk result (λ new. new ≡ world_with new_ids.now offset world) }
{
    let UpdatedWorld {
        id,
        world,
        includes,
    } = world;
    let includes = includes_at(alloc, includes, new_ids, offset)?;
    Ok(UpdatedWorld {
        id,
        world,
        includes,
    })
}

/// Includes with new ids and spans.
fn includes_at(
    alloc: Global,
    includes: Items<WorldInclude>,
    new_ids: &NewIds,
    offset: u32,
) -> Result<Items<WorldInclude>, AllocError>
    ensures { IfOk result (λ new. new ≡ map (include_at new_ids.now offset) includes) }
{
    let mut new = Items::new(alloc);
    for include in includes.into_vec() {
        new.push(include_at(include, new_ids, offset)?)?;
    }
    Ok(new)
}

/// The same of one include.
fn include_at(
    mut include: WorldInclude,
    new_ids: &NewIds,
    offset: u32,
) -> Result<WorldInclude, AllocError>
    ensures { IfOk result (λ new. new ≡ include_at new_ids.now offset include) }
{
    match include.span.moved(offset) {
        Some(span) => include.span = span,
        None => return Err(AllocError),
    }
    if let Some(Some(id)) = new_ids.worlds.get(include.id.index()) {
        include.id = *id;
    }
    Ok(include)
}
