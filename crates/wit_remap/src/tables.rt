//! The tables of a package: its interfaces and its worlds by name.
ghost use Rattle.std.specs.Prelude.{◌≡◌, IfOk};
ghost use Rattle.std.specs.List.{IsDistinct};
ghost use Rattle.std.specs.Map.{keys_of};
ghost use Rattle.std.specs.Str.{bytes_eq};
ghost use Rattle.wit_remap.specs.steps.Movers.{maps_of};
ghost use Rattle.wit_remap.specs.steps.Fits.{interfaces_at, worlds_at};

use crate::mover::Mover;
use crate::moves::Moves;
use std::alloc::{AllocError, Global};
use wit_data::{Interface, InterfaceId, Names, World, WorldId};

/// The interfaces that have a name under it, with their new ids.
pub(crate) fn interface_table(
    alloc: Global,
    mover: &Mover<'_>,
    interfaces: &[(usize, Interface)],
) -> Result<Names<InterfaceId>, AllocError>
    requires { IsDistinct bytes_eq (keys_of (interfaces_at (maps_of mover.now) interfaces.now)) }
    ensures { IfOk result (λ table. table ≡ interfaces_at (maps_of mover.now) interfaces.now) }
{
    let mut table = Names::new(alloc);
    for (place, interface) in interfaces {
        match &interface.name {
            Some(name) => {
                let id = mover.interface_id(InterfaceId::from_index(*place));
                table.push(String::from_str(alloc, name.as_str())?, id)?;
            }
            None => {}
        }
    }
    Ok(table)
}

/// The worlds under their names, with their new ids.
pub(crate) fn world_table(
    alloc: Global,
    mover: &Mover<'_>,
    worlds: &[(usize, World)],
) -> Result<Names<WorldId>, AllocError>
    requires { IsDistinct bytes_eq (keys_of (worlds_at (maps_of mover.now) worlds.now)) }
    ensures { IfOk result (λ table. table ≡ worlds_at (maps_of mover.now) worlds.now) }
{
    let mut table = Names::new(alloc);
    for (place, world) in worlds {
        let id = mover.world_id(WorldId::from_index(*place));
        table.push(String::from_str(alloc, world.name.as_str())?, id)?;
    }
    Ok(table)
}
