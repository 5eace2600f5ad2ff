//! Interfaces and worlds that say to which package they belong.
ghost use Rattle.wit_shape.specs.declared.clause.ShapeClause.TheVariants.{UnplacedInterfaces, UnplacedWorlds};
ghost use Rattle.wit_shape.specs.Faults.{Tells};

use crate::place::ShapePlace;
use wit_data::{InterfaceId, UnresolvedPackage, WorldId};

/// The first interface that says to which package it belongs.
pub(crate) fn interfaces(unresolved: &UnresolvedPackage) -> Option<ShapePlace>
    ensures { Tells unresolved.now UnplacedInterfaces result }
{
    let interfaces = unresolved.interfaces.as_slice();
    let index = interfaces
        .iter()
        .position(|interface| interface.package.is_some())?;
    Some(ShapePlace::Interface(InterfaceId::from_index(index)))
}

/// The first world that does.
pub(crate) fn worlds(unresolved: &UnresolvedPackage) -> Option<ShapePlace>
    ensures { Tells unresolved.now UnplacedWorlds result }
{
    let worlds = unresolved.worlds.as_slice();
    let index = worlds.iter().position(|world| world.package.is_some())?;
    Some(ShapePlace::World(WorldId::from_index(index)))
}
