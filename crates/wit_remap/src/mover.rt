//! What the things of a package are remapped to.

use crate::moves::Moves;
use wit_data::{InterfaceId, Items, PackageId, Span, TypeId, WorldId};
use wit_link_spec::NewIds;

/// Where the ids of a package go and how far its spans move. An id that isn't remapped, or is none of the
/// package, stays.
#[derive(Clone, Copy)]
pub struct Mover<'a> {
    pub new_ids: &'a NewIds,
    /// What types are remapped to at value positions.
    pub values: &'a Items<TypeId>,
    /// The package that things come to be of.
    pub package: PackageId,
    /// By how many positions spans move.
    pub offset: u32,
}

impl<'a> Moves for Mover<'a> {
    ghost use Rattle.wit_remap.specs.steps.Fits.{Fits};
    ghost use Rattle.wit_remap.specs.steps.Movers.{maps_of};

    ghost maps = { maps_of };

    ghost fits = { λ m. Fits m.offset };

    fn type_id(&self, id: TypeId) -> TypeId {
        match self.new_ids.types.get(id.index()) {
            Some(Some(new)) => *new,
            _ => id,
        }
    }

    fn value_id(&self, id: TypeId) -> TypeId {
        match self.values.get(id.index()) {
            Some(new) => *new,
            None => id,
        }
    }

    fn interface_id(&self, id: InterfaceId) -> InterfaceId {
        match self.new_ids.interfaces.get(id.index()) {
            Some(Some(new)) => *new,
            _ => id,
        }
    }

    fn world_id(&self, id: WorldId) -> WorldId {
        match self.new_ids.worlds.get(id.index()) {
            Some(Some(new)) => *new,
            _ => id,
        }
    }

    fn home(&self) -> PackageId {
        self.package
    }

    fn span(&self, span: Span) -> Span {
        match span.moved(self.offset) {
            Some(moved) => moved,
            None => unreachable!(),
        }
    }
}
