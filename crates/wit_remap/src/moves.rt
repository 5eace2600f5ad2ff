//! What things are remapped to, whatever tells it.
ghost use Rattle.std.specs.Prelude.{◌≡◌, ℕ, Option, Some};
ghost use Rattle.wit_remap_spec.specs.Image.{Maps};
ghost use Rattle.wit_sources.specs.Span.{moved_by};

use wit_data::{InterfaceId, PackageId, Span, TypeId, WorldId};

/// What ids are remapped to and how far spans move. What labels become is no part of it. No call takes memory.
pub trait Moves {
    /// The maps that it stands for.
    ghost maps: { Self → Maps };

    /// The spans that it can move.
    ghost fits: { Self → Option (ℕ × ℕ) → Type 0 };

    /// What a type is remapped to that isn't at a value position: what an alias or a handle names, and a type in
    /// the list of an interface.
    fn type_id(&self, id: TypeId) -> TypeId
        ensures { result ≡ (maps self.now).types id };

    /// What a type is remapped to at a value position.
    fn value_id(&self, id: TypeId) -> TypeId
        ensures { result ≡ (maps self.now).values id };

    /// What an interface is remapped to.
    fn interface_id(&self, id: InterfaceId) -> InterfaceId
        ensures { result ≡ (maps self.now).interfaces id };

    /// What a world is remapped to.
    fn world_id(&self, id: WorldId) -> WorldId
        ensures { result ≡ (maps self.now).worlds id };

    /// The package that things come to be of, whatever theirs was.
    fn home(&self) -> PackageId
        ensures { (p : Option ℕ) → (maps self.now).home p ≡ Some result };

    /// Where a span goes, for one that can be moved: so many positions further on. An unknown one
    /// stays.
    fn span(&self, span: Span) -> Span
        requires { fits self.now span }
        ensures { result ≡ moved_by (maps self.now).offset span };
}
