//! The ids of things in a graph or in an unresolved package.
ghost use Rattle.std.specs.Prelude.{◌≡◌};

use std::alloc::AllocError;
use std::marker::{Model, PhantomData};
use wit_values::TryClone;

/// The index of a thing in the list of its sort.
#[derive_where(Clone, Copy, Debug, PartialEq, Eq, PartialOrd, Ord, Hash)]
pub struct Id<S> {
    index: usize,
    #[derive_where(skip)]
    sort: PhantomData<S>,
}

impl<S> Model for Id<S> {
    ghost use Rattle.std.specs.Prelude.{ℕ};

    ghost Value = { ℕ };

    ghost view = { λ i. i.index };

    ghost inverse = { λ n. record { index = n; sort = record {} } };
}

impl<S> Id<S> {
    /// The id of the thing at this index, from 0.
    pub fn from_index(index: usize) -> Id<S>
        ensures { result ≡ index }
    {
        Id {
            index,
            sort: PhantomData,
        }
    }

    /// The index, from 0.
    pub fn index(self) -> usize
        ensures { result ≡ self }
    {
        self.index
    }
}

impl<S> TryClone for Id<S> {
    fn try_clone(&self) -> Result<Id<S>, AllocError> {
        Ok(Id::from_index(self.index))
    }
}

/// The sort of types.
pub enum TypeSort {}

/// The sort of interfaces.
pub enum InterfaceSort {}

/// The sort of worlds.
pub enum WorldSort {}

/// The sort of packages.
pub enum PackageSort {}

/// The index of a type in the list of types of its graph, or of its unresolved package.
pub type TypeId = Id<TypeSort>;

/// The index of an interface in the list of interfaces of its graph, or of its unresolved package.
pub type InterfaceId = Id<InterfaceSort>;

/// The index of a world in the list of worlds of its graph, or of its unresolved package.
pub type WorldId = Id<WorldSort>;

/// The index of a package in the list of packages of its graph, or of its unresolved package.
pub type PackageId = Id<PackageSort>;
