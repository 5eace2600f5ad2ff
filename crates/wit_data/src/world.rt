//! Worlds.
ghost use Rattle.std.specs.Prelude.{◌≡◌};
ghost use Rattle.wit_data.specs.Entries.{item_type};
ghost use Rattle.wit_data.specs.New.{new_interface_entry, new_world};

use crate::function::Function;
use crate::ids::{InterfaceId, PackageId, TypeId, WorldId};
use crate::stability::{Docs, Stability};
use std::alloc::{AllocError, Global};
use wit_sources::Span;
use wit_values::{Items, Table, Text, TryClone, try_clone_six, try_clone_three, try_clone_two};

/// The key of an entry of a world: a label, or an interface by its id.
///
/// Source: `WorldKey` of wit-parser 0.263.0.
#[derive(PartialEq, Eq, Hash, Drop)]
pub enum WorldKey {
    Name(Text),
    Interface(InterfaceId),
}

impl TryClone for WorldKey {
    fn try_clone(&self) -> Result<WorldKey, AllocError> {
        match self {
            WorldKey::Name(name) => Ok(WorldKey::Name(name.try_clone()?)),
            WorldKey::Interface(id) => Ok(WorldKey::Interface(*id)),
        }
    }
}

/// What a world imports or exports under a key.
///
/// Source: `WorldItem` of wit-parser 0.263.0.
#[derive(Drop)]
pub enum WorldItem {
    Interface {
        id: InterfaceId,
        stability: Stability,
        docs: Docs,
        span: Span,
        external_id: Option<Text>,
    },
    Function(Function),
    /// A type of the world's own, among its imports.
    Type_ {
        id: TypeId,
        span: Span,
    },
}

impl WorldItem {
    /// The entry of an interface, without gate, docs and external id, with an unknown span. It takes no memory.
    pub fn interface(id: InterfaceId) -> WorldItem
        ensures { result ≡ new_interface_entry id }
    {
        WorldItem::Interface {
            id,
            stability: Stability::Unknown,
            docs: Docs::none(),
            span: Span::unknown(),
            external_id: None,
        }
    }
}

/// The type that an item is, None of an interface and of a function.
pub fn item_type(item: &WorldItem) -> Option<TypeId>
    ensures { result ≡ item_type item.now }
{
    match item {
        WorldItem::Type_ { id, .. } => Some(*id),
        WorldItem::Interface { .. } | WorldItem::Function(_) => None,
    }
}

impl TryClone for WorldItem {
    fn try_clone(&self) -> Result<WorldItem, AllocError> {
        match self {
            WorldItem::Interface {
                id,
                stability,
                docs,
                span,
                external_id,
            } => {
                let (stability, docs, external_id) = try_clone_three(stability, docs, external_id)?;
                Ok(WorldItem::Interface {
                    id: *id,
                    stability,
                    docs,
                    span: *span,
                    external_id,
                })
            }
            WorldItem::Function(function) => Ok(WorldItem::Function(function.try_clone()?)),
            WorldItem::Type_ { id, span } => Ok(WorldItem::Type_ {
                id: *id,
                span: *span,
            }),
        }
    }
}

/// A label of an included world, and the label that stands in its place.
///
/// Source: `IncludeName` of wit-parser 0.263.0.
#[derive(Drop)]
pub struct IncludeName {
    pub name: Text,
    pub as_: Text,
}

impl TryClone for IncludeName {
    fn try_clone(&self) -> Result<IncludeName, AllocError> {
        let (name, as_) = try_clone_two(&self.name, &self.as_)?;
        Ok(IncludeName { name, as_ })
    }
}

/// An include of a world in another.
///
/// Source: `WorldInclude` of wit-parser 0.263.0.
#[derive(Drop)]
pub struct WorldInclude {
    pub stability: Stability,
    pub id: WorldId,
    pub names: Items<IncludeName>,
    pub span: Span,
}

impl TryClone for WorldInclude {
    fn try_clone(&self) -> Result<WorldInclude, AllocError> {
        let (stability, names) = try_clone_two(&self.stability, &self.names)?;
        Ok(WorldInclude {
            stability,
            id: self.id,
            names,
            span: self.span,
        })
    }
}

/// A world: what a component imports and exports.
///
/// Source: `World` of wit-parser 0.263.0.
pub struct World {
    pub name: Text,
    pub imports: Table<WorldKey, WorldItem>,
    pub exports: Table<WorldKey, WorldItem>,
    pub docs: Docs,
    pub stability: Stability,
    /// The package that it belongs to, None in an unresolved package.
    pub package: Option<PackageId>,
    /// What it includes. Empty in a graph, where includes have become entries.
    pub includes: Items<WorldInclude>,
    pub span: Span,
}

impl World {
    /// A world without entries and includes, of which nothing more is said: without docs, gate and package, with an
    /// unknown span. It takes no memory.
    pub fn new(alloc: Global, name: Text) -> World
        ensures { result ≡ new_world name }
    {
        World {
            name,
            imports: Table::new(alloc),
            exports: Table::new(alloc),
            docs: Docs::none(),
            stability: Stability::Unknown,
            package: None,
            includes: Items::new(alloc),
            span: Span::unknown(),
        }
    }
}

/// As the derived one: each field is let go. A call of it costs the check less than a derived one,
/// which is checked again wherever a value is let go.
impl Drop for World {
    fn drop(self) {
        let World {
            name,
            imports,
            exports,
            docs,
            stability,
            includes,
            package: _,
            span: _,
        } = self;
        drop(name);
        drop(imports);
        drop(exports);
        drop(docs);
        drop(stability);
        drop(includes);
    }
}

impl TryClone for World {
    fn try_clone(&self) -> Result<World, AllocError> {
        let (name, imports, exports, docs, stability, includes) = try_clone_six(
            &self.name,
            &self.imports,
            &self.exports,
            &self.docs,
            &self.stability,
            &self.includes,
        )?;
        Ok(World {
            name,
            imports,
            exports,
            docs,
            stability,
            package: self.package,
            includes,
            span: self.span,
        })
    }
}
