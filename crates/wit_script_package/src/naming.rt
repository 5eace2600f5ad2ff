//! What the names in the lines of a package name.
ghost use Rattle.std.specs.Prelude.{◌≡◌, ◌<◌, length, IfOk, IfSome};
ghost use Rattle.wit_script_package.specs.Naming.{earlier, foreign_named, interface_named, interface_of, open_interface, open_world, type_at, world_named, world_of};
ghost use Rattle.wit_script_lines.specs.steps.ReadResult.{IsRead};
ghost use Rattle.wit_script_package.specs.steps.Parts.{interface_type, world_type_at, world_type, type_named, used_type};

use crate::draft::{Draft, Scope};
use std::alloc::{AllocError, Global};
use wit_data::{
    AstItem, InterfaceId, PackageName, ParsedUsePath, Text, Type_, TypeId, WorldId, WorldKey,
    item_type,
};
use wit_script_lines::{LineFault, primitive};

/// The interface that something foreign is.
fn interface_of(item: AstItem) -> Option<InterfaceId>
    ensures { result ≡ interface_of item }
{
    match item {
        AstItem::Interface(id) => Some(id),
        AstItem::World(_) => None,
    }
}

/// The world that something foreign is.
fn world_of(item: AstItem) -> Option<WorldId>
    ensures { result ≡ world_of item }
{
    match item {
        AstItem::Interface(_) => None,
        AstItem::World(id) => Some(id),
    }
}

impl Draft {
    /// The index of the interface into which lines go, from 0, or None where they go into none.
    pub fn open_interface(&self) -> Option<usize>
        ensures place { result ≡ open_interface self.now }
        ensures within { IfSome result (λ at. at < length self.now.interfaces) }
    {
        match self.scope {
            Scope::Interface => self.interfaces.len().checked_sub(1),
            Scope::Package | Scope::World => None,
        }
    }

    /// The index of the world into which lines go, from 0, or None where they go into none.
    pub fn open_world(&self) -> Option<usize>
        ensures place { result ≡ open_world self.now }
        ensures within { IfSome result (λ at. at < length self.now.worlds) }
    {
        match self.scope {
            Scope::World => self.worlds.len().checked_sub(1),
            Scope::Package | Scope::Interface => None,
        }
    }

    /// The type of this name in the interface at an index.
    fn type_at(&self, name: &str, at: usize) -> Option<TypeId>
        ensures { result ≡ type_at self.now name.now at }
    {
        let interface = self.interfaces.get(at)?;
        let id = interface.types.get(name)?;
        Some(*id)
    }

    /// The earlier type of this name in the interface into which lines go.
    fn interface_type(&self, name: &str) -> Option<TypeId>
        ensures { result ≡ interface_type self.now name.now }
    {
        let at = self.open_interface()?;
        self.type_at(name, at)
    }

    /// The type of this name among the imports of the world at an index.
    fn world_type_at(
        &self,
        alloc: Global,
        name: &str,
        at: usize,
    ) -> Result<Option<TypeId>, AllocError>
        ensures { IfOk result (λ found. found ≡ world_type_at self.now name.now at) }
    {
        let Some(world) = self.worlds.get(at) else {
            return Ok(None);
        };
        let label = WorldKey::Name(Text::try_from_str(alloc, name)?);
        match world.imports.get(&label) {
            Some(item) => Ok(item_type(item)),
            None => Ok(None),
        }
    }

    /// The earlier type of this name in the world into which lines go.
    fn world_type(&self, alloc: Global, name: &str) -> Result<Option<TypeId>, AllocError>
        ensures { IfOk result (λ found. found ≡ world_type self.now name.now) }
    {
        match self.open_world() {
            Some(at) => self.world_type_at(alloc, name, at),
            None => Ok(None),
        }
    }

    /// The earlier type of this name in the interface or the world into which lines go, or None. The
    /// only error is want of memory.
    pub fn earlier(&self, alloc: Global, name: &str) -> Result<Option<TypeId>, AllocError>
        ensures { IfOk result (λ found. found ≡ earlier self.now name.now) }
    {
        match self.scope {
            Scope::Package => Ok(None),
            Scope::Interface => Ok(self.interface_type(name)),
            Scope::World => self.world_type(alloc, name),
        }
    }

    /// What the name of a type names: a primitive, or else an earlier type. Not understood where it
    /// names neither. Else only want of memory is an error.
    pub fn type_named(&self, alloc: Global, name: &str) -> Result<Type_, LineFault>
        ensures { IsRead (type_named self.now name.now) result }
    {
        if let Some(ty) = primitive(name) {
            return Ok(ty);
        }
        match self.earlier(alloc, name)? {
            Some(id) => Ok(Type_::Id(id)),
            None => Err(LineFault::NotUnderstood),
        }
    }

    /// The interface or world of another package that this names, or None where no line mentions it.
    pub fn foreign_named(&self, parent: &PackageName, name: &str) -> Option<AstItem>
        ensures { result ≡ foreign_named self.now parent.now name.now }
    {
        let items = self.foreign.deps.get(parent)?;
        let named = items.get(name)?;
        Some(named.0)
    }

    /// The interface that a path names, of the package itself or foreign, or None.
    pub fn interface_named(&self, path: &ParsedUsePath) -> Option<InterfaceId>
        ensures { result ≡ interface_named self.now path.now }
    {
        match path {
            ParsedUsePath::Name(name) => {
                let id = self.interface_ids.get(name.as_str())?;
                Some(*id)
            }
            ParsedUsePath::Package(parent, name) => interface_of(self.foreign_named(
                parent,
                name.as_str(),
            )?),
        }
    }

    /// The world that a path names, of the package itself or foreign, or None.
    pub fn world_named(&self, path: &ParsedUsePath) -> Option<WorldId>
        ensures { result ≡ world_named self.now path.now }
    {
        match path {
            ParsedUsePath::Name(name) => {
                let id = self.world_ids.get(name.as_str())?;
                Some(*id)
            }
            ParsedUsePath::Package(parent, name) => world_of(self.foreign_named(
                parent,
                name.as_str(),
            )?),
        }
    }

    /// The type of this name in the interface that a path names, or None.
    pub fn used_type(&self, path: &ParsedUsePath, name: &str) -> Option<TypeId>
        ensures { result ≡ used_type self.now path.now name.now }
    {
        let id = self.interface_named(path)?;
        self.type_at(name, id.index())
    }
}
