//! What a line adds to the interfaces, worlds and types of a package.
ghost use Rattle.std.specs.Prelude.{◌≡◌, ◌<◌, length, IfOk, OnOk};
ghost use Rattle.wit_script_package.specs.Adding.{empty_interface, empty_world, root_of, type_with, with_export, with_function, with_import, with_import_at, with_include, with_interface, with_interface_type, with_named, with_type, with_world, with_world_type};
ghost use Rattle.wit_script_package.specs.steps.DraftResult.{DraftResult};
ghost use Rattle.wit_script_package.specs.steps.Parts.{with_export_at, with_function_at, with_include_at, with_type_name};

use crate::draft::{Draft, LineContext, Scope};
use std::alloc::{AllocError, Global};
use wit_data::{
    Function, Interface, InterfaceId, Text, TryClone, Type_, TypeDef, TypeDefKind, TypeId,
    TypeOwner, World, WorldId, WorldInclude, WorldItem, WorldKey,
};
use wit_script_lines::LineFault;

/// The interface of a line that stands here, without types and functions. The only error is want of
/// memory.
pub fn new_interface(alloc: Global, name: Text, here: &LineContext) -> Result<Interface, AllocError>
    ensures { IfOk result (λ interface. interface ≡ empty_interface name here.now) }
{
    let stability = here.gate.try_clone()?;
    let mut interface = Interface::new(alloc, Some(name));
    interface.stability = stability;
    interface.span = here.span;
    Ok(interface)
}

/// The world of a line that stands here, without imports, exports and includes. The only error is want
/// of memory.
pub fn new_world(alloc: Global, name: Text, here: &LineContext) -> Result<World, AllocError>
    ensures { IfOk result (λ world. world ≡ empty_world name here.now) }
{
    let stability = here.gate.try_clone()?;
    let mut world = World::new(alloc, name);
    world.stability = stability;
    world.span = here.span;
    Ok(world)
}

/// The type of a line that stands here, with a name or without one. The only error is want of memory.
pub fn new_type(
    name: Option<Text>,
    kind: TypeDefKind,
    owner: TypeOwner,
    here: &LineContext,
) -> Result<TypeDef, AllocError>
    ensures { IfOk result (λ def. def ≡ type_with name kind owner here.now) }
{
    let stability = here.gate.try_clone()?;
    let mut def = TypeDef::new(name, kind, owner);
    def.stability = stability;
    def.span = here.span;
    Ok(def)
}

impl Draft {
    /// Begins an interface; the next lines go into it. Not understood where the package has one of its
    /// own of that name. Else only want of memory is an error. After a fault nothing is told of the
    /// package.
    pub fn add_interface(
        &mut self,
        alloc: Global,
        name: Text,
        here: &LineContext,
    ) -> Result<(), LineFault>
        ensures { DraftResult (with_interface self.old name here.now) result self.new }
    {
        if self.interface_ids.contains_key(name.as_str()) {
            return Err(LineFault::NotUnderstood);
        }
        let id = InterfaceId::from_index(self.interfaces.len());
        let key = String::from_str(alloc, name.as_str())?;
        let interface = new_interface(alloc, name, here)?;
        self.close();
        self.interfaces.push(interface)?;
        self.interface_ids.push(key, id)?;
        self.scope = Scope::Interface;
        Ok(())
    }

    /// Gives back memory that nothing takes in the interface or the world into which lines went.
    pub(crate) fn close(&mut self)
        ensures { self.new ≡ self.old }
    {
        if let Some(at) = self.open_interface() {
            self.shrink_interface(at);
        }
        if let Some(at) = self.open_world() {
            self.shrink_world(at);
        }
    }

    /// Gives back memory that nothing takes in the interface at an index.
    fn shrink_interface(&mut self, at: usize)
        requires { at < length self.old.interfaces }
        ensures { self.new ≡ self.old }
    {
        let interface = self.interfaces.at_mut(at);
        interface.types.shrink();
        interface.functions.shrink();
    }

    /// Gives back memory that nothing takes in the world at an index.
    fn shrink_world(&mut self, at: usize)
        requires { at < length self.old.worlds }
        ensures { self.new ≡ self.old }
    {
        let world = self.worlds.at_mut(at);
        world.imports.shrink();
        world.exports.shrink();
    }

    /// Begins a world; the next lines go into it. Not understood where the package has one of its own
    /// of that name. Else only want of memory is an error. After a fault nothing is told of the
    /// package.
    pub fn add_world(
        &mut self,
        alloc: Global,
        name: Text,
        here: &LineContext,
    ) -> Result<(), LineFault>
        ensures { DraftResult (with_world self.old name here.now) result self.new }
    {
        if self.world_ids.contains_key(name.as_str()) {
            return Err(LineFault::NotUnderstood);
        }
        let id = WorldId::from_index(self.worlds.len());
        let key = String::from_str(alloc, name.as_str())?;
        let world = new_world(alloc, name, here)?;
        self.close();
        self.worlds.push(world)?;
        self.world_ids.push(key, id)?;
        self.scope = Scope::World;
        Ok(())
    }

    /// The type at the end of the aliases of a type of this kind, which has this id.
    fn root_of(&self, id: TypeId, kind: &TypeDefKind) -> TypeId
        ensures { result ≡ root_of self.now id kind.now }
    {
        match kind {
            TypeDefKind::Type_(Type_::Id(target)) => match self.roots.get(target.index()) {
                Some(root) => *root,
                None => id,
            },
            _ => id,
        }
    }

    /// Adds a type at the end. The only error is want of memory. After a fault nothing is told of the
    /// package.
    pub fn push_type(&mut self, def: TypeDef) -> Result<(), AllocError>
        ensures { OnOk result (self.new ≡ with_type self.old def) }
    {
        let id = TypeId::from_index(self.types.len());
        let root = self.root_of(id, &def.kind);
        self.types.push(def)?;
        self.roots.push(root)
    }

    /// Gives the next type a name in the interface at an index, where it has no type of that name.
    fn add_type_name(&mut self, alloc: Global, name: &Text, at: usize) -> Result<(), LineFault>
        requires { at < length self.old.interfaces }
        ensures { DraftResult (with_type_name self.old name.now at) result self.new }
    {
        let id = TypeId::from_index(self.types.len());
        let key = String::from_str(alloc, name.as_str())?;
        let types = &mut self.interfaces.at_mut(at).types;
        if types.contains_key(key.as_str()) {
            return Err(LineFault::NotUnderstood);
        }
        types.push(key, id)?;
        Ok(())
    }

    /// Adds a type to the interface at an index.
    fn add_interface_type(
        &mut self,
        alloc: Global,
        name: Text,
        kind: TypeDefKind,
        here: &LineContext,
        at: usize,
    ) -> Result<(), LineFault>
        requires { at < length self.old.interfaces }
        ensures { DraftResult (with_interface_type self.old name kind here.now at) result self.new }
    {
        self.add_type_name(alloc, &name, at)?;
        let owner = TypeOwner::Interface(InterfaceId::from_index(at));
        let def = new_type(Some(name), kind, owner, here)?;
        self.push_type(def)?;
        Ok(())
    }

    /// Adds a type to the world at an index: an import of it under its name.
    fn add_world_type(
        &mut self,
        name: Text,
        kind: TypeDefKind,
        here: &LineContext,
        at: usize,
    ) -> Result<(), LineFault>
        requires { at < length self.old.worlds }
        ensures { DraftResult (with_world_type self.old name kind here.now at) result self.new }
    {
        let id = TypeId::from_index(self.types.len());
        let key = WorldKey::Name(name.try_clone()?);
        self.add_import_at(
            key,
            WorldItem::Type_ {
                id,
                span: here.span,
            },
            at,
        )?;
        let owner = TypeOwner::World(WorldId::from_index(at));
        let def = new_type(Some(name), kind, owner, here)?;
        self.push_type(def)?;
        Ok(())
    }

    /// Adds a type to the interface or the world into which lines go, to a world as an import. Not
    /// understood where they go into neither, or the name is there. Else only want of memory is an
    /// error. After a fault nothing is told of the package.
    pub fn add_named(
        &mut self,
        alloc: Global,
        name: Text,
        kind: TypeDefKind,
        here: &LineContext,
    ) -> Result<(), LineFault>
        ensures { DraftResult (with_named self.old name kind here.now) result self.new }
    {
        match self.scope {
            Scope::Package => Err(LineFault::NotUnderstood),
            Scope::Interface => match self.open_interface() {
                Some(at) => self.add_interface_type(alloc, name, kind, here, at),
                None => Err(LineFault::NotUnderstood),
            },
            Scope::World => match self.open_world() {
                Some(at) => self.add_world_type(name, kind, here, at),
                None => Err(LineFault::NotUnderstood),
            },
        }
    }

    /// Adds an import to the world at an index, where it imports nothing under that key yet.
    fn add_import_at(&mut self, key: WorldKey, item: WorldItem, at: usize) -> Result<(), LineFault>
        requires { at < length self.old.worlds }
        ensures { DraftResult (with_import_at self.old key item at) result self.new }
    {
        let imports = &mut self.worlds.at_mut(at).imports;
        if imports.contains_key(&key) {
            return Err(LineFault::NotUnderstood);
        }
        imports.push(key, item)?;
        Ok(())
    }

    /// Adds an import to the world into which lines go. Not understood where they go into no world, or
    /// it imports something under this key. Else only want of memory is an error. After a fault nothing
    /// is told of the package.
    pub fn add_import(&mut self, key: WorldKey, item: WorldItem) -> Result<(), LineFault>
        ensures { DraftResult (with_import self.old key item) result self.new }
    {
        match self.open_world() {
            Some(at) => self.add_import_at(key, item, at),
            None => Err(LineFault::NotUnderstood),
        }
    }

    /// Adds an export to the world at an index, where it exports nothing under that key yet.
    fn add_export_at(&mut self, key: WorldKey, item: WorldItem, at: usize) -> Result<(), LineFault>
        requires { at < length self.old.worlds }
        ensures { DraftResult (with_export_at self.old key item at) result self.new }
    {
        let exports = &mut self.worlds.at_mut(at).exports;
        if exports.contains_key(&key) {
            return Err(LineFault::NotUnderstood);
        }
        exports.push(key, item)?;
        Ok(())
    }

    /// Adds an export to the world into which lines go. Not understood where they go into no world, or
    /// it exports something under this key. Else only want of memory is an error. After a fault nothing
    /// is told of the package.
    pub fn add_export(&mut self, key: WorldKey, item: WorldItem) -> Result<(), LineFault>
        ensures { DraftResult (with_export self.old key item) result self.new }
    {
        match self.open_world() {
            Some(at) => self.add_export_at(key, item, at),
            None => Err(LineFault::NotUnderstood),
        }
    }

    /// Adds a function to the interface at an index, where it has no function of that name.
    fn add_function_at(
        &mut self,
        alloc: Global,
        function: Function,
        at: usize,
    ) -> Result<(), LineFault>
        requires { at < length self.old.interfaces }
        ensures { DraftResult (with_function_at self.old function at) result self.new }
    {
        let key = String::from_str(alloc, function.name.as_str())?;
        let functions = &mut self.interfaces.at_mut(at).functions;
        if functions.contains_key(key.as_str()) {
            return Err(LineFault::NotUnderstood);
        }
        functions.push(key, function)?;
        Ok(())
    }

    /// Adds a function to the interface into which lines go. Not understood where they go into no
    /// interface, or it has a function of this name. Else only want of memory is an error. After a
    /// fault nothing is told of the package.
    pub fn add_function(&mut self, alloc: Global, function: Function) -> Result<(), LineFault>
        ensures { DraftResult (with_function self.old function) result self.new }
    {
        match self.open_interface() {
            Some(at) => self.add_function_at(alloc, function, at),
            None => Err(LineFault::NotUnderstood),
        }
    }

    /// Adds an include to the world at an index.
    fn add_include_at(&mut self, include: WorldInclude, at: usize) -> Result<(), LineFault>
        requires { at < length self.old.worlds }
        ensures { DraftResult (with_include_at self.old include at) result self.new }
    {
        let includes = &mut self.worlds.at_mut(at).includes;
        includes.push(include)?;
        Ok(())
    }

    /// Adds an include to the world into which lines go. Not understood where they go into no world.
    /// Else only want of memory is an error. After a fault nothing is told of the package.
    pub fn add_include(&mut self, include: WorldInclude) -> Result<(), LineFault>
        ensures { DraftResult (with_include self.old include) result self.new }
    {
        match self.open_world() {
            Some(at) => self.add_include_at(include, at),
            None => Err(LineFault::NotUnderstood),
        }
    }
}
