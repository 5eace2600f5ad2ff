//! A package that is being made.

use std::alloc::{AllocError, Global};
use wit_data::{
    AstItem, Docs, Interface, InterfaceId, Items, Names, PackageName, Span, Stability, Table, Text,
    TryClone, Type_, TypeDef, TypeDefKind, TypeId, UnresolvedPackage, World, WorldId,
};

/// The interfaces and worlds of a package that are named of it, each with the gates under which it is named.
pub(crate) type ForeignNames = Names<(AstItem, Items<Stability>)>;

/// What a name of an interface or a world stands for.
#[derive(Clone, Copy)]
pub(crate) enum Named {
    Type_(TypeId),
    Function,
}

/// What is made of a package so far. What it knows of other packages comes first in each list.
pub(crate) struct Draft {
    pub worlds: Items<World>,
    pub interfaces: Items<Interface>,
    /// Of each interface what its names stand for.
    pub names: Items<Names<Named>>,
    pub types: Items<TypeDef>,
    /// Of each type the one at the end of its aliases.
    pub roots: Items<TypeId>,
    /// The types without a name by what they are.
    pub unnamed: Names<TypeId>,
    pub foreign_deps: Table<PackageName, ForeignNames>,
    pub foreign_dep_spans: Items<Span>,
    pub unknown_type_spans: Items<Span>,
    pub required_resource_types: Items<(TypeId, Span)>,
}

impl Draft {
    /// Nothing, which takes no memory.
    pub fn new(alloc: Global) -> Draft {
        Draft {
            worlds: Items::new(alloc),
            interfaces: Items::new(alloc),
            names: Items::new(alloc),
            types: Items::new(alloc),
            roots: Items::new(alloc),
            unnamed: Names::new(alloc),
            foreign_deps: Table::new(alloc),
            foreign_dep_spans: Items::new(alloc),
            unknown_type_spans: Items::new(alloc),
            required_resource_types: Items::new(alloc),
        }
    }

    /// The allocator that it was made with.
    pub fn allocator(&self) -> Global {
        self.worlds.allocator()
    }

    /// Adds an interface of which the name alone is known, None where it has none. The only error is want of memory.
    pub fn add_interface(
        &mut self,
        name: Option<Text>,
        span: Span,
    ) -> Result<InterfaceId, AllocError> {
        let id = InterfaceId::from_index(self.interfaces.len());
        let mut interface = Interface::new(self.allocator(), name);
        interface.span = span;
        self.interfaces.push(interface)?;
        let none = Names::new(self.allocator());
        self.names.push(none)?;
        Ok(id)
    }

    /// Adds a world of which the name alone is known. The only error is want of memory.
    pub fn add_world(&mut self, name: Text, span: Span) -> Result<WorldId, AllocError> {
        let id = WorldId::from_index(self.worlds.len());
        let mut world = World::new(self.allocator(), name);
        world.span = span;
        self.worlds.push(world)?;
        Ok(id)
    }

    /// Adds a type. The only error is want of memory.
    pub fn add_type(&mut self, def: TypeDef) -> Result<TypeId, AllocError> {
        let id = TypeId::from_index(self.types.len());
        let root = match &def.kind {
            TypeDefKind::Type_(Type_::Id(target)) => self.root(*target),
            _ => id,
        };
        self.types.push(def)?;
        self.roots.push(root)?;
        Ok(id)
    }

    /// The type at the end of the aliases of a type.
    pub fn root(&self, id: TypeId) -> TypeId {
        match self.roots.get(id.index()) {
            Some(root) => *root,
            None => id,
        }
    }

    /// Whether a type is a resource.
    pub fn is_resource(&self, id: TypeId) -> bool {
        match self.types.get(id.index()) {
            Some(def) => matches!(def.kind, TypeDefKind::Resource),
            None => false,
        }
    }

    /// Whether a type is one of another package.
    pub fn is_unknown(&self, id: TypeId) -> bool {
        match self.types.get(id.index()) {
            Some(def) => matches!(def.kind, TypeDefKind::Unknown),
            None => false,
        }
    }

    /// What a name of an interface stands for, None where it is no name of it.
    pub fn name_in(&self, id: InterfaceId, name: &str) -> Option<&Named> {
        let names = self.names.get(id.index())?;
        names.get(name)
    }

    /// Puts an interface in the place of one of which the name alone was known.
    pub fn set_interface(&mut self, id: InterfaceId, interface: Interface, names: Names<Named>) {
        let index = id.index();
        if index < self.interfaces.len() {
            self.interfaces.set(index, interface);
        }
        if index < self.names.len() {
            self.names.set(index, names);
        }
    }

    /// Puts a world in the place of one of which the name alone was known.
    pub fn set_world(&mut self, id: WorldId, world: World) {
        let index = id.index();
        if index < self.worlds.len() {
            self.worlds.set(index, world);
        }
    }

    /// The package of this name, with what was made.
    pub fn into_package(self, name: PackageName, span: Span, docs: Docs) -> UnresolvedPackage {
        let Draft {
            worlds,
            interfaces,
            names,
            types,
            roots,
            unnamed,
            foreign_deps,
            foreign_dep_spans,
            unknown_type_spans,
            required_resource_types,
        } = self;
        drop(names);
        drop(roots);
        drop(unnamed);
        UnresolvedPackage {
            name,
            package_name_span: span,
            docs,
            worlds,
            interfaces,
            types,
            foreign_deps,
            foreign_dep_spans,
            unknown_type_spans,
            required_resource_types,
        }
    }
}

/// As the derived one: each field is let go. A call of it costs the check less than a derived one,
/// which is checked again wherever a value is let go.
impl Drop for Draft {
    fn drop(self) {
        let Draft {
            worlds,
            interfaces,
            names,
            types,
            roots,
            unnamed,
            foreign_deps,
            foreign_dep_spans,
            unknown_type_spans,
            required_resource_types,
        } = self;
        drop(worlds);
        drop(interfaces);
        drop(names);
        drop(types);
        drop(roots);
        drop(unnamed);
        drop(foreign_deps);
        drop(foreign_dep_spans);
        drop(unknown_type_spans);
        drop(required_resource_types);
    }
}
