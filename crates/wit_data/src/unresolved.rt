//! Packages as a reader of WIT hands them in: the names of other packages are not looked up yet.
ghost use Rattle.std.specs.Prelude.{◌≡◌};

use crate::ids::{InterfaceId, TypeId, WorldId};
use crate::interface::Interface;
use crate::stability::{Docs, Stability};
use crate::types::TypeDef;
use crate::world::World;
use std::alloc::AllocError;
use wit_names::PackageName;
use wit_sources::{SourceMap, Span};
use wit_values::{Items, Names, Table, TryClone, try_clone_four, try_clone_three, try_clone_two};

/// An interface or a world of an unresolved package.
///
/// Source: `AstItem` of wit-parser 0.263.0.
#[derive(Clone, Copy)]
pub enum AstItem {
    Interface(InterfaceId),
    World(WorldId),
}

impl TryClone for AstItem {
    fn try_clone(&self) -> Result<AstItem, AllocError> {
        Ok(*self)
    }
}

/// A package before its foreign names are looked up. Its ids are indices in its own lists.
///
/// Source: `UnresolvedPackage` of wit-parser 0.263.0.
pub struct UnresolvedPackage {
    pub name: PackageName,
    pub package_name_span: Span,
    pub docs: Docs,
    /// The foreign worlds, then the worlds of the package.
    pub worlds: Items<World>,
    /// The foreign interfaces, then the interfaces of the package.
    pub interfaces: Items<Interface>,
    /// The types of foreign interfaces, of kind `Unknown`, then the types of the package.
    pub types: Items<TypeDef>,
    /// What is named of other packages: under each package its interfaces and worlds by name, each
    /// with the gates under which it is named.
    pub foreign_deps: Table<PackageName, Names<(AstItem, Items<Stability>)>>,
    /// One span for each package of `foreign_deps`.
    pub foreign_dep_spans: Items<Span>,
    /// One span for each type of kind `Unknown`.
    pub unknown_type_spans: Items<Span>,
    /// Types that have to be resources, and where they have to be.
    pub required_resource_types: Items<(TypeId, Span)>,
}

/// As the derived one: each field is let go. A call of it costs the check less than a derived one,
/// which is checked again wherever a value is let go.
impl Drop for UnresolvedPackage {
    fn drop(self) {
        let UnresolvedPackage {
            name,
            docs,
            worlds,
            interfaces,
            types,
            foreign_deps,
            foreign_dep_spans,
            unknown_type_spans,
            required_resource_types,
            package_name_span: _,
        } = self;
        drop(name);
        drop(docs);
        drop(worlds);
        drop(interfaces);
        drop(types);
        drop(foreign_deps);
        drop(foreign_dep_spans);
        drop(unknown_type_spans);
        drop(required_resource_types);
    }
}

impl UnresolvedPackage {
    /// Its name alone.
    pub fn into_name(self) -> PackageName
        ensures { result ≡ self.name }
    {
        let UnresolvedPackage {
            name,
            docs: _,
            worlds: _,
            interfaces: _,
            types: _,
            foreign_deps: _,
            foreign_dep_spans: _,
            unknown_type_spans: _,
            required_resource_types: _,
            package_name_span: _,
        } = self;
        name
    }
}

impl TryClone for UnresolvedPackage {
    fn try_clone(&self) -> Result<UnresolvedPackage, AllocError> {
        let (name, docs) = try_clone_two(&self.name, &self.docs)?;
        let (worlds, interfaces, types) = try_clone_three(
            &self.worlds,
            &self.interfaces,
            &self.types,
        )?;
        let (foreign_deps, foreign_dep_spans, unknown_type_spans, required_resource_types) =
            try_clone_four(
                &self.foreign_deps,
                &self.foreign_dep_spans,
                &self.unknown_type_spans,
                &self.required_resource_types,
            )?;
        Ok(UnresolvedPackage {
            name,
            package_name_span: self.package_name_span,
            docs,
            worlds,
            interfaces,
            types,
            foreign_deps,
            foreign_dep_spans,
            unknown_type_spans,
            required_resource_types,
        })
    }
}

/// The packages of one reading: the main one, those that are nested in its files, and the files.
///
/// Source: `UnresolvedPackageGroup` of wit-parser 0.263.0.
#[derive(Drop)]
pub struct UnresolvedPackageGroup {
    pub main: UnresolvedPackage,
    pub nested: Items<UnresolvedPackage>,
    /// The files. The spans of the packages are positions in it.
    pub source_map: SourceMap,
}

impl TryClone for UnresolvedPackageGroup {
    fn try_clone(&self) -> Result<UnresolvedPackageGroup, AllocError> {
        let (main, nested, source_map) = try_clone_three(
            &self.main,
            &self.nested,
            &self.source_map,
        )?;
        Ok(UnresolvedPackageGroup {
            main,
            nested,
            source_map,
        })
    }
}
