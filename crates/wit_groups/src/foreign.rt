//! What a package knows of other packages by what its files name of them.

use crate::draft::{Draft, ForeignNames, Named};
use crate::fault::{Fault, NameFault};
use crate::gates::{check_attributes, stability_of};
use crate::mentions::{Mention, MentionKind};
use crate::names::Directory;
use crate::package_names::{bare_span, package_name};
use crate::tables::add_new;
use std::alloc::AllocError;
use wit_data::{
    AstItem, InterfaceId, Items, Names, PackageName, Stability, Text, TryClone, TypeDef,
    TypeDefKind, TypeId, TypeOwner, WorldId,
};
use wit_text::syntax::{PackagePath, Path, Renaming};

impl Draft {
    /// Adds the interfaces and worlds of other packages that are named, and the gates under which they are.
    pub fn add_foreign(&mut self, mentions: &[Mention<'_>]) -> Result<(), Fault> {
        for mention in mentions {
            if let Some(package) = &mention.path.package {
                self.add_foreign_item(mention, package)?;
            }
        }
        Ok(())
    }

    fn add_foreign_item(
        &mut self,
        mention: &Mention<'_>,
        package: &PackagePath,
    ) -> Result<(), Fault> {
        check_attributes(mention.gate, true)?;
        let source = mention.part.source;
        let gate = stability_of(self.allocator(), source, mention.gate)?;
        let name = package_name(self.allocator(), source, package)?;
        let place = match self.foreign_deps.get_index_of(&name) {
            Some(place) => place,
            None => self.add_foreign_package(name, package)?,
        };
        let known = self.foreign_item_at(place, mention.path.name.text(source));
        match known {
            Some(index) => Ok(self.add_gate(place, index, gate)?),
            None => Ok(self.add_new_item(mention, place, gate)?),
        }
    }

    /// Adds a package of which nothing is known. Answers its place.
    fn add_foreign_package(
        &mut self,
        name: PackageName,
        package: &PackagePath,
    ) -> Result<usize, AllocError> {
        let place = self.foreign_deps.len();
        if !self.foreign_deps.contains_key(&name) {
            self.foreign_dep_spans.push(bare_span(package))?;
            let none = Names::new(self.allocator());
            self.foreign_deps.push(name, none)?;
        }
        Ok(place)
    }

    /// Where a name stands among those of the other package at a place.
    fn foreign_item_at(&self, place: usize, name: &str) -> Option<usize> {
        let (_, items) = self.foreign_deps.get_index(place)?;
        items.get_index_of(name)
    }

    /// Adds a gate under which an interface or a world of another package is named.
    fn add_gate(&mut self, place: usize, index: usize, gate: Stability) -> Result<(), AllocError> {
        if place < self.foreign_deps.len() {
            push_gate(self.foreign_deps.value_at_mut(place), index, gate)?;
        }
        Ok(())
    }

    /// Adds an interface or a world of another package, and the gate under which it is named.
    fn add_new_item(
        &mut self,
        mention: &Mention<'_>,
        place: usize,
        gate: Stability,
    ) -> Result<(), AllocError> {
        let item = self.add_foreign_scope(mention)?;
        let mut gates = Items::new(self.allocator());
        gates.push(gate)?;
        let key = String::from_str(
            self.allocator(),
            mention.path.name.text(mention.part.source),
        )?;
        if place < self.foreign_deps.len() {
            add_new(self.foreign_deps.value_at_mut(place), key, (item, gates))?;
        }
        Ok(())
    }

    /// Adds an interface or a world of which the name alone is known.
    fn add_foreign_scope(&mut self, mention: &Mention<'_>) -> Result<AstItem, AllocError> {
        let span = mention.path.name.span;
        let name = Text::try_from_str(
            self.allocator(),
            mention.path.name.text(mention.part.source),
        )?;
        match &mention.kind {
            MentionKind::World => Ok(AstItem::World(self.add_world(name, span)?)),
            MentionKind::Use | MentionKind::Interface => {
                let id = self.add_interface(Some(name), span)?;
                Ok(AstItem::Interface(id))
            }
        }
    }

    /// Adds the types of other packages that are used.
    pub fn add_foreign_types(
        &mut self,
        directory: &Directory,
        mentions: &[Mention<'_>],
    ) -> Result<(), Fault> {
        for mention in mentions {
            if let MentionKind::Use = mention.kind {
                self.add_used_types(directory, mention)?;
            }
        }
        Ok(())
    }

    fn add_used_types(
        &mut self,
        directory: &Directory,
        mention: &Mention<'_>,
    ) -> Result<(), Fault> {
        check_attributes(mention.gate, false)?;
        let source = mention.part.source;
        let id = self.interface_at(directory, mention.file, source, mention.path)?;
        let found = directory.resolved(mention.file, source, mention.path);
        if found.package.is_none() {
            return Ok(());
        }
        let gate = stability_of(self.allocator(), source, mention.gate)?;
        for renaming in mention.names {
            self.add_unknown_type(id, source, renaming, &gate)?;
        }
        Ok(())
    }

    /// Adds a type of an interface of another package, where it isn't there yet.
    fn add_unknown_type(
        &mut self,
        id: InterfaceId,
        source: &str,
        renaming: &Renaming,
        gate: &Stability,
    ) -> Result<(), AllocError> {
        let text = renaming.name.text(source);
        if self.name_in(id, text).is_some() {
            return Ok(());
        }
        let name = Text::try_from_str(self.allocator(), text)?;
        let owner = TypeOwner::Interface(id);
        let stability = gate.try_clone()?;
        let mut def = TypeDef::new(Some(name), TypeDefKind::Unknown, owner);
        def.stability = stability;
        def.span = renaming.name.span;
        let made = self.add_type(def)?;
        self.unknown_type_spans.push(renaming.name.span)?;
        self.name_type(id, text, made)
    }

    /// Gives a type its name in an interface of another package.
    fn name_type(&mut self, id: InterfaceId, name: &str, ty: TypeId) -> Result<(), AllocError> {
        let key = String::from_str(self.allocator(), name)?;
        let index = id.index();
        if index < self.names.len() {
            add_new(self.names.at_mut(index), key, Named::Type_(ty))?;
        }
        let key = String::from_str(self.allocator(), name)?;
        if index < self.interfaces.len() {
            add_new(&mut self.interfaces.at_mut(index).types, key, ty)?;
        }
        Ok(())
    }

    /// The interface that a path of a file names.
    pub fn interface_at(
        &self,
        directory: &Directory,
        file: usize,
        source: &str,
        path: &Path,
    ) -> Result<InterfaceId, Fault> {
        match self.item_at(directory, file, source, path)? {
            AstItem::Interface(id) => Ok(id),
            AstItem::World(_) => {
                let (span, name) = (path.name.span, path.name.text(source));
                Err(Fault::name(self.allocator(), span, NameFault::NotAnInterface, name))
            }
        }
    }

    /// The world that a path of a file names.
    pub fn world_at(
        &self,
        directory: &Directory,
        file: usize,
        source: &str,
        path: &Path,
    ) -> Result<WorldId, Fault> {
        match self.item_at(directory, file, source, path)? {
            AstItem::World(id) => Ok(id),
            AstItem::Interface(_) => {
                let (span, name) = (path.name.span, path.name.text(source));
                Err(Fault::name(self.allocator(), span, NameFault::NotAWorld, name))
            }
        }
    }

    /// The interface or the world that a path of a file names.
    fn item_at(
        &self,
        directory: &Directory,
        file: usize,
        source: &str,
        path: &Path,
    ) -> Result<AstItem, Fault> {
        let found = directory.resolved(file, source, path);
        let name = found.name.text(source);
        let item = match &found.package {
            Some(package) => self.foreign_item(
                &package_name(self.allocator(), source, package)?,
                name,
            ),
            None => directory.item(name),
        };
        match item {
            Some(item) => Ok(item),
            None => {
                let (span, name) = (path.name.span, path.name.text(source));
                Err(Fault::name(self.allocator(), span, NameFault::NoItem, name))
            }
        }
    }

    /// The interface or the world of another package that has this name.
    fn foreign_item(&self, package: &PackageName, name: &str) -> Option<AstItem> {
        let items = self.foreign_deps.get(package)?;
        let (item, _) = items.get(name)?;
        Some(*item)
    }
}

/// Adds a gate to the item at an index.
fn push_gate(items: &mut ForeignNames, index: usize, gate: Stability) -> Result<(), AllocError> {
    if index < items.len() {
        items.value_at_mut(index).1.push(gate)?;
    }
    Ok(())
}
