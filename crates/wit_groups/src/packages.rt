//! Packages.

use crate::draft::Draft;
use crate::fault::Fault;
use crate::interfaces::WrittenInterface;
use crate::mentions::mentions_of;
use crate::names::Directory;
use crate::scope::Context;
use crate::written::{Part, Scope, scopes_of};
use std::alloc::Global;
use wit_data::{AstItem, Docs, PackageName, Span, Text, UnresolvedPackage};
use wit_text::syntax::ItemKind;

/// What a package is called, where that stands, and its documentation.
#[derive(Drop)]
pub(crate) struct PackageHead {
    pub name: PackageName,
    pub span: Span,
    pub docs: Docs,
}

/// The package that these parts of files are.
pub(crate) fn make_package(
    alloc: Global,
    head: PackageHead,
    parts: &[Part<'_>],
) -> Result<UnresolvedPackage, Fault> {
    let draft = draft_of(alloc, parts)?;
    let PackageHead { name, span, docs } = head;
    Ok(draft.into_package(name, span, docs))
}

/// What parts of files make of their package.
fn draft_of(alloc: Global, parts: &[Part<'_>]) -> Result<Draft, Fault> {
    let mut draft = Draft::new(alloc);
    let mentions = mentions_of(alloc, parts)?;
    draft.add_foreign(mentions.as_slice())?;
    let scopes = scopes_of(alloc, parts)?;
    let mut directory = Directory::new(alloc, parts, scopes.as_slice())?;
    let order = directory.order(alloc, scopes.as_slice())?;
    directory.check_uses(alloc, parts)?;
    for number in order.iter() {
        if let Some(scope) = scopes.get(*number) {
            let item = draft.begin(scope)?;
            directory.set_item(*number, item);
        }
    }
    draft.add_foreign_types(&directory, mentions.as_slice())?;
    draft.make_interfaces(&directory, scopes.as_slice(), order.as_slice())?;
    draft.make_worlds(&directory, scopes.as_slice(), order.as_slice())?;
    Ok(draft)
}

impl Draft {
    /// Adds an interface or a world of which the name alone is known.
    fn begin(&mut self, scope: &Scope<'_>) -> Result<AstItem, Fault> {
        let name = Text::try_from_str(self.allocator(), scope.name.text(scope.part.source))?;
        match &scope.item.kind {
            ItemKind::Interface(_, _) | ItemKind::Use(_) => {
                let id = self.add_interface(Some(name), scope.name.span)?;
                Ok(AstItem::Interface(id))
            }
            ItemKind::World(_, _) => Ok(AstItem::World(self.add_world(name, scope.name.span)?)),
        }
    }

    /// Makes the interfaces in an order.
    fn make_interfaces<'x>(
        &mut self,
        directory: &'x Directory,
        scopes: &[Scope<'x>],
        order: &[usize],
    ) -> Result<(), Fault> {
        for number in order {
            if let Some(scope) = scopes.get(*number) {
                self.make_interface(directory, *number, scope)?;
            }
        }
        Ok(())
    }

    fn make_interface<'x>(
        &mut self,
        directory: &'x Directory,
        number: usize,
        scope: &Scope<'x>,
    ) -> Result<(), Fault> {
        let ItemKind::Interface(_, statements) = &scope.item.kind else {
            return Ok(());
        };
        let Some(AstItem::Interface(id)) = directory.item_at(number) else {
            return Ok(());
        };
        let written = WrittenInterface {
            gate: &scope.item.gate,
            name: scope.name,
            is_in_place: false,
            statements: statements.as_slice(),
        };
        let context = context_of(self.allocator(), directory, scope);
        context.make_interface(self, *id, &written)
    }

    /// Makes the worlds in an order.
    fn make_worlds<'x>(
        &mut self,
        directory: &'x Directory,
        scopes: &[Scope<'x>],
        order: &[usize],
    ) -> Result<(), Fault> {
        for number in order {
            if let Some(scope) = scopes.get(*number) {
                self.make_world(directory, *number, scope)?;
            }
        }
        Ok(())
    }

    fn make_world<'x>(
        &mut self,
        directory: &'x Directory,
        number: usize,
        scope: &Scope<'x>,
    ) -> Result<(), Fault> {
        let ItemKind::World(_, statements) = &scope.item.kind else {
            return Ok(());
        };
        let Some(AstItem::World(id)) = directory.item_at(number) else {
            return Ok(());
        };
        let context = context_of(self.allocator(), directory, scope);
        let gate = &scope.item.gate;
        context.make_world(self, *id, gate, &scope.name, statements.as_slice())
    }
}

/// Where an interface or a world stands.
fn context_of<'x>(alloc: Global, directory: &'x Directory, scope: &Scope<'x>) -> Context<'x> {
    Context {
        alloc,
        directory,
        file: scope.file,
        part: scope.part,
    }
}
