//! What files say of a package, as the steps that make it read it.

use std::alloc::{AllocError, Global};
use wit_data::Items;
use wit_text::syntax::{
    Definition, DefinitionKind, Gate, InterfaceStatement, InterfaceStatementKind, Item, ItemKind,
    Piece, TypeNode, UseNames, WorldStatement, WorldStatementKind,
};

/// What a file says of a package: its items, the types that these have, and the text of all.
#[derive(Clone, Copy)]
pub(crate) struct Part<'a> {
    pub source: &'a str,
    pub types: &'a [TypeNode],
    pub items: &'a [Item],
}

/// An interface or a world of a file, which has this number among the files of the package.
#[derive(Clone, Copy)]
pub(crate) struct Scope<'a> {
    pub file: usize,
    pub part: Part<'a>,
    pub name: Piece,
    pub item: &'a Item,
}

/// The interfaces and worlds of a package, in the order of its files. The only error is want of memory.
pub(crate) fn scopes_of<'a>(
    alloc: Global,
    parts: &[Part<'a>],
) -> Result<Items<Scope<'a>>, AllocError> {
    let mut scopes = Items::new(alloc);
    for (file, part) in parts.iter().enumerate() {
        add_scopes(&mut scopes, file, *part)?;
    }
    Ok(scopes)
}

fn add_scopes<'a>(
    scopes: &mut Items<Scope<'a>>,
    file: usize,
    part: Part<'a>,
) -> Result<(), AllocError> {
    for item in part.items {
        if let Some(scope) = scope_of(file, part, item) {
            scopes.push(scope)?;
        }
    }
    Ok(())
}

/// The interface or the world that an item is.
fn scope_of<'a>(file: usize, part: Part<'a>, item: &'a Item) -> Option<Scope<'a>> {
    match &item.kind {
        ItemKind::Interface(name, _) | ItemKind::World(name, _) => Some(Scope {
            file,
            part,
            name: *name,
            item,
        }),
        ItemKind::Use(_) => None,
    }
}

/// A statement that gives types names.
#[derive(Clone, Copy)]
pub(crate) enum TypeStatement<'a> {
    Use(&'a Gate, &'a UseNames),
    Define(&'a Gate, &'a Definition),
}

/// The statements of an interface that give types names. The only error is want of memory.
pub(crate) fn interface_types<'a>(
    alloc: Global,
    statements: &'a [InterfaceStatement],
) -> Result<Items<TypeStatement<'a>>, AllocError> {
    let mut found = Items::new(alloc);
    for statement in statements {
        match &statement.kind {
            InterfaceStatementKind::Use(used) => {
                found.push(TypeStatement::Use(&statement.gate, used))?;
            }
            InterfaceStatementKind::Define(definition) => {
                found.push(TypeStatement::Define(&statement.gate, definition))?;
            }
            InterfaceStatementKind::Function(_, _) => {}
        }
    }
    Ok(found)
}

/// The statements of a world that give types names. The only error is want of memory.
pub(crate) fn world_types<'a>(
    alloc: Global,
    statements: &'a [WorldStatement],
) -> Result<Items<TypeStatement<'a>>, AllocError> {
    let mut found = Items::new(alloc);
    for statement in statements {
        match &statement.kind {
            WorldStatementKind::Use(used) => {
                found.push(TypeStatement::Use(&statement.gate, used))?;
            }
            WorldStatementKind::Define(definition) => {
                found.push(TypeStatement::Define(&statement.gate, definition))?;
            }
            WorldStatementKind::Import(_)
            | WorldStatementKind::Export(_)
            | WorldStatementKind::Include(_) => {}
        }
    }
    Ok(found)
}
