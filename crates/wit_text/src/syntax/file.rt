//! Files and packages.

use crate::comments::Comments;
use crate::syntax::gate::Gate;
use crate::syntax::path::{PackagePath, Path, Piece};
use crate::syntax::statement::{InterfaceStatement, WorldStatement};
use crate::syntax::types::TypeNode;
use wit_sources::Span;
use wit_values::Items;

/// A `use` of a file, which gives a path a name there: its last name where there is no `as`. The
/// place is that of its word.
#[derive(Clone, Copy)]
pub struct TopUse {
    pub path: Path,
    pub name: Piece,
    pub span: Span,
}

/// What an item of a package is.
#[derive(Drop)]
pub enum ItemKind {
    Interface(Piece, Items<InterfaceStatement>),
    World(Piece, Items<WorldStatement>),
    Use(TopUse),
}

/// An item of a package.
pub struct Item {
    pub gate: Gate,
    pub kind: ItemKind,
}

/// As the derived one: each field is let go. A call of it costs the check less than a derived one,
/// which is checked again wherever a value is let go.
impl Drop for Item {
    fn drop(self) {
        let Item { gate, kind } = self;
        drop(gate);
        drop(kind);
    }
}

/// The line of a file that says which package it is of, and the comments before it.
#[derive(Clone, Copy)]
pub struct Header {
    pub docs: Option<Comments>,
    pub name: PackagePath,
}

/// A package in braces. Packages in its braces, in any depth, aren't allowed: of these it has the
/// names alone, in the order in which they begin.
pub struct NestedPackage {
    pub docs: Option<Comments>,
    pub name: PackagePath,
    pub inner: Items<PackagePath>,
    pub items: Items<Item>,
}

/// As the derived one: each field is let go. A call of it costs the check less than a derived one,
/// which is checked again wherever a value is let go.
impl Drop for NestedPackage {
    fn drop(self) {
        let NestedPackage {
            inner,
            items,
            docs: _,
            name: _,
        } = self;
        drop(inner);
        drop(items);
    }
}

/// What a file says: its header, the packages in braces, the items outside of these, and the types
/// that all of them have.
pub struct File {
    pub header: Option<Header>,
    pub packages: Items<NestedPackage>,
    pub items: Items<Item>,
    pub types: Items<TypeNode>,
}

/// As the derived one: each field is let go. A call of it costs the check less than a derived one,
/// which is checked again wherever a value is let go.
impl Drop for File {
    fn drop(self) {
        let File {
            packages,
            items,
            types,
            header: _,
        } = self;
        drop(packages);
        drop(items);
        drop(types);
    }
}
