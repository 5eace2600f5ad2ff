//! The data of WIT: ids, names, types, functions, interfaces, worlds, unresolved packages, source maps and use paths.
//!
//! The names are those of wit-parser 0.263.0; a name that a contract can't spell takes a `_`, as [`Type_`]. All of it
//! is plain data: structs and enums with public fields, over [`Text`] (a `String`), [`Items`] (a `Vec`), [`Names`] (an
//! `IndexMap<String, _>`), [`Table`] (an `IndexMap`) and [`Version`] (a `semver::Version`), each of which is made from
//! its std type and gives it back. Texts and lists do so without memory. A version lies on the heap, so it is made with
//! memory; a table of few pairs keeps a list, so it may take memory to be made of an `IndexMap` or to become one.
//!
//! A reader of WIT makes an [`UnresolvedPackage`] or an [`UnresolvedPackageGroup`]. The calls that add one to a graph
//! ask that it has its shape, which [`Shape::is_shaped`] tells:
//!
//! ```text
//! use wit_items::{Shape, UnresolvedPackageGroup};
//!
//! fn check(alloc: Global, group: &UnresolvedPackageGroup) -> Result<bool, AllocError> {
//!     group.is_shaped(alloc)
//! }
//! ```
//!
//! Of a package that lacks it, [`find_shape_fault`] tells the first clause of the shape that it breaks, and where.
#![tactic(auto)]

pub mod laws;
mod shape;

pub use crate::shape::Shape;
pub use wit_data::{
    AccessorKind, AstItem, Case, Docs, EnumCase, Field, Flag, Function, FunctionKind, Handle, Id,
    IncludeName, Interface, InterfaceId, InterfaceSort, Items, LiftLowerAbi, ManglingAndAbi,
    MapFault, Names, PackageId, PackageName, PackageSort, Param, ParsedUsePath, SourceMap,
    SourceNames, Span, Stability, Table, Text, TrackRule, TryClone, Type_, TypeDef, TypeDefKind,
    TypeId, TypeOwner, TypeSort, UnresolvedPackage, UnresolvedPackageGroup, UsePathFault, Version,
    World, WorldId, WorldInclude, WorldItem, WorldKey, WorldSort, is_kebab_name, parse_use_path,
};
pub use wit_shape::{ShapeClause, ShapeFault, ShapePlace, find_shape_fault};
