//! The `Resolve` of wit-parser 0.263.0: a graph of WIT packages that stays valid whatever is done with it, with its
//! features and its sources, and commands on it.
//!
//! A [`Resolve`] takes packages as a reader of WIT makes them ([`UnresolvedPackage`], or a group of them with its
//! files), adds them with all names looked up, transforms its worlds, takes another `Resolve` in, merges the imports of
//! a world by SemVer, and answers questions. A call that is refused answers a [`ResolveError`] with its number and
//! fields, and leaves everything but the source map as it was. [`run`] does a list of commands.
//!
//! All that such a program names is here, so one `use` line serves:
//!
//! ```text
//! use wit_resolve_graph::{Resolve, ResolveResult, Shape, UnresolvedPackageGroup, WorldId};
//!
//! let mut resolve = Resolve::new(alloc);
//! let package = resolve.push_group(alloc, group)?;
//! let world = resolve.select_world(alloc, &[package], None)?;
//! ```
#![tactic(auto)]

mod command;
mod core_names;
mod groups;
mod kept;
pub mod laws;
mod lookup;
mod merged_imports;
mod merging;
mod package_sources;
mod push_source;
mod queries;
mod resolve;
mod source_names;
mod sources;
mod transformations;

pub use crate::command::{Command, Reply, carry_out, command_of, run};
pub use crate::package_sources::{PackageSourceNames, PackageSources};
pub use crate::resolve::Resolve;
pub use crate::sources::{ParseFault, SourceFault};
pub use wit_commands::Change;
pub use wit_graph::{
    Cause, Features, FutureIntrinsic, Graph, GraphClause, GraphFault, GraphPlace, GraphQueries,
    InterfaceDirectDeps, NameSet, Package, PackageDirectDeps, ResolveError, ResolveErrorKind,
    ResolveResult, ResourceIntrinsic, StreamIntrinsic, WasmExport, WasmExportKind, WasmImport,
    find_graph_fault, is_valid,
};
pub use wit_items::{
    AccessorKind, AstItem, Case, Docs, EnumCase, Field, Flag, Function, FunctionKind, Handle,
    IncludeName, Interface, InterfaceId, Items, LiftLowerAbi, ManglingAndAbi, MapFault, Names,
    PackageId, PackageName, Param, Shape, ShapeClause, ShapeFault, ShapePlace, SourceMap, Span,
    Stability, Table, Text, TrackRule, TryClone, Type_, TypeDef, TypeDefKind, TypeId, TypeOwner,
    UnresolvedPackage, UnresolvedPackageGroup, Version, World, WorldId, WorldInclude, WorldItem,
    WorldKey, find_shape_fault,
};
pub use wit_remap::Remap;
