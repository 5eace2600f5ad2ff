//! The data of WIT: ids, types, functions, interfaces, worlds and unresolved
//! packages, with the names of wit-parser 0.263.0. A name that a contract can't spell takes a `_`.
#![tactic(auto)]

mod abi;
mod foreign;
mod function;
mod ids;
mod interface;
mod kind;
mod reference;
mod stability;
mod types;
mod unresolved;
mod uses;
pub mod world;

pub use crate::abi::{LiftLowerAbi, ManglingAndAbi};
pub use crate::foreign::{foreign_interfaces, foreign_worlds};
pub use crate::function::{AccessorKind, Function, FunctionKind, Param};
pub use crate::ids::{
    Id, InterfaceId, InterfaceSort, PackageId, PackageSort, TypeId, TypeSort, WorldId, WorldSort,
};
pub use crate::interface::{Interface, is_unnamed};
pub use crate::kind::{
    PartRole, Variant, fixed_length, part_count, part_name, part_role, part_span, part_type,
    plain_step, variant_of,
};
pub use crate::reference::{function_references, places, push_type, referred, type_references};
pub use crate::stability::{Docs, Stability};
pub use crate::types::{
    Case, EnumCase, Field, Flag, Handle, Type_, TypeDef, TypeDefKind, TypeOwner,
};
pub use crate::unresolved::{AstItem, UnresolvedPackage, UnresolvedPackageGroup};
pub use crate::uses::{alias_target, interface_uses, type_interface_dep, uses_of};
pub use crate::world::{IncludeName, World, WorldInclude, WorldItem, WorldKey, item_type};
pub use wit_names::{
    PackageName, ParsedUsePath, TrackRule, UsePathFault, is_kebab_name, parse_use_path,
};
pub use wit_sources::{MapFault, SourceMap, SourceNames, Span};
pub use wit_values::{Items, Names, Table, Text, TryClone, Version};
