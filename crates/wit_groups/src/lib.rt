//! From the files of WIT packages to the groups of unresolved packages that a graph takes.
//!
//! `wit_text` reads what each file says; here the names within a package are looked up, as the first step of wit-parser
//! does: interfaces, worlds and types in any order, `use` of files, interfaces and worlds. What is named of other packages
//! becomes foreign dependencies.
#![tactic(auto)]

mod definitions;
mod draft;
mod fault;
mod fault_text;
mod foreign;
mod functions;
mod gates;
mod groups;
mod interfaces;
mod mentions;
mod names;
mod order;
mod package_names;
mod packages;
mod scope;
mod sources;
mod tables;
mod types;
mod unnamed;
mod worlds;
mod written;

pub use crate::fault::{EntrySide, EntrySort, GroupFault, GroupFaultKind, NameFault, RuleFault};
pub use crate::groups::{Groups, read_group, read_groups};
