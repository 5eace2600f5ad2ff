//! Graphs as WIT text.
//!
//! Each graph has a text. It reads back as the same graph, but for spans and the numbers of types without names, unless the
//! graph has something that WIT can't say:
//!
//! - a function that reads or writes a property (`[get]`, `[set]`), or a name that is no kebab name;
//! - a function of a type that is no resource of its interface or world, a method whose first parameter isn't `self` with a
//!   borrow of the resource, a constructor that makes anything but the resource or a `result` with it;
//! - a name that stands twice: of parameters, of functions of a resource, of a type and a function;
//! - an enum, flags or a variant without cases, a list of fixed length 0, a map whose key isn't a bool, an integer, a char or
//!   a string, a record, an enum, flags or a variant without a name;
//! - docs or an external id of a `use`; docs with blanks at the end of a line, an empty line at an end or a control character;
//!   an external id with a quote, a backslash or a newline;
//! - an interface in place whose gate isn't that of its entry, or whose entry has docs;
//! - a gate of a later version than its package's, or in a package without a version, as an include can bring it: a push
//!   refuses it.
//!
//! What comes back has an order of its own: in an interface the uses, then the types, each behind those that it names; of
//! functions first those of resources, in the order of these; an interface and a package behind those that they use.
#![tactic(auto)]

mod definitions;
mod functions;
mod headings;
mod interfaces;
pub mod laws;
mod methods;
mod names;
mod packages;
mod printer;
mod types;
mod worlds;

pub use crate::packages::{print_graph, print_package};
