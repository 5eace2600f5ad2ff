//! Relations between numbered things, as adjacency lists: post-orders and cycles.
//!
//! Interfaces, types, packages and the packages of a group all use one another; each such relation
//! is a list of adjacency lists, list i being what thing i uses, in order and with repeats. What the
//! layers above ask of any of them is here once: the order in which each stands after all that it
//! uses, and whether some thing comes back to itself. Marks of things are rows of bits.
#![tactic(auto)]

mod arrange;
mod cycle;
mod frame;
pub mod laws;
mod post_order;
mod relation;
mod row;

pub use crate::arrange::in_order;
pub use crate::cycle::{CycleUse, find_cycle, is_acyclic};
pub use crate::post_order::{Listing, post_order_of_roots};
pub use crate::relation::{direct_uses, is_in_range};
pub use crate::row::{has_bit, set_bit};
