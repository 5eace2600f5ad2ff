//! What is asked of a graph of WIT packages, a module for each subject: dependencies, canonical names, what values hold,
//! which world a name means, and the futures and streams of a function. The modules are public, so that a question is
//! named in its module alone.
#![tactic(auto)]

pub mod canonical;
pub mod contents;
pub mod entries;
pub mod futures;
pub mod interface_deps;
pub mod laws;
mod next;
pub mod package_deps;
pub mod selection;
pub mod valid_bits;
mod world_deps;
