//! Worlds that include others: each include copies what goes with the included world to the ends of the graph and
//! joins its entries, one include after another, and then the world is finished.
//!
//! Labels that are taken, stabilities that disagree and renamings of no label are refused, and so are labels that are
//! not strongly unique and setters without getters. Setters go after their getters, and the world is elaborated.
#![tactic(auto)]

mod adding;
mod belonging;
mod copies;
mod finishing;
mod fresh_copies;
mod including;
mod joining;
mod labels;
mod leading;
mod mentions;
mod numbering;
mod origin;
mod renaming;
mod stabilities;

pub use crate::adding::add_world;
pub use crate::including::include;
