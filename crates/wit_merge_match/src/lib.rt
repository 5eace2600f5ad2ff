//! What of an incoming graph is in a graph already, and what holds against making the two one: which of their things
//! a merge makes one, where all of them go, what is matched and differs, types by their structure, stabilities that
//! can't be joined, and spans that would pass the last position.
#![tactic(auto)]

mod classes;
mod comparison;
mod entries;
mod frames;
mod heads;
mod kinds;
mod leaving;
mod matched_graphs;
mod matches;
mod merge_ids;
mod messages;
mod mismatch;
mod spans;
mod stabilities;
mod structures;
mod tables;
mod types;
mod world_labels;

pub use crate::leaving::leaves_graph;
pub use crate::matches::{Matches, find_matches};
pub use crate::merge_ids::{MergeIds, find_ids};
pub use crate::mismatch::find_mismatch;
pub use crate::spans::spans_fit;
pub use crate::stabilities::{StabilityPair, find_stability_mismatch};
