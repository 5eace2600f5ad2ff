//! Two graphs made one.
#![tactic(auto)]

mod agreement;
mod appending;
mod coming;
mod counterparts;
mod functions;
mod interfaces;
mod joined;
mod merge_plan;
mod names;
mod owning;
mod packages;
mod parts;
mod results;
mod stabilities;
mod types;
mod whole;
mod worlds;

pub use crate::whole::{MergedGraph, agreed_matches, append_merge, merge, merged_by, merged_copy};
