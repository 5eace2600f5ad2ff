//! Tests of bare graphs, of the crates up to `wit_graph` and of those beside it, with values worked outside.

mod comparing;
mod copies;
mod core_names;
mod elaboration;
mod errors;
mod matches;
mod names;
mod places;
mod rows;
mod shape;
mod structures;
mod validity;
mod values;
mod walks;
mod worlds;
