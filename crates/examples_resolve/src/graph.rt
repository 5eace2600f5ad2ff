//! Examples of the shape of packages, of positions in sources, of the answers to questions about a graph, of texts, tracks
//! and transformed worlds, and of what adding a package means.

pub mod additions;
pub mod causes;
pub mod faults;
pub mod groups;
pub mod names;
pub mod orders;
pub mod places;
pub mod shape;
pub mod transformations;
pub mod worlds;
