//! What a package that is added needs to find: which of its things its gates leave in, whether anything active needs what
//! is left out, what it names of other packages, found in the graph, and where its own things go.
#![tactic(auto)]

mod active_parts;
mod checker;
mod foreign;
mod lookup;
mod needs;
mod new_ids;
mod packages;
mod references;
mod refusal;
mod types;
mod versions;

pub use crate::active_parts::activity;
pub use crate::lookup::new_ids_of;
pub use crate::references::check_references;
pub use crate::versions::check_versions;
