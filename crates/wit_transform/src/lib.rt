//! Worlds of a graph that are transformed: exports become imports, or imports become exports. Beside it what each
//! merge takes too: a graph whose worlds have new entries is checked for cycles and elaborated, and in what functions of
//! one name disagree.
#![tactic(auto)]

mod cycles;
mod elaboration;
mod functions;
mod interfaces;
pub mod laws;
mod new_lists;
mod renaming;
mod round;
mod transformations;

pub use crate::elaboration::check_and_elaborate;
pub use crate::functions::function_mismatch;
pub use crate::interfaces::interface_mismatch;
pub use crate::transformations::{
    exportize, exportize_answered_with, exportize_with, importize, importize_with,
};
