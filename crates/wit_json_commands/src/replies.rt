//! What is answered to the commands of a document, and how it is written.

mod answers;
mod core_names;
mod documents;
mod error_fields;
mod file_places;
mod mismatches;
mod nearest;
mod places;
mod refusals;
mod remaps;
mod rendered;
mod unshaped;

pub use answers::{Answer, Refusal, Response};
pub use core_names::{CoreExport, CoreImport, CoreNames};
pub use documents::{fault_to_json, output_to_json};
pub use file_places::FilePlace;
pub use nearest::nearest_known;
pub use refusals::{WayStep, refused};
pub use unshaped::Unshaped;
