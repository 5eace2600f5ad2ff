//! Spans in source texts, and the files of a source map in one row of positions.
#![tactic(auto)]

mod lined_text;
mod lines;
mod shown;
mod source_map;
mod span;

pub use crate::shown::marked_line;
pub use crate::source_map::{Location, MapFault, SourceFiles, SourceMap, SourceNames};
pub use crate::span::Span;
