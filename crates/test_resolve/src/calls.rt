//! Tests of the calls of a `Resolve`, of readers and writers that fail, and of what the calls for other languages tell.

mod core_names;
mod failing_streams;
mod fixtures;
mod from_c;
mod queries;
mod refusals;
mod resolve;
mod selecting;
mod sources;
mod transformations;
