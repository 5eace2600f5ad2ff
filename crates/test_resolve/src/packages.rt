//! Tests of a `Resolve` with packages built by hand, which say what no script can: interfaces without names,
//! flags, variants, enums, docs, external ids, deprecations, unknown spans, functions of each kind. What the graph
//! then holds, and what a refusal tells, is compared with what the rules say, worked by hand.

mod again;
mod appending;
mod bare;
mod calls;
mod cycles;
mod ends;
mod files;
mod functions;
mod gate_refusals;
mod gates;
mod groups;
mod including;
mod inline;
mod kinds;
mod ladder;
mod merging;
mod merging_laws;
mod parts;
mod refusals;
mod runs;
mod scripts;
mod shown;
mod taken_back;
mod told;
mod transformations;
mod upgrading;
