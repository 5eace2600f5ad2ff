//! Tests of the crates that users see, which alone they name: calls with ample memory, whose answers are compared. Core
//! names and `append_all` are called by the other crates of tests, `add_valid_bits` by each push.
#![tactic(auto)]

#[cfg(test)]
mod fixtures;
#[cfg(test)]
mod graph;
#[cfg(test)]
mod items;
#[cfg(test)]
mod laws;
#[cfg(test)]
mod link;
#[cfg(test)]
mod resolve;
#[cfg(test)]
mod unite;
