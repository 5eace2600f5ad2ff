//! Tests of what no clause says: that calls succeed where memory is ample, and whole answers worked by hand. What a
//! script shows is a case of `test_cases`.
//!
//! A test costs the proof little as long as it keeps to one form: what owns memory lives in one helper, which
//! takes `.expect(rt, "memory")` for `?` and answers numbers or a text; the test compares.
#![tactic(auto)]

#[cfg(test)]
mod calls;
#[cfg(test)]
mod fixtures;
#[cfg(test)]
mod graph;
#[cfg(test)]
mod packages;
#[cfg(test)]
mod shape;
