//! Tests of what no clause says of `wit_json`: that calls succeed where memory is ample, and whole texts worked by hand
//! from the layout that `wasm-tools component wit --json` prints.
#![tactic(auto)]

#[cfg(test)]
mod beside;
#[cfg(test)]
mod functions;
#[cfg(test)]
mod packages;
#[cfg(test)]
mod parts;
#[cfg(test)]
mod reading;
#[cfg(test)]
mod types;
#[cfg(test)]
mod worlds;
