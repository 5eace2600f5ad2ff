//! Tests of where packages lack their shape: each clause is broken once, and told at the thing that breaks it.

mod breaking;
mod faults;
mod parts;
