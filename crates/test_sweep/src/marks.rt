//! The lines between which a call is made, and what is told of its answer.
//!
//! A line `call NAME` comes before a call that takes memory, and a line `answer ..` after it: between them
//! `check/sweep.py` refuses requests for memory. `bare NAME` comes before a call that takes none: there it refuses each.
//! Nothing of this is seen where nobody refuses.
ghost use Rattle.std.specs.Prelude.{◌≡◌, IfSome};

use std::alloc::AllocError;
use std::fmt;
use wit_graph::{ResolveError, ResolveResult};
use wit_items::TryClone;

/// Before a call that takes memory. A line that can't be printed is missed by whoever reads what is printed.
pub fn call(rt: &impl Print, name: &str) {
    let _printed = println!(rt; "call {name}");
}

/// Before a call that takes no memory.
pub fn bare(rt: &impl Print, name: &str) {
    let _printed = println!(rt; "bare {name}");
}

/// After a call: what it answered.
pub fn tell<T: fmt::Debug + Drop>(rt: &impl Print, answer: ResolveResult<T>) -> Option<()> {
    match answer {
        Ok(value) => println!(rt; "answer {value:?}").ok(),
        Err(refusal) => tell_refusal(rt, &refusal),
    }
}

/// The number and the text of a refusal.
pub fn tell_refusal(rt: &impl Print, refusal: &ResolveError) -> Option<()> {
    let number = refusal.number();
    println!(rt; "answer refused {number} {refusal}").ok()
}

/// After a call whose only error is want of memory.
pub fn tell_made<T: fmt::Debug + Drop>(
    rt: &impl Print,
    answer: Result<T, AllocError>,
) -> Option<()> {
    tell(rt, refusing(answer))
}

/// Want of memory as a refusal.
fn refusing<T: Drop>(answer: Result<T, AllocError>) -> ResolveResult<T> {
    Ok(answer?)
}

/// An answer without its value, which is let go.
pub fn done<T: Drop>(answer: ResolveResult<T>) -> ResolveResult<()> {
    match answer {
        Ok(_) => Ok(()),
        Err(refusal) => Err(refusal),
    }
}

/// The call that copies a value.
pub fn copied<T: TryClone>(rt: &impl Print, name: &str, value: &T) -> Option<()> {
    call(rt, name);
    tell(rt, done(refusing(value.try_clone())))
}

/// A copy of a value for a call that changes it or takes it.
pub fn copy_of<T: TryClone>(value: &T) -> Option<T>
    ensures { IfSome result (λ copy. copy ≡ value.now) }
{
    value.try_clone().ok()
}
