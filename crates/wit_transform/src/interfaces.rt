//! Which function of an interface disagrees with the one of its name in another interface.
ghost use Rattle.std.specs.Prelude.{IfNone, IfOk, IfSome, List, ℕ, string_bytes};
ghost use Rattle.wit_remap_spec.specs.FunctionMismatch.{HaveFunctionMismatch};
ghost use Rattle.wit_transform.specs.steps.Agreeing.{AgreesIn, DisagreesIn};

use crate::functions::function_mismatch;
use std::alloc::{AllocError, Global};
use wit_data::{Function, Interface};

/// What a function disagrees in with the one of its name in an interface, told with that name. None where
/// they agree, or there is no such function.
fn named_mismatch(
    alloc: Global,
    name: &str,
    function: &Function,
    into: &Interface,
) -> Result<Option<String>, AllocError>
    ensures some { IfOk result (λ found.
        IfSome found (λ text. DisagreesIn into.now name.now function.now (string_bytes text))) }
    ensures none { IfOk result (λ found. IfNone found (AgreesIn into.now name.now function.now)) }
{
    into.functions.keys_differ();
    let Some(other) = into.functions.get(name) else {
        return Ok(None);
    };
    match function_mismatch(alloc, function, other)? {
        Some(text) => Ok(Some(format!(in alloc; "mismatch in function `{name}`: {text}")?)),
        None => Ok(None),
    }
}

/// A function of an interface that disagrees with the one of its name in another, with what it disagrees in; of several
/// any may be told. None where all agree that have one. The only error is want of memory.
///
/// Source: `build_interface` of wit-parser 0.263.0.
pub fn interface_mismatch(
    alloc: Global,
    from: &Interface,
    into: &Interface,
) -> Result<Option<String>, AllocError>
    ensures some { IfOk result (λ found.
        IfSome found (λ text. HaveFunctionMismatch from.now into.now (string_bytes text))) }
    ensures none { IfOk result (λ found.
        IfNone found ((text : List ℕ) → HaveFunctionMismatch from.now into.now text → ⊥)) }
{
    for (name, function) in from.functions.iter() {
        if let Some(text) = named_mismatch(alloc, name, function, into)? {
            return Ok(Some(text));
        }
    }
    Ok(None)
}
