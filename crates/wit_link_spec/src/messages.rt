//! What is said of what is left out.
ghost use Rattle.std.specs.Prelude.{◌≡◌, IfOk, string_bytes};
ghost use Rattle.wit_link_spec.specs.CauseText.{excluded_text, excluded_owner_text};

use std::alloc::{AllocError, Global};

/// 11: something refers to what is left out; `sort` is `type`, `interface` or `world`. The only
/// error is want of memory.
///
/// Source: `map_type`, `map_interface` and `map_world` of wit-parser 0.263.0.
pub fn excluded_message(alloc: Global, sort: &str) -> Result<String, AllocError>
    ensures { IfOk result (λ message. string_bytes message ≡ excluded_text sort.now) }
{
    format!(in alloc;
        "found a reference to a {sort} which is excluded due to its feature not being activated"
    )
}

/// 12: a type is active, but its owner is left out; `sort` is `interface` or `world`. The only
/// error is want of memory.
///
/// Source: `map_interface_for_type` and `map_world_for_type` of wit-parser 0.263.0.
pub fn excluded_owner_message(alloc: Global, sort: &str) -> Result<String, AllocError>
    ensures { IfOk result (λ message. string_bytes message ≡ excluded_owner_text sort.now) }
{
    let excluded = excluded_message(alloc, sort)?;
    format!(in alloc; "{excluded}; this type is not gated by a feature but its {sort} is")
}
