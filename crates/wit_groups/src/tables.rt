//! Tables under names.

use std::alloc::AllocError;
use wit_data::Names;

/// Adds a value under a name where the name isn't there. The only error is want of memory.
pub(crate) fn add_new<V: Drop>(
    names: &mut Names<V>,
    name: String,
    value: V,
) -> Result<(), AllocError> {
    if names.contains_key(name.as_str()) {
        return Ok(());
    }
    names.push(name, value)
}
