//! Whether groups of unresolved packages have their shape, which every reader of WIT brings.
ghost use Rattle.std.specs.Prelude.{◌↔◌, IfOk, IsTrue};
ghost use Rattle.wit_data.specs.Each.{Each};
ghost use Rattle.wit_data.specs.Shape.{IsGroupShaped, IsShaped};

use crate::search::is_shaped;
use std::alloc::{AllocError, Global};
use wit_data::{UnresolvedPackage, UnresolvedPackageGroup};

/// Whether the main package and each nested one have their shape. The only error is want of memory.
pub fn is_group_shaped(alloc: Global, group: &UnresolvedPackageGroup) -> Result<bool, AllocError>
    ensures { IfOk result (λ shaped. IsTrue shaped ↔ IsGroupShaped group.now) }
{
    if !is_shaped(alloc, &group.main)? {
        return Ok(false);
    }
    are_shaped(alloc, group.nested.as_slice())
}

fn are_shaped(alloc: Global, packages: &[UnresolvedPackage]) -> Result<bool, AllocError>
    ensures { IfOk result (λ shaped. IsTrue shaped ↔ Each IsShaped packages.now) }
{
    for package in packages {
        if !is_shaped(alloc, package)? {
            return Ok(false);
        }
    }
    Ok(true)
}
