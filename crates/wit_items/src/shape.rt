//! Whether what is unresolved has its shape, as a method.
ghost use Rattle.std.specs.Prelude.{◌≡◌, ◌↔◌, IfOk, IsTrue};
ghost use Rattle.wit_data.specs.Shape.{IsGroupShaped, IsShaped};

use std::alloc::{AllocError, Global};
use wit_data::{UnresolvedPackage, UnresolvedPackageGroup};
use wit_shape::{is_group_shaped, is_shaped};

/// What has a shape that the calls which add it ask for.
pub trait Shape {
    ghost HasShape: { Self → Type 0 };

    /// Whether it has its shape: ids are in range and stand where they may, names are kebab names and stand once,
    /// nothing refers to itself. The only error is want of memory.
    fn is_shaped(&self, alloc: Global) -> Result<bool, AllocError>
        ensures { IfOk result (λ shaped. IsTrue shaped ↔ HasShape self.now) };
}

impl Shape for UnresolvedPackage {
    ghost HasShape = { IsShaped };

    fn is_shaped(&self, alloc: Global) -> Result<bool, AllocError> {
        is_shaped(alloc, self)
    }
}

/// A group has its shape where its main and nested packages have theirs.
impl Shape for UnresolvedPackageGroup {
    ghost HasShape = { IsGroupShaped };

    fn is_shaped(&self, alloc: Global) -> Result<bool, AllocError> {
        is_group_shaped(alloc, self)
    }
}
