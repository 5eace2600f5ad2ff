//! What is asked of a package that lines built before it is pushed.
ghost use Rattle.std.specs.Prelude.{◌↔◌, IsTrue};
ghost use Rattle.wit_script_package.specs.steps.Pushable.{IsPushable};

use wit_data::{UnresolvedPackage, is_kebab_name};
use wit_shape::names::{are_interfaces_kebab, are_worlds_kebab};
use wit_shape::worlds::all_include_earlier;

/// Whether the names in a package are kebab names, and each world includes earlier worlds alone, so not
/// itself. A package that lines built has all else of its shape, so where the answer is true it has its
/// whole shape.
pub fn is_pushable(unresolved: &UnresolvedPackage) -> bool
    ensures { IsTrue result ↔ IsPushable unresolved.now }
{
    if !is_kebab_name(unresolved.name.namespace.as_str()) {
        return false;
    }
    if !is_kebab_name(unresolved.name.name.as_str()) {
        return false;
    }
    if !are_interfaces_kebab(unresolved.interfaces.as_slice()) {
        return false;
    }
    if !are_worlds_kebab(unresolved.worlds.as_slice()) {
        return false;
    }
    all_include_earlier(unresolved.worlds.as_slice())
}
