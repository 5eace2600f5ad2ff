//! Whether the spans of a package can be moved.
ghost use Rattle.std.specs.Prelude.{◌↔◌, IsTrue};
ghost use Rattle.wit_data.specs.Each.{Each};
ghost use Rattle.wit_link.specs.steps.Checked.{ForeignFits, PackageFits, RequiredFits};

use wit_data::{Span, TypeId, UnresolvedPackage};
use wit_remap::{all_fit, fits, parts_fit};

/// Whether no span of a package passes the last position when it is moved by an offset.
pub(crate) fn spans_fit(unresolved: &UnresolvedPackage, offset: u32) -> bool
    ensures { IsTrue result ↔ PackageFits offset unresolved.now }
{
    if !fits(unresolved.package_name_span, offset) {
        return false;
    }
    if !foreign_spans_fit(unresolved, offset) {
        return false;
    }
    let types = unresolved.types.as_slice();
    let interfaces = unresolved.interfaces.as_slice();
    parts_fit(types, interfaces, unresolved.worlds.as_slice(), offset)
}

/// Whether the spans of what a package names of others fit.
fn foreign_spans_fit(unresolved: &UnresolvedPackage, offset: u32) -> bool
    ensures { IsTrue result ↔ ForeignFits offset unresolved.now }
{
    all_fit(unresolved.foreign_dep_spans.as_slice(), offset)
        && all_fit(unresolved.unknown_type_spans.as_slice(), offset)
        && required_fit(unresolved.required_resource_types.as_slice(), offset)
}

fn required_fit(required: &[(TypeId, Span)], offset: u32) -> bool
    ensures { IsTrue result ↔ Each (RequiredFits offset) required.now }
{
    for item in required {
        if !fits(item.1, offset) {
            return false;
        }
    }
    true
}
