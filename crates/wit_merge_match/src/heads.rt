//! How two kinds differ, but for their parts.
ghost use Rattle.std.specs.Prelude.{◌≡◌, IfNone, IfSome};
ghost use Rattle.wit_merge_match.specs.steps.Kinds.{HeadsDiffer, ending_text};
ghost use Rattle.wit_merge_spec.specs.Structure.{head_features};

use crate::kinds::have_same_parts;
use wit_data::{TypeDefKind, fixed_length, variant_of};

/// How two types differ where they first do.
#[derive(Clone, Copy)]
pub(crate) enum Ending {
    Kinds,
    Names,
    Lengths,
    Types,
}

impl Ending {
    /// What a message says of it.
    pub(crate) fn text(self) -> &'static str
        ensures { result.now ≡ ending_text self }
    {
        match self {
            Ending::Kinds => "different kinds of types",
            Ending::Names => "different names or number of parts",
            Ending::Lengths => "different lengths",
            Ending::Types => "different types",
        }
    }
}

/// How two kinds first differ in their variants, in the names and the number of their parts, or in their lengths.
pub(crate) fn head_difference(from: &TypeDefKind, into: &TypeDefKind) -> Option<Ending>
    ensures some { IfSome result (HeadsDiffer from.now into.now) }
    ensures none { IfNone result (head_features from.now ≡ head_features into.now) }
{
    if variant_of(from) != variant_of(into) {
        return Some(Ending::Kinds);
    }
    if !have_same_parts(from, into) {
        return Some(Ending::Names);
    }
    if fixed_length(from) != fixed_length(into) {
        return Some(Ending::Lengths);
    }
    None
}
