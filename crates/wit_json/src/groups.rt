//! Groups of unresolved packages.
ghost use Rattle.std.specs.Prelude.{◌≡◌, IfOk, string_bytes};
ghost use Rattle.wit_json.specs.Graph.{compact};
ghost use Rattle.wit_json.specs.Groups.{json_of_group};

use crate::writer::{JsonText, WriteJson, text_of};
use std::alloc::{AllocError, Global};
use wit_data::UnresolvedPackageGroup;

impl WriteJson for UnresolvedPackageGroup {
    ghost json = { json_of_group };

    fn write_json(&self, out: &mut JsonText) -> Result<(), AllocError> {
        out.begin_object()?;
        out.member("main", &self.main)?;
        out.member("nested", &self.nested)?;
        out.member("sources", &self.source_map)?;
        out.end_object()
    }
}

/// A group of unresolved packages with its files as JSON, without a space. The only error is want of memory.
pub fn group_to_json(alloc: Global, group: &UnresolvedPackageGroup) -> Result<String, AllocError>
    ensures { IfOk result (λ text. string_bytes text ≡ compact (json_of_group group.now)) }
{
    text_of(alloc, group)
}
