//! Labels of included worlds.
ghost use Rattle.std.specs.Prelude.{◌≡◌, IfErr, IfOk, string_bytes};
ghost use Rattle.std.specs.Option.{option_map};
ghost use Rattle.wit_graph_data.specs.declared.error_kind.ResolveErrorKind.TheVariants.{OutOfMemory};
ghost use Rattle.wit_labels.specs.Rename.{renamed_label_by};

use std::alloc::Global;
use wit_data::IncludeName;
use wit_graph_data::ResolveResult;

/// The label that the renaming of an `include` makes of a label. None if the renaming is of another label. The only
/// error is want of memory.
///
/// Source: `rename` of wit-parser 0.263.0.
pub fn rename(alloc: Global, label: &str, name: &IncludeName) -> ResolveResult<Option<String>>
    ensures renamed { IfOk result
        (λ text. option_map string_bytes text ≡ renamed_label_by name.now label.now) }
    ensures memory { IfErr result (λ kind. kind ≡ OutOfMemory) }
{
    Ok(wit_labels::rename(alloc, label, name)?)
}
