//! Where the things of a merged graph stand.
ghost use Rattle.std.specs.Prelude.{◌≡◌, ◌++◌, OnOk};
ghost use Rattle.json.specs.Tree.{json_tokens};
ghost use Rattle.wit_json.specs.Values.{list_of, member};
ghost use Rattle.wit_json.specs.steps.Members.{Adds};
ghost use Rattle.wit_json_commands.specs.Remaps.{json_of_remap};

use std::alloc::AllocError;
use wit_json::{JsonText, WriteJson};
use wit_remap::Remap;

/// Writes a member whose value is a list.
fn write_list<T: WriteJson>(out: &mut JsonText, name: &str, items: &[T]) -> Result<(), AllocError>
    ensures { OnOk result (Adds out.old out.new (member name.now (list_of T.json items.now))) }
{
    out.key(name)?;
    out.list(items)
}

/// Writes where each thing of the other graph stands now.
pub fn write_remap(out: &mut JsonText, remap: &Remap) -> Result<(), AllocError>
    ensures { OnOk result (out.new ≡ out.old ++ json_tokens (json_of_remap remap.now)) }
{
    out.begin_object()?;
    write_list(out, "types", remap.types())?;
    write_list(out, "interfaces", remap.interfaces())?;
    write_list(out, "worlds", remap.worlds())?;
    write_list(out, "packages", remap.packages())?;
    out.end_object()
}
