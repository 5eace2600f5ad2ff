//! Names of core wasm.
ghost use Rattle.std.specs.Prelude.{◌≡◌, ◌++◌, OnOk};
ghost use Rattle.json.specs.Tree.{json_tokens};
ghost use Rattle.wit_json.specs.steps.Members.{Adds};
ghost use Rattle.wit_json_commands.specs.CoreNamesJson.{interface_member, json_of_core_export, json_of_core_import, json_of_core_names};
ghost use Rattle.wit_json.specs.Values.{json_of_text};
ghost use Rattle.wit_json.specs.Worlds.{entry_name};

use std::alloc::AllocError;
use wit_data::{Items, Text, WorldKey};
use wit_json::{EntryName, JsonText, WriteJson};

/// A function that a world imports, with its names.
#[derive(Drop)]
pub struct CoreImport {
    /// The interface that it stands in, where it isn't one of the world itself.
    pub interface: Option<WorldKey>,
    pub function: Text,
    pub module: Text,
    pub field: Text,
}

/// A function that a world exports, with its name.
#[derive(Drop)]
pub struct CoreExport {
    /// The interface that it stands in, where it isn't one of the world itself.
    pub interface: Option<WorldKey>,
    pub function: Text,
    pub name: Text,
}

/// The functions that a world imports and exports.
#[derive(Drop)]
pub struct CoreNames {
    pub imports: Items<CoreImport>,
    pub exports: Items<CoreExport>,
}

/// Writes the key of an interface, as it names an entry of a world.
fn write_key(out: &mut JsonText, key: &WorldKey) -> Result<(), AllocError>
    ensures { OnOk result (out.new ≡ out.old ++ json_tokens (json_of_text (entry_name key.now))) }
{
    let (alloc, name) = (out.allocator(), EntryName(key));
    let name = format!(in alloc; "{name}")?;
    out.string(name.as_str())
}

/// Writes the member that tells in which interface a function stands.
fn write_interface(out: &mut JsonText, interface: &Option<WorldKey>) -> Result<(), AllocError>
    ensures { OnOk result (Adds out.old out.new (interface_member interface.now)) }
{
    out.key("interface")?;
    match interface {
        Some(key) => write_key(out, key),
        None => out.null(),
    }
}

impl WriteJson for CoreImport {
    ghost json = { json_of_core_import };

    fn write_json(&self, out: &mut JsonText) -> Result<(), AllocError> {
        out.begin_object()?;
        write_interface(out, &self.interface)?;
        out.member("function", &self.function)?;
        out.member("module", &self.module)?;
        out.member("field", &self.field)?;
        out.end_object()
    }
}

impl WriteJson for CoreExport {
    ghost json = { json_of_core_export };

    fn write_json(&self, out: &mut JsonText) -> Result<(), AllocError> {
        out.begin_object()?;
        write_interface(out, &self.interface)?;
        out.member("function", &self.function)?;
        out.member("name", &self.name)?;
        out.end_object()
    }
}

impl WriteJson for CoreNames {
    ghost json = { json_of_core_names };

    fn write_json(&self, out: &mut JsonText) -> Result<(), AllocError> {
        out.begin_object()?;
        out.member("imports", &self.imports)?;
        out.member("exports", &self.exports)?;
        out.end_object()
    }
}
