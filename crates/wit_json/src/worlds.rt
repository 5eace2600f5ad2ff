//! Interfaces and worlds.
ghost use Rattle.std.specs.Prelude.{◌≡◌, ◌++◌, ◌∷◌, [], OnOk, codes};
ghost use Rattle.wit_json.specs.Gates.{stability_member};
ghost use Rattle.json.specs.Token.{key as key_token};
ghost use Rattle.json.specs.Tree.{json_tokens};
ghost use Rattle.wit_json.specs.Values.{tagged, object_by, json_of_number, member, object};
ghost use Rattle.wit_json.specs.Worlds.{entry_name, json_of_interface, json_of_item, json_of_world};

use crate::names::EntryName;
use crate::writer::{JsonText, WriteJson};
use std::alloc::AllocError;
use wit_data::{Interface, InterfaceId, Stability, Table, World, WorldItem, WorldKey};

impl WriteJson for Interface {
    ghost json = { json_of_interface };

    fn write_json(&self, out: &mut JsonText) -> Result<(), AllocError> {
        out.begin_object()?;
        out.member("name", &self.name)?;
        out.member("types", &self.types)?;
        out.member("functions", &self.functions)?;
        out.docs(&self.docs)?;
        out.stability(&self.stability)?;
        out.member("package", &self.package)?;
        out.end_object()
    }
}

impl JsonText {
    /// Writes the name of an entry of a world, whose value comes next.
    pub fn entry_name(&mut self, key: &WorldKey) -> Result<(), AllocError>
        ensures { OnOk result (self.new ≡ self.old ++ key_token (entry_name key.now) ∷ []) }
    {
        let (alloc, name) = (self.allocator(), EntryName(key));
        let name = format!(in alloc; "{name}")?;
        self.key(name.as_str())
    }

    /// Writes an interface that a world imports or exports.
    fn interface_item(&mut self, id: InterfaceId, stability: &Stability) -> Result<(), AllocError>
        ensures { OnOk result (self.new
            ≡ self.old
            ++ json_tokens
            (tagged (codes "interface")
            (object (member (codes "id") (json_of_number id) ++ stability_member stability.now)))) }
    {
        self.begin_tagged("interface")?;
        self.interface_entry(id, stability)?;
        self.end_object()
    }

    /// Writes its id and its gate.
    fn interface_entry(&mut self, id: InterfaceId, stability: &Stability) -> Result<(), AllocError>
        ensures { OnOk result (self.new
            ≡ self.old
            ++ json_tokens
            (object (member (codes "id") (json_of_number id) ++ stability_member stability.now))) }
    {
        self.begin_object()?;
        self.member("id", &id)?;
        self.stability(stability)?;
        self.end_object()
    }
}

impl WriteJson for WorldItem {
    ghost json = { json_of_item };

    fn write_json(&self, out: &mut JsonText) -> Result<(), AllocError> {
        match self {
            WorldItem::Interface { id, stability, .. } => out.interface_item(*id, stability),
            WorldItem::Function(function) => out.tagged("function", function),
            WorldItem::Type_ { id, .. } => out.tagged("type", id),
        }
    }
}

impl WriteJson for Table<WorldKey, WorldItem> {
    ghost json = { object_by entry_name json_of_item };

    fn write_json(&self, out: &mut JsonText) -> Result<(), AllocError> {
        out.begin_object()?;
        for (key, item) in self.iter() {
            out.entry_name(key)?;
            item.write_json(out)?;
        }
        out.end_object()
    }
}

impl WriteJson for World {
    ghost json = { json_of_world };

    fn write_json(&self, out: &mut JsonText) -> Result<(), AllocError> {
        out.begin_object()?;
        out.member("name", &self.name)?;
        out.member("imports", &self.imports)?;
        out.member("exports", &self.exports)?;
        out.member("package", &self.package)?;
        out.docs(&self.docs)?;
        out.stability(&self.stability)?;
        out.end_object()
    }
}
