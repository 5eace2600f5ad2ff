//! Worlds.
ghost use Rattle.std.specs.Prelude.{◌≡◌, ◌++◌, OnOk, codes, string_bytes};
ghost use Rattle.std.specs.Option.{option_map_or};
ghost use Rattle.wit_print.specs.Interfaces.{body_wit};
ghost use Rattle.wit_print.specs.Worlds.{entries_wit, entry_wit, function_entry, label_wit, path_or_body, side_wit, word_before, world_wit};
ghost use Rattle.wit_print.specs.steps.Methods.{text_under};

use crate::headings::write_heading;
use crate::names::Name;
use crate::printer::Printer;
use std::alloc::AllocError;
use std::fmt::Write;
use wit_data::{
    Docs, Function, Interface, InterfaceId, Table, World, WorldId, WorldItem, WorldKey,
};

/// Which entries of a world are written.
#[derive(Clone, Copy)]
pub enum Side {
    Import,
    Export,
}

impl Side {
    /// The word before an entry.
    fn word(self) -> &'static str
        ensures { result.now ≡ word_before self }
    {
        match self {
            Side::Import => "import ",
            Side::Export => "export ",
        }
    }
}

impl Printer<'_> {
    /// Writes a world behind an empty line, if it is there.
    #[tactic(auto, unfolding(crate::specs::Headings::block_wit, crate::specs::Worlds::world_wit))]
    pub fn write_world(&self, id: WorldId, text: &mut String) -> Result<(), AllocError>
        ensures { OnOk result (string_bytes text.new
            ≡ string_bytes text.old ++ world_wit self.now.graph.now self.now.indent.now id) }
    {
        let Some(world) = self.graph.worlds.get(id.index()) else {
            return Ok(());
        };
        let indent = self.indent;
        let name = Name(world.name.as_str());
        text.push_str("\n")?;
        write_heading(indent, &world.docs, &world.stability, &None, text)?;
        write!(text, "{indent}world {name} {{\n")?;
        self.write_entries(world, text)?;
        write!(text, "{indent}}}\n")
    }

    /// Writes the entries of a world two spaces further in, first its imports.
    fn write_entries(&self, world: &World, text: &mut String) -> Result<(), AllocError>
        ensures { OnOk result (string_bytes text.new
            ≡ string_bytes text.old
            ++ entries_wit self.now.graph.now (self.now.indent.now ++ codes "  ") world.now) }
    {
        let indent = self.further_in()?;
        let methods = self.imported_methods(&world.imports)?;
        let (graph, home) = (self.graph, world.package);
        let inside = Printer::new(self.alloc, graph, home, indent.as_str(), &methods);
        inside.write_side(Side::Import, &world.imports, text)?;
        inside.write_side(Side::Export, &world.exports, text)
    }

    fn write_side(
        &self,
        side: Side,
        entries: &Table<WorldKey, WorldItem>,
        text: &mut String,
    ) -> Result<(), AllocError>
        ensures { OnOk result (string_bytes text.new
            ≡ string_bytes text.old
            ++ side_wit self.now.graph.now self.now.home self.now.indent.now
            (text_under self.now.methods.now) side entries.now) }
    {
        for (key, item) in entries.iter() {
            self.write_entry(side, key, item, text)?;
        }
        Ok(())
    }

    /// Writes an entry. Nothing if its interface or type isn't there.
    fn write_entry(
        &self,
        side: Side,
        key: &WorldKey,
        item: &WorldItem,
        text: &mut String,
    ) -> Result<(), AllocError>
        ensures { OnOk result (string_bytes text.new
            ≡ string_bytes text.old
            ++ entry_wit self.now.graph.now self.now.home self.now.indent.now
            (text_under self.now.methods.now) side key.now item.now) }
    {
        match item {
            WorldItem::Interface {
                id,
                stability,
                docs,
                external_id,
                span: _,
            } => {
                let Some(interface) = self.graph.interfaces.get(id.index()) else {
                    return Ok(());
                };
                let docs = entry_docs(docs, interface);
                write_heading(self.indent, docs, stability, external_id, text)?;
                self.write_label(side, key, text)?;
                self.write_path_or_body(*id, interface, text)
            }
            WorldItem::Function(function) => self.write_function_entry(side, function, text),
            WorldItem::Type_ { id, span: _ } => self.write_definition(*id, text),
        }
    }

    /// Writes the line of an entry up to its label.
    fn write_label(&self, side: Side, key: &WorldKey, text: &mut String) -> Result<(), AllocError>
        ensures { OnOk result (string_bytes text.new
            ≡ string_bytes text.old
            ++ (self.now.indent.now ++ (word_before side ++ label_wit key.now))) }
    {
        let (indent, word) = (self.indent, side.word());
        match key {
            WorldKey::Interface(_) => write!(text, "{indent}{word}"),
            WorldKey::Name(label) => {
                let label = Name(label.as_str());
                write!(text, "{indent}{word}{label}: ")
            }
        }
    }

    /// Writes what stands behind the label of an interface: its path, or its body if it has no name.
    fn write_path_or_body(
        &self,
        id: InterfaceId,
        interface: &Interface,
        text: &mut String,
    ) -> Result<(), AllocError>
        ensures { OnOk result (string_bytes text.new
            ≡ string_bytes text.old
            ++ path_or_body self.now.graph.now self.now.home self.now.indent.now id
            interface.now) }
    {
        match interface.name {
            Some(_) => {
                let path = self.path(id)?;
                write!(text, "{path};\n")
            }
            None => self.write_in_place(interface, text),
        }
    }

    /// Writes an interface that an entry has in place.
    fn write_in_place(&self, interface: &Interface, text: &mut String) -> Result<(), AllocError>
        ensures { OnOk result (string_bytes text.new
            ≡ string_bytes text.old
            ++ (codes "interface {\n"
            ++ (body_wit self.now.graph.now (self.now.indent.now ++ codes "  ") interface.now
            ++ (self.now.indent.now ++ codes "}\n")))) }
    {
        let indent = self.indent;
        text.push_str("interface {\n")?;
        self.write_body(interface, text)?;
        write!(text, "{indent}}}\n")
    }

    /// Writes a function. An imported one of a resource stands with the resource.
    fn write_function_entry(
        &self,
        side: Side,
        function: &Function,
        text: &mut String,
    ) -> Result<(), AllocError>
        ensures { OnOk result (string_bytes text.new
            ≡ string_bytes text.old
            ++ function_entry self.now.graph.now.types self.now.indent.now side function.now) }
    {
        match side {
            Side::Import => self.write_free(side.word(), function, text),
            Side::Export => self.write_function(side.word(), function, text),
        }
    }
}

/// The documentation of an entry: of an interface in place its own.
fn entry_docs<'a>(docs: &'a Docs, interface: &'a Interface) -> &'a Docs
    ensures { result.now
        ≡ option_map_or (λ name. docs.now) interface.now.name interface.now.docs }
{
    match interface.name {
        Some(_) => docs,
        None => &interface.docs,
    }
}
