//! Interfaces.
ghost use Rattle.std.specs.Prelude.{◌≡◌, ◌++◌, [], List, OnOk, codes, flat_map, string_bytes, ℕ};
ghost use Rattle.wit_data.specs.declared.function.Function.{Function};
ghost use Rattle.wit_print.specs.Definitions.{definition_wit};
ghost use Rattle.wit_print.specs.Functions.{free_wit};
ghost use Rattle.wit_print.specs.Interfaces.{body_wit, interface_wit};
ghost use Rattle.wit_print.specs.steps.Methods.{text_under};

use crate::headings::write_heading;
use crate::names::{Name, text_or_empty};
use crate::printer::Printer;
use std::alloc::AllocError;
use std::fmt::Write;
use wit_data::{Function, Interface, InterfaceId, Names, TypeId};

impl Printer<'_> {
    /// Writes an interface behind an empty line, if it is there.
    #[tactic(auto, unfolding(crate::specs::Headings::block_wit, crate::specs::Interfaces::interface_wit))]
    pub fn write_interface(&self, id: InterfaceId, text: &mut String) -> Result<(), AllocError>
        ensures { OnOk result (string_bytes text.new
            ≡ string_bytes text.old ++ interface_wit self.now.graph.now self.now.indent.now id) }
    {
        let Some(interface) = self.graph.interfaces.get(id.index()) else {
            return Ok(());
        };
        let indent = self.indent;
        let name = Name(text_or_empty(&interface.name));
        text.push_str("\n")?;
        write_heading(indent, &interface.docs, &interface.stability, &None, text)?;
        write!(text, "{indent}interface {name} {{\n")?;
        self.write_body(interface, text)?;
        write!(text, "{indent}}}\n")
    }

    /// Writes what stands in the braces of an interface, two spaces further in.
    pub fn write_body(&self, interface: &Interface, text: &mut String) -> Result<(), AllocError>
        ensures { OnOk result (string_bytes text.new
            ≡ string_bytes text.old
            ++ body_wit self.now.graph.now (self.now.indent.now ++ codes "  ") interface.now) }
    {
        let indent = self.further_in()?;
        let methods = self.methods_among(&interface.functions)?;
        let (graph, home) = (self.graph, interface.package);
        let inside = Printer::new(self.alloc, graph, home, indent.as_str(), &methods);
        inside.write_types(&interface.types, text)?;
        inside.write_functions(&interface.functions, text)
    }

    fn write_types(&self, types: &Names<TypeId>, text: &mut String) -> Result<(), AllocError>
        ensures { OnOk result (string_bytes text.new
            ≡ string_bytes text.old
            ++ flat_map (λ (e : List ℕ × ℕ).
            definition_wit self.now.graph.now self.now.home self.now.indent.now e.1
            (text_under self.now.methods.now e.1)) types.now) }
    {
        for (_, id) in types.iter() {
            self.write_definition(*id, text)?;
        }
        Ok(())
    }

    /// Writes the functions that stand in the braces of no resource.
    fn write_functions(
        &self,
        functions: &Names<Function>,
        text: &mut String,
    ) -> Result<(), AllocError>
        ensures { OnOk result (string_bytes text.new
            ≡ string_bytes text.old
            ++ flat_map (λ (e : List ℕ × Function).
            free_wit self.now.graph.now.types self.now.indent.now [] e.1) functions.now) }
    {
        for (_, function) in functions.iter() {
            self.write_free("", function, text)?;
        }
        Ok(())
    }
}
