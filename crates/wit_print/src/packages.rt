//! Packages and graphs.
ghost use Rattle.std.specs.Prelude.{◌≡◌, ◌++◌, IfOk, List, OnOk, codes, flat_map, length, string_bytes, ℕ};
ghost use Rattle.std.specs.List.{range_with_len};
ghost use Rattle.wit_print.specs.Interfaces.{interface_wit};
ghost use Rattle.wit_print.specs.Packages.{graph_wit, items_wit, other_wit, package_head, package_wit};
ghost use Rattle.wit_print.specs.Worlds.{world_wit};

use crate::headings::write_docs;
use crate::methods::Methods;
use crate::names::{Name, VersionSuffix};
use crate::printer::Printer;
use std::alloc::{AllocError, Global};
use std::fmt::Write;
use wit_data::{InterfaceId, Names, PackageId, WorldId};
use wit_graph_data::{Graph, Package};

/// A package of a graph as the WIT text of a file: its interfaces, then its worlds. Empty if it isn't
/// there. The only error is want of memory.
#[tactic(auto, unfolding(crate::specs::Packages::package_wit))]
pub fn print_package(alloc: Global, graph: &Graph, id: PackageId) -> Result<String, AllocError>
    ensures { IfOk result (λ text. string_bytes text ≡ package_wit graph.now id) }
{
    let mut text = String::new(alloc);
    let Some(package) = graph.packages.get(id.index()) else {
        return Ok(text);
    };
    let methods = Methods::new(alloc);
    let printer = Printer::new(alloc, graph, None, "", &methods);
    write_head(package, &mut text)?;
    text.push_str(";\n")?;
    printer.write_items(package, &mut text)?;
    Ok(text)
}

/// A graph as the WIT text of a file: one package as `print_package` has it, then the others in their
/// order, each in braces. The only error is want of memory.
pub fn print_graph(alloc: Global, graph: &Graph, id: PackageId) -> Result<String, AllocError>
    ensures { IfOk result (λ text. string_bytes text ≡ graph_wit graph.now id) }
{
    let mut text = print_package(alloc, graph, id)?;
    let methods = Methods::new(alloc);
    let printer = Printer::new(alloc, graph, None, "  ", &methods);
    printer.write_others(id, &mut text)?;
    Ok(text)
}

impl Printer<'_> {
    /// Writes all packages but one, each in braces.
    fn write_others(&self, id: PackageId, text: &mut String) -> Result<(), AllocError>
        requires { self.now.indent.now ≡ codes "  " }
        ensures { OnOk result (string_bytes text.new
            ≡ string_bytes text.old
            ++ flat_map (other_wit self.now.graph.now id)
            (range_with_len 0 (length self.now.graph.now.packages))) }
    {
        for index in 0..self.graph.packages.len() {
            self.write_other(id, index, text)?;
        }
        Ok(())
    }

    /// Writes a package in braces behind an empty line, if it is there and isn't the one of an id.
    #[tactic(auto, unfolding(crate::specs::Packages::other_wit))]
    fn write_other(&self, id: PackageId, index: usize, text: &mut String) -> Result<(), AllocError>
        requires { self.now.indent.now ≡ codes "  " }
        ensures { OnOk result (string_bytes text.new
            ≡ string_bytes text.old ++ other_wit self.now.graph.now id index) }
    {
        if index == id.index() {
            return Ok(());
        }
        let Some(package) = self.graph.packages.get(index) else {
            return Ok(());
        };
        text.push_str("\n")?;
        write_head(package, text)?;
        text.push_str(" {\n")?;
        self.write_items(package, text)?;
        text.push_str("}\n")
    }

    /// Writes the interfaces of a package, then its worlds.
    #[tactic(auto, unfolding(crate::specs::Packages::items_wit))]
    fn write_items(&self, package: &Package, text: &mut String) -> Result<(), AllocError>
        ensures { OnOk result (string_bytes text.new
            ≡ string_bytes text.old
            ++ items_wit self.now.graph.now self.now.indent.now «package».now) }
    {
        self.write_interfaces(&package.interfaces, text)?;
        self.write_worlds(&package.worlds, text)
    }

    fn write_interfaces(
        &self,
        interfaces: &Names<InterfaceId>,
        text: &mut String,
    ) -> Result<(), AllocError>
        ensures { OnOk result (string_bytes text.new
            ≡ string_bytes text.old
            ++ flat_map (λ (e : List ℕ × ℕ).
            interface_wit self.now.graph.now self.now.indent.now e.1) interfaces.now) }
    {
        for (_, id) in interfaces.iter() {
            self.write_interface(*id, text)?;
        }
        Ok(())
    }

    fn write_worlds(&self, worlds: &Names<WorldId>, text: &mut String) -> Result<(), AllocError>
        ensures { OnOk result (string_bytes text.new
            ≡ string_bytes text.old
            ++ flat_map (λ (e : List ℕ × ℕ).
            world_wit self.now.graph.now self.now.indent.now e.1) worlds.now) }
    {
        for (_, id) in worlds.iter() {
            self.write_world(*id, text)?;
        }
        Ok(())
    }
}

/// Writes the documentation and the name of a package.
fn write_head(package: &Package, text: &mut String) -> Result<(), AllocError>
    ensures { OnOk result
        (string_bytes text.new ≡ string_bytes text.old ++ package_head «package».now) }
{
    let namespace = Name(package.name.namespace.as_str());
    let name = Name(package.name.name.as_str());
    let suffix = VersionSuffix(&package.name.version);
    write_docs("", &package.docs, text)?;
    write!(text, "package {namespace}:{name}{suffix}")
}
