//! Whether nothing uses, refers to or depends on itself.
ghost use Rattle.std.specs.Prelude.{◌↔◌, IfOk, IsTrue};
ghost use Rattle.wit_elaboration.specs.Valid.{HasNoCycles};

use std::alloc::{AllocError, Global};
use wit_data::type_references;
use wit_digraph::is_acyclic;
use wit_graph_data::Graph;
use wit_queries::interface_deps::are_uses_acyclic;
use wit_queries::package_deps::package_uses;

/// Whether no interface uses itself, no type refers to itself and no package depends on itself,
/// through whatever others.
pub(crate) fn has_no_cycles(alloc: Global, graph: &Graph) -> Result<bool, AllocError>
    ensures { IfOk result (λ holds. IsTrue holds ↔ HasNoCycles graph.now) }
{
    let references = type_references(alloc, graph.types.as_slice())?;
    if !is_acyclic(alloc, references.as_slice())? {
        return Ok(false);
    }
    if !are_uses_acyclic(alloc, graph)? {
        return Ok(false);
    }
    let packages = package_uses(alloc, graph)?;
    is_acyclic(alloc, packages.as_slice())
}
