//! Whether a graph is valid.
ghost use Rattle.std.specs.Prelude.{◌≡◌, ◌≢◌, ◌↔◌, IfErr, IfOk, IsTrue};
ghost use Rattle.wit_elaboration.specs.Valid.{IsValid};
ghost use Rattle.wit_graph_data.specs.declared.error_kind.ResolveErrorKind.TheVariants.{OutOfMemory};
ghost use Rattle.wit_data.specs.Each.{Each};
ghost use Rattle.wit_data.specs.declared.types.TypeDef.{TypeDef};
ghost use Rattle.wit_data.specs.declared.types.TypeDefKind.TheVariants as kind;

use crate::canonical::are_canonical;
use crate::cycles::has_no_cycles;
use crate::named::is_named;
use crate::own::is_owned;
use std::alloc::Global;
use wit_graph_data::{Graph, ResolveResult};
use wit_shape::unknown::is_unknown;

/// Whether a graph is valid, as the graph of each `Resolve` is: packages, interfaces and worlds stand under their
/// names, which are kebab names; versions are those of SemVer; types and functions belong to what lists them and refer
/// to what they may; nothing depends on itself; and each world is canonical, its own elaboration.
///
/// Any graph may be asked, also one with ids of nothing, with cycles, or with worlds that can't be elaborated. It takes
/// time in proportion to the graph's size, and for each world that of its elaboration. The only refusal is want of
/// memory (28).
///
/// Source: `assert_valid` of wit-parser 0.263.0.
pub fn is_valid(alloc: Global, graph: &Graph) -> ResolveResult<bool>
    ensures holds { IfOk result (λ valid. IsTrue valid ↔ IsValid graph.now) }
    ensures memory { IfErr result (λ e. e ≡ OutOfMemory) }
{
    if !is_named(alloc, graph)? {
        return Ok(false);
    }
    if !are_known(graph) {
        return Ok(false);
    }
    if !has_no_cycles(alloc, graph)? {
        return Ok(false);
    }
    if !is_owned(alloc, graph)? {
        return Ok(false);
    }
    are_canonical(alloc, graph)
}

/// Whether the kind of each type is known.
fn are_known(graph: &Graph) -> bool
    ensures { IsTrue result ↔ Each (λ (def : TypeDef). def.kind ≢ kind.Unknown) graph.now.types }
{
    graph.types.as_slice().iter().all(|def| !is_unknown(def))
}
