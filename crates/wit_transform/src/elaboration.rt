//! A graph whose worlds have their new entries is checked for cycles and elaborated.
ghost use Rattle.std.specs.Prelude.{◌≡◌, ◌⊎◌, IfErr, OnErr, OnOk};
ghost use Rattle.wit_graph_data.specs.declared.error_kind.ResolveErrorKind.{ResolveErrorKind};
ghost use Rattle.wit_graph_data.specs.declared.error_kind.ResolveErrorKind.TheVariants.{OutOfMemory};
ghost use Rattle.wit_elaboration.specs.AllElaborated.{all_elaborated};
ghost use Rattle.wit_transform.specs.steps.Reasons.{CanBeElaborated, ElaborationCause};

use crate::cycles::{check_interfaces, check_packages, check_types};
use std::alloc::Global;
use wit_elaboration::rows::elaborate_all;
use wit_graph_data::{Graph, ResolveResult};

/// Elaborates all worlds of a graph in which nothing depends on itself. What types refer to, interfaces use and
/// packages depend on is there; each interface that is used has an id text, and on each cycle of types is one with a
/// name; and in each world what stands under the key of an interface is that interface, and the interfaces of all
/// entries are there.
///
/// It is refused where a type refers to itself (23), an interface uses itself (22) or a package depends on itself (6),
/// through whatever others, and where what the exports of some world need from outside is exported (4). Of several
/// reasons any may be told. Else it is refused for want of memory (28) alone. After a refusal the graph is as before.
///
/// Source: `merge` and `merge_world_imports_based_on_semver` of wit-parser 0.263.0.
pub fn check_and_elaborate(alloc: Global, graph: &mut Graph) -> ResolveResult<()>
    requires { CanBeElaborated graph.old }
    ensures ok { OnOk result (graph.new ≡ all_elaborated graph.old) }
    ensures unchanged { OnErr result (graph.new ≡ graph.old) }
    ensures cause { IfErr result (λ e. (e ≡ OutOfMemory) ⊎ ElaborationCause graph.old e) }
    ensures refuses { (e : ResolveErrorKind) → ElaborationCause graph.old e → OnOk result ⊥ }
{
    check_types(alloc, graph)?;
    check_interfaces(alloc, graph)?;
    check_packages(alloc, graph)?;
    elaborate_all(alloc, graph)
}
