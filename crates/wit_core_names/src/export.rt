//! What core wasm exports, and its names.
ghost use Rattle.std.specs.Prelude.{◌≡◌, IfErr, IfOk, string_bytes, true};
ghost use Rattle.wit_core_names.specs.Names.{can_name_export, export_name};
ghost use Rattle.wit_graph_data.specs.declared.error_kind.ResolveErrorKind.TheVariants.{OutOfMemory};

use crate::legacy::legacy_export;
use crate::standard::standard_export;
use std::alloc::Global;
use std::fmt;
use wit_data::{Function, ManglingAndAbi, TypeId, WorldKey};
use wit_graph_data::{Graph, ResolveResult};

/// Which of the core functions of an exported function it is.
///
/// Source: `WasmExportKind` of wit-parser 0.263.0.
#[derive(Clone, Copy, Debug, PartialEq, Eq)]
pub enum WasmExportKind {
    /// The function itself.
    Normal,
    /// What is called after its results were read.
    PostReturn,
    /// What is called for what comes while it goes on.
    Callback,
}

/// What core wasm exports. Without an interface a function is of the world itself.
///
/// Source: `WasmExport` of wit-parser 0.263.0.
#[derive(Clone, Copy)]
pub enum WasmExport<'a> {
    /// A function.
    Func {
        interface: Option<&'a WorldKey>,
        func: &'a Function,
        kind: WasmExportKind,
    },
    /// What is called when the last handle of an exported resource is dropped.
    ResourceDtor {
        interface: &'a WorldKey,
        resource: TypeId,
    },
    /// The memory.
    Memory,
    /// What is called first.
    Initialize,
    /// What makes room in the memory.
    Realloc,
}

impl<'a> fmt::Debug for WasmExport<'a> {
    fn fmt<W: fmt::Write>(&self, f: &mut fmt::Formatter<W>) -> fmt::Result {
        match self {
            WasmExport::Func { func, kind, .. } => {
                let name = &func.name;
                write!(f, "Func({name}, {kind:?})")
            }
            WasmExport::ResourceDtor { .. } => f.write_str("ResourceDtor"),
            WasmExport::Memory => f.write_str("Memory"),
            WasmExport::Initialize => f.write_str("Initialize"),
            WasmExport::Realloc => f.write_str("Realloc"),
        }
    }
}

/// The name under which core wasm exports it: see the table `export_name`. It has one, as
/// `can_name_export` tells. The only refusal is want of memory (28).
///
/// Source: `wasm_export_name` of wit-parser 0.263.0.
pub fn wasm_export_name(
    alloc: Global,
    graph: &Graph,
    mangling: ManglingAndAbi,
    export: &WasmExport<'_>,
) -> ResolveResult<String>
    requires { can_name_export graph.now mangling export.now ≡ true }
    ensures name { IfOk result
        (λ name. string_bytes name ≡ export_name graph.now mangling export.now) }
    ensures memory { IfErr result (λ e. e ≡ OutOfMemory) }
{
    match mangling {
        ManglingAndAbi::Standard32 => standard_export(alloc, graph, export),
        ManglingAndAbi::Legacy(abi) => legacy_export(alloc, graph, abi, export),
    }
}
