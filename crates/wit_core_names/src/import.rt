//! What core wasm imports, and its names.
ghost use Rattle.std.specs.Prelude.{◌≡◌, IfErr, IfOk, string_bytes, true};
ghost use Rattle.wit_core_names.specs.Names.{can_name_import, import_names};
ghost use Rattle.wit_graph_data.specs.declared.error_kind.ResolveErrorKind.TheVariants.{OutOfMemory};
ghost use Rattle.wit_data.specs.Kind.{type_references};
ghost use Rattle.wit_digraph.specs.Relation.{IsAcyclic};

use crate::legacy::legacy_import;
use crate::standard::standard_import;
use std::alloc::Global;
use std::fmt;
use wit_data::{Function, ManglingAndAbi, TypeId, WorldKey};
use wit_graph_data::{Graph, ResolveResult};

/// What is done with a resource by a function of the host.
///
/// Source: `ResourceIntrinsic` of wit-parser 0.263.0.
#[derive(Clone, Copy, Debug, PartialEq, Eq)]
pub enum ResourceIntrinsic {
    /// Drops a handle of an imported resource.
    ImportedDrop,
    /// Drops a handle of an exported resource.
    ExportedDrop,
    /// Makes a handle of an exported resource.
    ExportedNew,
    /// Reads what stands for an exported resource.
    ExportedRep,
}

/// What is done with a future by a function of the host.
///
/// Source: `FutureIntrinsic` of wit-parser 0.263.0.
#[derive(Clone, Copy, Debug, PartialEq, Eq)]
pub enum FutureIntrinsic {
    New,
    Read,
    Write,
    Forward,
    CancelRead,
    CancelWrite,
    DropReadable,
    DropWritable,
}

/// What is done with a stream by a function of the host.
///
/// Source: `StreamIntrinsic` of wit-parser 0.263.0.
#[derive(Clone, Copy, Debug, PartialEq, Eq)]
pub enum StreamIntrinsic {
    New,
    Read,
    Write,
    Forward,
    CancelRead,
    CancelWrite,
    DropReadable,
    DropWritable,
}

/// What core wasm imports. Without an interface it is of the world itself.
///
/// Source: `WasmImport` of wit-parser 0.263.0.
#[derive(Clone, Copy)]
pub enum WasmImport<'a> {
    /// A function.
    Func {
        interface: Option<&'a WorldKey>,
        func: &'a Function,
    },
    /// What is done with a resource.
    ResourceIntrinsic {
        interface: Option<&'a WorldKey>,
        resource: TypeId,
        intrinsic: ResourceIntrinsic,
    },
    /// What is done with a future of a function, or with one without a type.
    FutureIntrinsic {
        interface: Option<&'a WorldKey>,
        func: &'a Function,
        ty: Option<TypeId>,
        intrinsic: FutureIntrinsic,
        /// Whether it serves an export.
        exported: bool,
        /// Whether it may go on after the call.
        async_: bool,
    },
    /// What is done with a stream of a function, or with one without a type.
    StreamIntrinsic {
        interface: Option<&'a WorldKey>,
        func: &'a Function,
        ty: Option<TypeId>,
        intrinsic: StreamIntrinsic,
        /// Whether it serves an export.
        exported: bool,
        /// Whether it may go on after the call.
        async_: bool,
    },
}

impl<'a> fmt::Debug for WasmImport<'a> {
    fn fmt<W: fmt::Write>(&self, f: &mut fmt::Formatter<W>) -> fmt::Result {
        match self {
            WasmImport::Func { func, .. } => {
                let name = &func.name;
                write!(f, "Func({name})")
            }
            WasmImport::ResourceIntrinsic { intrinsic, .. } => {
                write!(f, "ResourceIntrinsic({intrinsic:?})")
            }
            WasmImport::FutureIntrinsic {
                func,
                intrinsic,
                ..
            } => {
                let name = &func.name;
                write!(f, "FutureIntrinsic({name}, {intrinsic:?})")
            }
            WasmImport::StreamIntrinsic {
                func,
                intrinsic,
                ..
            } => {
                let name = &func.name;
                write!(f, "StreamIntrinsic({name}, {intrinsic:?})")
            }
        }
    }
}

/// The module and the field under which core wasm imports it: see the table `import_names`. It has
/// these, as `can_name_import` tells, and types refer to types that are there, and none to itself,
/// through whatever others, as in a valid graph. The only refusal is want of memory (28).
///
/// Source: `wasm_import_name` of wit-parser 0.263.0.
pub fn wasm_import_name(
    alloc: Global,
    graph: &Graph,
    mangling: ManglingAndAbi,
    import: &WasmImport<'_>,
) -> ResolveResult<(String, String)>
    requires acyclic { IsAcyclic (type_references graph.now.types) }
    requires named { can_name_import graph.now mangling import.now ≡ true }
    ensures names { IfOk result (λ names.
        (string_bytes names.0, string_bytes names.1)
        ≡ import_names graph.now mangling import.now) }
    ensures memory { IfErr result (λ e. e ≡ OutOfMemory) }
{
    match mangling {
        ManglingAndAbi::Standard32 => standard_import(alloc, graph, import),
        ManglingAndAbi::Legacy(abi) => legacy_import(alloc, graph, abi, import),
    }
}
