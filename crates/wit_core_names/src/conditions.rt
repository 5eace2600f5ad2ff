//! What has a name in core wasm.
ghost use Rattle.std.specs.Prelude.{◌≡◌, IfErr, IfOk};
ghost use Rattle.std.specs.Option.{option_copied};
ghost use Rattle.wit_core_names.specs.Names.{can_name_export, can_name_import, can_name_value, future_can_be_async, has_callback, interface_has_name, is_of_function, is_within, key_has_name, stream_can_be_async, type_has_name};
ghost use Rattle.wit_graph_data.specs.declared.error_kind.ResolveErrorKind.TheVariants.{OutOfMemory};
ghost use Rattle.wit_data.specs.Kind.{type_references};
ghost use Rattle.wit_digraph.specs.Relation.{IsAcyclic};

use crate::export::{WasmExport, WasmExportKind};
use crate::import::{FutureIntrinsic, ResourceIntrinsic, StreamIntrinsic, WasmImport};
use std::alloc::Global;
use wit_data::{Function, LiftLowerAbi, ManglingAndAbi, TypeId, WorldKey};
use wit_graph_data::{Graph, ResolveResult};
use wit_queries::entries::named_interface;
use wit_queries::futures::holds_future_or_stream;

fn key_has_name(graph: &Graph, key: &WorldKey) -> bool
    ensures { result ≡ key_has_name graph.now.interfaces key.now }
{
    match key {
        WorldKey::Name(_) => true,
        WorldKey::Interface(id) => named_interface(graph, *id).is_some(),
    }
}

fn interface_has_name(graph: &Graph, interface: &Option<&WorldKey>) -> bool
    ensures { result ≡ interface_has_name graph.now.interfaces (option_copied interface.now) }
{
    match interface {
        Some(key) => key_has_name(graph, key),
        None => true,
    }
}

fn type_has_name(graph: &Graph, id: TypeId) -> bool
    ensures { result ≡ type_has_name graph.now.types id }
{
    match graph.types.get(id.index()) {
        Some(def) => def.name.is_some(),
        None => false,
    }
}

/// Whether what serves exports is of an interface.
fn is_within(interface: &Option<&WorldKey>, intrinsic: ResourceIntrinsic) -> bool
    ensures { result ≡ is_within (option_copied interface.now) intrinsic }
{
    match intrinsic {
        ResourceIntrinsic::ImportedDrop => true,
        ResourceIntrinsic::ExportedDrop
        | ResourceIntrinsic::ExportedNew
        | ResourceIntrinsic::ExportedRep => interface.is_some(),
    }
}

fn future_can_be_async(intrinsic: FutureIntrinsic) -> bool
    ensures { result ≡ future_can_be_async intrinsic }
{
    match intrinsic {
        FutureIntrinsic::Read
        | FutureIntrinsic::Write
        | FutureIntrinsic::CancelRead
        | FutureIntrinsic::CancelWrite => true,
        FutureIntrinsic::New
        | FutureIntrinsic::Forward
        | FutureIntrinsic::DropReadable
        | FutureIntrinsic::DropWritable => false,
    }
}

fn stream_can_be_async(intrinsic: StreamIntrinsic) -> bool
    ensures { result ≡ stream_can_be_async intrinsic }
{
    match intrinsic {
        StreamIntrinsic::Read
        | StreamIntrinsic::Write
        | StreamIntrinsic::CancelRead
        | StreamIntrinsic::CancelWrite => true,
        StreamIntrinsic::New
        | StreamIntrinsic::Forward
        | StreamIntrinsic::DropReadable
        | StreamIntrinsic::DropWritable => false,
    }
}

/// Whether a type that is given is among the futures and streams of a function.
fn is_of_function(
    alloc: Global,
    graph: &Graph,
    function: &Function,
    ty: Option<TypeId>,
) -> ResolveResult<bool>
    requires { IsAcyclic (type_references graph.now.types) }
    ensures told { IfOk result (λ told. told ≡ is_of_function graph.now.types function.now ty) }
    ensures memory { IfErr result (λ e. e ≡ OutOfMemory) }
{
    let Some(ty) = ty else {
        return Ok(true);
    };
    holds_future_or_stream(alloc, graph, function, ty)
}

/// Whether an import has names: an interface's key and a resource must have one; what serves
/// exports of a resource is of an interface; futures and streams have names under the older ones
/// alone, a type that is given is among those of the function, and only reading, writing and ending
/// these can go on after the call. Types refer to types that are there, and none to itself, through
/// whatever others, as in a valid graph. The only refusal is want of memory (28).
pub fn can_name_import(
    alloc: Global,
    graph: &Graph,
    mangling: ManglingAndAbi,
    import: &WasmImport<'_>,
) -> ResolveResult<bool>
    requires { IsAcyclic (type_references graph.now.types) }
    ensures told { IfOk result (λ told. told ≡ can_name_import graph.now mangling import.now) }
    ensures memory { IfErr result (λ e. e ≡ OutOfMemory) }
{
    match import {
        WasmImport::Func { interface, .. } => Ok(interface_has_name(graph, interface)),
        WasmImport::ResourceIntrinsic {
            interface,
            resource,
            intrinsic,
        } => Ok(
            interface_has_name(graph, interface)
                && type_has_name(graph, *resource)
                && is_within(interface, *intrinsic),
        ),
        WasmImport::FutureIntrinsic {
            interface,
            func,
            ty,
            intrinsic,
            async_,
            ..
        } => {
            let goes_on = !*async_ || future_can_be_async(*intrinsic);
            can_name_value(alloc, graph, mangling, interface, func, *ty, goes_on)
        }
        WasmImport::StreamIntrinsic {
            interface,
            func,
            ty,
            intrinsic,
            async_,
            ..
        } => {
            let goes_on = !*async_ || stream_can_be_async(*intrinsic);
            can_name_value(alloc, graph, mangling, interface, func, *ty, goes_on)
        }
    }
}

/// The same of what is done with a future or a stream, of which the ABI is told to be one of its own.
fn can_name_value(
    alloc: Global,
    graph: &Graph,
    mangling: ManglingAndAbi,
    interface: &Option<&WorldKey>,
    function: &Function,
    ty: Option<TypeId>,
    goes_on: bool,
) -> ResolveResult<bool>
    requires { IsAcyclic (type_references graph.now.types) }
    ensures told { IfOk result (λ told.
        told
        ≡ can_name_value graph.now mangling (option_copied interface.now) function.now ty
        goes_on) }
    ensures memory { IfErr result (λ e. e ≡ OutOfMemory) }
{
    match mangling {
        ManglingAndAbi::Standard32 => Ok(false),
        ManglingAndAbi::Legacy(_) => {
            if interface_has_name(graph, interface) && goes_on {
                is_of_function(alloc, graph, function, ty)
            } else {
                Ok(false)
            }
        }
    }
}

/// Whether an export has a name: an interface's key and a resource must have one, and a callback has
/// one under the older names with callbacks alone. It takes no memory.
pub fn can_name_export(graph: &Graph, mangling: ManglingAndAbi, export: &WasmExport<'_>) -> bool
    ensures { result ≡ can_name_export graph.now mangling export.now }
{
    match export {
        WasmExport::Func {
            interface,
            kind,
            ..
        } => has_callback(mangling, *kind) && interface_has_name(graph, interface),
        WasmExport::ResourceDtor {
            interface,
            resource,
        } => key_has_name(graph, interface) && type_has_name(graph, *resource),
        WasmExport::Memory | WasmExport::Initialize | WasmExport::Realloc => true,
    }
}

/// Whether there is such a core function under these names.
fn has_callback(mangling: ManglingAndAbi, kind: WasmExportKind) -> bool
    ensures { result ≡ has_callback mangling kind }
{
    match kind {
        WasmExportKind::Normal | WasmExportKind::PostReturn => true,
        WasmExportKind::Callback => matches!(
            mangling,
            ManglingAndAbi::Legacy(LiftLowerAbi::AsyncCallback)
        ),
    }
}
