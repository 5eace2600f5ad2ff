//! Parts of names.
ghost use Rattle.std.specs.Prelude.{◌≡◌, IfErr, IfOk, nat_eq, position, string_bytes};
ghost use Rattle.wit_core_names.specs.Names.{async_prefix, export_prefix, exported_prefix, future_index_text, future_word, import_prefix, is_export_intrinsic, resource_mark, resource_name, stream_word};
ghost use Rattle.wit_graph_data.specs.declared.error_kind.ResolveErrorKind.TheVariants.{OutOfMemory};
ghost use Rattle.wit_data.specs.Kind.{type_references};
ghost use Rattle.wit_digraph.specs.Relation.{IsAcyclic};

use crate::import::{FutureIntrinsic, ResourceIntrinsic, StreamIntrinsic};
use std::alloc::Global;
use wit_data::{Function, LiftLowerAbi, TypeId};
use wit_graph_data::{Graph, ResolveResult};
use wit_queries::futures::find_futures_and_streams;

/// What stands before the name of what is imported.
pub(crate) fn import_prefix(abi: LiftLowerAbi) -> &'static str
    ensures { result.now ≡ import_prefix abi }
{
    match abi {
        LiftLowerAbi::Sync => "",
        LiftLowerAbi::AsyncCallback | LiftLowerAbi::AsyncStackful => "[async-lower]",
    }
}

/// What stands before the name of what is exported.
pub(crate) fn export_prefix(abi: LiftLowerAbi) -> &'static str
    ensures { result.now ≡ export_prefix abi }
{
    match abi {
        LiftLowerAbi::Sync => "",
        LiftLowerAbi::AsyncCallback => "[async-lift]",
        LiftLowerAbi::AsyncStackful => "[async-lift-stackful]",
    }
}

/// What stands before the module of what serves an export.
pub(crate) fn exported_prefix(exported: bool) -> &'static str
    ensures { result.now ≡ exported_prefix exported }
{
    if exported { "[export]" } else { "" }
}

/// What stands before what is done without waiting for its end.
pub(crate) fn async_prefix(async_: bool) -> &'static str
    ensures { result.now ≡ async_prefix async_ }
{
    if async_ { "[async-lower]" } else { "" }
}

/// What is done with a future, as a word.
pub(crate) fn future_word(intrinsic: FutureIntrinsic) -> &'static str
    ensures { result.now ≡ future_word intrinsic }
{
    match intrinsic {
        FutureIntrinsic::New => "new",
        FutureIntrinsic::Read => "read",
        FutureIntrinsic::Write => "write",
        FutureIntrinsic::Forward => "forward",
        FutureIntrinsic::CancelRead => "cancel-read",
        FutureIntrinsic::CancelWrite => "cancel-write",
        FutureIntrinsic::DropReadable => "drop-readable",
        FutureIntrinsic::DropWritable => "drop-writable",
    }
}

/// What is done with a stream, as a word.
pub(crate) fn stream_word(intrinsic: StreamIntrinsic) -> &'static str
    ensures { result.now ≡ stream_word intrinsic }
{
    match intrinsic {
        StreamIntrinsic::New => "new",
        StreamIntrinsic::Read => "read",
        StreamIntrinsic::Write => "write",
        StreamIntrinsic::Forward => "forward",
        StreamIntrinsic::CancelRead => "cancel-read",
        StreamIntrinsic::CancelWrite => "cancel-write",
        StreamIntrinsic::DropReadable => "drop-readable",
        StreamIntrinsic::DropWritable => "drop-writable",
    }
}

/// Whether what is done with a resource serves an export.
pub(crate) fn is_export_intrinsic(intrinsic: ResourceIntrinsic) -> bool
    ensures { result ≡ is_export_intrinsic intrinsic }
{
    match intrinsic {
        ResourceIntrinsic::ImportedDrop => false,
        ResourceIntrinsic::ExportedDrop
        | ResourceIntrinsic::ExportedNew
        | ResourceIntrinsic::ExportedRep => true,
    }
}

/// What is done with a resource, as a mark before its name.
pub(crate) fn resource_mark(intrinsic: ResourceIntrinsic) -> &'static str
    ensures { result.now ≡ resource_mark intrinsic }
{
    match intrinsic {
        ResourceIntrinsic::ImportedDrop | ResourceIntrinsic::ExportedDrop => "[resource-drop]",
        ResourceIntrinsic::ExportedNew => "[resource-new]",
        ResourceIntrinsic::ExportedRep => "[resource-rep]",
    }
}

/// The name of a resource, empty where it has none.
pub(crate) fn resource_name(graph: &Graph, resource: TypeId) -> &str
    ensures { result.now ≡ resource_name graph.now.types resource }
{
    match graph.types.get(resource.index()) {
        Some(def) => match &def.name {
            Some(name) => name.as_str(),
            None => "",
        },
        None => "",
    }
}

/// The first index of a type among the futures and streams of a function, as a text, and `unit`
/// without a type.
pub(crate) fn future_index_text(
    alloc: Global,
    graph: &Graph,
    function: &Function,
    ty: Option<TypeId>,
) -> ResolveResult<String>
    requires { IsAcyclic (type_references graph.now.types) }
    ensures text { IfOk result
        (λ text. string_bytes text ≡ future_index_text graph.now.types function.now ty) }
    ensures memory { IfErr result (λ e. e ≡ OutOfMemory) }
{
    let Some(ty) = ty else {
        return Ok(String::from_str(alloc, "unit")?);
    };
    let found = find_futures_and_streams(alloc, graph, function)?;
    match future_index(found.as_slice(), ty) {
        Some(index) => Ok(format!(in alloc; "{index}")?),
        None => Ok(String::new(alloc)),
    }
}

/// The first index of a type.
fn future_index(found: &[TypeId], ty: TypeId) -> Option<usize>
    ensures { result ≡ position (nat_eq ty) found.now }
{
    found.iter().position(|candidate| ty == *candidate)
}
