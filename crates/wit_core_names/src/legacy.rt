//! The names before those of the build targets.
ghost use Rattle.std.specs.Prelude.{◌≡◌, ◌∷◌, ◌++◌, IfErr, IfOk, string_bytes};
ghost use Rattle.std.specs.Option.{option_copied};
ghost use Rattle.wit_core_names.specs.Names.{async_prefix, export_name, exported_prefix, future_index_text, import_names, legacy_key, legacy_module};
ghost use Rattle.wit_graph_data.specs.declared.error_kind.ResolveErrorKind.TheVariants.{OutOfMemory};
ghost use Rattle.wit_data.specs.Kind.{type_references};
ghost use Rattle.wit_data.specs.declared.abi.ManglingAndAbi.TheVariants.{Legacy};
ghost use Rattle.wit_digraph.specs.Relation.{IsAcyclic};

use crate::export::{WasmExport, WasmExportKind};
use crate::import::WasmImport;
use crate::parts::{
    async_prefix, export_prefix, exported_prefix, future_index_text, future_word, import_prefix,
    is_export_intrinsic, resource_mark, resource_name, stream_word,
};
use std::alloc::Global;
use wit_data::{Function, LiftLowerAbi, TypeId, WorldKey};
use wit_graph_data::{Graph, ResolveResult};

/// The module of what is imported from an interface, or from nowhere else.
fn legacy_module(
    alloc: Global,
    graph: &Graph,
    interface: &Option<&WorldKey>,
) -> ResolveResult<String>
    ensures text { IfOk result
        (λ text. string_bytes text ≡ legacy_module graph.now (option_copied interface.now)) }
    ensures memory { IfErr result (λ e. e ≡ OutOfMemory) }
{
    match interface {
        Some(key) => graph.name_world_key(alloc, key),
        None => Ok(String::from_str(alloc, "$root")?),
    }
}

/// The name of an interface's key before `#`, and nothing without an interface.
fn legacy_key(alloc: Global, graph: &Graph, interface: &Option<&WorldKey>) -> ResolveResult<String>
    ensures text { IfOk result
        (λ text. string_bytes text ≡ legacy_key graph.now (option_copied interface.now)) }
    ensures memory { IfErr result (λ e. e ≡ OutOfMemory) }
{
    match interface {
        Some(key) => {
            let name = graph.name_world_key(alloc, key)?;
            Ok(format!(in alloc; "{name}#")?)
        }
        None => Ok(String::new(alloc)),
    }
}

/// The module and the field of an import.
pub(crate) fn legacy_import(
    alloc: Global,
    graph: &Graph,
    abi: LiftLowerAbi,
    import: &WasmImport<'_>,
) -> ResolveResult<(String, String)>
    requires { IsAcyclic (type_references graph.now.types) }
    ensures names { IfOk result (λ names.
        (string_bytes names.0, string_bytes names.1)
        ≡ import_names graph.now (Legacy abi) import.now) }
    ensures memory { IfErr result (λ e. e ≡ OutOfMemory) }
{
    match import {
        WasmImport::Func { interface, func } => {
            let module = legacy_module(alloc, graph, interface)?;
            let (prefix, name) = (import_prefix(abi), &func.name);
            Ok((module, format!(in alloc; "{prefix}{name}")?))
        }
        WasmImport::ResourceIntrinsic {
            interface,
            resource,
            intrinsic,
        } => {
            let module = module_of(alloc, graph, interface, is_export_intrinsic(*intrinsic))?;
            let (prefix, mark) = (import_prefix(abi), resource_mark(*intrinsic));
            let name = resource_name(graph, *resource);
            Ok((module, format!(in alloc; "{prefix}{mark}{name}")?))
        }
        WasmImport::FutureIntrinsic {
            interface,
            func,
            ty,
            intrinsic,
            exported,
            async_,
        } => {
            let module = module_of(alloc, graph, interface, *exported)?;
            let word = future_word(*intrinsic);
            let field = value_field(alloc, graph, func, *ty, *async_, "future", word)?;
            Ok((module, field))
        }
        WasmImport::StreamIntrinsic {
            interface,
            func,
            ty,
            intrinsic,
            exported,
            async_,
        } => {
            let module = module_of(alloc, graph, interface, *exported)?;
            let word = stream_word(*intrinsic);
            let field = value_field(alloc, graph, func, *ty, *async_, "stream", word)?;
            Ok((module, field))
        }
    }
}

/// The field of what is done with a future or a stream of a function, by the words for both.
fn value_field(
    alloc: Global,
    graph: &Graph,
    function: &Function,
    ty: Option<TypeId>,
    async_: bool,
    noun: &str,
    word: &str,
) -> ResolveResult<String>
    requires { IsAcyclic (type_references graph.now.types) }
    ensures text { IfOk result (λ text.
        string_bytes text
        ≡ async_prefix async_
        ++ (91
        ∷ (noun.now
        ++ (45
        ∷ (word.now
        ++ (45
        ∷ (future_index_text graph.now.types function.now ty
        ++ (93 ∷ function.now.name)))))))) }
    ensures memory { IfErr result (λ e. e ≡ OutOfMemory) }
{
    let index = future_index_text(alloc, graph, function, ty)?;
    let (lowered, name) = (async_prefix(async_), &function.name);
    Ok(format!(in alloc; "{lowered}[{noun}-{word}-{index}]{name}")?)
}

/// The module of what may serve an export.
fn module_of(
    alloc: Global,
    graph: &Graph,
    interface: &Option<&WorldKey>,
    exported: bool,
) -> ResolveResult<String>
    ensures text { IfOk result (λ text.
        string_bytes text
        ≡ exported_prefix exported ++ legacy_module graph.now (option_copied interface.now)) }
    ensures memory { IfErr result (λ e. e ≡ OutOfMemory) }
{
    let prefix = exported_prefix(exported);
    let module = legacy_module(alloc, graph, interface)?;
    Ok(format!(in alloc; "{prefix}{module}")?)
}

/// The name of an export.
pub(crate) fn legacy_export(
    alloc: Global,
    graph: &Graph,
    abi: LiftLowerAbi,
    export: &WasmExport<'_>,
) -> ResolveResult<String>
    ensures name { IfOk result
        (λ name. string_bytes name ≡ export_name graph.now (Legacy abi) export.now) }
    ensures memory { IfErr result (λ e. e ≡ OutOfMemory) }
{
    let prefix = export_prefix(abi);
    match export {
        WasmExport::Func {
            interface,
            func,
            kind,
        } => {
            let key = legacy_key(alloc, graph, interface)?;
            let name = &func.name;
            match kind {
                WasmExportKind::Normal => Ok(format!(in alloc; "{prefix}{key}{name}")?),
                WasmExportKind::PostReturn => Ok(format!(in alloc;
                    "{prefix}cabi_post_{key}{name}"
                )?),
                WasmExportKind::Callback => Ok(format!(in alloc; "[callback]{prefix}{key}{name}")?),
            }
        }
        WasmExport::ResourceDtor {
            interface,
            resource,
        } => {
            let key = graph.name_world_key(alloc, interface)?;
            let name = resource_name(graph, *resource);
            Ok(format!(in alloc; "{prefix}{key}#[dtor]{name}")?)
        }
        WasmExport::Memory => Ok(String::from_str(alloc, "memory")?),
        WasmExport::Initialize => Ok(String::from_str(alloc, "_initialize")?),
        WasmExport::Realloc => Ok(String::from_str(alloc, "cabi_realloc")?),
    }
}
