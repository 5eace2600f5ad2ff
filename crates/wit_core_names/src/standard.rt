//! The names of the build targets, which begin with `cm32p2`.
ghost use Rattle.std.specs.Prelude.{◌≡◌, IfErr, IfOk, string_bytes, true};
ghost use Rattle.std.specs.Option.{option_copied};
ghost use Rattle.wit_core_names.specs.Names.{can_name_export, can_name_import, export_name, import_names, standard_key, standard_module};
ghost use Rattle.wit_core_names.specs.declared.import.WasmImport.TheVariants as imports;
ghost use Rattle.wit_graph_data.specs.declared.error_kind.ResolveErrorKind.TheVariants.{OutOfMemory};
ghost use Rattle.wit_data.specs.declared.abi.ManglingAndAbi.TheVariants.{Standard32};

use crate::export::{WasmExport, WasmExportKind};
use crate::import::{ResourceIntrinsic, WasmImport};
use crate::parts::resource_name;
use std::alloc::Global;
use wit_data::{TypeId, WorldKey};
use wit_graph_data::{Graph, ResolveResult};
use wit_queries::canonical::name_canonicalized_world_key;

/// The canonical name of an interface's key, empty without an interface.
fn standard_key(
    alloc: Global,
    graph: &Graph,
    interface: &Option<&WorldKey>,
) -> ResolveResult<String>
    ensures text { IfOk result
        (λ text. string_bytes text ≡ standard_key graph.now (option_copied interface.now)) }
    ensures memory { IfErr result (λ e. e ≡ OutOfMemory) }
{
    match interface {
        Some(key) => name_canonicalized_world_key(alloc, graph, key),
        None => Ok(String::new(alloc)),
    }
}

/// The module of what is imported from an interface, or from nowhere else.
fn standard_module(
    alloc: Global,
    graph: &Graph,
    interface: &Option<&WorldKey>,
) -> ResolveResult<String>
    ensures text { IfOk result
        (λ text. string_bytes text ≡ standard_module graph.now (option_copied interface.now)) }
    ensures memory { IfErr result (λ e. e ≡ OutOfMemory) }
{
    match interface {
        Some(key) => {
            let name = name_canonicalized_world_key(alloc, graph, key)?;
            Ok(format!(in alloc; "cm32p2|{name}")?)
        }
        None => Ok(String::from_str(alloc, "cm32p2")?),
    }
}

/// The module and the field of an import.
pub(crate) fn standard_import(
    alloc: Global,
    graph: &Graph,
    import: &WasmImport<'_>,
) -> ResolveResult<(String, String)>
    requires { can_name_import graph.now Standard32 import.now ≡ true }
    ensures names { IfOk result (λ names.
        (string_bytes names.0, string_bytes names.1)
        ≡ import_names graph.now Standard32 import.now) }
    ensures memory { IfErr result (λ e. e ≡ OutOfMemory) }
{
    match import {
        WasmImport::Func { interface, func } => {
            let module = standard_module(alloc, graph, interface)?;
            Ok((module, String::from_str(alloc, func.name.as_str())?))
        }
        WasmImport::ResourceIntrinsic {
            interface,
            resource,
            intrinsic,
        } => standard_resource(alloc, graph, interface, *resource, *intrinsic),
        WasmImport::FutureIntrinsic { .. } | WasmImport::StreamIntrinsic { .. } => unreachable!(),
    }
}

/// The same of what is done with a resource.
fn standard_resource(
    alloc: Global,
    graph: &Graph,
    interface: &Option<&WorldKey>,
    resource: TypeId,
    intrinsic: ResourceIntrinsic,
) -> ResolveResult<(String, String)>
    ensures names { IfOk result (λ names.
        (string_bytes names.0, string_bytes names.1)
        ≡ import_names graph.now Standard32
        (imports.ResourceIntrinsic interface.now resource intrinsic)) }
    ensures memory { IfErr result (λ e. e ≡ OutOfMemory) }
{
    let name = resource_name(graph, resource);
    let field = match intrinsic {
        ResourceIntrinsic::ImportedDrop | ResourceIntrinsic::ExportedDrop => {
            format!(in alloc; "{name}_drop")?
        }
        ResourceIntrinsic::ExportedNew => format!(in alloc; "{name}_new")?,
        ResourceIntrinsic::ExportedRep => format!(in alloc; "{name}_rep")?,
    };
    if intrinsic == ResourceIntrinsic::ImportedDrop {
        return Ok((standard_module(alloc, graph, interface)?, field));
    }
    let key = standard_key(alloc, graph, interface)?;
    Ok((format!(in alloc; "cm32p2|_ex_{key}")?, field))
}

/// The name of an export.
pub(crate) fn standard_export(
    alloc: Global,
    graph: &Graph,
    export: &WasmExport<'_>,
) -> ResolveResult<String>
    requires { can_name_export graph.now Standard32 export.now ≡ true }
    ensures name { IfOk result
        (λ name. string_bytes name ≡ export_name graph.now Standard32 export.now) }
    ensures memory { IfErr result (λ e. e ≡ OutOfMemory) }
{
    match export {
        WasmExport::Func {
            interface,
            func,
            kind,
        } => {
            let key = standard_key(alloc, graph, interface)?;
            let name = &func.name;
            match kind {
                WasmExportKind::Normal => Ok(format!(in alloc; "cm32p2|{key}|{name}")?),
                WasmExportKind::PostReturn => Ok(format!(in alloc; "cm32p2|{key}|{name}_post")?),
                WasmExportKind::Callback => unreachable!(),
            }
        }
        WasmExport::ResourceDtor {
            interface,
            resource,
        } => {
            let key = name_canonicalized_world_key(alloc, graph, interface)?;
            let name = resource_name(graph, *resource);
            Ok(format!(in alloc; "cm32p2|{key}|{name}_dtor")?)
        }
        WasmExport::Memory => Ok(String::from_str(alloc, "cm32p2_memory")?),
        WasmExport::Initialize => Ok(String::from_str(alloc, "cm32p2_initialize")?),
        WasmExport::Realloc => Ok(String::from_str(alloc, "cm32p2_realloc")?),
    }
}
