//! The names in core wasm of the functions of a world.
ghost use Rattle.std.specs.Prelude.{◌≡◌, ◌++◌, IfOk, OnOk, option_and_then, slice_get};
ghost use Rattle.std.specs.List.{flat_map};
ghost use Rattle.std.specs.Option.{option_copied};
ghost use Rattle.wit_elaboration.specs.Valid.{IsValid};
ghost use Rattle.wit_json_commands.specs.CoreNames.{core_export, core_exports, core_import, core_imports, core_names_of, entry_functions, mangling_and_abi};
ghost use Rattle.wit_json_commands.specs.steps.Placed.{functions_at, placed_function, placed_functions};
ghost use Rattle.wit_json_commands.specs.Tells.{found};
ghost use Rattle.wit_json_commands.specs.declared.replies.answers.Answer.TheVariants as answers;
ghost use Rattle.wit_graph_data.specs.Named.{world_named};

use super::names::world_named;
use crate::commands::Mangling;
use crate::replies::{Answer, CoreExport, CoreImport, CoreNames};
use std::alloc::{AllocError, Global};
use wit_core_names::{
    WasmExport, WasmExportKind, WasmImport, can_name_export, can_name_import, wasm_export_name,
    wasm_import_name,
};
use wit_data::{
    Function, InterfaceId, Items, LiftLowerAbi, ManglingAndAbi, PackageName, Table, Text, TryClone,
    WorldItem, WorldKey,
};
use wit_graph_data::{Graph, ResolveResult};

/// The names of the functions that a world of a name imports and exports.
pub fn core_names(
    alloc: Global,
    graph: &Graph,
    package: &PackageName,
    world: &Text,
    mangling: Mangling,
) -> ResolveResult<Answer>
    requires { IsValid graph.now }
    ensures { IfOk result (λ it.
        it
        ≡ found
        (λ world. answers.CoreNames (core_names_of graph.now (mangling_and_abi mangling) world))
        (option_and_then (slice_get graph.now.worlds)
        (world_named graph.now «package».now world.now))) }
{
    let Some(id) = world_named(graph, package, world.as_str()) else {
        return Ok(Answer::NotFound);
    };
    let Some(world) = graph.worlds.get(id.index()) else {
        return Ok(Answer::NotFound);
    };
    let mangling = mangling_of(mangling);
    let imports = core_imports(alloc, graph, mangling, &world.imports)?;
    let exports = core_exports(alloc, graph, mangling, &world.exports)?;
    Ok(Answer::CoreNames(CoreNames { imports, exports }))
}

/// The names that are asked for.
fn mangling_of(mangling: Mangling) -> ManglingAndAbi
    ensures { result ≡ mangling_and_abi mangling }
{
    match mangling {
        Mangling::Standard32 => ManglingAndAbi::Standard32,
        Mangling::LegacySync => ManglingAndAbi::Legacy(LiftLowerAbi::Sync),
        Mangling::LegacyAsyncCallback => ManglingAndAbi::Legacy(LiftLowerAbi::AsyncCallback),
        Mangling::LegacyAsyncStackful => ManglingAndAbi::Legacy(LiftLowerAbi::AsyncStackful),
    }
}

/// A function of a world, and the key of the interface that it stands in.
#[derive(Drop)]
struct Placed<'a> {
    interface: Option<&'a WorldKey>,
    function: &'a Function,
}

/// The functions of entries, in order.
fn functions_of<'a>(
    alloc: Global,
    graph: &'a Graph,
    entries: &'a Table<WorldKey, WorldItem>,
) -> Result<Vec<Placed<'a>>, AllocError>
    ensures { IfOk result (λ placed.
        placed_functions placed.items ≡ flat_map (entry_functions graph.now) entries.now) }
{
    let mut placed = Vec::new(alloc);
    for (key, item) in entries.iter() {
        add_functions(graph, key, item, &mut placed)?;
    }
    Ok(placed)
}

/// Adds the functions of an entry.
fn add_functions<'a>(
    graph: &'a Graph,
    key: &'a WorldKey,
    item: &'a WorldItem,
    placed: &mut Vec<Placed<'a>>,
) -> Result<(), AllocError>
    ensures { OnOk result (placed_functions placed.new.items
        ≡ placed_functions placed.old.items ++ entry_functions graph.now (key.now, item.now)) }
{
    match item {
        WorldItem::Function(function) => placed.push(Placed {
            interface: None,
            function,
        })?,
        WorldItem::Interface { id, .. } => add_interface(graph, key, *id, placed)?,
        WorldItem::Type_ { .. } => {}
    }
    Ok(())
}

/// Adds the functions of an interface.
fn add_interface<'a>(
    graph: &'a Graph,
    key: &'a WorldKey,
    id: InterfaceId,
    placed: &mut Vec<Placed<'a>>,
) -> Result<(), AllocError>
    ensures { OnOk result (placed_functions placed.new.items
        ≡ placed_functions placed.old.items ++ functions_at graph.now key.now id) }
{
    let Some(interface) = graph.interfaces.get(id.index()) else {
        return Ok(());
    };
    for (_, function) in interface.functions.iter() {
        placed.push(Placed {
            interface: Some(key),
            function,
        })?;
    }
    Ok(())
}

/// The functions that are imported, with their names.
fn core_imports(
    alloc: Global,
    graph: &Graph,
    mangling: ManglingAndAbi,
    entries: &Table<WorldKey, WorldItem>,
) -> ResolveResult<Items<CoreImport>>
    requires { IsValid graph.now }
    ensures { IfOk result (λ imports. imports ≡ core_imports graph.now mangling entries.now) }
{
    let mut imports = Items::new(alloc);
    for placed in functions_of(alloc, graph, entries)? {
        if let Some(import) = core_import(alloc, graph, mangling, &placed)? {
            imports.push(import)?;
        }
    }
    Ok(imports)
}

/// A function that is imported, where it has names.
fn core_import(
    alloc: Global,
    graph: &Graph,
    mangling: ManglingAndAbi,
    placed: &Placed<'_>,
) -> ResolveResult<Option<CoreImport>>
    requires { IsValid graph.now }
    ensures { IfOk result
        (λ import. import ≡ core_import graph.now mangling (placed_function placed.now)) }
{
    let import = WasmImport::Func {
        interface: placed.interface,
        func: placed.function,
    };
    if !can_name_import(alloc, graph, mangling, &import)? {
        return Ok(None);
    }
    let (module, field) = wasm_import_name(alloc, graph, mangling, &import)?;
    let interface = key_of(placed)?;
    let function = placed.function.name.try_clone()?;
    Ok(Some(CoreImport {
        interface,
        function,
        module: Text::from_string(module),
        field: Text::from_string(field),
    }))
}

/// The key of the interface that a function stands in.
fn key_of(placed: &Placed<'_>) -> Result<Option<WorldKey>, AllocError>
    ensures { IfOk result (λ key. key ≡ option_copied placed.now.interface) }
{
    match placed.interface {
        Some(key) => Ok(Some(key.try_clone()?)),
        None => Ok(None),
    }
}

/// The functions that are exported, with their names.
fn core_exports(
    alloc: Global,
    graph: &Graph,
    mangling: ManglingAndAbi,
    entries: &Table<WorldKey, WorldItem>,
) -> ResolveResult<Items<CoreExport>>
    requires { IsValid graph.now }
    ensures { IfOk result (λ exports. exports ≡ core_exports graph.now mangling entries.now) }
{
    let mut exports = Items::new(alloc);
    for placed in functions_of(alloc, graph, entries)? {
        if let Some(export) = core_export(alloc, graph, mangling, &placed)? {
            exports.push(export)?;
        }
    }
    Ok(exports)
}

/// A function that is exported, where it has a name.
fn core_export(
    alloc: Global,
    graph: &Graph,
    mangling: ManglingAndAbi,
    placed: &Placed<'_>,
) -> ResolveResult<Option<CoreExport>>
    requires { IsValid graph.now }
    ensures { IfOk result
        (λ export. export ≡ core_export graph.now mangling (placed_function placed.now)) }
{
    let export = WasmExport::Func {
        interface: placed.interface,
        func: placed.function,
        kind: WasmExportKind::Normal,
    };
    if !can_name_export(graph, mangling, &export) {
        return Ok(None);
    }
    let name = wasm_export_name(alloc, graph, mangling, &export)?;
    let interface = key_of(placed)?;
    let function = placed.function.name.try_clone()?;
    Ok(Some(CoreExport {
        interface,
        function,
        name: Text::from_string(name),
    }))
}
