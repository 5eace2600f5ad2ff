//! Questions of a `Resolve`, with the names of core wasm.
ghost use Rattle.std.specs.Prelude.{◌<◌, length};

use crate::marks::{bare, call, copied, tell};
use std::alloc::Global;
use wit_resolve_graph::{
    Docs, Function, InterfaceId, LiftLowerAbi, ManglingAndAbi, PackageId, Resolve,
    ResourceIntrinsic, Span, Stability, StreamIntrinsic, Text, TypeId, WasmExport, WasmExportKind,
    WasmImport, WorldId, WorldItem, WorldKey, find_graph_fault, is_valid,
};
use wit_script::print_world;

/// What is asked of the whole.
pub fn ask_whole(rt: &impl Print, alloc: Global, resolve: &Resolve) -> Option<()> {
    copied(rt, "try_clone of Resolve", resolve)?;
    copied(rt, "try_clone of Features", resolve.features())?;
    copied(rt, "try_clone of NameSet", &resolve.features().names)?;
    call(rt, "is_valid");
    tell(rt, is_valid(alloc, resolve.graph()))?;
    call(rt, "find_graph_fault");
    tell(rt, find_graph_fault(alloc, resolve.graph()))?;
    call(rt, "assert_valid");
    tell(rt, resolve.assert_valid(alloc))?;
    call(rt, "topological_packages");
    tell(rt, resolve.topological_packages(alloc))?;
    call(rt, "render_location");
    tell(rt, resolve.render_location(alloc, Span::new(3, 5)))?;
    ask_external_id(rt, alloc, resolve)
}

/// The external id of an entry, which no script writes.
fn ask_external_id(rt: &impl Print, alloc: Global, resolve: &Resolve) -> Option<()> {
    let item = WorldItem::Interface {
        id: InterfaceId::from_index(0),
        stability: Stability::Unknown,
        docs: Docs::none(),
        span: Span::unknown(),
        external_id: Some(Text::try_from_str(alloc, "id").ok()?),
    };
    call(rt, "external_id_value");
    tell(rt, resolve.external_id_value(alloc, &item))
}

/// What is asked of an interface.
pub fn ask_interface(
    rt: &impl Print,
    alloc: Global,
    resolve: &Resolve,
    index: usize,
) -> Option<()> {
    let id = InterfaceId::from_index(index);
    call(rt, "id_of");
    tell(rt, resolve.id_of(alloc, id))?;
    call(rt, "canonicalized_id_of");
    tell(rt, resolve.canonicalized_id_of(alloc, id))?;
    call(rt, "version_suffix_of");
    tell(rt, resolve.version_suffix_of(alloc, id))
}

/// What is asked of a package.
pub fn ask_package(rt: &impl Print, alloc: Global, resolve: &Resolve, index: usize) -> Option<()> {
    let id = PackageId::from_index(index);
    call(rt, "id_of_name");
    tell(rt, resolve.id_of_name(alloc, id, "x"))?;
    call(rt, "canonicalized_id_of_name");
    tell(rt, resolve.canonicalized_id_of_name(alloc, id, "x"))?;
    call(rt, "select_world");
    tell(rt, resolve.select_world(alloc, &[id], None))?;
    call(rt, "select_world of a text");
    let chosen = resolve.select_world(alloc, &[id], Some("foo:bar/w"));
    tell(rt, chosen)
}

/// What is asked of a world.
pub fn ask_world(rt: &impl Print, alloc: Global, resolve: &Resolve, index: usize) -> Option<()>
    requires { index < length resolve.now.graph.worlds }
{
    call(rt, "print_world");
    tell(rt, print_world(alloc, resolve, WorldId::from_index(index)))?;
    let world = &resolve.worlds()[index];
    for (key, item) in world.imports.iter() {
        ask_entry(rt, alloc, resolve, key, item)?;
    }
    for (key, item) in world.exports.iter() {
        ask_entry(rt, alloc, resolve, key, item)?;
    }
    Some(())
}

fn ask_entry(
    rt: &impl Print,
    alloc: Global,
    resolve: &Resolve,
    key: &WorldKey,
    item: &WorldItem,
) -> Option<()> {
    call(rt, "name_world_key");
    tell(rt, resolve.name_world_key(alloc, key))?;
    call(rt, "name_canonicalized_world_key");
    tell(rt, resolve.name_canonicalized_world_key(alloc, key))?;
    if let WorldItem::Function(function) = item {
        ask_function(rt, alloc, resolve, function)?;
    }
    bare(rt, "implements_interface");
    tell(rt, Ok(resolve.implements_interface(key, item)))
}

/// What is asked of a function, of a world or of an interface.
pub fn ask_function(
    rt: &impl Print,
    alloc: Global,
    resolve: &Resolve,
    function: &Function,
) -> Option<()> {
    call(rt, "find_futures_and_streams");
    tell(rt, resolve.find_futures_and_streams(alloc, function))?;
    bare(rt, "resource and accessor");
    tell(rt, Ok((function.kind.resource(), function.kind.accessor())))?;
    name_function(rt, alloc, resolve, ManglingAndAbi::Standard32, function)?;
    name_function(
        rt,
        alloc,
        resolve,
        ManglingAndAbi::Legacy(LiftLowerAbi::Sync),
        function,
    )?;
    for id in resolve.find_futures_and_streams(alloc, function).ok()? {
        name_stream(rt, alloc, resolve, function, id)?;
    }
    Some(())
}

/// What reads a stream, or a future as if it were one.
fn name_stream(
    rt: &impl Print,
    alloc: Global,
    resolve: &Resolve,
    func: &Function,
    id: TypeId,
) -> Option<()> {
    let import = WasmImport::StreamIntrinsic {
        interface: None,
        func,
        ty: Some(id),
        intrinsic: StreamIntrinsic::Read,
        exported: false,
        async_: false,
    };
    name_import(
        rt,
        alloc,
        resolve,
        ManglingAndAbi::Legacy(LiftLowerAbi::Sync),
        &import,
    )
}

fn name_function(
    rt: &impl Print,
    alloc: Global,
    resolve: &Resolve,
    mangling: ManglingAndAbi,
    func: &Function,
) -> Option<()> {
    let import = WasmImport::Func {
        interface: None,
        func,
    };
    name_import(rt, alloc, resolve, mangling, &import)?;
    let export = WasmExport::Func {
        interface: None,
        func,
        kind: WasmExportKind::PostReturn,
    };
    name_export(rt, alloc, resolve, mangling, &export)
}

/// What drops a handle of an imported resource.
pub fn name_resource(
    rt: &impl Print,
    alloc: Global,
    resolve: &Resolve,
    interface: usize,
    resource: usize,
) -> Option<()> {
    let key = WorldKey::Interface(InterfaceId::from_index(interface));
    let import = WasmImport::ResourceIntrinsic {
        interface: Some(&key),
        resource: TypeId::from_index(resource),
        intrinsic: ResourceIntrinsic::ImportedDrop,
    };
    name_import(rt, alloc, resolve, ManglingAndAbi::Standard32, &import)
}

fn name_import(
    rt: &impl Print,
    alloc: Global,
    resolve: &Resolve,
    mangling: ManglingAndAbi,
    import: &WasmImport<'_>,
) -> Option<()> {
    call(rt, "can_name_import");
    tell(rt, resolve.can_name_import(alloc, mangling, import))?;
    if let Ok(true) = resolve.can_name_import(alloc, mangling, import) {
        call(rt, "wasm_import_name");
        tell(rt, resolve.wasm_import_name(alloc, mangling, import))?;
    }
    Some(())
}

fn name_export(
    rt: &impl Print,
    alloc: Global,
    resolve: &Resolve,
    mangling: ManglingAndAbi,
    export: &WasmExport<'_>,
) -> Option<()> {
    bare(rt, "can_name_export");
    let can_be_named = resolve.can_name_export(mangling, export);
    tell(rt, Ok(can_be_named))?;
    if can_be_named {
        call(rt, "wasm_export_name");
        tell(rt, resolve.wasm_export_name(alloc, mangling, export))?;
    }
    Some(())
}
