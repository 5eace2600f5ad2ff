//! The names in core wasm of the functions of a `Resolve`, and what has none.
use crate::calls::fixtures::resolve_of;
use crate::fixtures::assert_text;
use std::alloc::Global;
use std::process::Abort;
use wit_data::{Function, InterfaceId, TypeId, WorldKey};
use wit_resolve_graph::{
    FutureIntrinsic, LiftLowerAbi, ManglingAndAbi, Resolve, StreamIntrinsic, WasmExport,
    WasmExportKind, WasmImport,
};

/// Type `t`, at index 0, is no future; the types of `import-func` are a future at 1, a future of it at 2,
/// and a stream at 3.
const SCRIPT: &str = "package foo:x@0.2.1\n\
    interface x\n\
    type t u32\n\
    func f()\n\
    func import-func(a:future<future<u32>>,b:u32)->stream<string>\n\
    func export-func()\n\
    push\n";

const SYNC: ManglingAndAbi = ManglingAndAbi::Legacy(LiftLowerAbi::Sync);

const CALLBACK: ManglingAndAbi = ManglingAndAbi::Legacy(LiftLowerAbi::AsyncCallback);

const STACKFUL: ManglingAndAbi = ManglingAndAbi::Legacy(LiftLowerAbi::AsyncStackful);

/// What is imported: a function, or what is done with a future or a stream of it, or with one without a
/// type. The truth values say whether it serves an export, and whether it goes on after the call.
#[derive(Clone, Copy)]
enum Asked {
    Func,
    Future(Option<usize>, FutureIntrinsic, bool, bool),
    Stream(Option<usize>, StreamIntrinsic, bool, bool),
}

fn import_of<'a>(
    interface: Option<&'a WorldKey>,
    func: &'a Function,
    asked: Asked,
) -> WasmImport<'a> {
    match asked {
        Asked::Func => WasmImport::Func { interface, func },
        Asked::Future(place, intrinsic, exported, async_) => WasmImport::FutureIntrinsic {
            interface,
            func,
            ty: type_at(place),
            intrinsic,
            exported,
            async_,
        },
        Asked::Stream(place, intrinsic, exported, async_) => WasmImport::StreamIntrinsic {
            interface,
            func,
            ty: type_at(place),
            intrinsic,
            exported,
            async_,
        },
    }
}

fn type_at(place: Option<usize>) -> Option<TypeId> {
    match place {
        Some(place) => Some(TypeId::from_index(place)),
        None => None,
    }
}

/// A function of interface `x`.
fn function<'a>(rt: &impl Abort, resolve: &'a Resolve, name: &str) -> &'a Function {
    let interface = resolve.interfaces().first().expect(rt, "an interface");
    interface.functions.get(name).expect(rt, "a function")
}

/// The module and the field of an import of `x`, or of the world, or `none`.
fn import_name(
    rt: &impl Abort,
    alloc: Global,
    mangling: ManglingAndAbi,
    is_of_x: bool,
    name: &str,
    asked: Asked,
) -> String {
    let resolve = resolve_of(rt, alloc, SCRIPT);
    let key = WorldKey::Interface(InterfaceId::from_index(0));
    let interface = if is_of_x { Some(&key) } else { None };
    let import = import_of(interface, function(rt, &resolve, name), asked);
    let is_named = resolve
        .can_name_import(alloc, mangling, &import)
        .expect(rt, "memory");
    if !is_named {
        return String::from_str(alloc, "none").expect(rt, "memory");
    }
    let (module, field) = resolve
        .wasm_import_name(alloc, mangling, &import)
        .expect(rt, "memory");
    format!(in alloc; "{module} {field}").expect(rt, "memory")
}

type ImportName = (ManglingAndAbi, bool, &'static str, Asked, &'static str);

const IMPORTS: [ImportName; 12] = [
    (
        ManglingAndAbi::Standard32,
        true,
        "f",
        Asked::Func,
        "cm32p2|foo:x/x@0.2 f",
    ),
    (
        ManglingAndAbi::Standard32,
        false,
        "f",
        Asked::Func,
        "cm32p2 f",
    ),
    (SYNC, true, "f", Asked::Func, "foo:x/x@0.2.1 f"),
    (SYNC, false, "f", Asked::Func, "$root f"),
    (
        CALLBACK,
        true,
        "f",
        Asked::Func,
        "foo:x/x@0.2.1 [async-lower]f",
    ),
    (STACKFUL, false, "f", Asked::Func, "$root [async-lower]f"),
    (
        STACKFUL,
        false,
        "import-func",
        Asked::Future(Some(2), FutureIntrinsic::Read, false, true),
        "$root [async-lower][future-read-1]import-func",
    ),
    (
        STACKFUL,
        false,
        "import-func",
        Asked::Stream(Some(3), StreamIntrinsic::CancelRead, false, true),
        "$root [async-lower][stream-cancel-read-2]import-func",
    ),
    (
        STACKFUL,
        false,
        "export-func",
        Asked::Future(None, FutureIntrinsic::DropReadable, true, false),
        "[export]$root [future-drop-readable-unit]export-func",
    ),
    (
        STACKFUL,
        false,
        "import-func",
        Asked::Future(Some(1), FutureIntrinsic::New, false, false),
        "$root [future-new-0]import-func",
    ),
    (
        STACKFUL,
        false,
        "import-func",
        Asked::Stream(Some(3), StreamIntrinsic::Forward, false, false),
        "$root [stream-forward-2]import-func",
    ),
    (
        STACKFUL,
        false,
        "export-func",
        Asked::Stream(None, StreamIntrinsic::Write, true, true),
        "[export]$root [async-lower][stream-write-unit]export-func",
    ),
];

const NO_IMPORTS: [(ManglingAndAbi, &str, Asked); 5] = [
    (
        ManglingAndAbi::Standard32,
        "import-func",
        Asked::Future(Some(1), FutureIntrinsic::Read, false, false),
    ),
    (
        ManglingAndAbi::Standard32,
        "export-func",
        Asked::Stream(None, StreamIntrinsic::Read, false, false),
    ),
    (
        SYNC,
        "import-func",
        Asked::Future(Some(1), FutureIntrinsic::New, false, true),
    ),
    (
        SYNC,
        "import-func",
        Asked::Future(Some(0), FutureIntrinsic::Read, false, false),
    ),
    (
        SYNC,
        "export-func",
        Asked::Stream(Some(3), StreamIntrinsic::Read, false, false),
    ),
];

#[test]
fn imports_are_named(rt: HostRuntime) {
    for &(mangling, is_of_x, function, asked, wanted) in &IMPORTS {
        assert_text(
            &rt,
            import_name(&rt, rt.alloc(), mangling, is_of_x, function, asked),
            wanted,
        );
    }
    for &(mangling, function, asked) in &NO_IMPORTS {
        assert_text(
            &rt,
            import_name(&rt, rt.alloc(), mangling, true, function, asked),
            "none",
        );
    }
}

/// What is exported: function `f`, or what each module exports.
#[derive(Clone, Copy)]
enum Exported {
    Func(WasmExportKind),
    Memory,
    Initialize,
    Realloc,
}

fn export_of<'a>(
    interface: Option<&'a WorldKey>,
    func: &'a Function,
    exported: Exported,
) -> WasmExport<'a> {
    match exported {
        Exported::Func(kind) => WasmExport::Func {
            interface,
            func,
            kind,
        },
        Exported::Memory => WasmExport::Memory,
        Exported::Initialize => WasmExport::Initialize,
        Exported::Realloc => WasmExport::Realloc,
    }
}

/// The name of an export of `x`, or of the world, or `none`.
fn export_name(
    rt: &impl Abort,
    alloc: Global,
    mangling: ManglingAndAbi,
    is_of_x: bool,
    exported: Exported,
) -> String {
    let resolve = resolve_of(rt, alloc, SCRIPT);
    let key = WorldKey::Interface(InterfaceId::from_index(0));
    let interface = if is_of_x { Some(&key) } else { None };
    let export = export_of(interface, function(rt, &resolve, "f"), exported);
    if !resolve.can_name_export(mangling, &export) {
        return String::from_str(alloc, "none").expect(rt, "memory");
    }
    resolve
        .wasm_export_name(alloc, mangling, &export)
        .expect(rt, "memory")
}

const NORMAL: Exported = Exported::Func(WasmExportKind::Normal);

const POST_RETURN: Exported = Exported::Func(WasmExportKind::PostReturn);

const CALLED_BACK: Exported = Exported::Func(WasmExportKind::Callback);

const EXPORTS: [(ManglingAndAbi, bool, Exported, &str); 20] = [
    (
        ManglingAndAbi::Standard32,
        true,
        NORMAL,
        "cm32p2|foo:x/x@0.2|f",
    ),
    (ManglingAndAbi::Standard32, false, NORMAL, "cm32p2||f"),
    (
        ManglingAndAbi::Standard32,
        true,
        POST_RETURN,
        "cm32p2|foo:x/x@0.2|f_post",
    ),
    (SYNC, true, NORMAL, "foo:x/x@0.2.1#f"),
    (SYNC, false, NORMAL, "f"),
    (SYNC, true, POST_RETURN, "cabi_post_foo:x/x@0.2.1#f"),
    (CALLBACK, true, NORMAL, "[async-lift]foo:x/x@0.2.1#f"),
    (
        STACKFUL,
        true,
        NORMAL,
        "[async-lift-stackful]foo:x/x@0.2.1#f",
    ),
    (
        STACKFUL,
        false,
        POST_RETURN,
        "[async-lift-stackful]cabi_post_f",
    ),
    (
        CALLBACK,
        true,
        CALLED_BACK,
        "[callback][async-lift]foo:x/x@0.2.1#f",
    ),
    (CALLBACK, false, CALLED_BACK, "[callback][async-lift]f"),
    (SYNC, true, CALLED_BACK, "none"),
    (STACKFUL, true, CALLED_BACK, "none"),
    (ManglingAndAbi::Standard32, true, CALLED_BACK, "none"),
    (
        ManglingAndAbi::Standard32,
        false,
        Exported::Memory,
        "cm32p2_memory",
    ),
    (
        ManglingAndAbi::Standard32,
        false,
        Exported::Initialize,
        "cm32p2_initialize",
    ),
    (
        ManglingAndAbi::Standard32,
        false,
        Exported::Realloc,
        "cm32p2_realloc",
    ),
    (SYNC, false, Exported::Memory, "memory"),
    (CALLBACK, false, Exported::Initialize, "_initialize"),
    (STACKFUL, false, Exported::Realloc, "cabi_realloc"),
];

#[test]
fn exports_are_named(rt: HostRuntime) {
    for &(mangling, is_of_x, exported, wanted) in &EXPORTS {
        assert_text(
            &rt,
            export_name(&rt, rt.alloc(), mangling, is_of_x, exported),
            wanted,
        );
    }
}
