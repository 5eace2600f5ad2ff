//! The names in core wasm of what is done with resources, and what has none.
ghost use Rattle.wit_data.specs.Kind.{type_references};
ghost use Rattle.wit_digraph.specs.Relation.{IsAcyclic};

use crate::fixtures::{
    assert_text, interface, interface_key, interface_owner, one, text, type_def,
};
use std::alloc::Global;
use std::process::Abort;
use wit_core_names::{
    ResourceIntrinsic, WasmExport, WasmImport, can_name_export, can_name_import, wasm_export_name,
    wasm_import_name,
};
use wit_data::{
    Docs, Interface, Items, LiftLowerAbi, ManglingAndAbi, Names, PackageId, PackageName, Table,
    Type_, TypeDef, TypeDefKind, TypeId, TypeOwner, Version, type_references,
};
use wit_digraph::is_acyclic;
use wit_graph_data::{Graph, Package};

const SYNC: ManglingAndAbi = ManglingAndAbi::Legacy(LiftLowerAbi::Sync);

const CALLBACK: ManglingAndAbi = ManglingAndAbi::Legacy(LiftLowerAbi::AsyncCallback);

const STACKFUL: ManglingAndAbi = ManglingAndAbi::Legacy(LiftLowerAbi::AsyncStackful);

/// The ids of interface `x` and of the one without a name.
const X: Option<usize> = Some(0);

const UNNAMED: Option<usize> = Some(1);

/// Resource `r` of interface `x`, and a type without a name.
fn types(rt: &impl Abort, alloc: Global) -> Items<TypeDef> {
    let resource = type_def(rt, alloc, "r", TypeDefKind::Resource, interface_owner(0));
    let mut types = one(rt, alloc, resource);
    let list = TypeDefKind::List(Type_::U8);
    types
        .push(type_def(rt, alloc, "", list, TypeOwner::None))
        .expect(rt, "memory");
    types
}

/// The only package.
fn home() -> Option<PackageId> {
    Some(PackageId::from_index(0))
}

/// Interface `x`, and one without a name.
fn interfaces(rt: &impl Abort, alloc: Global) -> Items<Interface> {
    let x = interface(rt, alloc, "x", &[("r", 0)], Names::new(alloc), home());
    let mut interfaces = one(rt, alloc, x);
    interfaces
        .push(interface(rt, alloc, "", &[], Names::new(alloc), home()))
        .expect(rt, "memory");
    interfaces
}

/// Package `foo:x@0.2.1`.
fn package(rt: &impl Abort, alloc: Global) -> Package {
    let version = Version::parse(alloc, "0.2.1").expect(rt, "a version");
    let (namespace, name) = (text(rt, alloc, "foo"), text(rt, alloc, "x"));
    Package {
        name: PackageName::new(namespace, name, Some(version)),
        docs: Docs::none(),
        interfaces: Names::new(alloc),
        worlds: Names::new(alloc),
    }
}

fn graph(rt: &impl Abort, alloc: Global) -> Graph {
    let types = types(rt, alloc);
    let interfaces = interfaces(rt, alloc);
    let packages = one(rt, alloc, package(rt, alloc));
    Graph {
        types,
        interfaces,
        worlds: Items::new(alloc),
        packages,
        package_names: Table::new(alloc),
    }
}

/// Ends the test where a type refers to itself.
fn assert_acyclic(rt: &impl Abort, alloc: Global, graph: &Graph)
    ensures { IsAcyclic (type_references graph.now.types) }
{
    let references = type_references(alloc, graph.types.as_slice()).expect(rt, "memory");
    assert!(rt; is_acyclic(alloc, references.as_slice()).expect(rt, "memory"));
}

/// The module and the field of what is done with a resource of an interface, or `none`.
fn import_name(
    rt: &impl Abort,
    alloc: Global,
    mangling: ManglingAndAbi,
    interface: Option<usize>,
    resource: usize,
    intrinsic: ResourceIntrinsic,
) -> String {
    let graph = graph(rt, alloc);
    assert_acyclic(rt, alloc, &graph);
    let key = interface.map(interface_key);
    let import = WasmImport::ResourceIntrinsic {
        interface: key.as_ref(),
        resource: TypeId::from_index(resource),
        intrinsic,
    };
    let is_named = can_name_import(alloc, &graph, mangling, &import).expect(rt, "memory");
    if !is_named {
        return String::from_str(alloc, "none").expect(rt, "memory");
    }
    let (module, field) = wasm_import_name(alloc, &graph, mangling, &import).expect(rt, "memory");
    format!(in alloc; "{module} {field}").expect(rt, "memory")
}

type ImportName = (
    ManglingAndAbi,
    Option<usize>,
    usize,
    ResourceIntrinsic,
    &'static str,
);

const IMPORTS: [ImportName; 14] = [
    (
        ManglingAndAbi::Standard32,
        X,
        0,
        ResourceIntrinsic::ImportedDrop,
        "cm32p2|foo:x/x@0.2 r_drop",
    ),
    (
        ManglingAndAbi::Standard32,
        None,
        0,
        ResourceIntrinsic::ImportedDrop,
        "cm32p2 r_drop",
    ),
    (
        ManglingAndAbi::Standard32,
        X,
        0,
        ResourceIntrinsic::ExportedDrop,
        "cm32p2|_ex_foo:x/x@0.2 r_drop",
    ),
    (
        ManglingAndAbi::Standard32,
        X,
        0,
        ResourceIntrinsic::ExportedNew,
        "cm32p2|_ex_foo:x/x@0.2 r_new",
    ),
    (
        ManglingAndAbi::Standard32,
        X,
        0,
        ResourceIntrinsic::ExportedRep,
        "cm32p2|_ex_foo:x/x@0.2 r_rep",
    ),
    (
        SYNC,
        X,
        0,
        ResourceIntrinsic::ImportedDrop,
        "foo:x/x@0.2.1 [resource-drop]r",
    ),
    (
        CALLBACK,
        None,
        0,
        ResourceIntrinsic::ImportedDrop,
        "$root [async-lower][resource-drop]r",
    ),
    (
        SYNC,
        X,
        0,
        ResourceIntrinsic::ExportedDrop,
        "[export]foo:x/x@0.2.1 [resource-drop]r",
    ),
    (
        STACKFUL,
        X,
        0,
        ResourceIntrinsic::ExportedNew,
        "[export]foo:x/x@0.2.1 [async-lower][resource-new]r",
    ),
    (
        CALLBACK,
        X,
        0,
        ResourceIntrinsic::ExportedRep,
        "[export]foo:x/x@0.2.1 [async-lower][resource-rep]r",
    ),
    (
        ManglingAndAbi::Standard32,
        None,
        0,
        ResourceIntrinsic::ExportedNew,
        "none",
    ),
    (SYNC, None, 0, ResourceIntrinsic::ExportedRep, "none"),
    (
        ManglingAndAbi::Standard32,
        UNNAMED,
        0,
        ResourceIntrinsic::ImportedDrop,
        "none",
    ),
    (SYNC, X, 1, ResourceIntrinsic::ImportedDrop, "none"),
];

#[test]
fn resources_are_named(rt: HostRuntime) {
    for &(mangling, interface, resource, intrinsic, wanted) in &IMPORTS {
        assert_text(
            &rt,
            import_name(&rt, rt.alloc(), mangling, interface, resource, intrinsic),
            wanted,
        );
    }
}

/// The name of what is called when the last handle of a resource is dropped, or `none`.
fn dtor_name(
    rt: &impl Abort,
    alloc: Global,
    mangling: ManglingAndAbi,
    interface: usize,
    resource: usize,
) -> String {
    let graph = graph(rt, alloc);
    let key = interface_key(interface);
    let export = WasmExport::ResourceDtor {
        interface: &key,
        resource: TypeId::from_index(resource),
    };
    if !can_name_export(&graph, mangling, &export) {
        return String::from_str(alloc, "none").expect(rt, "memory");
    }
    wasm_export_name(alloc, &graph, mangling, &export).expect(rt, "memory")
}

const DTORS: [(ManglingAndAbi, usize, usize, &str); 5] = [
    (
        ManglingAndAbi::Standard32,
        0,
        0,
        "cm32p2|foo:x/x@0.2|r_dtor",
    ),
    (SYNC, 0, 0, "foo:x/x@0.2.1#[dtor]r"),
    (STACKFUL, 0, 0, "[async-lift-stackful]foo:x/x@0.2.1#[dtor]r"),
    (SYNC, 1, 0, "none"),
    (ManglingAndAbi::Standard32, 0, 1, "none"),
];

#[test]
fn destructors_are_named(rt: HostRuntime) {
    for &(mangling, interface, resource, wanted) in &DTORS {
        assert_text(
            &rt,
            dtor_name(&rt, rt.alloc(), mangling, interface, resource),
            wanted,
        );
    }
}
