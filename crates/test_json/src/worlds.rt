//! Worlds and packages.
use crate::parts::{assert_json, docs, list, names, since, string, table, text, version_or_none};
use std::alloc::Global;
use std::process::Abort;
use wit_data::{
    Docs, Function, FunctionKind, InterfaceId, Items, Names, PackageId, PackageName, Span, Table,
    TypeId, World, WorldId, WorldItem, WorldKey,
};
use wit_graph_data::{Graph, Package};

fn package(rt: &impl Abort, alloc: Global, name: &str, version: &str) -> Package {
    let namespace = text(rt, alloc, "foo");
    let version = version_or_none(rt, alloc, version);
    Package {
        name: PackageName::new(namespace, text(rt, alloc, name), version),
        docs: Docs::none(),
        interfaces: Names::new(alloc),
        worlds: Names::new(alloc),
    }
}

fn first_package(rt: &impl Abort, alloc: Global) -> Package {
    let mut first = package(rt, alloc, "bar", "1.0.0");
    first.docs = docs(rt, alloc, "Bar.");
    let j = (string(rt, alloc, "j"), InterfaceId::from_index(1));
    let i = (string(rt, alloc, "i"), InterfaceId::from_index(0));
    first.interfaces = names(rt, alloc, [j, i]);
    let w = (string(rt, alloc, "w"), WorldId::from_index(0));
    first.worlds = names(rt, alloc, [w]);
    first
}

/// Interface 3 under its key, and type 7 under a label.
fn imports(rt: &impl Abort, alloc: Global) -> Table<WorldKey, WorldItem> {
    let id = InterfaceId::from_index(3);
    let gated = WorldItem::Interface {
        id,
        stability: since(rt, alloc, "0.2.0", ""),
        docs: docs(rt, alloc, "Left out."),
        span: Span::unknown(),
        external_id: Some(text(rt, alloc, "x")),
    };
    let held = WorldItem::Type_ {
        id: TypeId::from_index(7),
        span: Span::unknown(),
    };
    let label = WorldKey::Name(text(rt, alloc, "t"));
    table(rt, alloc, [(WorldKey::Interface(id), gated), (label, held)])
}

/// A function, and interface 10 under a label.
fn exports(rt: &impl Abort, alloc: Global) -> Table<WorldKey, WorldItem> {
    let f = Function::new(
        text(rt, alloc, "f"),
        FunctionKind::Freestanding,
        Items::new(alloc),
        None,
    );
    let function = (WorldKey::Name(text(rt, alloc, "f")), WorldItem::Function(f));
    let inline = WorldItem::interface(InterfaceId::from_index(10));
    let label = WorldKey::Name(text(rt, alloc, "inline"));
    table(rt, alloc, [function, (label, inline)])
}

fn full_world(rt: &impl Abort, alloc: Global) -> World {
    let mut world = World::new(alloc, text(rt, alloc, "w"));
    world.imports = imports(rt, alloc);
    world.exports = exports(rt, alloc);
    world.package = Some(PackageId::from_index(0));
    world.docs = docs(rt, alloc, "W.");
    world.stability = since(rt, alloc, "1.0.0", "");
    world
}

fn worlds_and_packages(rt: &impl Abort, alloc: Global) -> Graph {
    let mut graph = Graph::new(alloc);
    let empty = World::new(alloc, text(rt, alloc, "v"));
    graph.worlds = list(rt, alloc, [full_world(rt, alloc), empty]);
    let second = package(rt, alloc, "baz", "");
    graph.packages = list(rt, alloc, [first_package(rt, alloc), second]);
    graph
}

#[test]
fn worlds_and_packages_are_written(rt: HostRuntime) {
    assert_json(
        &rt,
        rt.alloc(),
        worlds_and_packages(&rt, rt.alloc()),
        "{\"worlds\":[\
        {\"name\":\"w\",\"imports\":{\
        \"interface-3\":{\"interface\":{\"id\":3,\"stability\":{\"stable\":{\"since\":\"0.2.0\"}}}},\"t\":{\"type\":7}},\
        \"exports\":{\"f\":{\"function\":{\"name\":\"f\",\"kind\":\"freestanding\",\"params\":[]}},\
        \"inline\":{\"interface\":{\"id\":10}}},\
        \"package\":0,\"docs\":{\"contents\":\"W.\"},\"stability\":{\"stable\":{\"since\":\"1.0.0\"}}},\
        {\"name\":\"v\",\"imports\":{},\"exports\":{},\"package\":null}\
        ],\"interfaces\":[],\"types\":[],\"packages\":[\
        {\"name\":\"foo:bar@1.0.0\",\"docs\":{\"contents\":\"Bar.\"},\"interfaces\":{\"j\":1,\"i\":0},\"worlds\":{\"w\":0}},\
        {\"name\":\"foo:baz\",\"interfaces\":{},\"worlds\":{}}\
        ]}",
    );
}

#[test]
fn an_empty_graph_is_written(rt: HostRuntime) {
    assert_json(
        &rt,
        rt.alloc(),
        Graph::new(rt.alloc()),
        "{\"worlds\":[],\"interfaces\":[],\"types\":[],\"packages\":[]}",
    );
}
