//! What stands beside the layout, and refusals.
use crate::parts::{docs, list, string, table, text};
use std::alloc::Global;
use std::process::Abort;
use wit_data::{
    Field, Function, FunctionKind, Interface, InterfaceId, Names, PackageName, Param, SourceMap,
    Span, Stability, TrackRule, Type_, TypeDef, TypeDefKind, TypeId, TypeOwner, World, WorldItem,
    WorldKey,
};
use wit_graph_data::{Cause, Features, Graph, ResolveError, ResolveErrorKind};
use wit_json::{refusal_to_json, whole_to_json};

fn placed_type(rt: &impl Abort, alloc: Global) -> TypeDef {
    let x = Field {
        name: text(rt, alloc, "x"),
        ty: Type_::U8,
        docs: docs(rt, alloc, "Left out."),
        span: Span::new(5, 6),
    };
    let y = Field {
        name: text(rt, alloc, "y"),
        ty: Type_::U8,
        docs: docs(rt, alloc, ""),
        span: Span::unknown(),
    };
    let kind = TypeDefKind::Record {
        fields: list(rt, alloc, [x, y]),
    };
    let mut made = TypeDef::new(Some(text(rt, alloc, "r")), kind, TypeOwner::None);
    made.span = Span::new(3, 9);
    made.external_id = Some(text(rt, alloc, "rec"));
    made
}

fn placed_function(rt: &impl Abort, alloc: Global) -> Function {
    let a = Param {
        name: text(rt, alloc, "a"),
        ty: Type_::U8,
        span: Span::new(12, 13),
    };
    let mut made = Function::new(
        text(rt, alloc, "f"),
        FunctionKind::Freestanding,
        list(rt, alloc, [a]),
        None,
    );
    made.span = Span::new(11, 20);
    made
}

fn placed_interface(rt: &impl Abort, alloc: Global) -> Interface {
    let mut made = Interface::new(alloc, None);
    made.functions = Names::new(alloc);
    made.functions
        .push(string(rt, alloc, "f"), placed_function(rt, alloc))
        .expect(rt, "memory");
    made.span = Span::new(10, 21);
    made
}

fn placed_world(rt: &impl Abort, alloc: Global) -> World {
    let id = InterfaceId::from_index(0);
    let entry = WorldItem::Interface {
        id,
        stability: Stability::Unknown,
        docs: docs(rt, alloc, "E."),
        span: Span::new(31, 32),
        external_id: Some(text(rt, alloc, "e")),
    };
    let held = WorldItem::Type_ {
        id: TypeId::from_index(0),
        span: Span::unknown(),
    };
    let label = WorldKey::Name(text(rt, alloc, "interface-0"));
    let mut made = World::new(alloc, text(rt, alloc, "w"));
    made.imports = table(rt, alloc, [(WorldKey::Interface(id), entry), (label, held)]);
    made.span = Span::new(30, 40);
    made
}

fn placed_graph(rt: &impl Abort, alloc: Global) -> Graph {
    let mut graph = Graph::new(alloc);
    graph.types = list(rt, alloc, [placed_type(rt, alloc)]);
    graph.interfaces = list(rt, alloc, [placed_interface(rt, alloc)]);
    graph.worlds = list(rt, alloc, [placed_world(rt, alloc)]);
    graph
}

/// What is written of a graph with what stands beside it, from where the layout ends.
fn written_beside(rt: &impl Abort, alloc: Global) -> String {
    let mut features = Features::new(alloc);
    features.names.insert(alloc, "fast").expect(rt, "memory");
    features.names.insert(alloc, "new").expect(rt, "memory");
    let mut files = SourceMap::new(alloc);
    files
        .push_str(alloc, "a.wit", string(rt, alloc, "A"))
        .expect(rt, "room");
    files
        .push_str(alloc, "b.wit", String::new(alloc))
        .expect(rt, "room");
    let written = whole_to_json(
        alloc,
        &placed_graph(rt, alloc),
        &features,
        TrackRule::WithPrereleases,
        &files,
    );
    let written = written.expect(rt, "memory");
    let (_, beside) = written
        .as_str()
        .split_once("\"packages\":[]},")
        .expect(rt, "the end of the layout");
    string(rt, alloc, beside)
}

#[test]
fn what_is_beside_the_layout_is_written(rt: HostRuntime) {
    let written = written_beside(&rt, rt.alloc());
    assert_eq!(&rt;
        written.as_str(),
        "\"details\":{\"worlds\":[{\"span\":[30,40],\"imports\":{\
        \"interface-0\":{\"docs\":{\"contents\":\"E.\"},\"span\":[31,32],\"external-id\":\"e\"},\"%interface-0\":{}},\"exports\":{}}],\
        \"interfaces\":[{\"span\":[10,21],\"functions\":{\"f\":{\"span\":[11,20],\"params\":[[12,13]]}}}],\
        \"types\":[{\"span\":[3,9],\"external-id\":\"rec\",\"parts\":[[5,6],null]}]},\
        \"features\":{\"all\":false,\"names\":[\"fast\",\"new\"]},\"track-rule\":\"with-prereleases\",\
        \"sources\":[{\"path\":\"a.wit\",\"text\":\"A\"},{\"path\":\"b.wit\",\"text\":\"\"}]}"
    );
}

fn assert_refusal(rt: &impl Abort, alloc: Global, kind: ResolveErrorKind, wanted: &str) {
    let refusal = ResolveError::from(kind);
    let written = refusal_to_json(alloc, &refusal).expect(rt, "memory");
    assert_eq!(rt; written.as_str(), wanted);
}

fn missing_world(rt: &impl Abort, alloc: Global) -> ResolveErrorKind {
    ResolveErrorKind::WorldNotFound {
        span: Span::new(3, 4),
        requested: text(rt, alloc, "w"),
        package: PackageName::new(text(rt, alloc, "foo"), text(rt, alloc, "bar"), None),
    }
}

fn told_cause(rt: &impl Abort, alloc: Global, message: &str, cause: Cause) -> ResolveErrorKind {
    ResolveErrorKind::Semantic {
        span: Span::unknown(),
        message: text(rt, alloc, message),
        cause,
    }
}

#[test]
fn refusals_are_written(rt: HostRuntime) {
    let alloc = rt.alloc();
    assert_refusal(
        &rt,
        alloc,
        missing_world(&rt, alloc),
        "{\"number\":2,\"cause\":\"world-not-found\",\"text\":\"world 'w' not found in package 'foo:bar'\",\"span\":[3,4]}",
    );
    assert_refusal(
        &rt,
        alloc,
        told_cause(&rt, alloc, "a \"b\"", Cause::MergeMismatch),
        "{\"number\":24,\"cause\":\"merge-mismatch\",\"text\":\"a \\\"b\\\"\"}",
    );
    assert_refusal(
        &rt,
        alloc,
        ResolveErrorKind::OutOfMemory,
        "{\"number\":28,\"cause\":\"out-of-memory\",\"text\":\"out of memory\"}",
    );
}
