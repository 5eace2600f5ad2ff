//! Functions of each kind, in an interface.
use crate::parts::{assert_json, docs, list, string, text, type_at, unstable};
use indexmap::IndexMap;
use std::alloc::Global;
use std::process::Abort;
use wit_data::{
    Function, FunctionKind, Interface, Items, Names, PackageId, Param, Span, Type_, TypeId,
};
use wit_graph_data::Graph;

fn function(rt: &impl Abort, alloc: Global, name: &str, kind: FunctionKind) -> Function {
    Function::new(text(rt, alloc, name), kind, Items::new(alloc), None)
}

fn param(rt: &impl Abort, alloc: Global, name: &str, ty: Type_) -> Param {
    Param {
        name: text(rt, alloc, name),
        ty,
        span: Span::unknown(),
    }
}

/// A graph of an interface with these functions, each under its name, and with a type in its table.
fn graph_of<const N: usize>(rt: &impl Abort, alloc: Global, functions: [Function; N]) -> Graph {
    let mut listed = IndexMap::new(alloc);
    for function in Vec::from_array(alloc, functions).expect(rt, "memory") {
        let name = string(rt, alloc, function.name.as_str());
        listed.insert(name, function).expect(rt, "memory");
    }
    let mut interface = Interface::new(alloc, Some(text(rt, alloc, "i")));
    interface.functions = Names::from_map(listed).expect(rt, "memory");
    interface
        .types
        .push(string(rt, alloc, "t"), TypeId::from_index(5))
        .expect(rt, "memory");
    interface.docs = docs(rt, alloc, "I.");
    interface.stability = unstable(rt, alloc, "f", "2.0.0");
    interface.package = Some(PackageId::from_index(1));
    let mut graph = Graph::new(alloc);
    graph.interfaces = list(rt, alloc, [interface, Interface::new(alloc, None)]);
    graph
}

fn whole_function(rt: &impl Abort, alloc: Global) -> Graph {
    let mut f = function(rt, alloc, "f", FunctionKind::Freestanding);
    let a = param(rt, alloc, "a", Type_::String);
    f.params = list(rt, alloc, [a, param(rt, alloc, "b", type_at(2))]);
    f.result_ = Some(Type_::U32);
    f.docs = docs(rt, alloc, "Does.");
    f.stability = unstable(rt, alloc, "fast", "1.0.0+b");
    f.external_id = Some(text(rt, alloc, "x"));
    let g = function(rt, alloc, "g", FunctionKind::AsyncFreestanding);
    graph_of(rt, alloc, [f, g])
}

#[test]
fn interfaces_with_functions_are_written(rt: HostRuntime) {
    assert_json(
        &rt,
        rt.alloc(),
        whole_function(&rt, rt.alloc()),
        "{\"worlds\":[],\"interfaces\":[\
        {\"name\":\"i\",\"types\":{\"t\":5},\"functions\":{\
        \"f\":{\"name\":\"f\",\"kind\":\"freestanding\",\
        \"params\":[{\"name\":\"a\",\"type\":\"string\"},{\"name\":\"b\",\"type\":2}],\"result\":\"u32\",\
        \"docs\":{\"contents\":\"Does.\"},\
        \"stability\":{\"unstable\":{\"feature\":\"fast\",\"deprecated\":\"1.0.0+b\"}}},\
        \"g\":{\"name\":\"g\",\"kind\":\"async-freestanding\",\"params\":[]}},\
        \"docs\":{\"contents\":\"I.\"},\"stability\":{\"unstable\":{\"feature\":\"f\",\"deprecated\":\"2.0.0\"}},\"package\":1},\
        {\"name\":null,\"types\":{},\"functions\":{},\"package\":null}\
        ],\"types\":[],\"packages\":[]}",
    );
}

/// What a kind is written as.
fn written(rt: &impl Abort, alloc: Global, kind: FunctionKind) -> String {
    let mut graph = Graph::new(alloc);
    let mut interface = Interface::new(alloc, None);
    interface
        .functions
        .push(string(rt, alloc, "f"), function(rt, alloc, "f", kind))
        .expect(rt, "memory");
    graph.interfaces = list(rt, alloc, [interface]);
    wit_json::graph_to_json(alloc, &graph).expect(rt, "memory")
}

fn assert_kind(rt: &impl Abort, alloc: Global, kind: FunctionKind, wanted: &str) {
    let text = written(rt, alloc, kind);
    assert!(rt; text.as_str().contains(wanted), "{text}");
}

#[test]
fn kinds_of_functions_are_written(rt: HostRuntime) {
    let id = TypeId::from_index(7);
    for (kind, wanted) in [
        (FunctionKind::Method(id), "\"kind\":{\"method\":7},"),
        (
            FunctionKind::AsyncMethod(id),
            "\"kind\":{\"async-method\":7},",
        ),
        (FunctionKind::Static(id), "\"kind\":{\"static\":7},"),
        (
            FunctionKind::AsyncStatic(id),
            "\"kind\":{\"async-static\":7},",
        ),
        (
            FunctionKind::Constructor(id),
            "\"kind\":{\"constructor\":7},",
        ),
        (FunctionKind::Getter, "\"kind\":\"getter\","),
        (FunctionKind::Setter, "\"kind\":\"setter\","),
        (
            FunctionKind::MethodGetter(id),
            "\"kind\":{\"method-getter\":7},",
        ),
        (
            FunctionKind::MethodSetter(id),
            "\"kind\":{\"method-setter\":7},",
        ),
        (
            FunctionKind::StaticGetter(id),
            "\"kind\":{\"static-getter\":7},",
        ),
        (
            FunctionKind::StaticSetter(id),
            "\"kind\":{\"static-setter\":7},",
        ),
    ] {
        assert_kind(&rt, rt.alloc(), kind, wanted);
    }
}
