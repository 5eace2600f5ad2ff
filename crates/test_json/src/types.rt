//! Types of each kind.
use crate::parts::{assert_json, docs, list, since, text, type_at, unnamed, unstable};
use std::alloc::Global;
use std::process::Abort;
use wit_data::{
    Case, EnumCase, Field, Flag, Handle, InterfaceId, Items, Span, Type_, TypeDef, TypeDefKind,
    TypeId, TypeOwner, WorldId,
};
use wit_graph_data::Graph;

fn graph_of_types<const N: usize>(rt: &impl Abort, alloc: Global, types: [TypeDef; N]) -> Graph {
    let mut graph = Graph::new(alloc);
    graph.types = list(rt, alloc, types);
    graph
}

fn field(rt: &impl Abort, alloc: Global, name: &str, ty: Type_, contents: &str) -> Field {
    Field {
        name: text(rt, alloc, name),
        ty,
        docs: docs(rt, alloc, contents),
        span: Span::unknown(),
    }
}

fn case(rt: &impl Abort, alloc: Global, name: &str, ty: Option<Type_>, contents: &str) -> Case {
    Case {
        name: text(rt, alloc, name),
        ty,
        docs: docs(rt, alloc, contents),
        span: Span::unknown(),
    }
}

fn flag(rt: &impl Abort, alloc: Global, name: &str, contents: &str) -> Flag {
    Flag {
        name: text(rt, alloc, name),
        docs: docs(rt, alloc, contents),
        span: Span::unknown(),
    }
}

fn enum_case(rt: &impl Abort, alloc: Global, name: &str, contents: &str) -> EnumCase {
    EnumCase {
        name: text(rt, alloc, name),
        docs: docs(rt, alloc, contents),
        span: Span::unknown(),
    }
}

fn resource(rt: &impl Abort, alloc: Global) -> TypeDef {
    let owner = TypeOwner::Interface(InterfaceId::from_index(12));
    let mut made = TypeDef::new(Some(text(rt, alloc, "r")), TypeDefKind::Resource, owner);
    made.docs = docs(rt, alloc, "A \"resource\".\n");
    made.stability = since(rt, alloc, "1.0.0", "1.2.0-rc.1");
    made.span = Span::new(3, 4);
    made.external_id = Some(text(rt, alloc, "res"));
    made
}

fn alias(rt: &impl Abort, alloc: Global) -> TypeDef {
    let owner = TypeOwner::World(WorldId::from_index(3));
    let kind = TypeDefKind::Type_(type_at(0));
    let mut made = TypeDef::new(Some(text(rt, alloc, "s")), kind, owner);
    made.stability = unstable(rt, alloc, "fast", "");
    made
}

fn named_kinds(rt: &impl Abort, alloc: Global) -> Graph {
    graph_of_types(rt, alloc, [resource(rt, alloc), alias(rt, alloc)])
}

#[test]
fn names_owners_docs_and_gates_are_written(rt: HostRuntime) {
    assert_json(
        &rt,
        rt.alloc(),
        named_kinds(&rt, rt.alloc()),
        "{\"worlds\":[],\"interfaces\":[],\"types\":[\
        {\"name\":\"r\",\"kind\":\"resource\",\"owner\":{\"interface\":12},\
        \"docs\":{\"contents\":\"A \\\"resource\\\".\\n\"},\
        \"stability\":{\"stable\":{\"since\":\"1.0.0\",\"deprecated\":\"1.2.0-rc.1\"}}},\
        {\"name\":\"s\",\"kind\":{\"type\":0},\"owner\":{\"world\":3},\
        \"stability\":{\"unstable\":{\"feature\":\"fast\"}}}\
        ],\"packages\":[]}",
    );
}

fn listed_kinds(rt: &impl Abort, alloc: Global) -> Graph {
    let x = field(rt, alloc, "x", Type_::U32, "Across.");
    let home = field(rt, alloc, "home", type_at(7), "");
    let fields = list(rt, alloc, [x, home]);
    let read = flag(rt, alloc, "read", "May read.");
    let flags = list(rt, alloc, [read, flag(rt, alloc, "write", "")]);
    let types = list(rt, alloc, [Type_::U8, Type_::ErrorContext]);
    let full = case(rt, alloc, "full", Some(Type_::F64), "");
    let cases = list(
        rt,
        alloc,
        [full, case(rt, alloc, "empty", None, "Nothing.")],
    );
    let red = enum_case(rt, alloc, "red", "As blood.");
    let colors = list(rt, alloc, [red, enum_case(rt, alloc, "green", "")]);
    graph_of_types(
        rt,
        alloc,
        [
            unnamed(TypeDefKind::Record { fields }),
            unnamed(TypeDefKind::Flags { flags }),
            unnamed(TypeDefKind::Tuple { types }),
            unnamed(TypeDefKind::Variant { cases }),
            unnamed(TypeDefKind::Enum { cases: colors }),
            unnamed(TypeDefKind::Record {
                fields: Items::new(alloc),
            }),
        ],
    )
}

#[test]
fn kinds_with_lists_are_written(rt: HostRuntime) {
    assert_json(
        &rt,
        rt.alloc(),
        listed_kinds(&rt, rt.alloc()),
        "{\"worlds\":[],\"interfaces\":[],\"types\":[\
        {\"name\":null,\"kind\":{\"record\":{\"fields\":[\
        {\"name\":\"x\",\"type\":\"u32\",\"docs\":{\"contents\":\"Across.\"}},{\"name\":\"home\",\"type\":7}]}},\"owner\":null},\
        {\"name\":null,\"kind\":{\"flags\":{\"flags\":[\
        {\"name\":\"read\",\"docs\":{\"contents\":\"May read.\"}},{\"name\":\"write\"}]}},\"owner\":null},\
        {\"name\":null,\"kind\":{\"tuple\":{\"types\":[\"u8\",\"error-context\"]}},\"owner\":null},\
        {\"name\":null,\"kind\":{\"variant\":{\"cases\":[\
        {\"name\":\"full\",\"type\":\"f64\"},{\"name\":\"empty\",\"type\":null,\"docs\":{\"contents\":\"Nothing.\"}}]}},\"owner\":null},\
        {\"name\":null,\"kind\":{\"enum\":{\"cases\":[\
        {\"name\":\"red\",\"docs\":{\"contents\":\"As blood.\"}},{\"name\":\"green\"}]}},\"owner\":null},\
        {\"name\":null,\"kind\":{\"record\":{\"fields\":[]}},\"owner\":null}\
        ],\"packages\":[]}",
    );
}

fn handles_and_results(rt: &impl Abort, alloc: Global) -> Graph {
    let err = Some(Type_::String);
    let ok = Some(type_at(1));
    graph_of_types(
        rt,
        alloc,
        [
            unnamed(TypeDefKind::Handle(Handle::Own(TypeId::from_index(4)))),
            unnamed(TypeDefKind::Handle(Handle::Borrow(TypeId::from_index(5)))),
            unnamed(TypeDefKind::Result_ { ok: None, err }),
            unnamed(TypeDefKind::Result_ { ok, err: None }),
            unnamed(TypeDefKind::Unknown),
        ],
    )
}

#[test]
fn handles_and_results_are_written(rt: HostRuntime) {
    assert_json(
        &rt,
        rt.alloc(),
        handles_and_results(&rt, rt.alloc()),
        "{\"worlds\":[],\"interfaces\":[],\"types\":[\
        {\"name\":null,\"kind\":{\"handle\":{\"own\":4}},\"owner\":null},\
        {\"name\":null,\"kind\":{\"handle\":{\"borrow\":5}},\"owner\":null},\
        {\"name\":null,\"kind\":{\"result\":{\"ok\":null,\"err\":\"string\"}},\"owner\":null},\
        {\"name\":null,\"kind\":{\"result\":{\"ok\":1,\"err\":null}},\"owner\":null},\
        {\"name\":null,\"kind\":\"unknown\",\"owner\":null}\
        ],\"packages\":[]}",
    );
}

fn kinds_of_types(rt: &impl Abort, alloc: Global) -> Graph {
    graph_of_types(
        rt,
        alloc,
        [
            unnamed(TypeDefKind::Option(Type_::Bool)),
            unnamed(TypeDefKind::List(Type_::S8)),
            unnamed(TypeDefKind::Map(Type_::Char, Type_::S16)),
            unnamed(TypeDefKind::FixedLengthList(Type_::U16, 4)),
            unnamed(TypeDefKind::Future(None)),
            unnamed(TypeDefKind::Future(Some(Type_::S32))),
            unnamed(TypeDefKind::Stream(Some(Type_::S64))),
            unnamed(TypeDefKind::Stream(None)),
            unnamed(TypeDefKind::Type_(Type_::U64)),
            unnamed(TypeDefKind::Type_(Type_::F32)),
        ],
    )
}

#[test]
fn kinds_of_types_are_written(rt: HostRuntime) {
    assert_json(
        &rt,
        rt.alloc(),
        kinds_of_types(&rt, rt.alloc()),
        "{\"worlds\":[],\"interfaces\":[],\"types\":[\
        {\"name\":null,\"kind\":{\"option\":\"bool\"},\"owner\":null},\
        {\"name\":null,\"kind\":{\"list\":\"s8\"},\"owner\":null},\
        {\"name\":null,\"kind\":{\"map\":[\"char\",\"s16\"]},\"owner\":null},\
        {\"name\":null,\"kind\":{\"fixed-length-list\":[\"u16\",4]},\"owner\":null},\
        {\"name\":null,\"kind\":{\"future\":null},\"owner\":null},\
        {\"name\":null,\"kind\":{\"future\":\"s32\"},\"owner\":null},\
        {\"name\":null,\"kind\":{\"stream\":\"s64\"},\"owner\":null},\
        {\"name\":null,\"kind\":{\"stream\":null},\"owner\":null},\
        {\"name\":null,\"kind\":{\"type\":\"u64\"},\"owner\":null},\
        {\"name\":null,\"kind\":{\"type\":\"f32\"},\"owner\":null}\
        ],\"packages\":[]}",
    );
}
