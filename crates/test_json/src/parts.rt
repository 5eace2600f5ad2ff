//! Graphs built by hand, and what is asked of them.
use indexmap::IndexMap;
use std::alloc::Global;
use std::hash::Hash;
use std::process::Abort;
use wit_data::{
    Docs, Items, Names, Stability, Table, Text, Type_, TypeDef, TypeDefKind, TypeId, TypeOwner,
    Version,
};
use wit_graph_data::Graph;
use wit_json::graph_to_json;

/// Ends the test where a graph isn't written as is wanted.
pub fn assert_json(rt: &impl Abort, alloc: Global, graph: Graph, wanted: &str) {
    let text = graph_to_json(alloc, &graph).expect(rt, "memory");
    assert_eq!(rt; text.as_str(), wanted);
}

pub fn string(rt: &impl Abort, alloc: Global, text: &str) -> String {
    String::from_str(alloc, text).expect(rt, "memory")
}

pub fn text(rt: &impl Abort, alloc: Global, text: &str) -> Text {
    Text::try_from_str(alloc, text).expect(rt, "memory")
}

/// Docs, none where their text is empty.
pub fn docs(rt: &impl Abort, alloc: Global, contents: &str) -> Docs {
    match contents {
        "" => Docs::none(),
        _ => Docs {
            contents: Some(text(rt, alloc, contents)),
        },
    }
}

pub fn list<T: Drop, const N: usize>(rt: &impl Abort, alloc: Global, items: [T; N]) -> Items<T> {
    Items::from_vec(Vec::from_array(alloc, items).expect(rt, "memory"))
}

/// The last of several values under one key stands.
fn mapped<K: Eq + Hash + Drop, V: Drop, const N: usize>(
    rt: &impl Abort,
    alloc: Global,
    entries: [(K, V); N],
) -> IndexMap<K, V> {
    let mut map = IndexMap::new(alloc);
    for (key, value) in Vec::from_array(alloc, entries).expect(rt, "memory") {
        map.insert(key, value).expect(rt, "memory");
    }
    map
}

pub fn table<K: Eq + Hash + Drop, V: Drop, const N: usize>(
    rt: &impl Abort,
    alloc: Global,
    entries: [(K, V); N],
) -> Table<K, V> {
    Table::from_map(mapped(rt, alloc, entries)).expect(rt, "memory")
}

pub fn names<V: Drop, const N: usize>(
    rt: &impl Abort,
    alloc: Global,
    entries: [(String, V); N],
) -> Names<V> {
    Names::from_map(mapped(rt, alloc, entries)).expect(rt, "memory")
}

pub fn version(rt: &impl Abort, alloc: Global, text: &str) -> Version {
    Version::parse(alloc, text).expect(rt, "a version")
}

/// `@since`, without a deprecation where its text is empty.
pub fn since(rt: &impl Abort, alloc: Global, since: &str, deprecated: &str) -> Stability {
    let since = version(rt, alloc, since);
    let deprecated = version_or_none(rt, alloc, deprecated);
    Stability::Stable { since, deprecated }
}

/// `@unstable`, without a deprecation where its text is empty.
pub fn unstable(rt: &impl Abort, alloc: Global, feature: &str, deprecated: &str) -> Stability {
    let feature = text(rt, alloc, feature);
    let deprecated = version_or_none(rt, alloc, deprecated);
    Stability::Unstable {
        feature,
        deprecated,
    }
}

pub fn version_or_none(rt: &impl Abort, alloc: Global, text: &str) -> Option<Version> {
    match text {
        "" => None,
        _ => Some(version(rt, alloc, text)),
    }
}

/// The type at an index.
pub fn type_at(index: usize) -> Type_ {
    Type_::Id(TypeId::from_index(index))
}

/// A type without an owner and a name.
pub fn unnamed(kind: TypeDefKind) -> TypeDef {
    TypeDef::new(None, kind, TypeOwner::None)
}
