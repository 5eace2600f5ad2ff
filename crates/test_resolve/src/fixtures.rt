//! Parts of packages, as tests need them.
use indexmap::IndexMap;
use std::alloc::Global;
use std::hash::Hash;
use std::process::Abort;
use wit_data::{
    Docs, Function, FunctionKind, Interface, InterfaceId, Items, Names, PackageId, PackageName,
    Param, Span, Stability, Table, Text, Type_, TypeDef, TypeDefKind, TypeId, TypeOwner, Version,
    World, WorldInclude, WorldItem, WorldKey,
};

/// Ends the test where a text isn't the one that is wanted.
pub fn assert_text(rt: &impl Abort, told: String, wanted: &str) {
    assert_eq!(rt; told.as_str(), wanted);
}

pub fn string(rt: &impl Abort, alloc: Global, text: &str) -> String {
    String::from_str(alloc, text).expect(rt, "memory")
}

pub fn text(rt: &impl Abort, alloc: Global, text: &str) -> Text {
    Text::try_from_str(alloc, text).expect(rt, "memory")
}

/// The text, or nothing where it is empty.
pub fn text_or_none(rt: &impl Abort, alloc: Global, kept: &str) -> Option<Text> {
    match kept {
        "" => None,
        _ => Some(text(rt, alloc, kept)),
    }
}

pub fn list<T: Drop, const N: usize>(rt: &impl Abort, alloc: Global, items: [T; N]) -> Items<T> {
    Items::from_vec(Vec::from_array(alloc, items).expect(rt, "memory"))
}

pub fn version(rt: &impl Abort, alloc: Global, text: &str) -> Version {
    Version::parse(alloc, text).expect(rt, "a version")
}

/// A list of one.
pub fn one<T: Drop>(rt: &impl Abort, alloc: Global, item: T) -> Items<T> {
    let mut items = Items::new(alloc);
    items.push(item).expect(rt, "memory");
    items
}

/// The last of several values under one key stands.
fn mapped<K: Eq + Hash + Drop, V: Drop, const N: usize>(
    rt: &impl Abort,
    alloc: Global,
    entries: [(K, V); N],
) -> IndexMap<K, V> {
    let mut map = IndexMap::new(alloc);
    for (key, value) in Vec::from_array(alloc, entries).expect(rt, "memory") {
        map.insert(key, value).expect(rt, "memory");
    }
    map
}

pub fn table<K: Eq + Hash + Drop, V: Drop, const N: usize>(
    rt: &impl Abort,
    alloc: Global,
    entries: [(K, V); N],
) -> Table<K, V> {
    Table::from_map(mapped(rt, alloc, entries)).expect(rt, "memory")
}

pub fn entries<const N: usize>(
    rt: &impl Abort,
    alloc: Global,
    entries: [(WorldKey, WorldItem); N],
) -> Table<WorldKey, WorldItem> {
    table(rt, alloc, entries)
}

pub fn names<V: Drop, const N: usize>(
    rt: &impl Abort,
    alloc: Global,
    entries: [(String, V); N],
) -> Names<V> {
    Names::from_map(mapped(rt, alloc, entries)).expect(rt, "memory")
}

pub fn package_name(rt: &impl Abort, alloc: Global, namespace: &str, name: &str) -> PackageName {
    let namespace = text(rt, alloc, namespace);
    PackageName::new(namespace, text(rt, alloc, name), None)
}

/// The type at an index.
pub fn type_at(index: usize) -> Type_ {
    Type_::Id(TypeId::from_index(index))
}

/// The owner that is the interface at an index.
pub fn interface_owner(index: usize) -> TypeOwner {
    TypeOwner::Interface(InterfaceId::from_index(index))
}

/// A type, with a name where it isn't empty.
pub fn type_def(
    rt: &impl Abort,
    alloc: Global,
    name: &str,
    kind: TypeDefKind,
    owner: TypeOwner,
) -> TypeDef {
    TypeDef::new(text_or_none(rt, alloc, name), kind, owner)
}

/// A function with one parameter and no result.
pub fn function(
    rt: &impl Abort,
    alloc: Global,
    name: &str,
    kind: FunctionKind,
    parameter: Type_,
) -> Function {
    let param = Param {
        name: text(rt, alloc, "p"),
        ty: parameter,
        span: Span::unknown(),
    };
    let params = one(rt, alloc, param);
    Function::new(text(rt, alloc, name), kind, params, None)
}

/// Types under names.
pub fn listed_types(rt: &impl Abort, alloc: Global, types: &[(&str, usize)]) -> Names<TypeId> {
    let mut listed = IndexMap::new(alloc);
    for (name, index) in types {
        listed
            .insert(string(rt, alloc, name), TypeId::from_index(*index))
            .expect(rt, "memory");
    }
    Names::from_map(listed).expect(rt, "memory")
}

/// An interface, with a name where it isn't empty.
pub fn interface(
    rt: &impl Abort,
    alloc: Global,
    name: &str,
    types: &[(&str, usize)],
    functions: Names<Function>,
    package: Option<PackageId>,
) -> Interface {
    let name = text_or_none(rt, alloc, name);
    let types = listed_types(rt, alloc, types);
    let mut interface = Interface::new(alloc, name);
    interface.types = types;
    interface.functions = functions;
    interface.package = package;
    interface
}

pub fn world(
    rt: &impl Abort,
    alloc: Global,
    name: &str,
    imports: Table<WorldKey, WorldItem>,
    exports: Table<WorldKey, WorldItem>,
    includes: Items<WorldInclude>,
) -> World {
    let name = text(rt, alloc, name);
    let mut world = World::new(alloc, name);
    world.imports = imports;
    world.exports = exports;
    world.includes = includes;
    world
}

/// The entry of an interface without docs and gates.
pub fn interface_item(index: usize) -> WorldItem {
    WorldItem::Interface {
        id: InterfaceId::from_index(index),
        stability: Stability::Unknown,
        docs: Docs::none(),
        span: Span::new(5, 6),
        external_id: None,
    }
}

/// The key of an interface that isn't labelled.
pub fn interface_key(index: usize) -> WorldKey {
    WorldKey::Interface(InterfaceId::from_index(index))
}

/// The key that is a label.
pub fn label(rt: &impl Abort, alloc: Global, name: &str) -> WorldKey {
    WorldKey::Name(text(rt, alloc, name))
}

/// The entry of a function under its label.
pub fn function_entry(
    rt: &impl Abort,
    alloc: Global,
    name: &str,
    function: Function,
) -> (WorldKey, WorldItem) {
    (label(rt, alloc, name), WorldItem::Function(function))
}

/// The entry of a type under its label.
pub fn type_entry(
    rt: &impl Abort,
    alloc: Global,
    name: &str,
    index: usize,
) -> (WorldKey, WorldItem) {
    let id = TypeId::from_index(index);
    let span = Span::unknown();
    (label(rt, alloc, name), WorldItem::Type_ { id, span })
}
