//! Parts of packages built by hand, as tests need them: without docs, gates, spans and external ids, which a test
//! then sets.
use crate::fixtures::{list, string, text, version};
use crate::packages::shown::shown;
use indexmap::IndexMap;
use std::alloc::Global;
use std::process::Abort;
use wit_data::{
    AstItem, Docs, Function, FunctionKind, Interface, InterfaceId, Items, Names, PackageId,
    PackageName, Param, SourceMap, Span, Stability, Table, TryClone, Type_, TypeDef, TypeDefKind,
    TypeId, TypeOwner, UnresolvedPackage, UnresolvedPackageGroup, Version, World, WorldId,
    WorldItem, WorldKey,
};
use wit_graph_data::ResolveResult;
use wit_resolve_graph::{Resolve, Shape};

pub fn docs(rt: &impl Abort, alloc: Global, contents: &str) -> Docs {
    let contents = Some(text(rt, alloc, contents));
    Docs { contents }
}

// ---- lists of what a package holds

pub fn type_list<const N: usize>(
    rt: &impl Abort,
    alloc: Global,
    types: [TypeDef; N],
) -> Items<TypeDef> {
    list(rt, alloc, types)
}

pub fn interface_list<const N: usize>(
    rt: &impl Abort,
    alloc: Global,
    interfaces: [Interface; N],
) -> Items<Interface> {
    list(rt, alloc, interfaces)
}

pub fn world_list<const N: usize>(
    rt: &impl Abort,
    alloc: Global,
    worlds: [World; N],
) -> Items<World> {
    list(rt, alloc, worlds)
}

/// The span of the first such words in a text.
pub fn place(rt: &impl Abort, contents: &str, words: &str) -> Span {
    let start = contents.find(words).expect(rt, "the words");
    let start = u32::try_from(start).expect(rt, "a position");
    let len = u32::try_from(words.len()).expect(rt, "a position");
    match start.checked_add(len) {
        Some(end) => Span::new(start, end),
        None => panic!(rt; "no position"),
    }
}

// ---- gates

/// `@since`, without a deprecation where its text is empty.
pub fn since(rt: &impl Abort, alloc: Global, since: &str, deprecated: &str) -> Stability {
    let since = version(rt, alloc, since);
    let deprecated = version_or_none(rt, alloc, deprecated);
    Stability::Stable { since, deprecated }
}

/// `@unstable`, without a deprecation where its text is empty.
pub fn unstable(rt: &impl Abort, alloc: Global, feature: &str, deprecated: &str) -> Stability {
    let feature = text(rt, alloc, feature);
    let deprecated = version_or_none(rt, alloc, deprecated);
    Stability::Unstable {
        feature,
        deprecated,
    }
}

fn version_or_none(rt: &impl Abort, alloc: Global, text: &str) -> Option<Version> {
    match text {
        "" => None,
        _ => Some(version(rt, alloc, text)),
    }
}

// ---- types and functions

/// A type without an owner and a name.
pub fn unnamed(alloc: Global, kind: TypeDefKind) -> TypeDef {
    TypeDef::new(None, kind, TypeOwner::None)
}

/// A type of an interface.
pub fn named(
    rt: &impl Abort,
    alloc: Global,
    interface: usize,
    name: &str,
    kind: TypeDefKind,
) -> TypeDef {
    let mut def = unnamed(alloc, kind);
    def.name = Some(text(rt, alloc, name));
    def.owner = TypeOwner::Interface(InterfaceId::from_index(interface));
    def
}

/// A type of a world.
pub fn of_world(
    rt: &impl Abort,
    alloc: Global,
    world: usize,
    name: &str,
    kind: TypeDefKind,
) -> TypeDef {
    let mut def = named(rt, alloc, 0, name, kind);
    def.owner = TypeOwner::World(WorldId::from_index(world));
    def
}

/// A parameter.
pub fn param(rt: &impl Abort, alloc: Global, name: &str, ty: Type_) -> Param {
    Param {
        name: text(rt, alloc, name),
        ty,
        span: Span::unknown(),
    }
}

/// A function without parameters and result.
pub fn function(rt: &impl Abort, alloc: Global, name: &str, kind: FunctionKind) -> Function {
    Function::new(text(rt, alloc, name), kind, Items::new(alloc), None)
}

// ---- interfaces and worlds

/// An interface without a name, with these types.
pub fn inline_interface(rt: &impl Abort, alloc: Global, types: &[(&str, usize)]) -> Interface {
    let mut listed = IndexMap::new(alloc);
    for (name, index) in types {
        listed
            .insert(string(rt, alloc, name), TypeId::from_index(*index))
            .expect(rt, "memory");
    }
    let mut made = Interface::new(alloc, None);
    made.types = Names::from_map(listed).expect(rt, "memory");
    made
}

pub fn interface(rt: &impl Abort, alloc: Global, name: &str, types: &[(&str, usize)]) -> Interface {
    let mut made = inline_interface(rt, alloc, types);
    made.name = Some(text(rt, alloc, name));
    made
}

/// Functions, each under its name.
pub fn functions<const N: usize>(
    rt: &impl Abort,
    alloc: Global,
    functions: [Function; N],
) -> Names<Function> {
    let mut listed = IndexMap::new(alloc);
    for function in Vec::from_array(alloc, functions).expect(rt, "memory") {
        let name = string(rt, alloc, function.name.as_str());
        listed.insert(name, function).expect(rt, "memory");
    }
    Names::from_map(listed).expect(rt, "memory")
}

/// A world without entries.
pub fn world(rt: &impl Abort, alloc: Global, name: &str) -> World {
    World::new(alloc, text(rt, alloc, name))
}

pub fn entries<const N: usize>(
    rt: &impl Abort,
    alloc: Global,
    entries: [(WorldKey, WorldItem); N],
) -> Table<WorldKey, WorldItem> {
    let mut listed = IndexMap::new(alloc);
    for (key, item) in Vec::from_array(alloc, entries).expect(rt, "memory") {
        listed.insert(key, item).expect(rt, "memory");
    }
    Table::from_map(listed).expect(rt, "memory")
}

/// The entry of an interface under its own key.
pub fn interface_entry(index: usize) -> (WorldKey, WorldItem) {
    let id = InterfaceId::from_index(index);
    (WorldKey::Interface(id), WorldItem::interface(id))
}

/// The entry of a function.
pub fn function_entry(rt: &impl Abort, alloc: Global, function: Function) -> (WorldKey, WorldItem) {
    let label = WorldKey::Name(text(rt, alloc, function.name.as_str()));
    (label, WorldItem::Function(function))
}

/// The entry of a type of a world.
pub fn type_entry(
    rt: &impl Abort,
    alloc: Global,
    name: &str,
    index: usize,
    span: Span,
) -> (WorldKey, WorldItem) {
    let id = TypeId::from_index(index);
    let label = WorldKey::Name(text(rt, alloc, name));
    (label, WorldItem::Type_ { id, span })
}

// ---- packages

/// `foo:NAME`, without a version where its text is empty.
pub fn package_name(rt: &impl Abort, alloc: Global, name: &str, version: &str) -> PackageName {
    let namespace = text(rt, alloc, "foo");
    let version = version_or_none(rt, alloc, version);
    PackageName::new(namespace, text(rt, alloc, name), version)
}

/// A package with nothing in it.
pub fn package(rt: &impl Abort, alloc: Global, name: &str, version: &str) -> UnresolvedPackage {
    UnresolvedPackage {
        name: package_name(rt, alloc, name, version),
        package_name_span: Span::unknown(),
        docs: Docs::none(),
        worlds: Items::new(alloc),
        interfaces: Items::new(alloc),
        types: Items::new(alloc),
        foreign_deps: Table::new(alloc),
        foreign_dep_spans: Items::new(alloc),
        unknown_type_spans: Items::new(alloc),
        required_resource_types: Items::new(alloc),
    }
}

/// Says that the package names one thing of package `foo:HOME`, at a span, whatever the features.
pub fn name_foreign(
    rt: &impl Abort,
    alloc: Global,
    package: &mut UnresolvedPackage,
    home: &str,
    span: Span,
    item: (&str, AstItem),
) {
    let (name, id) = item;
    let items = foreign_item(rt, alloc, name, id);
    let mut foreign_deps = Table::new(alloc);
    foreign_deps
        .push(package_name(rt, alloc, home, ""), items)
        .expect(rt, "memory");
    package.foreign_deps = foreign_deps;
    package.foreign_dep_spans.push(span).expect(rt, "memory");
}

fn foreign_item(
    rt: &impl Abort,
    alloc: Global,
    name: &str,
    id: AstItem,
) -> Names<(AstItem, Items<Stability>)> {
    let notes = list(rt, alloc, [Stability::Unknown]);
    let mut items = Names::new(alloc);
    items
        .push(string(rt, alloc, name), (id, notes))
        .expect(rt, "memory");
    items
}

/// Package `foo:first` with interface `things`, whose type `item` is `u32`.
pub fn first_package(rt: &impl Abort, alloc: Global) -> UnresolvedPackage {
    let mut first = package(rt, alloc, "first", "");
    let item = named(rt, alloc, 0, "item", TypeDefKind::Type_(Type_::U32));
    first.types = type_list(rt, alloc, [item]);
    first.interfaces = interface_list(rt, alloc, [interface(rt, alloc, "things", &[("item", 0)])]);
    first
}

/// A file before which nothing stands.
pub fn file(rt: &impl Abort, alloc: Global, path: &str, contents: &str) -> SourceMap {
    let mut map = SourceMap::new(alloc);
    map.push_str(alloc, path, string(rt, alloc, contents))
        .expect(rt, "memory");
    map
}

/// A package with its file.
pub fn group(
    rt: &impl Abort,
    alloc: Global,
    path: &str,
    contents: &str,
    main: UnresolvedPackage,
) -> UnresolvedPackageGroup {
    UnresolvedPackageGroup {
        main,
        nested: Items::new(alloc),
        source_map: file(rt, alloc, path, contents),
    }
}

/// Pushes a copy of a package, its spans moved so far.
pub fn push(
    rt: &impl Abort,
    alloc: Global,
    resolve: &mut Resolve,
    package: &UnresolvedPackage,
    offset: u32,
) {
    let copy = package.try_clone().expect(rt, "memory");
    assert!(rt; copy.is_shaped(alloc).expect(rt, "memory"));
    resolve.push(alloc, copy, offset).expect(rt, "a package");
    assert!(rt; resolve.assert_valid(alloc).expect(rt, "memory"));
}

/// The graph of a copy.
pub fn shown_copy(rt: &impl Abort, alloc: Global, resolve: &Resolve) -> String {
    let copy = resolve.try_clone().expect(rt, "memory");
    shown(rt, alloc, copy.graph())
}

/// What a push of a group answers.
pub fn push_group(
    rt: &impl Abort,
    alloc: Global,
    resolve: &mut Resolve,
    group: UnresolvedPackageGroup,
) -> ResolveResult<PackageId> {
    assert!(rt; group.is_shaped(alloc).expect(rt, "memory"));
    resolve.push_group(alloc, group)
}
