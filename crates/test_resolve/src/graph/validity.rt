//! A valid graph, and for each clause of validity a graph that breaks it. That no key of a table comes twice
//! can't be broken, since a table doesn't take a key twice.
use crate::fixtures::{
    assert_text, function, interface, interface_key, interface_owner, label, one, package_name,
    string, type_at, type_def, world,
};
use indexmap::IndexMap;
use std::alloc::Global;
use std::process::Abort;
use wit_data::{
    Docs, Function, FunctionKind, Interface, InterfaceId, Items, Names, PackageId, PackageName,
    Span, Stability, Table, Type_, TypeDef, TypeDefKind, TypeId, TypeOwner, World, WorldId,
    WorldInclude, WorldItem, WorldKey,
};
use wit_graph_data::{Graph, Package};
use wit_graph_faults::find_graph_fault;
use wit_validity::is_valid;

/// What is changed of a valid graph.
#[derive(Clone, Copy, Debug, PartialEq, Eq)]
pub(crate) enum Breach {
    Nothing,
    NameOfOther,
    PackageNotNamed,
    InterfaceNotInTable,
    InterfaceWithoutPackage,
    WorldNotInTable,
    InterfaceInOtherTable,
    WorldInOtherTable,
    NamespaceNotKebab,
    PackageNotKebab,
    InterfaceNotKebab,
    TypeNotListed,
    OwnerWithoutName,
    NameWithoutOwner,
    TypeOfOtherListed,
    FunctionUnderOtherName,
    AliasOfUnnamed,
    UnnamedAlias,
    PartOfOther,
    ParameterOfOther,
    ImportUnderOtherName,
    ExportUnderOtherName,
    ImportTakesOther,
    ExportTakesOther,
    UnnamedInTwoPlaces,
    UnnamedOfOtherImported,
    UnnamedOfOtherExported,
    Includes,
    KindUnknown,
    InterfaceUsesItself,
    TypeRefersToItself,
    PackageDependsOnItself,
    UserBeforeUsed,
    TypeNotThere,
    InterfaceNotThere,
    ExportsInConflict,
}

/// Each breach, and why the graph isn't valid then.
const BREACHES: [(Breach, &str); 35] = [
    (
        Breach::NameOfOther,
        "entry 2 among the names of packages names a package that isn't there or has another name",
    ),
    (
        Breach::PackageNotNamed,
        "package 1 isn't listed under its name",
    ),
    (
        Breach::InterfaceNotInTable,
        "interface 3 has no package, or isn't in the table of its package under its name",
    ),
    (
        Breach::InterfaceWithoutPackage,
        "interface 4 has no package, or isn't in the table of its package under its name",
    ),
    (
        Breach::WorldNotInTable,
        "world 0 has no package, or isn't in the table of its package under its name",
    ),
    (
        Breach::InterfaceInOtherTable,
        "entry 1 among the interfaces of package 1 is no interface of that name in that package",
    ),
    (
        Breach::WorldInOtherTable,
        "entry 0 among the worlds of package 1 is no world of that name in that package",
    ),
    (
        Breach::NamespaceNotKebab,
        "package 0 has a namespace that is no kebab name",
    ),
    (
        Breach::PackageNotKebab,
        "package 0 has a name that is no kebab name",
    ),
    (
        Breach::InterfaceNotKebab,
        "interface 3 has a name that is no kebab name",
    ),
    (
        Breach::TypeNotListed,
        "type 5 has an owner that doesn't list it under its name, or a name without an owner",
    ),
    (
        Breach::OwnerWithoutName,
        "type 5 has an owner that doesn't list it under its name, or a name without an owner",
    ),
    (
        Breach::NameWithoutOwner,
        "type 6 has an owner that doesn't list it under its name, or a name without an owner",
    ),
    (
        Breach::TypeOfOtherListed,
        "entry 1 among the types of interface 3 is no type of that name that the interface owns",
    ),
    (
        Breach::FunctionUnderOtherName,
        "function 0 of interface 0 stands under another name",
    ),
    (
        Breach::AliasOfUnnamed,
        "type 2 is an alias of no named type of its owner, and of none of a named interface",
    ),
    (
        Breach::UnnamedAlias,
        "type 1 has no name, and is an alias or a resource",
    ),
    (
        Breach::PartOfOther,
        "type 2 refers to a type of another owner, other than as an alias",
    ),
    (
        Breach::ParameterOfOther,
        "function 0 of interface 0 refers to a type that the interface doesn't own, or that isn't there",
    ),
    (
        Breach::ImportUnderOtherName,
        "import 4 of world 0 may not stand under its key",
    ),
    (
        Breach::ExportUnderOtherName,
        "export 0 of world 0 may not stand under its key",
    ),
    (
        Breach::ImportTakesOther,
        "import 4 of world 0 refers to a type that the world doesn't own, or that isn't there",
    ),
    (
        Breach::ExportTakesOther,
        "export 0 of world 0 refers to a type that the world doesn't own, or that isn't there",
    ),
    (
        Breach::UnnamedInTwoPlaces,
        "interface 2 has no name and stands in two places of worlds",
    ),
    (
        Breach::UnnamedOfOtherImported,
        "import 2 of world 0 is an interface without a name of another package",
    ),
    (
        Breach::UnnamedOfOtherExported,
        "export 1 of world 0 is an interface without a name of another package",
    ),
    (Breach::Includes, "world 0 has includes"),
    (Breach::KindUnknown, "type 5 is of an unknown kind"),
    (
        Breach::InterfaceUsesItself,
        "interface 4 uses itself, through whatever others",
    ),
    (
        Breach::TypeRefersToItself,
        "type 1 refers to itself, through whatever others",
    ),
    (
        Breach::PackageDependsOnItself,
        "package 1 depends on itself, through whatever others",
    ),
    (Breach::UserBeforeUsed, "world 0 isn't its own elaboration"),
    (
        Breach::TypeNotThere,
        "type 1 refers to a type that isn't there",
    ),
    (
        Breach::InterfaceNotThere,
        "entry 1 among the interfaces of package 1 is no interface of that name in that package",
    ),
    (
        Breach::ExportsInConflict,
        "world 0 isn't its own elaboration",
    ),
];

/// The ids of packages `foo:bar` and `foo:baz`.
const BAR: usize = 0;

const BAZ: usize = 1;

/// Whether the graph with this change is valid.
fn is_valid_with(rt: &impl Abort, alloc: Global, breach: Breach) -> bool {
    let graph = graph(rt, alloc, breach);
    is_valid(alloc, &graph).expect(rt, "memory")
}

#[test]
fn each_clause_of_validity_is_asked(rt: HostRuntime) {
    assert_eq!(rt; is_valid_with(&rt, rt.alloc(), Breach::Nothing), true);
    for &(breach, _) in &BREACHES {
        assert_eq!(rt; is_valid_with(&rt, rt.alloc(), breach), false, "{breach:?}");
    }
}

/// Why the graph with this change isn't valid, or nothing.
fn fault_with(rt: &impl Abort, alloc: Global, breach: Breach) -> String {
    let graph = graph(rt, alloc, breach);
    match find_graph_fault(alloc, &graph).expect(rt, "memory") {
        Some(fault) => format!(in alloc; "{fault}").expect(rt, "memory"),
        None => String::new(alloc),
    }
}

#[test]
fn faults_of_graphs_are_told(rt: HostRuntime) {
    assert_text(&rt, fault_with(&rt, rt.alloc(), Breach::Nothing), "");
    for &(breach, wanted) in &BREACHES {
        assert_text(&rt, fault_with(&rt, rt.alloc(), breach), wanted);
    }
}

/// Package `foo:bar` with interfaces `a`, `b`, which uses `a`, and one without a name, and world `w`, which
/// imports them; and package `foo:baz` with interface `d`.
pub(crate) fn graph(rt: &impl Abort, alloc: Global, breach: Breach) -> Graph {
    let types = types(rt, alloc, breach);
    let interfaces = interfaces(rt, alloc, breach);
    let worlds = one(rt, alloc, world_w(rt, alloc, breach));
    let packages = packages(rt, alloc, breach);
    let package_names = package_names(rt, alloc, breach);
    Graph {
        types,
        interfaces,
        worlds,
        packages,
        package_names,
    }
}

/// The name of `foo:bar`.
fn name_of_bar(rt: &impl Abort, alloc: Global, breach: Breach) -> PackageName {
    match breach {
        Breach::NamespaceNotKebab => package_name(rt, alloc, "foo-", "bar"),
        Breach::PackageNotKebab => package_name(rt, alloc, "foo", "1bar"),
        _ => package_name(rt, alloc, "foo", "bar"),
    }
}

fn package_names(rt: &impl Abort, alloc: Global, breach: Breach) -> Table<PackageName, PackageId> {
    let mut names = Table::new(alloc);
    name_package(rt, &mut names, name_of_bar(rt, alloc, breach), 0);
    if breach != Breach::PackageNotNamed {
        name_package(rt, &mut names, package_name(rt, alloc, "foo", "baz"), 1);
    }
    if breach == Breach::NameOfOther {
        name_package(rt, &mut names, package_name(rt, alloc, "foo", "qux"), 0);
    }
    names
}

/// Names a package, where the name isn't there.
fn name_package(
    rt: &impl Abort,
    names: &mut Table<PackageName, PackageId>,
    name: PackageName,
    place: usize,
) {
    if !names.contains_key(&name) {
        names
            .push(name, PackageId::from_index(place))
            .expect(rt, "memory");
    }
}

fn packages(rt: &impl Abort, alloc: Global, breach: Breach) -> Items<Package> {
    let interfaces = listed_interfaces(rt, alloc, listed_in_bar(breach));
    let worlds = listed_worlds(rt, alloc, breach != Breach::WorldNotInTable);
    let bar = package(name_of_bar(rt, alloc, breach), interfaces, worlds);
    let interfaces = listed_interfaces(rt, alloc, listed_in_baz(breach));
    let worlds = listed_worlds(rt, alloc, breach == Breach::WorldInOtherTable);
    let baz = package(package_name(rt, alloc, "foo", "baz"), interfaces, worlds);
    let mut packages = one(rt, alloc, bar);
    packages.push(baz).expect(rt, "memory");
    packages
}

fn listed_in_bar(breach: Breach) -> &'static [(&'static str, usize)] {
    match breach {
        Breach::PackageDependsOnItself | Breach::ExportsInConflict => {
            &[("a", 0), ("b", 1), ("e", 4)]
        }
        _ => &[("a", 0), ("b", 1)],
    }
}

fn listed_in_baz(breach: Breach) -> &'static [(&'static str, usize)] {
    match breach {
        Breach::InterfaceNotInTable => &[],
        Breach::InterfaceNotKebab => &[("D_", 3)],
        Breach::InterfaceInOtherTable => &[("d", 3), ("a", 0)],
        Breach::InterfaceUsesItself | Breach::InterfaceNotThere => &[("d", 3), ("e", 4)],
        _ => &[("d", 3)],
    }
}

fn package(name: PackageName, interfaces: Names<InterfaceId>, worlds: Names<WorldId>) -> Package {
    Package {
        name,
        docs: Docs::none(),
        interfaces,
        worlds,
    }
}

/// Interfaces under names.
pub(crate) fn listed_interfaces(
    rt: &impl Abort,
    alloc: Global,
    interfaces: &[(&str, usize)],
) -> Names<InterfaceId> {
    let mut listed = IndexMap::new(alloc);
    for (name, place) in interfaces {
        listed
            .insert(string(rt, alloc, name), InterfaceId::from_index(*place))
            .expect(rt, "memory");
    }
    Names::from_map(listed).expect(rt, "memory")
}

/// World `w`, or none.
fn listed_worlds(rt: &impl Abort, alloc: Global, is_there: bool) -> Names<WorldId> {
    let mut listed = IndexMap::new(alloc);
    if is_there {
        listed
            .insert(string(rt, alloc, "w"), WorldId::from_index(0))
            .expect(rt, "memory");
    }
    Names::from_map(listed).expect(rt, "memory")
}

/// `t` of `a`, and a list of it; `u` of `b`, an alias of `t`; `k` of the interface without a name; `y` of the
/// world, an alias of `u`; `m` of `d`.
fn types(rt: &impl Abort, alloc: Global, breach: Breach) -> Items<TypeDef> {
    let number = TypeDefKind::Type_(Type_::U32);
    let mut types = one(
        rt,
        alloc,
        type_def(rt, alloc, "t", number, interface_owner(0)),
    );
    let kind = match breach {
        Breach::UnnamedAlias => TypeDefKind::Type_(type_at(0)),
        Breach::TypeRefersToItself => TypeDefKind::List(type_at(1)),
        Breach::TypeNotThere => TypeDefKind::List(type_at(6)),
        _ => TypeDefKind::List(type_at(0)),
    };
    add_type(rt, alloc, &mut types, "", kind, TypeOwner::None);
    let kind = match breach {
        Breach::AliasOfUnnamed => TypeDefKind::Type_(type_at(1)),
        Breach::PartOfOther => TypeDefKind::List(type_at(0)),
        _ => TypeDefKind::Type_(type_at(0)),
    };
    add_type(rt, alloc, &mut types, "u", kind, interface_owner(1));
    let number = TypeDefKind::Type_(Type_::U32);
    add_type(rt, alloc, &mut types, "k", number, interface_owner(2));
    let kind = TypeDefKind::Type_(type_at(2));
    let owner = TypeOwner::World(WorldId::from_index(0));
    add_type(rt, alloc, &mut types, "y", kind, owner);
    add_type_m(rt, alloc, &mut types, breach);
    add_more_types(rt, alloc, &mut types, breach);
    types
}

fn add_type(
    rt: &impl Abort,
    alloc: Global,
    types: &mut Items<TypeDef>,
    name: &str,
    kind: TypeDefKind,
    owner: TypeOwner,
) {
    types
        .push(type_def(rt, alloc, name, kind, owner))
        .expect(rt, "memory");
}

fn add_type_m(rt: &impl Abort, alloc: Global, types: &mut Items<TypeDef>, breach: Breach) {
    let name = if breach == Breach::OwnerWithoutName {
        ""
    } else {
        "m"
    };
    let kind = match breach {
        Breach::KindUnknown => TypeDefKind::Unknown,
        Breach::OwnerWithoutName => TypeDefKind::List(Type_::U32),
        _ => TypeDefKind::Type_(Type_::U32),
    };
    add_type(rt, alloc, types, name, kind, interface_owner(3));
}

/// The types that only some graphs have, from id 6 on.
fn add_more_types(rt: &impl Abort, alloc: Global, types: &mut Items<TypeDef>, breach: Breach) {
    let (target, other) = match breach {
        Breach::NameWithoutOwner => {
            let kind = TypeDefKind::List(Type_::U32);
            return add_type(rt, alloc, types, "q", kind, TypeOwner::None);
        }
        Breach::InterfaceUsesItself => (8, 5),
        Breach::PackageDependsOnItself => (0, 5),
        Breach::ExportsInConflict => (0, 2),
        _ => return,
    };
    let kind = TypeDefKind::Type_(type_at(target));
    add_type(rt, alloc, types, "n", kind, interface_owner(3));
    let kind = TypeDefKind::Type_(type_at(other));
    add_type(rt, alloc, types, "o", kind, interface_owner(4));
    let number = TypeDefKind::Type_(Type_::U32);
    add_type(rt, alloc, types, "p", number, interface_owner(4));
}

fn interfaces(rt: &impl Abort, alloc: Global, breach: Breach) -> Items<Interface> {
    let functions = functions(rt, alloc, breach);
    let a = interface(
        rt,
        alloc,
        "a",
        &[("t", 0)],
        functions,
        Some(PackageId::from_index(BAR)),
    );
    let mut interfaces = one(rt, alloc, a);
    add_interface(rt, alloc, &mut interfaces, "b", &[("u", 2)], Some(BAR));
    let home = match breach {
        Breach::UnnamedOfOtherImported => BAZ,
        _ => BAR,
    };
    add_interface(rt, alloc, &mut interfaces, "", &[("k", 3)], Some(home));
    let name = match breach {
        Breach::InterfaceNotKebab => "D_",
        _ => "d",
    };
    add_interface(
        rt,
        alloc,
        &mut interfaces,
        name,
        types_of_d(breach),
        Some(BAZ),
    );
    add_more_interfaces(rt, alloc, &mut interfaces, breach);
    interfaces
}

fn types_of_d(breach: Breach) -> &'static [(&'static str, usize)] {
    match breach {
        Breach::TypeNotListed | Breach::OwnerWithoutName => &[],
        Breach::TypeOfOtherListed => &[("m", 5), ("t", 0)],
        Breach::InterfaceUsesItself | Breach::PackageDependsOnItself | Breach::ExportsInConflict =>
            &[("m", 5), ("n", 6)],
        _ => &[("m", 5)],
    }
}

/// The interface that only some graphs have, with id 4.
fn add_more_interfaces(
    rt: &impl Abort,
    alloc: Global,
    interfaces: &mut Items<Interface>,
    breach: Breach,
) {
    let types = &[("o", 7), ("p", 8)];
    match breach {
        Breach::InterfaceUsesItself => add_interface(rt, alloc, interfaces, "e", types, Some(BAZ)),
        Breach::PackageDependsOnItself | Breach::ExportsInConflict => add_interface(
            rt,
            alloc,
            interfaces,
            "e",
            types,
            Some(BAR),
        ),
        Breach::InterfaceWithoutPackage => add_interface(rt, alloc, interfaces, "", &[], None),
        Breach::UnnamedOfOtherExported => add_interface(rt, alloc, interfaces, "", &[], Some(BAZ)),
        _ => {}
    }
}

fn add_interface(
    rt: &impl Abort,
    alloc: Global,
    interfaces: &mut Items<Interface>,
    name: &str,
    types: &[(&str, usize)],
    package: Option<usize>,
) {
    let functions = Names::new(alloc);
    let package = package.map(PackageId::from_index);
    interfaces
        .push(interface(rt, alloc, name, types, functions, package))
        .expect(rt, "memory");
}

/// Function `f` of a list of `t`.
fn functions(rt: &impl Abort, alloc: Global, breach: Breach) -> Names<Function> {
    let key = if breach == Breach::FunctionUnderOtherName {
        "ff"
    } else {
        "f"
    };
    let parameter = if breach == Breach::ParameterOfOther {
        2
    } else {
        1
    };
    let kind = FunctionKind::Freestanding;
    let function = function(rt, alloc, "f", kind, type_at(parameter));
    let mut functions = Names::new(alloc);
    if !functions.contains_key(key) {
        functions
            .push(string(rt, alloc, key), function)
            .expect(rt, "memory");
    }
    functions
}

fn world_w(rt: &impl Abort, alloc: Global, breach: Breach) -> World {
    let imports = imports(rt, alloc, breach);
    let exports = exports(rt, alloc, breach);
    let include = WorldInclude {
        stability: Stability::Unknown,
        id: WorldId::from_index(0),
        names: Items::new(alloc),
        span: Span::unknown(),
    };
    let includes = match breach {
        Breach::Includes => one(rt, alloc, include),
        _ => Items::new(alloc),
    };
    let mut world = world(rt, alloc, "w", imports, exports, includes);
    world.package = Some(PackageId::from_index(0));
    world
}

/// `a`, `b`, the interface without a name under `in-place`, type `y`, and function `g` of it.
fn imports(rt: &impl Abort, alloc: Global, breach: Breach) -> Table<WorldKey, WorldItem> {
    let mut imports = Table::new(alloc);
    let (first, second) = if breach == Breach::UserBeforeUsed {
        (1, 0)
    } else {
        (0, 1)
    };
    add_entry(rt, &mut imports, interface_key(first), held(first));
    add_entry(rt, &mut imports, interface_key(second), held(second));
    add_entry(rt, &mut imports, label(rt, alloc, "in-place"), held(2));
    if breach == Breach::UnnamedInTwoPlaces {
        add_entry(rt, &mut imports, label(rt, alloc, "again"), held(2));
    }
    let item = WorldItem::Type_ {
        id: TypeId::from_index(4),
        span: Span::unknown(),
    };
    add_entry(rt, &mut imports, label(rt, alloc, "y"), item);
    let name = if breach == Breach::ImportUnderOtherName {
        "gg"
    } else {
        "g"
    };
    let parameter = if breach == Breach::ImportTakesOther {
        2
    } else {
        4
    };
    let kind = FunctionKind::Freestanding;
    let function = function(rt, alloc, name, kind, type_at(parameter));
    let item = WorldItem::Function(function);
    add_entry(rt, &mut imports, label(rt, alloc, "g"), item);
    imports
}

/// Function `h` of a number; in conflict are `a` and `e`, which uses `b`, and that uses `a`.
fn exports(rt: &impl Abort, alloc: Global, breach: Breach) -> Table<WorldKey, WorldItem> {
    let mut exports = Table::new(alloc);
    let name = if breach == Breach::ExportUnderOtherName {
        "hh"
    } else {
        "h"
    };
    let parameter = if breach == Breach::ExportTakesOther {
        type_at(2)
    } else {
        Type_::U32
    };
    let function = function(rt, alloc, name, FunctionKind::Freestanding, parameter);
    let item = WorldItem::Function(function);
    add_entry(rt, &mut exports, label(rt, alloc, "h"), item);
    if breach == Breach::UnnamedOfOtherExported {
        add_entry(rt, &mut exports, label(rt, alloc, "out"), held(4));
    }
    if breach == Breach::ExportsInConflict {
        add_entry(rt, &mut exports, interface_key(0), held(0));
        add_entry(rt, &mut exports, interface_key(4), held(4));
    }
    exports
}

/// Adds an entry, where its key isn't there.
pub(crate) fn add_entry(
    rt: &impl Abort,
    entries: &mut Table<WorldKey, WorldItem>,
    key: WorldKey,
    item: WorldItem,
) {
    if !entries.contains_key(&key) {
        entries.push(key, item).expect(rt, "memory");
    }
}

/// The entry of an interface, as elaboration leaves it.
fn held(place: usize) -> WorldItem {
    WorldItem::Interface {
        id: InterfaceId::from_index(place),
        stability: Stability::Unknown,
        docs: Docs::none(),
        span: Span::unknown(),
        external_id: None,
    }
}
