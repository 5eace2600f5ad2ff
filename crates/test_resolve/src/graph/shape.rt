//! A shaped package, and for each rule of the shape packages that break it.
use crate::fixtures::{
    entries, function, function_entry, interface, interface_item, interface_key, interface_owner,
    label, names, one, package_name, string, table, text, type_at, type_def, type_entry, world,
};
use std::alloc::Global;
use std::process::Abort;
use wit_data::{
    AstItem, Docs, Field, Function, FunctionKind, Handle, Interface, InterfaceId, Items, Names,
    PackageId, PackageName, SourceMap, Span, Stability, Table, Type_, TypeDef, TypeDefKind, TypeId,
    TypeOwner, UnresolvedPackage, UnresolvedPackageGroup, World, WorldId, WorldInclude, WorldItem,
    WorldKey,
};
use wit_shape::{is_group_shaped, is_shaped};

/// What is changed of a shaped package.
#[derive(Clone, Copy, Debug, PartialEq, Eq)]
pub enum Change {
    Nothing,
    InterfaceNamedAsForeign,
    WorldNamedAsForeign,
    TwoForeignWorlds,
    SpanOfPackageMissing,
    ForeignTwice,
    ForeignWorldTwice,
    ForeignWorldLast,
    GateMissing,
    ForeignFunction,
    ForeignNamedOtherwise,
    ForeignWorldNamedOtherwise,
    ForeignWorldHoldsEntry,
    ForeignWorldHoldsExport,
    ForeignWorldIncludes,
    ForeignListsKnown,
    SpanOfTypeMissing,
    UnknownOfOwn,
    UnknownLater,
    RequiredKnown,
    PackageSaid,
    RefersToItself,
    RefersLater,
    RefersNowhere,
    NotListed,
    ListedOtherwise,
    ListedTwice,
    NameWithoutOwner,
    OwnerWithoutName,
    FunctionUnderOtherName,
    InterfacesOfOneName,
    WorldsOfOneName,
    AliasOfUnnamed,
    AliasIntoUnnamedInterface,
    UnnamedAlias,
    UnnamedResource,
    PartOfOther,
    ParameterOfOther,
    ParameterOfOtherInWorld,
    UsesItself,
    KeyOfOther,
    KeyOfUnnamed,
    LabelOfOtherFunction,
    LabelOfNothing,
    TypeExported,
    UnnamedInTwoPlaces,
    IncludesItself,
    IncludesLater,
    NamespaceNotKebab,
    NameNotKebab,
    InterfaceNotKebab,
    WorldNotKebab,
}

/// Changes that leave the shape: only names of things that aren't foreign have to differ, and several worlds may be
/// foreign.
const KEEPS: [Change; 4] = [
    Change::Nothing,
    Change::InterfaceNamedAsForeign,
    Change::WorldNamedAsForeign,
    Change::TwoForeignWorlds,
];

/// Changes that break a rule, in the order of the rules.
const BREAKS: [Change; 48] = [
    Change::SpanOfPackageMissing,
    Change::ForeignTwice,
    Change::ForeignWorldTwice,
    Change::ForeignWorldLast,
    Change::GateMissing,
    Change::ForeignFunction,
    Change::ForeignNamedOtherwise,
    Change::ForeignWorldNamedOtherwise,
    Change::ForeignWorldHoldsEntry,
    Change::ForeignWorldHoldsExport,
    Change::ForeignWorldIncludes,
    Change::ForeignListsKnown,
    Change::SpanOfTypeMissing,
    Change::UnknownOfOwn,
    Change::UnknownLater,
    Change::RequiredKnown,
    Change::PackageSaid,
    Change::RefersToItself,
    Change::RefersLater,
    Change::RefersNowhere,
    Change::NotListed,
    Change::ListedOtherwise,
    Change::ListedTwice,
    Change::NameWithoutOwner,
    Change::OwnerWithoutName,
    Change::FunctionUnderOtherName,
    Change::InterfacesOfOneName,
    Change::WorldsOfOneName,
    Change::AliasOfUnnamed,
    Change::AliasIntoUnnamedInterface,
    Change::UnnamedAlias,
    Change::UnnamedResource,
    Change::PartOfOther,
    Change::ParameterOfOther,
    Change::ParameterOfOtherInWorld,
    Change::UsesItself,
    Change::KeyOfOther,
    Change::KeyOfUnnamed,
    Change::LabelOfOtherFunction,
    Change::LabelOfNothing,
    Change::TypeExported,
    Change::UnnamedInTwoPlaces,
    Change::IncludesItself,
    Change::IncludesLater,
    Change::NamespaceNotKebab,
    Change::NameNotKebab,
    Change::InterfaceNotKebab,
    Change::WorldNotKebab,
];

/// Whether the package with this change is shaped.
fn keeps_shape(rt: &impl Abort, alloc: Global, change: Change) -> bool {
    let package = package(rt, alloc, change);
    is_shaped(alloc, &package).expect(rt, "memory")
}

/// Whether the group of a main and a nested package is shaped.
fn group_keeps_shape(rt: &impl Abort, alloc: Global, main: Change, nested: Change) -> bool {
    let group = group(rt, alloc, main, nested);
    is_group_shaped(alloc, &group).expect(rt, "memory")
}

#[test]
fn each_rule_is_asked(rt: HostRuntime) {
    for &change in &KEEPS {
        assert_eq!(rt; keeps_shape(&rt, rt.alloc(), change), true, "{change:?}");
    }
    for &change in &BREAKS {
        assert_eq!(rt; keeps_shape(&rt, rt.alloc(), change), false, "{change:?}");
    }
}

#[test]
fn each_package_of_a_group_is_asked(rt: HostRuntime) {
    let kept = Change::Nothing;
    assert!(rt; group_keeps_shape(&rt, rt.alloc(), kept, kept));
    for &change in &BREAKS {
        let main = group_keeps_shape(&rt, rt.alloc(), change, kept);
        assert_eq!(rt; main, false, "{change:?}");
        let nested = group_keeps_shape(&rt, rt.alloc(), kept, change);
        assert_eq!(rt; nested, false, "{change:?}");
    }
}

/// A package with this change, and another with that.
pub fn group(
    rt: &impl Abort,
    alloc: Global,
    main: Change,
    nested: Change,
) -> UnresolvedPackageGroup {
    let main = package(rt, alloc, main);
    let nested = package(rt, alloc, nested);
    let nested = one(rt, alloc, nested);
    UnresolvedPackageGroup {
        main,
        nested,
        source_map: SourceMap::new(alloc),
    }
}

/// Package `a:b`, which names interface `e` and world `v` of package `c:d`.
pub fn package(rt: &impl Abort, alloc: Global, change: Change) -> UnresolvedPackage {
    let required = if change == Change::RequiredKnown {
        2
    } else {
        0
    };
    let namespace = if change == Change::NamespaceNotKebab {
        "a-"
    } else {
        "a"
    };
    let name = if change == Change::NameNotKebab {
        "1b"
    } else {
        "b"
    };
    let mut foreign_dep_spans = spans(rt, alloc, change != Change::SpanOfPackageMissing);
    if matches!(change, Change::ForeignTwice | Change::ForeignWorldTwice) {
        foreign_dep_spans.push(Span::unknown()).expect(rt, "memory");
    }
    let required = (TypeId::from_index(required), Span::unknown());
    let required_resource_types = one(rt, alloc, required);
    let types = types(rt, alloc, change);
    let interfaces = interfaces(rt, alloc, change);
    let worlds = worlds(rt, alloc, change);
    let foreign_deps = foreign_deps(rt, alloc, change);
    let unknown_type_spans = spans(rt, alloc, change != Change::SpanOfTypeMissing);
    let name = package_name(rt, alloc, namespace, name);
    UnresolvedPackage {
        name,
        package_name_span: Span::unknown(),
        docs: Docs::none(),
        worlds,
        interfaces,
        types,
        foreign_deps,
        foreign_dep_spans,
        unknown_type_spans,
        required_resource_types,
    }
}

/// One span, or none.
fn spans(rt: &impl Abort, alloc: Global, is_there: bool) -> Items<Span> {
    if !is_there {
        return Items::new(alloc);
    }
    one(rt, alloc, Span::unknown())
}

fn foreign_deps(
    rt: &impl Abort,
    alloc: Global,
    change: Change,
) -> Table<PackageName, Names<(AstItem, Items<Stability>)>> {
    let first = (
        package_name(rt, alloc, "c", "d"),
        foreign_items(rt, alloc, change),
    );
    let again = match change {
        Change::ForeignTwice => foreign_interface(rt, alloc, true),
        Change::ForeignWorldTwice => foreign_world(rt, alloc, "v", 0),
        _ => return table(rt, alloc, [first]),
    };
    let again = names(rt, alloc, [again]);
    table(
        rt,
        alloc,
        [first, (package_name(rt, alloc, "c", "e"), again)],
    )
}

/// Interface `e` and world `v`, and world `u` before that where two are foreign.
fn foreign_items(
    rt: &impl Abort,
    alloc: Global,
    change: Change,
) -> Names<(AstItem, Items<Stability>)> {
    let interface = foreign_interface(rt, alloc, change != Change::GateMissing);
    let place = match change {
        Change::ForeignWorldLast => 2,
        _ => either(has_two_foreign_worlds(change), 1, 0),
    };
    let v = foreign_world(rt, alloc, "v", place);
    if has_two_foreign_worlds(change) {
        let u = foreign_world(rt, alloc, "u", 0);
        names(rt, alloc, [interface, u, v])
    } else {
        names(rt, alloc, [interface, v])
    }
}

fn has_two_foreign_worlds(change: Change) -> bool {
    matches!(
        change,
        Change::TwoForeignWorlds | Change::ForeignWorldIncludes
    )
}

fn foreign_world(
    rt: &impl Abort,
    alloc: Global,
    name: &str,
    place: usize,
) -> (String, (AstItem, Items<Stability>)) {
    let item = AstItem::World(WorldId::from_index(place));
    (string(rt, alloc, name), (item, gates(rt, alloc, true)))
}

fn foreign_interface(
    rt: &impl Abort,
    alloc: Global,
    is_gated: bool,
) -> (String, (AstItem, Items<Stability>)) {
    let item = AstItem::Interface(InterfaceId::from_index(0));
    (string(rt, alloc, "e"), (item, gates(rt, alloc, is_gated)))
}

/// One gate, or none.
fn gates(rt: &impl Abort, alloc: Global, is_there: bool) -> Items<Stability> {
    if !is_there {
        return Items::new(alloc);
    }
    one(rt, alloc, Stability::Unknown)
}

/// `t` of `e`; `u`, `r`, a handle of `r` and a record with it in `a`; `z` in `b`; `k` in the interface
/// without a name; `y` in world `w`, which stands behind the foreign worlds.
fn types(rt: &impl Abort, alloc: Global, change: Change) -> Items<TypeDef> {
    let owner = either(change == Change::UnknownOfOwn, 1, 0);
    let t = type_def(rt, alloc, "t", TypeDefKind::Unknown, interface_owner(owner));
    let u = alias(rt, alloc, "u", first_alias(change), interface_owner(1));
    let r = type_def(rt, alloc, "r", TypeDefKind::Resource, interface_owner(1));
    let name = either(change == Change::NameWithoutOwner, "q", "");
    let q = type_def(rt, alloc, name, handle(change), TypeOwner::None);
    let rec = type_def(rt, alloc, "rec", record(rt, alloc), interface_owner(1));
    let aliased = either(change == Change::AliasOfUnnamed, 3, 4);
    let z = alias(rt, alloc, "z", aliased, interface_owner(2));
    let name = either(change == Change::OwnerWithoutName, "", "k");
    let k = type_def(rt, alloc, name, later_kind(change), interface_owner(3));
    let aliased = either(change == Change::AliasIntoUnnamedInterface, 6, 5);
    let w = either(has_two_foreign_worlds(change), 2, 1);
    let w = TypeOwner::World(WorldId::from_index(w));
    let y = alias(rt, alloc, "y", aliased, w);
    let types = Vec::from_array(alloc, [t, u, r, q, rec, z, k, y]);
    let mut types = Items::from_vec(types.expect(rt, "memory"));
    let more = match change {
        Change::UsesItself => alias(rt, alloc, "back", 5, interface_owner(1)),
        Change::ForeignListsKnown => number(rt, alloc, "s", interface_owner(0)),
        _ => return types,
    };
    types.push(more).expect(rt, "memory");
    types
}

/// The first where something is changed, else the second.
fn either<T: Copy>(is_changed: bool, changed: T, kept: T) -> T {
    match is_changed {
        true => changed,
        false => kept,
    }
}

/// Another name of the type at an index.
fn alias(rt: &impl Abort, alloc: Global, name: &str, of: usize, owner: TypeOwner) -> TypeDef {
    type_def(rt, alloc, name, TypeDefKind::Type_(type_at(of)), owner)
}

/// Another name of a number.
fn number(rt: &impl Abort, alloc: Global, name: &str, owner: TypeOwner) -> TypeDef {
    type_def(rt, alloc, name, TypeDefKind::Type_(Type_::U32), owner)
}

/// Of which type `u` is another name.
fn first_alias(change: Change) -> usize {
    match change {
        Change::RefersLater => 4,
        Change::RefersNowhere => 8,
        _ => 0,
    }
}

fn later_kind(change: Change) -> TypeDefKind {
    match change {
        Change::UnknownLater => TypeDefKind::Unknown,
        _ => TypeDefKind::Type_(Type_::U32),
    }
}

fn handle(change: Change) -> TypeDefKind {
    match change {
        Change::UnnamedAlias => TypeDefKind::Type_(type_at(2)),
        Change::UnnamedResource => TypeDefKind::Resource,
        Change::RefersToItself => TypeDefKind::List(type_at(3)),
        Change::PartOfOther => TypeDefKind::Handle(Handle::Own(TypeId::from_index(0))),
        _ => TypeDefKind::Handle(Handle::Own(TypeId::from_index(2))),
    }
}

fn record(rt: &impl Abort, alloc: Global) -> TypeDefKind {
    let field = Field {
        name: text(rt, alloc, "x"),
        ty: type_at(3),
        docs: Docs::none(),
        span: Span::unknown(),
    };
    let fields = one(rt, alloc, field);
    TypeDefKind::Record { fields }
}

/// The foreign interface `e`, then `a`, `b` and one without a name.
fn interfaces(rt: &impl Abort, alloc: Global, change: Change) -> Items<Interface> {
    let mut interfaces = Items::new(alloc);
    let name = if change == Change::ForeignNamedOtherwise {
        "f"
    } else {
        "e"
    };
    let functions = match change {
        Change::ForeignFunction => functions(rt, alloc, Change::Nothing),
        _ => Names::new(alloc),
    };
    let types: &[(&str, usize)] = match change {
        Change::ForeignListsKnown => &[("t", 0), ("s", 8)],
        _ => &[("t", 0)],
    };
    let mut foreign = interface(rt, alloc, name, types, functions, None);
    if change == Change::UnknownOfOwn {
        foreign.types = Names::new(alloc);
    }
    interfaces.push(foreign).expect(rt, "memory");
    interfaces
        .push(interface_a(rt, alloc, change))
        .expect(rt, "memory");
    let name = match change {
        Change::InterfacesOfOneName => "a",
        Change::InterfaceNamedAsForeign => "e",
        Change::InterfaceNotKebab => "b--b",
        _ => "b",
    };
    let mut other = interface(rt, alloc, name, &[("z", 5)], Names::new(alloc), None);
    if change == Change::PackageSaid {
        other.package = Some(PackageId::from_index(0));
    }
    interfaces.push(other).expect(rt, "memory");
    interfaces
        .push(interface(rt, alloc, "", &[("k", 6)], Names::new(alloc), None))
        .expect(rt, "memory");
    interfaces
}

fn interface_a(rt: &impl Abort, alloc: Global, change: Change) -> Interface {
    let functions = functions(rt, alloc, change);
    let types: &[(&str, usize)] = match change {
        Change::UnknownOfOwn => &[("u", 1), ("r", 2), ("rec", 4), ("t", 0)],
        Change::NotListed => &[("u", 1), ("r", 2)],
        Change::ListedOtherwise => &[("u", 1), ("r", 2), ("rek", 4)],
        Change::ListedTwice => &[("u", 1), ("r", 2), ("rec", 4), ("rek", 4)],
        Change::UsesItself => &[("u", 1), ("r", 2), ("rec", 4), ("back", 8)],
        _ => &[("u", 1), ("r", 2), ("rec", 4)],
    };
    interface(rt, alloc, "a", types, functions, None)
}

fn functions(rt: &impl Abort, alloc: Global, change: Change) -> Names<Function> {
    let key = if change == Change::FunctionUnderOtherName {
        "ff"
    } else {
        "f"
    };
    let parameter = if change == Change::ParameterOfOther {
        5
    } else {
        4
    };
    let first = function(
        rt,
        alloc,
        "f",
        FunctionKind::Freestanding,
        type_at(parameter),
    );
    let kind = FunctionKind::Method(TypeId::from_index(2));
    let second = function(rt, alloc, "[method]r.m", kind, Type_::U32);
    names(
        rt,
        alloc,
        [
            (string(rt, alloc, key), first),
            (string(rt, alloc, "[method]r.m"), second),
        ],
    )
}

/// The foreign world `v`, then `w`, which includes the first world, and `x`, which includes `w`; or `x`, `w` and the
/// foreign one; or another foreign one, `u`, before these three.
fn worlds(rt: &impl Abort, alloc: Global, change: Change) -> Items<World> {
    let v = world_v(rt, alloc, change);
    let w = world_w(rt, alloc, change);
    let x = world_x(rt, alloc, change);
    let worlds = if change == Change::ForeignWorldLast {
        [x, w, v]
    } else {
        [v, w, x]
    };
    let mut all = Items::new(alloc);
    if has_two_foreign_worlds(change) {
        let u = bare_world(rt, alloc, "u", Items::new(alloc));
        all.push(u).expect(rt, "memory");
    }
    let worlds = Items::from_vec(Vec::from_array(alloc, worlds).expect(rt, "memory"));
    all.append(worlds).expect(rt, "memory");
    all
}

/// A world without entries.
fn bare_world(rt: &impl Abort, alloc: Global, name: &str, includes: Items<WorldInclude>) -> World {
    let empty = Table::new(alloc);
    world(rt, alloc, name, Table::new(alloc), empty, includes)
}

fn world_v(rt: &impl Abort, alloc: Global, change: Change) -> World {
    let name = either(change == Change::ForeignWorldNamedOtherwise, "u", "v");
    let imports = held(rt, alloc, change == Change::ForeignWorldHoldsEntry);
    let exports = held(rt, alloc, change == Change::ForeignWorldHoldsExport);
    let included = match change {
        Change::ForeignWorldIncludes => includes(rt, alloc, 0),
        _ => Items::new(alloc),
    };
    world(rt, alloc, name, imports, exports, included)
}

/// The entry of interface `a`, or none.
fn held(rt: &impl Abort, alloc: Global, is_there: bool) -> Table<WorldKey, WorldItem> {
    if !is_there {
        return Table::new(alloc);
    }
    entries(rt, alloc, [(interface_key(1), interface_item(1))])
}

fn world_x(rt: &impl Abort, alloc: Global, change: Change) -> World {
    let name = match change {
        Change::WorldsOfOneName => "w",
        Change::WorldNamedAsForeign => "v",
        Change::WorldNotKebab => "X_",
        _ => "x",
    };
    let included = match change {
        Change::ForeignWorldLast => Items::new(alloc),
        _ => includes(rt, alloc, either(has_two_foreign_worlds(change), 2, 1)),
    };
    bare_world(rt, alloc, name, included)
}

fn world_w(rt: &impl Abort, alloc: Global, change: Change) -> World {
    let included = match change {
        Change::IncludesItself => 1,
        Change::IncludesLater => 2,
        _ => 0,
    };
    let imports = imports(rt, alloc, change);
    let exports = exports(rt, alloc, change);
    world(
        rt,
        alloc,
        "w",
        imports,
        exports,
        includes(rt, alloc, included),
    )
}

fn includes(rt: &impl Abort, alloc: Global, world: usize) -> Items<WorldInclude> {
    let include = WorldInclude {
        stability: Stability::Unknown,
        id: WorldId::from_index(world),
        names: Items::new(alloc),
        span: Span::unknown(),
    };
    one(rt, alloc, include)
}

/// Interface `a`, type `y`, function `g`, and the interface without a name under `in-place`.
fn imports(rt: &impl Abort, alloc: Global, change: Change) -> Table<WorldKey, WorldItem> {
    let (named, held) = match change {
        Change::KeyOfOther => (1, 2),
        Change::KeyOfUnnamed => (3, 3),
        _ => (1, 1),
    };
    let in_place = match change {
        Change::LabelOfNothing => 4,
        Change::KeyOfUnnamed => 1,
        _ => 3,
    };
    entries(
        rt,
        alloc,
        [
            (interface_key(named), interface_item(held)),
            type_entry(rt, alloc, "y", 7),
            imported_function(rt, alloc, change),
            (label(rt, alloc, "in-place"), interface_item(in_place)),
        ],
    )
}

fn imported_function(rt: &impl Abort, alloc: Global, change: Change) -> (WorldKey, WorldItem) {
    let name = if change == Change::LabelOfOtherFunction {
        "gg"
    } else {
        "g"
    };
    let parameter = if change == Change::ParameterOfOtherInWorld {
        5
    } else {
        7
    };
    let kind = FunctionKind::Freestanding;
    let item = function(rt, alloc, name, kind, type_at(parameter));
    function_entry(rt, alloc, "g", item)
}

/// Interface `b`, function `h`, and interface `a` under `again`, or type `y` in its place.
fn exports(rt: &impl Abort, alloc: Global, change: Change) -> Table<WorldKey, WorldItem> {
    let item = function(rt, alloc, "h", FunctionKind::Freestanding, Type_::U32);
    let last = match change {
        Change::TypeExported => type_entry(rt, alloc, "y", 7),
        Change::UnnamedInTwoPlaces => (label(rt, alloc, "again"), interface_item(3)),
        _ => (label(rt, alloc, "again"), interface_item(1)),
    };
    entries(
        rt,
        alloc,
        [
            (interface_key(2), interface_item(2)),
            function_entry(rt, alloc, "h", item),
            last,
        ],
    )
}
