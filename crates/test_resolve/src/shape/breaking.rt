//! A package that has its shape, and packages that break clauses of it.
use crate::fixtures::{
    interface_key, interface_owner, label, list, names, package_name, string, table, text, type_at,
    type_def, type_entry,
};
use crate::shape::parts::{function, function_entry, if_there, interface, interface_item, world};
use std::alloc::Global;
use std::process::Abort;
use wit_data::{
    AstItem, Docs, Field, Function, Handle, Interface, InterfaceId, Items, Names, PackageId,
    PackageName, Span, Stability, Table, Type_, TypeDef, TypeDefKind, TypeId, TypeOwner,
    UnresolvedPackage, World, WorldId, WorldItem, WorldKey,
};
use wit_shape::ShapeClause;

/// The first where the clause is one of the broken ones, else the second.
fn either<T: Copy>(broken: &[ShapeClause], clause: ShapeClause, changed: T, kept: T) -> T {
    if broken.contains(&clause) {
        changed
    } else {
        kept
    }
}

fn is_broken(broken: &[ShapeClause], clause: ShapeClause) -> bool {
    either(broken, clause, true, false)
}

/// Package `a:b`, which names interface `e` and world `v` of package `c:d`, with these clauses broken.
pub fn package(rt: &impl Abort, alloc: Global, broken: &[ShapeClause]) -> UnresolvedPackage {
    let namespace = either(broken, ShapeClause::NamesNamespace, "a-", "a");
    let name = either(broken, ShapeClause::NamesOwn, "1b", "b");
    let has_span = !is_broken(broken, ShapeClause::ForeignSpans);
    let required = either(broken, ShapeClause::UnknownRequired, 2, 0);
    let required = (TypeId::from_index(required), Span::unknown());
    UnresolvedPackage {
        name: package_name(rt, alloc, namespace, name),
        package_name_span: Span::unknown(),
        docs: Docs::none(),
        worlds: worlds(rt, alloc, broken),
        interfaces: interfaces(rt, alloc, broken),
        types: types(rt, alloc, broken),
        foreign_deps: foreign_deps(rt, alloc, broken),
        foreign_dep_spans: if_there(rt, alloc, has_span, Span::unknown()),
        unknown_type_spans: list(rt, alloc, [Span::unknown()]),
        required_resource_types: list(rt, alloc, [required]),
    }
}

fn foreign_deps(
    rt: &impl Abort,
    alloc: Global,
    broken: &[ShapeClause],
) -> Table<PackageName, Names<(AstItem, Items<Stability>)>> {
    let e = either(broken, ShapeClause::ForeignInterfaces, 3, 0);
    let e = AstItem::Interface(InterfaceId::from_index(e));
    let v = either(broken, ShapeClause::ForeignWorlds, 2, 0);
    let v = AstItem::World(WorldId::from_index(v));
    let is_gated = !is_broken(broken, ShapeClause::ForeignBare);
    let gates = if_there(rt, alloc, true, Stability::Unknown);
    let e = (string(rt, alloc, "e"), (e, gates));
    let gates = if_there(rt, alloc, is_gated, Stability::Unknown);
    let v = (string(rt, alloc, "v"), (v, gates));
    let named = names(rt, alloc, [e, v]);
    table(rt, alloc, [(package_name(rt, alloc, "c", "d"), named)])
}

/// `t` of `e`; `u`, `r`, a handle and a record with it in `i`; `z` in `j`; `k` in the interface without a name; `y` in
/// world `w`; and one more in `i` where interfaces are to use themselves.
fn types(rt: &impl Abort, alloc: Global, broken: &[ShapeClause]) -> Items<TypeDef> {
    let owner = interface_owner(either(broken, ShapeClause::UnknownForeign, 1, 0));
    let t = type_def(rt, alloc, "t", TypeDefKind::Unknown, owner);
    let u = alias(rt, alloc, "u", 0, interface_owner(1));
    let r = type_def(rt, alloc, "r", TypeDefKind::Resource, interface_owner(1));
    let handle = type_def(rt, alloc, "", handle(broken), TypeOwner::None);
    let rec = type_def(rt, alloc, "rec", record(rt, alloc), interface_owner(1));
    let aliased = either(broken, ShapeClause::ReferencesAliases, 3, 4);
    let z = alias(rt, alloc, "z", aliased, interface_owner(2));
    let k = type_def(rt, alloc, "k", own_kind(broken), interface_owner(3));
    let w = TypeOwner::World(WorldId::from_index(1));
    let y = alias(rt, alloc, "y", 5, w);
    let mut types = list(rt, alloc, [t, u, r, handle, rec, z, k, y]);
    if is_broken(broken, ShapeClause::Uses) {
        let back = alias(rt, alloc, "back", 5, interface_owner(1));
        types.push(back).expect(rt, "memory");
    }
    types
}

/// Another name of the type at an index.
fn alias(rt: &impl Abort, alloc: Global, name: &str, of: usize, owner: TypeOwner) -> TypeDef {
    type_def(rt, alloc, name, TypeDefKind::Type_(type_at(of)), owner)
}

/// The kind of the type without a name.
fn handle(broken: &[ShapeClause]) -> TypeDefKind {
    if is_broken(broken, ShapeClause::ReferencesEarlier) {
        return TypeDefKind::List(type_at(3));
    }
    if is_broken(broken, ShapeClause::ReferencesUnnamed) {
        return TypeDefKind::Resource;
    }
    let of = either(broken, ShapeClause::OwnTypes, 0, 2);
    TypeDefKind::Handle(Handle::Own(TypeId::from_index(of)))
}

fn record(rt: &impl Abort, alloc: Global) -> TypeDefKind {
    let field = Field {
        name: text(rt, alloc, "x"),
        ty: type_at(3),
        docs: Docs::none(),
        span: Span::unknown(),
    };
    let fields = list(rt, alloc, [field]);
    TypeDefKind::Record { fields }
}

fn own_kind(broken: &[ShapeClause]) -> TypeDefKind {
    if is_broken(broken, ShapeClause::UnknownFirst) {
        TypeDefKind::Unknown
    } else {
        TypeDefKind::Type_(Type_::U32)
    }
}

/// The foreign interface `e`, then `i`, `j` and one without a name.
fn interfaces(rt: &impl Abort, alloc: Global, broken: &[ShapeClause]) -> Items<Interface> {
    let types: &[(&str, usize)] = match is_broken(broken, ShapeClause::UnknownAlone) {
        true => &[("t", 0), ("s", 6)],
        false => &[("t", 0)],
    };
    let e = interface(rt, alloc, "e", types);
    let i = interface_i(rt, alloc, broken);
    let name = either(broken, ShapeClause::NamesInterfacesDiffer, "i", "j");
    let name = either(broken, ShapeClause::NamesInterfaces, "j--j", name);
    let mut j = interface(rt, alloc, name, &[("z", 5)]);
    if is_broken(broken, ShapeClause::UnplacedInterfaces) {
        j.package = Some(PackageId::from_index(0));
    }
    let unnamed = interface(rt, alloc, "", &[("k", 6)]);
    list(rt, alloc, [e, i, j, unnamed])
}

fn interface_i(rt: &impl Abort, alloc: Global, broken: &[ShapeClause]) -> Interface {
    let mut i = interface(rt, alloc, "i", types_of_i(broken));
    i.functions = functions(rt, alloc, broken);
    i
}

fn types_of_i(broken: &[ShapeClause]) -> &'static [(&'static str, usize)] {
    if is_broken(broken, ShapeClause::OwnersListed) {
        return &[("u", 1), ("r", 2)];
    }
    if is_broken(broken, ShapeClause::OwnersOwnTypes) {
        return &[("u", 1), ("r", 2), ("rec", 4), ("rek", 4)];
    }
    if is_broken(broken, ShapeClause::Uses) {
        return &[("u", 1), ("r", 2), ("rec", 4), ("back", 8)];
    }
    &[("u", 1), ("r", 2), ("rec", 4)]
}

fn functions(rt: &impl Abort, alloc: Global, broken: &[ShapeClause]) -> Names<Function> {
    let key = either(broken, ShapeClause::OwnersFunctions, "ff", "f");
    let parameter = either(broken, ShapeClause::OwnFunctions, 5, 4);
    let f = function(rt, alloc, "f", type_at(parameter));
    names(rt, alloc, [(string(rt, alloc, key), f)])
}

/// The foreign world `v`, then `w`, which includes it, and `x`, which includes `w`.
fn worlds(rt: &impl Abort, alloc: Global, broken: &[ShapeClause]) -> Items<World> {
    let v = world(rt, alloc, "v", None);
    let included = either(broken, ShapeClause::WorldsIncludes, 1, 0);
    let mut w = world(rt, alloc, "w", Some(included));
    w.imports = imports(rt, alloc, broken);
    w.exports = exports(rt, alloc, broken);
    if is_broken(broken, ShapeClause::UnplacedWorlds) {
        w.package = Some(PackageId::from_index(0));
    }
    let name = either(broken, ShapeClause::NamesWorldsDiffer, "w", "x");
    let name = either(broken, ShapeClause::NamesWorlds, "x_", name);
    let x = world(rt, alloc, name, Some(1));
    list(rt, alloc, [v, w, x])
}

/// Interface `i`, type `y`, function `g`, and the interface without a name under `in-place`.
fn imports(rt: &impl Abort, alloc: Global, broken: &[ShapeClause]) -> Table<WorldKey, WorldItem> {
    let held = either(broken, ShapeClause::WorldsImports, 2, 1);
    let parameter = either(broken, ShapeClause::OwnImports, 5, 7);
    let g = function(rt, alloc, "g", type_at(parameter));
    table(
        rt,
        alloc,
        [
            (interface_key(1), interface_item(held)),
            type_entry(rt, alloc, "y", 7),
            function_entry(rt, alloc, g),
            (label(rt, alloc, "in-place"), interface_item(3)),
        ],
    )
}

/// Interface `j`, function `h`, and interface `i` under `again`.
fn exports(rt: &impl Abort, alloc: Global, broken: &[ShapeClause]) -> Table<WorldKey, WorldItem> {
    let held = either(broken, ShapeClause::WorldsExports, 1, 2);
    let parameter = either(broken, ShapeClause::OwnExports, 5, 7);
    let h = function(rt, alloc, "h", type_at(parameter));
    let again = either(broken, ShapeClause::WorldsOnce, 3, 1);
    table(
        rt,
        alloc,
        [
            (interface_key(2), interface_item(held)),
            function_entry(rt, alloc, h),
            (label(rt, alloc, "again"), interface_item(again)),
        ],
    )
}
