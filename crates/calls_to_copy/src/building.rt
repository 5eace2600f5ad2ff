//! Packages built by hand, as a reader of WIT would build them.
use std::alloc::{AllocError, Global};
use wit_resolve_graph::{
    AstItem, Docs, Interface, InterfaceId, Items, Names, PackageName, SourceMap, Span, Stability,
    Table, Text, Type_, TypeDef, TypeDefKind, TypeId, TypeOwner, UnresolvedPackage,
    UnresolvedPackageGroup, World, WorldItem,
};

/// The package `foo:NAME` with nothing in it.
pub fn package(alloc: Global, name: &str) -> Result<UnresolvedPackage, AllocError> {
    let namespace = Text::try_from_str(alloc, "foo")?;
    let name = Text::try_from_str(alloc, name)?;
    Ok(UnresolvedPackage {
        name: PackageName::new(namespace, name, None),
        package_name_span: Span::unknown(),
        docs: Docs::none(),
        worlds: Items::new(alloc),
        interfaces: Items::new(alloc),
        types: Items::new(alloc),
        foreign_deps: Table::new(alloc),
        foreign_dep_spans: Items::new(alloc),
        unknown_type_spans: Items::new(alloc),
        required_resource_types: Items::new(alloc),
    })
}

/// An interface of this name with one type, which is at this id.
pub fn interface(
    alloc: Global,
    name: &str,
    type_name: &str,
    ty: TypeId,
) -> Result<Interface, AllocError> {
    let mut types = Names::new(alloc);
    types.push(String::from_str(alloc, type_name)?, ty)?;
    let mut made = Interface::new(alloc, Some(Text::try_from_str(alloc, name)?));
    made.types = types;
    Ok(made)
}

/// A type of this name and kind, which an interface owns.
pub fn ty(
    alloc: Global,
    owner: InterfaceId,
    name: &str,
    kind: TypeDefKind,
) -> Result<TypeDef, AllocError> {
    let name = Text::try_from_str(alloc, name)?;
    Ok(TypeDef::new(Some(name), kind, TypeOwner::Interface(owner)))
}

/// A world of this name without entries.
pub fn world(alloc: Global, name: &str) -> Result<World, AllocError> {
    Ok(World::new(alloc, Text::try_from_str(alloc, name)?))
}

/// The item of an interface, as it stands under the interface's own key.
pub fn item(id: InterfaceId) -> WorldItem {
    WorldItem::interface(id)
}

/// The package `foo:NAME` of interface `i` with `type t = u32`.
pub fn with_interface(alloc: Global, name: &str) -> Result<UnresolvedPackage, AllocError> {
    let mut made = package(alloc, name)?;
    let t = ty(
        alloc,
        InterfaceId::from_index(0),
        "t",
        TypeDefKind::Type_(Type_::U32),
    )?;
    made.types.push(t)?;
    let i = interface(alloc, "i", "t", TypeId::from_index(0))?;
    made.interfaces.push(i)?;
    Ok(made)
}

/// The package `foo:NAME` of interface `j` with `use foo:HOME/i.{t as u}`, which stands at a span of its files.
pub fn with_user(
    alloc: Global,
    name: &str,
    home: &str,
    span: Span,
) -> Result<UnresolvedPackage, AllocError> {
    let mut made = package(alloc, name)?;
    let t = ty(alloc, InterfaceId::from_index(0), "t", TypeDefKind::Unknown)?;
    made.types.push(t)?;
    let u = ty(
        alloc,
        InterfaceId::from_index(1),
        "u",
        TypeDefKind::Type_(Type_::Id(TypeId::from_index(0))),
    )?;
    made.types.push(u)?;
    let i = interface(alloc, "i", "t", TypeId::from_index(0))?;
    made.interfaces.push(i)?;
    let j = interface(alloc, "j", "u", TypeId::from_index(1))?;
    made.interfaces.push(j)?;
    name_foreign(alloc, &mut made, home, span)?;
    Ok(made)
}

/// Says that the package names interface `i` of `foo:HOME` and a type of it.
fn name_foreign(
    alloc: Global,
    made: &mut UnresolvedPackage,
    home: &str,
    span: Span,
) -> Result<(), AllocError> {
    let mut notes = Items::new(alloc);
    notes.push(Stability::Unknown)?;
    let mut items = Names::new(alloc);
    let named = (AstItem::Interface(InterfaceId::from_index(0)), notes);
    items.push(String::from_str(alloc, "i")?, named)?;
    let namespace = Text::try_from_str(alloc, "foo")?;
    let home = PackageName::new(namespace, Text::try_from_str(alloc, home)?, None);
    let mut foreign_deps = Table::new(alloc);
    foreign_deps.push(home, items)?;
    made.foreign_deps = foreign_deps;
    made.foreign_dep_spans.push(span)?;
    made.unknown_type_spans.push(span)?;
    Ok(())
}

/// A package alone in its group, without files.
pub fn group(alloc: Global, main: UnresolvedPackage) -> UnresolvedPackageGroup {
    UnresolvedPackageGroup {
        main,
        nested: Items::new(alloc),
        source_map: SourceMap::new(alloc),
    }
}
