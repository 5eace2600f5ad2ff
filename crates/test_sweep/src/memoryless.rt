//! Calls that take no memory.
ghost use Rattle.std.specs.Prelude.{◌<◌, length};

use crate::marks::{bare, tell};
use std::alloc::Global;
use wit_resolve_graph::{
    AstItem, Docs, Function, FunctionKind, Interface, InterfaceId, Items, PackageId, Resolve,
    SourceMap, Span, Stability, Text, TrackRule, TryClone, Type_, TypeDef, TypeDefKind, TypeId,
    TypeOwner, World, WorldId, WorldItem,
};
use wit_script::Watched;

/// Of values.
pub fn read_values(rt: &impl Print, alloc: Global) -> Option<()> {
    bare(rt, "of ids and spans");
    let (start, end) = (Span::new(3, 5).start(), Span::new(3, 5).end());
    let id = TypeId::from_index(7);
    let moved = Span::new(3, 5).moved(4);
    tell(
        rt,
        Ok((start, end, id.index(), moved, Span::unknown().is_known())),
    )?;
    bare(rt, "try_clone of what is copied");
    let item = AstItem::World(WorldId::from_index(7));
    let copies = [id.try_clone().is_ok(), Type_::Id(id).try_clone().is_ok()];
    let others = [moved.try_clone().is_ok(), item.try_clone().is_ok()];
    tell(rt, Ok((copies, others)))?;
    bare(rt, "Docs::none, is_unknown and is_stable");
    let stability = Stability::Unknown;
    let docs = Docs::none();
    tell(
        rt,
        Ok((docs, stability.is_unknown(), stability.is_stable())),
    )?;
    bare(rt, "of Watched");
    let watched = Watched::new(7usize);
    let failed = watched.failed();
    tell(rt, Ok((failed, watched.into_inner())))?;
    bare(rt, "new and with_base");
    let is_new = Resolve::new(alloc).types().is_empty();
    let (start, base) = (
        SourceMap::new(alloc).end(),
        SourceMap::with_base(alloc, 7).end(),
    );
    tell(rt, Ok((is_new, start, base)))
}

/// Of types and functions of which nothing is said yet.
pub fn new_types(rt: &impl Print, alloc: Global) -> Option<()> {
    bare(rt, "new of types and functions");
    let def = TypeDef::new(None, TypeDefKind::Resource, TypeOwner::None);
    let kind = FunctionKind::Freestanding;
    let function = Function::new(Text::new(alloc), kind, Items::new(alloc), None);
    tell(rt, Ok((def.name.is_none(), function.params.len())))
}

/// The same of interfaces and worlds.
pub fn new_worlds(rt: &impl Print, alloc: Global) -> Option<()> {
    bare(rt, "new of interfaces and worlds, and interface");
    let interface = Interface::new(alloc, None);
    let world = World::new(alloc, Text::new(alloc));
    let entry = WorldItem::interface(InterfaceId::from_index(7));
    let is_interface = matches!(entry, WorldItem::Interface { .. });
    tell(
        rt,
        Ok((interface.types.len(), world.imports.len(), is_interface)),
    )
}

/// Of a `Resolve` as a whole.
pub fn read_whole(rt: &impl Print, resolve: &mut Resolve) -> Option<()> {
    bare(rt, "readers of Resolve");
    let (types, interfaces) = (resolve.types().len(), resolve.interfaces().len());
    let (worlds, packages) = (resolve.worlds().len(), resolve.packages().len());
    let (names, end) = (resolve.package_names().len(), resolve.source_map().end());
    let files = resolve.source_map().source_names().count();
    tell(
        rt,
        Ok((types, interfaces, worlds, packages, names, files, end)),
    )?;
    bare(rt, "set_all_features and set_track_rule");
    resolve.set_all_features(true);
    resolve.set_track_rule(TrackRule::WithPrereleases);
    tell(rt, Ok((resolve.all_features(), resolve.track_rule())))
}

/// Of an interface.
pub fn read_interface(rt: &impl Print, resolve: &Resolve, index: usize) -> Option<()>
    requires { index < length resolve.now.graph.interfaces }
{
    bare(rt, "interface_direct_deps");
    let mut count = 0usize;
    for _id in resolve.interface_direct_deps(InterfaceId::from_index(index)) {
        count = count.saturating_add(1);
    }
    tell(rt, Ok(count))
}

/// Of a package.
pub fn read_package(rt: &impl Print, resolve: &Resolve, index: usize) -> Option<()>
    requires { index < length resolve.now.graph.packages }
{
    bare(rt, "package_direct_deps");
    let mut count = 0usize;
    for _id in resolve.package_direct_deps(PackageId::from_index(index)) {
        count = count.saturating_add(1);
    }
    tell(rt, Ok(count))
}

/// Of a type.
pub fn read_type(rt: &impl Print, resolve: &Resolve, index: usize) -> Option<()> {
    let id = TypeId::from_index(index);
    bare(rt, "type_interface_dep and all_bits_valid");
    tell(
        rt,
        Ok((
            resolve.type_interface_dep(id),
            resolve.all_bits_valid(Type_::Id(id)),
        )),
    )
}
