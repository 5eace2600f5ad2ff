//! Tables of entries that grow where a key is new.
ghost use Rattle.std.specs.Prelude.{◌≡◌, ◌++◌, ◌∷◌, [], OnOk, IfOk, map};
ghost use Rattle.std.specs.List.{list_any};
ghost use Rattle.std.specs.Map.{keys_of};
ghost use Rattle.wit_elaboration.specs.Elaborated.{dependency_of, inherited_by_export, inherited_by_import, without_span};
ghost use Rattle.wit_elaboration.specs.Entries.{fresh_entries, same_key};

use std::alloc::AllocError;
use wit_data::{Docs, InterfaceId, Span, Stability, TypeDef, WorldItem, WorldKey};
use wit_values::{Table, Text, TryClone, try_clone_two};

/// The imports and the exports of a world.
#[derive(Drop)]
pub struct Lists {
    pub imports: Table<WorldKey, WorldItem>,
    pub exports: Table<WorldKey, WorldItem>,
}

/// The data that the dependencies of an entry get from it.
#[derive(Drop)]
pub(crate) struct InheritedData {
    pub(crate) stability: Stability,
    pub(crate) external_id: Option<Text>,
}

/// Whether some entry has the key.
fn has_key(entries: &Table<WorldKey, WorldItem>, key: &WorldKey) -> bool
    ensures { result ≡ list_any (same_key key.now) (keys_of entries.now) }
{
    entries.contains_key(key)
}

/// Adds a copy of an entry at the end, unless its key is there.
pub(crate) fn add_copy(
    entries: &mut Table<WorldKey, WorldItem>,
    key: &WorldKey,
    item: &WorldItem,
) -> Result<(), AllocError>
    ensures { OnOk result (entries.new
        ≡ entries.old ++ fresh_entries (keys_of entries.old) ((key.now, item.now) ∷ [])) }
{
    if has_key(entries, key) {
        return Ok(());
    }
    entries.push(key.try_clone()?, item.try_clone()?)
}

/// Adds the import of an entry at the end, unless its key is there: an interface with an unknown
/// span, any other as it is.
pub(crate) fn add_import(
    entries: &mut Table<WorldKey, WorldItem>,
    key: &WorldKey,
    item: &WorldItem,
) -> Result<(), AllocError>
    ensures { OnOk result (entries.new
        ≡ entries.old
        ++ fresh_entries (keys_of entries.old) ((key.now, without_span item.now) ∷ [])) }
{
    if has_key(entries, key) {
        return Ok(());
    }
    entries.push(key.try_clone()?, settled(item)?)
}

/// A copy of an item, with an unknown span where it is an interface.
fn settled(item: &WorldItem) -> Result<WorldItem, AllocError>
    ensures { IfOk result (λ copy. copy ≡ without_span item.now) }
{
    let mut copy = item.try_clone()?;
    if let WorldItem::Interface { span, .. } = &mut copy {
        *span = Span::unknown();
    }
    Ok(copy)
}

/// Adds an interface under its own key at the end, unless that is there: with what it carries, no
/// docs and an unknown span.
fn add_dependency(
    entries: &mut Table<WorldKey, WorldItem>,
    carried: &InheritedData,
    interface: usize,
) -> Result<(), AllocError>
    ensures { OnOk result (entries.new
        ≡ entries.old
        ++ fresh_entries (keys_of entries.old) (dependency_of carried.now interface ∷ [])) }
{
    let id = InterfaceId::from_index(interface);
    let key = WorldKey::Interface(id);
    if has_key(entries, &key) {
        return Ok(());
    }
    let (stability, external_id) = try_clone_two(&carried.stability, &carried.external_id)?;
    entries.push(
        key,
        WorldItem::Interface {
            id,
            stability,
            docs: Docs::none(),
            span: Span::unknown(),
            external_id,
        },
    )
}

/// Adds interfaces under their own keys, each unless its key is there.
pub(crate) fn add_dependencies(
    entries: &mut Table<WorldKey, WorldItem>,
    carried: &InheritedData,
    interfaces: &[usize],
) -> Result<(), AllocError>
    ensures { OnOk result (entries.new
        ≡ entries.old
        ++ fresh_entries (keys_of entries.old)
        (map (dependency_of carried.now) interfaces.now)) }
{
    for interface in interfaces {
        add_dependency(entries, carried, *interface)?;
    }
    Ok(())
}

/// What the dependencies of an import carry: the stability of the interface, or of the type that is
/// used, and no external id.
pub(crate) fn import_data(types: &[TypeDef], item: &WorldItem) -> Result<InheritedData, AllocError>
    ensures { IfOk result (λ carried. carried ≡ inherited_by_import types.now item.now) }
{
    let stability = match item {
        WorldItem::Interface { stability, .. } => stability.try_clone()?,
        WorldItem::Type_ { id, .. } => match types.get(id.index()) {
            Some(used) => used.stability.try_clone()?,
            None => Stability::Unknown,
        },
        WorldItem::Function(_) => Stability::Unknown,
    };
    Ok(InheritedData {
        stability,
        external_id: None,
    })
}

/// What the dependencies of an export carry: the interface's stability and external id.
pub(crate) fn export_data(item: &WorldItem) -> Result<InheritedData, AllocError>
    ensures { IfOk result (λ carried. carried ≡ inherited_by_export item.now) }
{
    match item {
        WorldItem::Interface {
            stability,
            external_id,
            ..
        } => {
            let (stability, external_id) = try_clone_two(stability, external_id)?;
            Ok(InheritedData {
                stability,
                external_id,
            })
        }
        WorldItem::Function(_) | WorldItem::Type_ { .. } => Ok(InheritedData {
            stability: Stability::Unknown,
            external_id: None,
        }),
    }
}
