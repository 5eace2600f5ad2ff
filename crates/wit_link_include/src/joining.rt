//! The entries that an include brings, joined to a list of a world.
ghost use Rattle.std.specs.Prelude.{◌≡◌, ◌⊎◌, ◌<◌, ◌++◌, ◌∷◌, [], IfErr, IfOk, None, OnOk, Some, length, slice_get};
ghost use Rattle.std.specs.Map.{lookup};
ghost use Rattle.indexmap.specs.Layout.{set_value_at};
ghost use Rattle.wit_link_spec.specs.Include.{joined_entries, new_item};
ghost use Rattle.wit_remap_spec.specs.Joined.{joined_item};
ghost use Rattle.wit_graph_data.specs.declared.error_kind.ResolveErrorKind.TheVariants.{ItemShadowing, OutOfMemory};
ghost use Rattle.wit_data.specs.declared.world.WorldItem.{WorldItem};
ghost use Rattle.wit_data.specs.declared.world.WorldKey.{WorldKey};
ghost use Rattle.wit_data.specs.facts.WorldKeyFacts.{same_key};
ghost use Rattle.wit_link_include.specs.steps.Included.{ComeOnce, IsItemError, IsJoinError, ItemsAgree, JoinIsAccepted};

use crate::stabilities::join_stability;
use std::alloc::{AllocError, Global};
use wit_data::{Items, Span, Stability, Table, Text, WorldItem, WorldKey};
use wit_graph_data::{ResolveError, ResolveErrorKind, ResolveResult};

/// The list with the brought entries joined to it. What is there stays in front and keeps its place; an interface
/// that is there takes the stability that comes; all else goes to the end. `other` tells whether the entries are of a
/// world of another package, whose `@since` says nothing here; `word` is `import` or `export`.
///
/// Refused where a label that is brought is there (7) and where two stabilities of one interface disagree (8).
pub(crate) fn join(
    alloc: Global,
    other: bool,
    span: Span,
    word: &str,
    current: Table<WorldKey, WorldItem>,
    brought: Items<(WorldKey, WorldItem)>,
) -> ResolveResult<Table<WorldKey, WorldItem>>
    requires { ComeOnce brought }
    ensures ok { IfOk result (λ new. new ≡ joined_entries other current brought) }
    ensures fine { OnOk result (JoinIsAccepted other span word.now current brought) }
    ensures cause { IfErr result
        (λ kind. (kind ≡ OutOfMemory) ⊎ IsJoinError other span word.now current brought kind) }
{
    let mut entries = current;
    for (key, item) in brought.into_vec() {
        match entries.get_index_of(&key) {
            None => push_new(other, &mut entries, key, item)?,
            Some(place) => {
                match key {
                    WorldKey::Name(label) => return Err(shadowing(alloc, span, word, label)?),
                    WorldKey::Interface(_) => join_at(other, span, &mut entries, place, item)?,
                }
            }
        }
    }
    Ok(entries)
}

/// Adds an entry under a new key to the end.
fn push_new(
    other: bool,
    entries: &mut Table<WorldKey, WorldItem>,
    key: WorldKey,
    item: WorldItem,
) -> Result<(), AllocError>
    requires { lookup (same_key key) entries.old ≡ None }
    ensures { OnOk result (entries.new ≡ entries.old ++ (key, new_item other key item) ∷ []) }
{
    let item = new_item(other, &key, item);
    entries.push(key, item)?;
    Ok(())
}

/// An entry that comes anew: under the key of an interface a `@since` of another package is dropped.
fn new_item(other: bool, key: &WorldKey, item: WorldItem) -> WorldItem
    ensures { result ≡ new_item other key.now item }
{
    let mut item = item;
    if other && matches!(key, WorldKey::Interface(_)) {
        if let WorldItem::Interface { stability, .. } = &mut item {
            if stability.is_stable() {
                *stability = Stability::Unknown;
            }
        }
    }
    item
}

/// Joins an item to the one at an index.
fn join_at(
    other: bool,
    span: Span,
    entries: &mut Table<WorldKey, WorldItem>,
    index: usize,
    item: WorldItem,
) -> ResolveResult<()>
    requires { index < length entries.old }
    ensures ok { OnOk result
        ((k : WorldKey) (into : WorldItem) → slice_get entries.old index ≡ Some (k, into)
        → entries.new ≡ set_value_at entries.old index (joined_item other item into)) }
    ensures fine { OnOk result ((k : WorldKey) (into : WorldItem)
        → slice_get entries.old index ≡ Some (k, into) → ItemsAgree other item into) }
    ensures cause { IfErr result (λ kind.
        (k : WorldKey) (into : WorldItem) → slice_get entries.old index ≡ Some (k, into)
        → IsItemError other span item into kind) }
{
    join_item(other, span, item, entries.value_at_mut(index))
}

/// Joins an item to one that is there: of two interfaces the stability.
fn join_item(other: bool, span: Span, from: WorldItem, into: &mut WorldItem) -> ResolveResult<()>
    ensures ok { OnOk result (into.new ≡ joined_item other from into.old) }
    ensures fine { OnOk result (ItemsAgree other from into.old) }
    ensures cause { IfErr result (IsItemError other span from into.old) }
{
    match from {
        WorldItem::Interface { stability, .. } => {
            match into {
                WorldItem::Interface {
                    stability: current,
                    ..
                } => join_stability(other, span, stability, current),
                WorldItem::Function(_) | WorldItem::Type_ { .. } => Ok(()),
            }
        }
        WorldItem::Function(_) | WorldItem::Type_ { .. } => Ok(()),
    }
}

/// 7: a label that is brought is there.
fn shadowing(alloc: Global, span: Span, word: &str, label: Text) -> Result<ResolveError, AllocError>
    ensures { IfOk result (λ e. e ≡ ItemShadowing span word.now label) }
{
    let item_type = Text::try_from_str(alloc, word)?;
    Ok(ResolveErrorKind::ItemShadowing {
        span,
        item_type,
        name: label,
    }
    .into())
}
