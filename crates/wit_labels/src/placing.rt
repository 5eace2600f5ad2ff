//! Setters that stand before their getters are moved to just after them.
ghost use Rattle.std.specs.Prelude.{◌≡◌, ℕ, ◌<◌, ◌↔◌, IfOk, IsTrue, None, Some, length, slice_get, slice_index, slice_set};
ghost use Rattle.std.specs.List.{IsDistinct};
ghost use Rattle.std.specs.Map.{keys_of};
ghost use Rattle.wit_data.specs.Each.{Each};
ghost use Rattle.wit_data.specs.Entries.{Entry};
ghost use Rattle.wit_data.specs.contracts.world.WorldKeyPartialEq.TheImpl.{eq-value};
ghost use Rattle.wit_labels.specs.steps.Placing.{AreLater, IsRing, getters_of, later_getter, order_after_getters};
ghost use Rattle.wit_labels.specs.Setters.{setters_placed, wanted_getter};
ghost use Rattle.wit_labels.specs.steps.Parts.{after};

use crate::setters::{is_setter, wanted_getter};
use std::alloc::{AllocError, Global};
use wit_data::{Items, Table, WorldItem, WorldKey};
use wit_digraph::in_order;

/// The entries, with each setter that stands before its getter moved to just after it. Nothing else
/// moves; setters of one getter keep their order. The only error is want of memory.
///
/// Source: `process_world_includes` of wit-parser 0.263.0; WIT.md of the component model.
pub fn place_setters(
    alloc: Global,
    entries: Table<WorldKey, WorldItem>,
) -> Result<Table<WorldKey, WorldItem>, AllocError>
    ensures { IfOk result (λ new. new ≡ setters_placed entries) }
{
    if has_no_setter(&entries) {
        Ok(entries)
    } else {
        moved_setters(alloc, entries)
    }
}

/// Whether no entry is a setter.
fn has_no_setter(entries: &Table<WorldKey, WorldItem>) -> bool
    ensures { IsTrue result ↔ Each (λ (e : Entry). wanted_getter e.0 e.1 ≡ None) entries.now }
{
    for (key, item) in entries.iter() {
        if is_setter(key, item) {
            return false;
        }
    }
    true
}

/// The entries in the order of `order_after_getters`.
fn moved_setters(
    alloc: Global,
    entries: Table<WorldKey, WorldItem>,
) -> Result<Table<WorldKey, WorldItem>, AllocError>
    ensures { IfOk result (λ new. new ≡ setters_placed entries) }
{
    entries.keys_differ();
    let getters = getters_of(alloc, &entries)?;
    let order = order_after_getters(alloc, &getters)?;
    let items = in_order(alloc, items_of(alloc, entries)?, order.as_slice())?;
    table_of(alloc, items)
}

/// For each entry the index of the getter that it waits for.
fn getters_of(
    alloc: Global,
    entries: &Table<WorldKey, WorldItem>,
) -> Result<Items<Option<usize>>, AllocError>
    ensures { IfOk result (λ getters. getters ≡ getters_of entries.now) }
{
    let mut getters = Items::new(alloc);
    for index in 0..entries.len() {
        getters.push(later_getter(alloc, entries, index)?)?;
    }
    Ok(getters)
}

/// The index of the getter that the entry at an index waits for.
fn later_getter(
    alloc: Global,
    entries: &Table<WorldKey, WorldItem>,
    place: usize,
) -> Result<Option<usize>, AllocError>
    requires { place < length entries.now }
    ensures { IfOk result (λ getter.
        (e : Entry) → slice_get entries.now place ≡ Some e
        → getter ≡ later_getter entries.now place e) }
{
    let (key, item) = entries.entry_at(place);
    match wanted_getter(alloc, key, item)? {
        Some(label) => Ok(after(place, entries.get_index_of(&WorldKey::Name(label)))),
        None => Ok(None),
    }
}

/// The index that was found, where it is after another.
fn after(index: usize, found: Option<usize>) -> Option<usize>
    ensures { result ≡ after index found }
{
    match found {
        Some(getter) => { if index < getter { Some(getter) } else { None } }
        None => None,
    }
}

/// The indices with each setter just after its getter.
fn order_after_getters(
    alloc: Global,
    getters: &Items<Option<usize>>,
) -> Result<Items<usize>, AllocError>
    requires { AreLater getters.now }
    ensures { IfOk result (λ order. order ≡ order_after_getters getters.now) }
{
    let next = next_indices(alloc, getters)?;
    let end = getters.len();
    let mut order = Items::new(alloc);
    let mut index = *next.at(end);
    for _ in 0..end {
        order.push(index)?;
        index = *next.at(index);
    }
    Ok(order)
}

/// For each index the one that comes after it, where each setter comes just after its getter: a ring, in which the end
/// stands between the last index and the first.
fn next_indices(alloc: Global, getters: &Items<Option<usize>>) -> Result<Items<usize>, AllocError>
    requires { AreLater getters.now }
    ensures { IfOk result
        (λ next. IsRing next (order_after_getters getters.now) (length getters.now)) }
{
    let end = getters.len();
    let mut next = Items::from_vec(vec![in alloc; end; end]?);
    next.push(end)?;
    for index in (0..end).rev() {
        put_after(&mut next, getters.at(index).unwrap_or(end), index);
    }
    Ok(next)
}

/// Puts an index just after another.
fn put_after(next: &mut Items<usize>, before: usize, index: usize)
    requires before { before < length next.old }
    requires index { index < length next.old }
    ensures { next.new
        ≡ slice_set (slice_set next.old before index) index (slice_index next.old before) }
{
    let after = next.replace(before, index);
    next.set(index, after);
}

/// The entries as a list.
fn items_of(
    alloc: Global,
    entries: Table<WorldKey, WorldItem>,
) -> Result<Items<(WorldKey, WorldItem)>, AllocError>
    ensures { IfOk result (λ items. items ≡ entries) }
{
    let mut items = Items::new(alloc);
    for (key, item) in entries.into_pairs() {
        items.push((key, item))?;
    }
    Ok(items)
}

/// The table of these entries, whose keys differ.
fn table_of(
    alloc: Global,
    items: Items<(WorldKey, WorldItem)>,
) -> Result<Table<WorldKey, WorldItem>, AllocError>
    requires { IsDistinct eq-value.it (keys_of items) }
    ensures { IfOk result (λ table. table ≡ items) }
{
    let mut table = Table::new(alloc);
    for (key, item) in items.into_vec() {
        table.push(key, item)?;
    }
    Ok(table)
}
