//! Setters and their getters.
ghost use Rattle.std.specs.Prelude.{◌≡◌, IfOk, IfSome, IfNone, Some, None, if◌then◌else◌, is_some};
ghost use Rattle.wit_labels.specs.Setters.{getter_label, is_setter_label, wanted_getter};
ghost use Rattle.wit_labels.specs.steps.Setters.{HaveGetters, LacksGetterAt};

use crate::groups::has_group;
use std::alloc::{AllocError, Global};
use wit_data::{Table, Text, WorldItem, WorldKey};

/// Whether the label is a setter's: it begins with a group `[set]`, and with none `[get]`.
pub fn is_setter_label(label: &str) -> bool
    ensures { result ≡ is_setter_label label.now }
{
    has_group(label, "[set]") && !has_group(label, "[get]")
}

/// The label of a setter's getter: `[get]` for the first `[set]`. The only error is want of memory.
///
/// Source: `process_world_includes` of wit-parser 0.263.0.
pub fn getter_label(alloc: Global, label: &str) -> Result<Text, AllocError>
    ensures { IfOk result (λ getter. getter ≡ getter_label label.now) }
{
    match label.split_once("[set]") {
        Some((before, after)) => {
            let mut getter = String::from_str(alloc, before)?;
            getter.push_str("[get]")?;
            getter.push_str(after)?;
            Ok(Text::from_string(getter))
        }
        None => Text::try_from_str(alloc, label),
    }
}

/// Whether an entry is a setter.
pub(crate) fn is_setter(key: &WorldKey, item: &WorldItem) -> bool
    ensures { result ≡ is_some (wanted_getter key.now item.now) }
{
    match key {
        WorldKey::Name(label) => match item {
            WorldItem::Function(_) => is_setter_label(label.as_str()),
            WorldItem::Interface { .. } | WorldItem::Type_ { .. } => false,
        },
        WorldKey::Interface(_) => false,
    }
}

/// The label of the getter that an entry asks for, where the entry is a setter.
pub(crate) fn wanted_getter(
    alloc: Global,
    key: &WorldKey,
    item: &WorldItem,
) -> Result<Option<Text>, AllocError>
    ensures { IfOk result (λ wanted. wanted ≡ wanted_getter key.now item.now) }
{
    match key {
        WorldKey::Name(label) => match item {
            WorldItem::Function(_) => wanted_by(alloc, label.as_str()),
            WorldItem::Interface { .. } | WorldItem::Type_ { .. } => Ok(None),
        },
        WorldKey::Interface(_) => Ok(None),
    }
}

/// The label of the getter that a function under this label asks for, where the function is a setter.
fn wanted_by(alloc: Global, label: &str) -> Result<Option<Text>, AllocError>
    ensures { IfOk result (λ wanted.
        wanted ≡ (if is_setter_label label.now then Some (getter_label label.now) else None)) }
{
    if is_setter_label(label) {
        Ok(Some(getter_label(alloc, label)?))
    } else {
        Ok(None)
    }
}

/// The index, from 0, of a setter that has no getter in the same list, or None where each has one.
/// The only error is want of memory.
///
/// Source: `process_world_includes` of wit-parser 0.263.0.
pub fn find_setter_without_getter(
    alloc: Global,
    entries: &Table<WorldKey, WorldItem>,
) -> Result<Option<usize>, AllocError>
    ensures some { IfOk result (λ found. IfSome found (LacksGetterAt entries.now)) }
    ensures none { IfOk result (λ found. IfNone found (HaveGetters entries.now)) }
{
    for index in 0..entries.len() {
        let (key, item) = entries.entry_at(index);
        match wanted_getter(alloc, key, item)? {
            Some(getter) => {
                if !entries.contains_key(&WorldKey::Name(getter)) {
                    return Ok(Some(index));
                }
            }
            None => {}
        }
    }
    Ok(None)
}
