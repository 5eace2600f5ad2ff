//! Which labels of a world are not strongly unique.
ghost use Rattle.std.specs.Prelude.{◌≡◌, IfOk, IfSome, IfNone};
ghost use Rattle.std.specs.Map.{keys_of};
ghost use Rattle.wit_labels.specs.Strong.{Clashes, class_named, strong_key};
ghost use Rattle.wit_labels.specs.steps.Strong.{AreStronglyUnique};
ghost use Rattle.wit_labels.specs.steps.Parts.{label_class};

use crate::groups::{rest_of, split_group};
use std::alloc::{AllocError, Global};
use wit_data::{Table, Text, WorldItem, WorldKey};

/// What tells a label apart from another with the same words.
#[derive(Clone, Copy, PartialEq, Eq, Hash)]
pub enum Class {
    Constructor,
    Getter,
    Setter,
}

/// What tells labels apart: labels with equal keys are not strongly unique.
#[derive(PartialEq, Eq, Hash, Drop)]
pub struct StrongKey {
    pub class: Option<Class>,
    /// What follows the groups, in lower case.
    pub name: Text,
}

/// Two labels of one list with equal keys.
#[derive(Clone, Copy)]
pub struct Clash<'a> {
    pub label: &'a str,
    /// The one that stands earlier.
    pub earlier: &'a str,
}

/// The key of a label. The only error is want of memory.
pub fn strong_key(alloc: Global, label: &str) -> Result<StrongKey, AllocError>
    ensures { IfOk result (λ key. key ≡ strong_key label.now) }
{
    let name = rest_of(label).to_ascii_lowercase(alloc)?;
    Ok(StrongKey {
        class: label_class(label),
        name: Text::from_string(name),
    })
}

/// The class of a label: the first that one of its groups tells.
fn label_class(label: &str) -> Option<Class>
    ensures { result ≡ label_class label.now }
{
    let mut rest = label;
    while let Some((group, after)) = split_group(rest) {
        let class = class_named(group);
        if class.is_some() {
            return class;
        }
        rest = after;
    }
    None
}

/// The class that a group tells.
fn class_named(group: &str) -> Option<Class>
    ensures { result ≡ class_named group.now }
{
    if group == "[constructor]" {
        Some(Class::Constructor)
    } else if group == "[get]" {
        Some(Class::Getter)
    } else if group == "[set]" {
        Some(Class::Setter)
    } else {
        None
    }
}

/// A label that clashes with an earlier one of the same list, with that one, or None where no two
/// clash. The only error is want of memory.
///
/// Source: `validate_world_strongly_unique_names` of wit-parser 0.263.0; WIT.md of the component
/// model.
pub fn find_clash<'a>(
    alloc: Global,
    entries: &'a Table<WorldKey, WorldItem>,
) -> Result<Option<Clash<'a>>, AllocError>
    ensures some { IfOk result
        (λ found. IfSome found (λ c. Clashes (keys_of entries.now) c.label.now c.earlier.now)) }
    ensures none { IfOk result (λ found. IfNone found (AreStronglyUnique (keys_of entries.now))) }
{
    let mut met = Table::new(alloc);
    for (key, _) in entries.iter() {
        match key {
            WorldKey::Name(label) => {
                let label = label.as_str();
                let strong = strong_key(alloc, label)?;
                if let Some(earlier) = met.get(&strong) {
                    return Ok(Some(Clash {
                        label,
                        earlier: *earlier,
                    }));
                }
                met.push(strong, label)?;
            }
            WorldKey::Interface(_) => {}
        }
    }
    Ok(None)
}
