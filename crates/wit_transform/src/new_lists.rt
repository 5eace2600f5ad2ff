//! The lists of a transformed world, before they are elaborated, and the errors where there are none.
ghost use Rattle.std.specs.Prelude.{◌≡◌, ◌++◌, ◌∷◌, ◌⊎◌, [], false, true, IfErr, IfNone, IfOk, IfSome, None, OnOk, Some, Contains, List, ℕ, length, not, string_bytes, if◌then◌else◌};
ghost use Rattle.std.specs.Map.{keys_of, lookup};
ghost use Rattle.wit_data.specs.contracts.world.WorldKeyPartialEq.TheImpl.{eq-value};
ghost use Rattle.wit_graph_data.specs.declared.cause.Cause.TheVariants as cause;
ghost use Rattle.wit_graph_data.specs.declared.error_kind.ResolveErrorKind.TheVariants.{OutOfMemory, Semantic};
ghost use Rattle.wit_data.specs.declared.world.WorldKey.{WorldKey};
ghost use Rattle.wit_data.specs.declared.world.WorldKey.TheVariants as key;
ghost use Rattle.wit_transform.specs.Transformed.{export_refusal, name_taken_text, type_refusal, entries_by_answer, is_type, type_entries};
ghost use Rattle.wit_transform.specs.steps.Transformed.{IsFirstCommon, AreUnderLabels};
ghost use Rattle.wit_transform.specs.steps.Parts.{label_clash_text, type_exported_text, HasClash};

use std::alloc::{AllocError, Global};
use wit_data::{Items, Span, Table, Text, World, WorldItem, WorldKey};
use wit_elaboration::Lists;
use wit_graph_data::{Cause, Package, ResolveError, ResolveErrorKind, ResolveResult};
use wit_values::try_clone_two;

/// An error without a span.
fn semantic(message: String, cause: Cause) -> ResolveError
    ensures { result ≡ Semantic None (string_bytes message) cause }
{
    ResolveErrorKind::Semantic {
        span: Span::unknown(),
        message: Text::from_string(message),
        cause,
    }
    .into()
}

/// 19: an export has the label of an import that stays.
fn label_clash(alloc: Global, label: &Text) -> Result<ResolveError, AllocError>
    ensures { IfOk result (λ e. e ≡ Semantic None (label_clash_text label.now) cause.LabelClash) }
{
    let message = format!(in alloc; "world export `{label}` conflicts with import of same name")?;
    Ok(semantic(message, Cause::LabelClash))
}

/// 20: the package has another world of the new name.
pub(crate) fn name_taken(
    alloc: Global,
    name: &Text,
    home: &Package,
) -> Result<ResolveError, AllocError>
    ensures { IfOk result
        (λ e. e ≡ Semantic None (name_taken_text name.now home.now.name) cause.NameTaken) }
{
    let package = &home.name;
    let message = format!(in alloc; "world `{name}` is already defined in package `{package}`")?;
    Ok(semantic(message, Cause::NameTaken))
}

/// 21: a type would be exported.
fn type_exported(alloc: Global, label: &Text) -> Result<ResolveError, AllocError>
    ensures { IfOk result
        (λ e. e ≡ Semantic None (type_exported_text label.now) cause.TypeExported) }
{
    let message = format!(in alloc; "type import `{label}` cannot be exported")?;
    Ok(semantic(message, Cause::TypeExported))
}

/// Whether an item is a type.
fn holds_type(item: &WorldItem) -> bool
    ensures { result ≡ is_type item.now }
{
    match item {
        WorldItem::Interface { .. } => false,
        WorldItem::Function(_) => false,
        WorldItem::Type_ { .. } => true,
    }
}

/// Adds a copy of an entry at the end, whose key is new.
fn push_copy(
    entries: &mut Table<WorldKey, WorldItem>,
    key: &WorldKey,
    item: &WorldItem,
) -> Result<(), AllocError>
    requires { lookup (eq-value.it key.now) entries.old ≡ None }
    ensures { OnOk result (entries.new ≡ entries.old ++ (key.now, item.now) ∷ []) }
{
    let (key, item) = try_clone_two(key, item)?;
    entries.push(key, item)
}

/// Copies of the types among some entries.
fn types_of(
    alloc: Global,
    entries: &Table<WorldKey, WorldItem>,
) -> Result<Table<WorldKey, WorldItem>, AllocError>
    ensures { IfOk result (λ types. types ≡ type_entries entries.now) }
{
    let mut types = Table::new(alloc);
    for (key, item) in entries.iter() {
        if holds_type(item) {
            push_copy(&mut types, key, item)?;
        }
    }
    Ok(types)
}

/// The first label of some exports that other entries have too.
fn common_label<'a>(
    entries: &Table<WorldKey, WorldItem>,
    exports: &'a Table<WorldKey, WorldItem>,
) -> Option<&'a Text>
    ensures some { IfSome result (λ label. IsFirstCommon entries.now exports.now label.now) }
    ensures none { IfNone result ((label : List ℕ) → Contains (keys_of exports.now) (key.Name label)
        → Contains (keys_of entries.now) (key.Name label) → ⊥) }
{
    for (key, _) in exports.iter() {
        match key {
            WorldKey::Name(label) => {
                if entries.contains_key(key) {
                    return Some(label);
                }
            }
            WorldKey::Interface(_) => {}
        }
    }
    None
}

/// Adds copies of entries at the end, whose keys are new.
fn add_copies(
    entries: &mut Table<WorldKey, WorldItem>,
    more: &Table<WorldKey, WorldItem>,
) -> Result<(), AllocError>
    requires { (k : WorldKey) → Contains (keys_of more.now) k → Contains (keys_of entries.old) k
        → ⊥ }
    ensures { OnOk result (entries.new ≡ entries.old ++ more.now) }
{
    for (key, item) in more.iter() {
        push_copy(entries, key, item)?;
    }
    Ok(())
}

/// The lists of a world whose exports become its imports. Refused where an export has the label of a
/// type import (19).
pub(crate) fn importized_lists(alloc: Global, world: &World) -> ResolveResult<Lists>
    requires { AreUnderLabels (type_entries world.now.imports) }
    ensures imports { IfOk result
        (λ lists. lists.imports ≡ type_entries world.now.imports ++ world.now.exports) }
    ensures exports { IfOk result (λ lists. lists.exports ≡ []) }
    ensures no_clash { OnOk result ((label : List ℕ) → HasClash world.now label → ⊥) }
    ensures cause { IfErr result (λ e.
        (e ≡ OutOfMemory)
        ⊎ ((label : List ℕ) × HasClash world.now label
        × (e ≡ Semantic None (label_clash_text label) cause.LabelClash))) }
{
    let mut imports = types_of(alloc, &world.imports)?;
    match common_label(&imports, &world.exports) {
        Some(label) => Err(label_clash(alloc, label)?),
        None => {
            add_copies(&mut imports, &world.exports)?;
            Ok(Lists {
                imports,
                exports: Table::new(alloc),
            })
        }
    }
}

/// Whether what was given is an answer.
fn is_answer(answer: bool, given: bool) -> bool
    ensures { result ≡ (if answer then given else not given) }
{
    if answer { given } else { !given }
}

/// Copies of the entries for which this was answered.
fn with_answer(
    alloc: Global,
    entries: &Table<WorldKey, WorldItem>,
    answers: &Items<bool>,
    answer: bool,
) -> Result<Table<WorldKey, WorldItem>, AllocError>
    requires { length answers.now ≡ length entries.now }
    ensures { IfOk result (λ table. table ≡ entries_by_answer answer entries.now answers.now) }
{
    let mut table = Table::new(alloc);
    for index in 0..entries.len() {
        let (key, item) = entries.entry_at(index);
        if is_answer(answer, *answers.at(index)) {
            push_copy(&mut table, key, item)?;
        }
    }
    Ok(table)
}

/// 21: a type would be exported.
fn type_refusal(
    alloc: Global,
    key: &WorldKey,
    item: &WorldItem,
) -> Result<Option<ResolveError>, AllocError>
    ensures { IfOk result (λ refusal. refusal ≡ type_refusal key.now item.now) }
{
    match key {
        WorldKey::Name(label) => {
            if holds_type(item) {
                Ok(Some(type_exported(alloc, label)?))
            } else {
                Ok(None)
            }
        }
        WorldKey::Interface(_) => Ok(None),
    }
}

/// Why these can't be the exports of a world: the refusal of the first of them that can't be one.
fn export_refusal(
    alloc: Global,
    exports: &Table<WorldKey, WorldItem>,
) -> Result<Option<ResolveError>, AllocError>
    ensures { IfOk result (λ refusal. refusal ≡ export_refusal exports.now) }
{
    for (key, item) in exports.iter() {
        if let Some(refusal) = type_refusal(alloc, key, item)? {
            return Ok(Some(refusal));
        }
    }
    Ok(None)
}

/// The lists of a world whose imports become its exports where true was answered. Refused where these
/// can't be exports, as where a type would be (21).
pub(crate) fn exportized_lists(
    alloc: Global,
    world: &World,
    answers: &Items<bool>,
) -> ResolveResult<Lists>
    requires { length answers.now ≡ length world.now.imports }
    ensures imports { IfOk result
        (λ lists. lists.imports ≡ entries_by_answer false world.now.imports answers.now) }
    ensures exports { IfOk result
        (λ lists. lists.exports ≡ entries_by_answer true world.now.imports answers.now) }
    ensures none { OnOk result
        (export_refusal (entries_by_answer true world.now.imports answers.now) ≡ None) }
    ensures cause { IfErr result (λ e.
        (e ≡ OutOfMemory)
        ⊎ (export_refusal (entries_by_answer true world.now.imports answers.now) ≡ Some e)) }
{
    let exports = with_answer(alloc, &world.imports, answers, true)?;
    if let Some(refusal) = export_refusal(alloc, &exports)? {
        return Err(refusal);
    }
    let imports = with_answer(alloc, &world.imports, answers, false)?;
    Ok(Lists { imports, exports })
}
