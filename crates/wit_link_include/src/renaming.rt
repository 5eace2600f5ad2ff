//! Renamings of an include that are of no label.
ghost use Rattle.std.specs.Prelude.{◌≡◌, ◌⊎◌, ◌||◌, ℕ, IfErr, IfOk, List, OnOk};
ghost use Rattle.std.specs.List.{list_any};
ghost use Rattle.std.specs.Map.{keys_of};
ghost use Rattle.std.specs.Option.{option_map};
ghost use Rattle.std.specs.Str.{bytes_eq};
ghost use Rattle.wit_graph_data.specs.declared.cause.Cause.TheVariants as cause;
ghost use Rattle.wit_graph_data.specs.declared.error_kind.ResolveErrorKind.TheVariants.{OutOfMemory, Semantic};
ghost use Rattle.wit_data.specs.declared.world.IncludeName.{IncludeName};
ghost use Rattle.wit_link_include.specs.steps.Included.{AreRenamed, IsFirstUnmatched, has_word, word_of};
ghost use Rattle.wit_link_spec.specs.steps.Parts.{rename_text};

use std::alloc::{AllocError, Global};
use wit_data::{IncludeName, Items, Span, Table, Text, World, WorldItem, WorldKey};
use wit_graph_data::{Cause, ResolveError, ResolveErrorKind, ResolveResult};
use wit_labels::groups::begins_group;
use wit_labels::rest_of;
use wit_values::NameSet;

/// Refuses the first renaming that is of no label of the world (16).
pub(crate) fn check_names(
    alloc: Global,
    span: Span,
    names: &Items<IncludeName>,
    world: &World,
) -> ResolveResult<()>
    ensures fine { OnOk result (AreRenamed world.now names.now) }
    ensures cause { IfErr result (λ kind.
        (kind ≡ OutOfMemory)
        ⊎ ((name : IncludeName) × IsFirstUnmatched world.now names.now name
        × (kind ≡ Semantic span (rename_text name.name) cause.RenameUnmatched))) }
{
    if names.is_empty() {
        return Ok(());
    }
    let words = words_of(alloc, world)?;
    for renaming in names.as_slice() {
        let name = &renaming.name;
        if !words.contains(name.as_str()) {
            return Err(unmatched(alloc, span, name)?);
        }
    }
    Ok(())
}

/// The words of a world's labels that renamings can be of.
fn words_of(alloc: Global, world: &World) -> Result<NameSet, AllocError>
    ensures { IfOk result (λ words.
        (word : List ℕ)
        → list_any (bytes_eq word) words
        ≡ (list_any (has_word word) (keys_of world.now.imports)
        || list_any (has_word word) (keys_of world.now.exports))) }
{
    let mut words = NameSet::new(alloc);
    add_words(alloc, &mut words, &world.imports)?;
    add_words(alloc, &mut words, &world.exports)?;
    Ok(words)
}

/// Adds the words of the labels of a list.
fn add_words(
    alloc: Global,
    words: &mut NameSet,
    entries: &Table<WorldKey, WorldItem>,
) -> Result<(), AllocError>
    ensures { OnOk result ((word : List ℕ)
        → list_any (bytes_eq word) words.new
        ≡ (list_any (bytes_eq word) words.old
        || list_any (has_word word) (keys_of entries.now))) }
{
    for (key, _) in entries.iter() {
        add_word(alloc, words, key)?;
    }
    Ok(())
}

/// Adds the word of a label; the key of an interface has none.
fn add_word(alloc: Global, words: &mut NameSet, key: &WorldKey) -> Result<(), AllocError>
    ensures { OnOk result ((word : List ℕ)
        → list_any (bytes_eq word) words.new
        ≡ (list_any (bytes_eq word) words.old || has_word word key.now)) }
{
    if let WorldKey::Name(label) = key {
        if let Some(word) = word_of(label.as_str()) {
            words.insert(alloc, word)?;
        }
    }
    Ok(())
}

/// The word of a label that a renaming has to be of: what stands behind its groups, up to the first dot. None where a
/// bracket that isn't closed stands there.
fn word_of(label: &str) -> Option<&str>
    ensures { option_map (λ w. w.now) result ≡ word_of label.now }
{
    let rest = rest_of(label);
    if begins_group(rest) {
        return None;
    }
    match rest.split_once('.') {
        Some((word, _)) => Some(word),
        None => Some(rest),
    }
}

/// 16: a renaming is of no label.
fn unmatched(alloc: Global, span: Span, name: &Text) -> Result<ResolveError, AllocError>
    ensures { IfOk result (λ e. e ≡ Semantic span (rename_text name.now) cause.RenameUnmatched) }
{
    let message = format!(in alloc;
        "no import or export kebab-name `{name}`. Note that an ID does not support renaming"
    )?;
    Ok(ResolveErrorKind::Semantic {
        span,
        message: Text::from_string(message),
        cause: Cause::RenameUnmatched,
    }
    .into())
}
