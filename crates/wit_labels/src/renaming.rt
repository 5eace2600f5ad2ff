//! How an `include` renames labels.
ghost use Rattle.std.specs.Prelude.{◌≡◌, ◌==◌, ◌++◌, IfNone, IfOk, IfSome, drop, false, length, string_bytes, true};
ghost use Rattle.std.specs.List.{before_first, concat, find};
ghost use Rattle.std.specs.Option.{option_copied, option_map};
ghost use Rattle.wit_labels.specs.steps.FirstRenamings.{AreFirstIndices, is_of};
ghost use Rattle.wit_labels.specs.Groups.{begins_group, groups_of, rest_of};
ghost use Rattle.wit_labels.specs.Rename.{renamed_label, renamed_label_by};

use crate::groups::{begins_group, split_groups};
use std::alloc::{AllocError, Global};
use std::marker::Model;
use wit_data::{IncludeName, Items, Names, Text};

/// The label as a renaming makes it, or None where the renaming is of another label. The only error is want of memory.
///
/// Source: `rename` of wit-parser 0.263.0.
pub fn rename(alloc: Global, label: &str, name: &IncludeName) -> Result<Option<String>, AllocError>
    ensures { IfOk result (λ r. option_map string_bytes r ≡ renamed_label_by name.now label.now) }
{
    let Some((groups, word, after)) = split_label(label) else {
        return Ok(None);
    };
    if word != name.name.as_str() {
        return Ok(None);
    }
    Ok(Some(joined(alloc, groups, name.as_.as_str(), after)?))
}

/// What a renaming reads of a label: its groups, its word, and what follows that. None where a bracket that isn't
/// closed stands behind the groups: no renaming is of such a label.
fn split_label(label: &str) -> Option<(&str, &str, &str)>
    ensures none { IfNone result (begins_group (rest_of label.now) ≡ true) }
    ensures plain { IfSome result (λ _. begins_group (rest_of label.now) ≡ false) }
    ensures groups { IfSome result (λ r. r.0.now ≡ concat (groups_of label.now)) }
    ensures word { IfSome result (λ r. r.1.now ≡ before_first (λ b. b == 46) (rest_of label.now)) }
    ensures after { IfSome result (λ r. r.2.now ≡ drop (length r.1.now) (rest_of label.now)) }
{
    let (groups, rest) = split_groups(label);
    if begins_group(rest) {
        return None;
    }
    let (word, after) = split_word(rest);
    Some((groups, word, after))
}

/// The part before the first dot, or all where there is no dot, and what follows it.
fn split_word(rest: &str) -> (&str, &str)
    ensures word { result.0.now ≡ before_first (λ b. b == 46) rest.now }
    ensures after { result.1.now ≡ drop (length result.0.now) rest.now }
{
    match rest.split_once('.') {
        Some((word, _)) => (word, &rest[word.len()..]),
        None => (rest, ""),
    }
}

/// A label of its groups, its word and what follows it.
fn joined(alloc: Global, groups: &str, word: &str, after: &str) -> Result<String, AllocError>
    ensures { IfOk result (λ label. string_bytes label ≡ (groups.now ++ word.now) ++ after.now) }
{
    let mut label = String::from_str(alloc, groups)?;
    label.push_str(word)?;
    label.push_str(after)?;
    Ok(label)
}

/// The renamings of an include, of which the first of a word is found by hash.
#[derive(Drop)]
pub struct Renamings<'a> {
    names: &'a Items<IncludeName>,
    /// Where the first renaming of each word stands.
    firsts: Names<usize>,
}

impl<'a> Model for Renamings<'a> {
    ghost use Rattle.std.specs.Prelude.{List};
    ghost use Rattle.wit_data.specs.declared.world.IncludeName.{IncludeName};
    ghost use Rattle.wit_labels.specs.steps.FirstRenamings.{AreFirstIndices};

    ghost Value = { List IncludeName };

    ghost view = { λ r. r.names.now };

    ghost invariant = { λ r. AreFirstIndices r.names.now r.firsts };
}

impl<'a> Renamings<'a> {
    /// The renamings of an include. It takes a step for each of them. The only error is want of memory.
    pub fn new(alloc: Global, names: &'a Items<IncludeName>) -> Result<Renamings<'a>, AllocError>
        ensures { IfOk result (λ renamings. renamings ≡ names.now) }
    {
        let firsts = first_indices(alloc, names)?;
        Ok(Renamings { names, firsts })
    }

    /// The first renaming of a word, or None where none is of it.
    fn first_of(&self, word: &str) -> Option<&IncludeName>
        ensures { option_copied result ≡ find (is_of word.now) self.now }
    {
        match self.firsts.get(word) {
            Some(index) => Some(self.names.at(*index)),
            None => None,
        }
    }

    /// The label as the first renaming that is of it makes it, or a copy of it where none is. The only error is want of
    /// memory. It takes a step for each byte of the label and of the new name, however many renamings there are.
    pub fn rename(&self, alloc: Global, label: &str) -> Result<Text, AllocError>
        ensures { IfOk result (λ new. new ≡ renamed_label self.now label.now) }
    {
        let Some((groups, word, after)) = split_label(label) else {
            return Text::try_from_str(alloc, label);
        };
        match self.first_of(word) {
            Some(name) => Ok(Text::from_string(joined(alloc, groups, name.as_.as_str(), after)?)),
            None => Text::try_from_str(alloc, label),
        }
    }
}

/// Where the first renaming of each word stands.
fn first_indices(alloc: Global, names: &Items<IncludeName>) -> Result<Names<usize>, AllocError>
    ensures { IfOk result (λ firsts. AreFirstIndices names.now firsts) }
{
    let mut firsts = Names::new(alloc);
    for (index, name) in names.as_slice().iter().enumerate() {
        let word = name.name.as_str();
        if !firsts.contains_key(word) {
            firsts.push(String::from_str(alloc, word)?, index)?;
        }
    }
    Ok(firsts)
}
