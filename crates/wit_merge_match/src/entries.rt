//! What differs in the entries of matched worlds.
ghost use Rattle.std.specs.Prelude.{◌≡◌, ◌↔◌, IfOk, IsTrue, Some};
ghost use Rattle.wit_merge_spec.specs.Cause.{EntriesDiffer, ItemsDiffer, same_sort};
ghost use Rattle.wit_merge_spec.specs.Matches.{counterpart_interface};
ghost use Rattle.wit_merge_match.specs.steps.Differing.{AreKnown, EntryDiffers, HeldDiffer, SidesDiffer, merging_of};
ghost use Rattle.wit_merge_match.specs.steps.Told.{Tells, TellsNone};

use crate::matched_graphs::MatchedGraphs;
use crate::messages::{absent, in_entry, key_text, other_count};
use std::alloc::{AllocError, Global};
use wit_data::{Table, World, WorldItem, WorldKey};
use wit_elaboration::item_interface;
use wit_transform::interface_mismatch;

impl<'a> MatchedGraphs<'a> {
    /// What differs in the imports of matched worlds, or else in their exports. None where nothing does.
    pub(crate) fn sides_mismatch(
        &self,
        alloc: Global,
        from: &World,
        into: &World,
    ) -> Result<Option<String>, AllocError>
        requires { AreKnown self.now }
        ensures some { IfOk result (Tells (SidesDiffer (merging_of self.now) from.now into.now)) }
        ensures none { IfOk result
            (TellsNone (SidesDiffer (merging_of self.now) from.now into.now)) }
    {
        match self.entries_mismatch(alloc, "import", &from.imports, &into.imports)? {
            Some(text) => Ok(Some(text)),
            None => self.entries_mismatch(alloc, "export", &from.exports, &into.exports),
        }
    }

    /// What differs in the imports or the exports of matched worlds: their number, or the first entry that differs.
    /// None where nothing does; word is `import` or `export`.
    fn entries_mismatch(
        &self,
        alloc: Global,
        word: &str,
        from: &Table<WorldKey, WorldItem>,
        into: &Table<WorldKey, WorldItem>,
    ) -> Result<Option<String>, AllocError>
        requires { AreKnown self.now }
        ensures some { IfOk result
            (Tells (EntriesDiffer (merging_of self.now) word.now from.now into.now)) }
        ensures none { IfOk result
            (TellsNone (EntriesDiffer (merging_of self.now) word.now from.now into.now)) }
    {
        if from.len() != into.len() {
            return Ok(Some(other_count(alloc, word)?));
        }
        for (key, item) in from.iter() {
            if let Some(text) = self.entry_mismatch(alloc, word, key, item, into)? {
                return Ok(Some(text));
            }
        }
        Ok(None)
    }

    /// What differs in an entry: that there is none under its key, or what that one is. None where nothing does.
    fn entry_mismatch(
        &self,
        alloc: Global,
        word: &str,
        key: &WorldKey,
        item: &WorldItem,
        into: &Table<WorldKey, WorldItem>,
    ) -> Result<Option<String>, AllocError>
        requires { AreKnown self.now }
        ensures some { IfOk result
            (Tells (EntryDiffers (merging_of self.now) word.now into.now key.now item.now)) }
        ensures none { IfOk result
            (TellsNone (EntryDiffers (merging_of self.now) word.now into.now key.now item.now)) }
    {
        let Some(there) = self.matched_item(key, into) else {
            let name = key_text(alloc, self.other, key)?;
            return Ok(Some(absent(alloc, word, &name)?));
        };
        match self.item_mismatch(alloc, item, there)? {
            Some(text) => {
                let name = key_text(alloc, self.other, key)?;
                Ok(Some(in_entry(alloc, word, &name, &text)?))
            }
            None => Ok(None),
        }
    }

    /// What differs in an item: its sort, or the interface that it is. None where nothing does.
    fn item_mismatch(
        &self,
        alloc: Global,
        from: &WorldItem,
        into: &WorldItem,
    ) -> Result<Option<String>, AllocError>
        requires { AreKnown self.now }
        ensures some { IfOk result (Tells (ItemsDiffer (merging_of self.now) from.now into.now)) }
        ensures none { IfOk result
            (TellsNone (ItemsDiffer (merging_of self.now) from.now into.now)) }
    {
        if !are_of_one_sort(from, into) {
            return Ok(Some(String::from_str(alloc, "world items do not have the same type")?));
        }
        let Some(id) = item_interface(from) else {
            return Ok(None);
        };
        let Some(there) = item_interface(into) else {
            return Ok(None);
        };
        self.held_mismatch(alloc, id.index(), there.index())
    }

    /// What differs in the interfaces of two entries: that they aren't matched or, where they have no name, a function.
    /// None where nothing does.
    fn held_mismatch(
        &self,
        alloc: Global,
        id: usize,
        there: usize,
    ) -> Result<Option<String>, AllocError>
        requires { AreKnown self.now }
        ensures some { IfOk result (Tells (HeldDiffer (merging_of self.now) id there)) }
        ensures none { IfOk result (TellsNone (HeldDiffer (merging_of self.now) id there)) }
    {
        if !self.are_matched(id, there) {
            return Ok(Some(String::from_str(alloc, "interfaces are not the same")?));
        }
        let Some(from) = self.other.interfaces.get(id) else {
            return Ok(None);
        };
        let Some(into) = self.graph.interfaces.get(there) else {
            return Ok(None);
        };
        match from.name {
            Some(_) => Ok(None),
            None => interface_mismatch(alloc, from, into),
        }
    }

    /// Whether an interface is matched with this one.
    fn are_matched(&self, id: usize, there: usize) -> bool
        requires { AreKnown self.now }
        ensures { IsTrue result ↔ (counterpart_interface (merging_of self.now) id ≡ Some there) }
    {
        match self.interface_match(id) {
            Some(found) => found.index() == there,
            None => false,
        }
    }
}

/// Whether two items are both interfaces, both functions or both types.
fn are_of_one_sort(from: &WorldItem, into: &WorldItem) -> bool
    ensures { result ≡ same_sort from.now into.now }
{
    match from {
        WorldItem::Interface { .. } => matches!(into, WorldItem::Interface { .. }),
        WorldItem::Function(_) => matches!(into, WorldItem::Function(_)),
        WorldItem::Type_ { .. } => matches!(into, WorldItem::Type_ { .. }),
    }
}
