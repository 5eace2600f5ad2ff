//! Interfaces without names, which are matched by where they stand: under one label, on one side of matched worlds.
ghost use Rattle.std.specs.Prelude.{◌≡◌, ◌++◌, ℕ, List, Option, None, true, get_or, length};
ghost use Rattle.std.specs.List.{flat_map};
ghost use Rattle.wit_elaboration.specs.Entries.{Entry};
ghost use Rattle.wit_data.specs.Entries.{is_unnamed};
ghost use Rattle.wit_merge_match.specs.steps.Matched.{AreLabelled, KnowsWorlds, unnamed_at};
ghost use Rattle.wit_merge_spec.specs.Matches.{WorldLabel, interface_at_label, unnamed_item, world_labels};

use crate::tables::match_at;
use wit_data::{Interface, InterfaceId, Items, Table, WorldId, WorldItem, WorldKey};
use wit_graph_data::Graph;

/// Two graphs, and what is found of the worlds of the other one.
#[derive(Clone, Copy)]
pub(crate) struct LabelNotes<'a> {
    pub(crate) graph: &'a Graph,
    pub(crate) other: &'a Graph,
    pub(crate) worlds: &'a Items<Option<WorldId>>,
}

impl<'a> LabelNotes<'a> {
    /// Adds of each interface of the other graph that has no name the one that stands where it stands first: under
    /// its label, on its side of the world that is matched. It goes over all entries once, the last first, so that
    /// what the first says is left.
    pub(crate) fn add_unnamed(&self, found: &mut Items<Option<InterfaceId>>)
        requires worlds { KnowsWorlds self.now }
        requires long { length found.old ≡ length self.now.other.now.interfaces }
        requires unnamed { (i : ℕ) → is_unnamed self.now.other.now.interfaces i ≡ true
            → get_or found.old i None ≡ None }
        ensures { AreLabelled self.now.graph.now self.now.other.now found.old
            (world_labels self.now.other.now.worlds) found.new }
    {
        for index in (0..self.other.worlds.len()).rev() {
            let world = self.other.worlds.at(index);
            self.note_side(index, true, &world.exports, found);
            self.note_side(index, false, &world.imports, found);
        }
    }

    /// Notes what stands under labels on a side of a world, the last first.
    fn note_side(
        &self,
        world: usize,
        exported: bool,
        entries: &Table<WorldKey, WorldItem>,
        found: &mut Items<Option<InterfaceId>>,
    )
        requires { KnowsWorlds self.now }
        ensures { (named : List (Option ℕ)) → (later : List (ℕ × WorldLabel))
            → AreLabelled self.now.graph.now self.now.other.now named later found.old
            → AreLabelled self.now.graph.now self.now.other.now named
            (flat_map (λ (e : Entry). interface_at_label world exported e.0 e.1) entries.now
            ++ later) found.new }
    {
        for index in (0..entries.len()).rev() {
            let (key, item) = entries.entry_at(index);
            self.note(world, exported, key, item, found);
        }
    }

    /// Notes what stands where an entry does, where that is an interface without a name under a label.
    fn note(
        &self,
        world: usize,
        exported: bool,
        key: &WorldKey,
        item: &WorldItem,
        found: &mut Items<Option<InterfaceId>>,
    )
        requires { KnowsWorlds self.now }
        ensures { (named : List (Option ℕ)) → (later : List (ℕ × WorldLabel))
            → AreLabelled self.now.graph.now self.now.other.now named later found.old
            → AreLabelled self.now.graph.now self.now.other.now named
            (interface_at_label world exported key.now item.now ++ later) found.new }
    {
        match key {
            WorldKey::Name(_) => {
                if let Some(id) = unnamed(&self.other.interfaces, item) {
                    if id.index() < found.len() {
                        found.set(id.index(), self.standing(world, exported, key));
                    }
                }
            }
            WorldKey::Interface(_) => {}
        }
    }

    /// The interface without a name that stands under a key on a side of the world that is matched.
    fn standing(&self, world: usize, exported: bool, key: &WorldKey) -> Option<InterfaceId>
        ensures { result
            ≡ unnamed_at self.now.graph.now (get_or self.now.worlds.now world None) exported
            key.now }
    {
        let id = match_at(self.worlds, world)?;
        let there = self.graph.worlds.get(id.index())?;
        let item = if exported {
            there.exports.get(key)?
        } else {
            there.imports.get(key)?
        };
        unnamed(&self.graph.interfaces, item)
    }
}

/// The interface without a name that an item is.
fn unnamed(interfaces: &Items<Interface>, item: &WorldItem) -> Option<InterfaceId>
    ensures { result ≡ unnamed_item interfaces.now item.now }
{
    match item {
        WorldItem::Interface { id, .. } => {
            let interface = interfaces.get(id.index())?;
            match interface.name {
                Some(_) => None,
                None => Some(*id),
            }
        }
        WorldItem::Function(_) | WorldItem::Type_ { .. } => None,
    }
}
