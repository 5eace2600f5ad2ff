//! Stabilities of what is matched that can't be joined: both are known, and they differ.
ghost use Rattle.std.specs.Prelude.{◌≡◌, ℕ, IfNone, IfOk, IfSome};
ghost use Rattle.std.specs.Option.{option_copied};
ghost use Rattle.wit_data.specs.declared.stability.Stability.{Stability};
ghost use Rattle.wit_merge_match.specs.steps.Matched.{AreMatches, merge_of_graphs};
ghost use Rattle.wit_merge_match.specs.steps.Differing.{AreKnown, merging_of};
ghost use Rattle.wit_merge_match.specs.steps.Stabilities.{AreApart, EntriesApart, EntryApart, InterfacesApartAt, TypesApartAt, WorldsApart, WorldsApartAt, matched_stability, own_stability};
ghost use Rattle.wit_merge_spec.specs.steps.Parts.{StabilitiesMismatch};

use crate::matched_graphs::MatchedGraphs;
use crate::matches::Matches;
use std::alloc::AllocError;
use wit_data::{Stability, Table, TryClone, World, WorldItem, WorldKey};
use wit_graph_data::Graph;

/// A stability of the other graph, and the one of the graph to which it can't be joined: both are known, and they
/// differ.
#[derive(Drop)]
pub struct StabilityPair {
    pub from: Stability,
    pub into: Stability,
}

/// The same two where they stand.
#[derive(Clone, Copy)]
struct Disagreement<'a> {
    from: &'a Stability,
    into: &'a Stability,
}

/// The stabilities of two matched things that can't be joined: of types, of interfaces, of worlds or of entries of
/// worlds. Of several any may be told. None where all can be joined.
///
/// The matches are those of the two graphs. The only error is want of memory.
///
/// Source: `update_stability` and `update_world_imports_stability` of wit-parser 0.263.0.
pub fn find_stability_mismatch(
    graph: &Graph,
    other: &Graph,
    matches: &Matches,
) -> Result<Option<StabilityPair>, AllocError>
    requires { AreMatches graph.now other.now matches.now }
    ensures some { IfOk result (λ found.
        IfSome found (λ pair.
        StabilitiesMismatch (merge_of_graphs graph.now other.now) pair.from pair.into)) }
    ensures none { IfOk result (λ found.
        IfNone found ((from into : Stability)
        → StabilitiesMismatch (merge_of_graphs graph.now other.now) from into → ⊥)) }
{
    let comparing = MatchedGraphs {
        graph,
        other,
        matches,
    };
    match comparing.disagreement() {
        Some(found) => {
            let from = found.from.try_clone()?;
            let into = found.into.try_clone()?;
            Ok(Some(StabilityPair { from, into }))
        }
        None => Ok(None),
    }
}

impl<'a> MatchedGraphs<'a> {
    /// The first two that can't be joined.
    fn disagreement(&self) -> Option<Disagreement<'a>>
        requires { AreKnown self.now }
        ensures some { IfSome result
            (λ d. StabilitiesMismatch (merging_of self.now) d.from.now d.into.now) }
        ensures none { IfNone result
            ((from into : Stability) → StabilitiesMismatch (merging_of self.now) from into → ⊥) }
    {
        if let Some(found) = self.types_apart() {
            return Some(found);
        }
        if let Some(found) = self.interfaces_apart() {
            return Some(found);
        }
        self.worlds_apart()
    }

    /// Those of the first types.
    fn types_apart(&self) -> Option<Disagreement<'a>>
        requires { AreKnown self.now }
        ensures some { IfSome result
            (λ d. (t : ℕ) × TypesApartAt (merging_of self.now) t (d.from.now, d.into.now)) }
        ensures none { IfNone result
            ((t : ℕ) (s : Stability × Stability) → TypesApartAt (merging_of self.now) t s → ⊥) }
    {
        for index in 0..self.other.types.len() {
            if let Some(found) = self.type_apart(index) {
                return Some(found);
            }
        }
        None
    }

    /// Those of a type.
    fn type_apart(&self, index: usize) -> Option<Disagreement<'a>>
        requires { AreKnown self.now }
        ensures some { IfSome result
            (λ d. TypesApartAt (merging_of self.now) index (d.from.now, d.into.now)) }
        ensures none { IfNone result
            ((s : Stability × Stability) → TypesApartAt (merging_of self.now) index s → ⊥) }
    {
        let from = self.other.types.get(index)?;
        let into = self.matched_type(index)?;
        compare(&from.stability, &into.stability)
    }

    /// Those of the first interfaces.
    fn interfaces_apart(&self) -> Option<Disagreement<'a>>
        requires { AreKnown self.now }
        ensures some { IfSome result
            (λ d. (i : ℕ) × InterfacesApartAt (merging_of self.now) i (d.from.now, d.into.now)) }
        ensures none { IfNone result ((i : ℕ) (s : Stability × Stability)
            → InterfacesApartAt (merging_of self.now) i s → ⊥) }
    {
        for index in 0..self.other.interfaces.len() {
            if let Some(found) = self.interface_apart(index) {
                return Some(found);
            }
        }
        None
    }

    /// Those of an interface.
    fn interface_apart(&self, index: usize) -> Option<Disagreement<'a>>
        requires { AreKnown self.now }
        ensures some { IfSome result
            (λ d. InterfacesApartAt (merging_of self.now) index (d.from.now, d.into.now)) }
        ensures none { IfNone result
            ((s : Stability × Stability) → InterfacesApartAt (merging_of self.now) index s → ⊥) }
    {
        let from = self.other.interfaces.get(index)?;
        let into = self.matched_interface(index)?;
        compare(&from.stability, &into.stability)
    }

    /// Those of the first worlds, or of entries of them.
    fn worlds_apart(&self) -> Option<Disagreement<'a>>
        requires { AreKnown self.now }
        ensures some { IfSome result
            (λ d. (w : ℕ) × WorldsApartAt (merging_of self.now) w (d.from.now, d.into.now)) }
        ensures none { IfNone result
            ((w : ℕ) (s : Stability × Stability) → WorldsApartAt (merging_of self.now) w s → ⊥) }
    {
        for index in 0..self.other.worlds.len() {
            if let Some(found) = self.world_apart(index) {
                return Some(found);
            }
        }
        None
    }

    /// Those of a world, or of its entries.
    fn world_apart(&self, index: usize) -> Option<Disagreement<'a>>
        requires { AreKnown self.now }
        ensures some { IfSome result
            (λ d. WorldsApartAt (merging_of self.now) index (d.from.now, d.into.now)) }
        ensures none { IfNone result
            ((s : Stability × Stability) → WorldsApartAt (merging_of self.now) index s → ⊥) }
    {
        let from = self.other.worlds.get(index)?;
        let into = self.matched_world(index)?;
        self.lists_apart(from, into)
    }

    /// Those of two worlds, or of their imports or exports.
    fn lists_apart(&self, from: &'a World, into: &'a World) -> Option<Disagreement<'a>>
        requires { AreKnown self.now }
        ensures some { IfSome result
            (λ d. WorldsApart (merging_of self.now) from.now into.now (d.from.now, d.into.now)) }
        ensures none { IfNone result ((s : Stability × Stability)
            → WorldsApart (merging_of self.now) from.now into.now s → ⊥) }
    {
        if let Some(found) = compare(&from.stability, &into.stability) {
            return Some(found);
        }
        if let Some(found) = self.entries_apart(&from.imports, &into.imports) {
            return Some(found);
        }
        self.entries_apart(&from.exports, &into.exports)
    }

    /// Those of the first entries under the keys of matched interfaces.
    fn entries_apart(
        &self,
        from: &'a Table<WorldKey, WorldItem>,
        into: &'a Table<WorldKey, WorldItem>,
    ) -> Option<Disagreement<'a>>
        requires { AreKnown self.now }
        ensures some { IfSome result
            (λ d. EntriesApart (merging_of self.now) from.now into.now (d.from.now, d.into.now)) }
        ensures none { IfNone result ((s : Stability × Stability)
            → EntriesApart (merging_of self.now) from.now into.now s → ⊥) }
    {
        into.keys_differ();
        for (key, item) in from.iter() {
            if let Some(found) = self.entry_apart(key, item, into) {
                return Some(found);
            }
        }
        None
    }

    /// Those of an entry and of the one under its key, where that is the key of an interface.
    fn entry_apart(
        &self,
        key: &WorldKey,
        item: &'a WorldItem,
        entries: &'a Table<WorldKey, WorldItem>,
    ) -> Option<Disagreement<'a>>
        requires { AreKnown self.now }
        ensures some { IfSome result (λ d.
            EntryApart (merging_of self.now) entries.now key.now item.now
            (d.from.now, d.into.now)) }
        ensures none { IfNone result ((s : Stability × Stability)
            → EntryApart (merging_of self.now) entries.now key.now item.now s → ⊥) }
    {
        let from = own_stability(key, item)?;
        let into = self.matched_stability(key, entries)?;
        compare(from, into)
    }

    /// The stability of the interface that is matched with the one of a key, where it stands under its own key.
    fn matched_stability(
        &self,
        key: &WorldKey,
        entries: &'a Table<WorldKey, WorldItem>,
    ) -> Option<&'a Stability>
        requires { AreKnown self.now }
        ensures { option_copied result
            ≡ matched_stability (merging_of self.now) entries.now key.now }
    {
        match key {
            WorldKey::Name(_) => None,
            WorldKey::Interface(id) => {
                let there = WorldKey::Interface(self.interface_match(id.index())?);
                own_stability(&there, entries.get(&there)?)
            }
        }
    }
}

/// The stability of an interface that stands under its own key.
fn own_stability<'a>(key: &WorldKey, item: &'a WorldItem) -> Option<&'a Stability>
    ensures { option_copied result ≡ own_stability key.now item.now }
{
    match (key, item) {
        (
            WorldKey::Interface(id),
            WorldItem::Interface {
                id: held,
                stability,
                ..
            },
        ) => {
            if held.index() == id.index() {
                Some(stability)
            } else {
                None
            }
        }
        _ => None,
    }
}

/// Two stabilities that can't be joined.
fn compare<'a>(from: &'a Stability, into: &'a Stability) -> Option<Disagreement<'a>>
    ensures some { IfSome result (λ d. AreApart from.now into.now (d.from.now, d.into.now)) }
    ensures none { IfNone result ((s : Stability × Stability) → AreApart from.now into.now s → ⊥) }
{
    if from.is_unknown() || into.is_unknown() || *from == *into {
        return None;
    }
    Some(Disagreement { from, into })
}
