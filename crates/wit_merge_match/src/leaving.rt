//! Whether a merge leaves what a graph has as it is: each thing of it that is matched gets no stability that it lacks, no
//! type, no function, no interface and no world.
ghost use Rattle.std.specs.Prelude.{◌≡◌, ℕ, List, IsTrue, [], None, filter, get_or, not, is_some};
ghost use Rattle.std.specs.Map.{lookup};
ghost use Rattle.std.specs.Option.{option_copied};
ghost use Rattle.std.specs.Str.{bytes_eq};
ghost use Rattle.wit_data.specs.declared.function.Function.{Function};
ghost use Rattle.wit_elaboration.specs.Valid.{IsValid};
ghost use Rattle.wit_graph_data.specs.declared.graph.Package.{Package};
ghost use Rattle.wit_merge_spec.specs.Matches.{counterpart_interface, counterpart_package, counterpart_type, counterpart_world};
ghost use Rattle.wit_merge_spec.specs.steps.Leaving.{LeavesGraph};
ghost use Rattle.wit_merge_match.specs.Differing.{merge_of_graphs_by};
ghost use Rattle.wit_merge_match.specs.steps.Differing.{AreKnown, merging_of};
ghost use Rattle.wit_merge_match.specs.steps.Leaving.{EntriesLeave, EntryLeaves, InterfaceLeaves, LeavesAt, PackageLeaves, Stays, TypeLeaves, WorldLeaves, stability_under_id};
ghost use Rattle.wit_merge_match.specs.steps.Matched.{AreMatches, moves};

use crate::matched_graphs::MatchedGraphs;
use crate::matches::Matches;
use crate::tables::match_at;
use wit_data::{
    Function, Interface, InterfaceId, Items, Names, Stability, Table, TypeId, World, WorldId,
    WorldItem, WorldKey,
};
use wit_graph_data::{Graph, Package};

/// Whether nothing of the graph changes where the other one goes into it, so that what comes stands behind what was
/// there. The matches are those of the two graphs.
///
/// It goes over the other graph once, and looks up in the graph what is matched with its things. It takes no memory.
pub fn leaves_graph(graph: &Graph, other: &Graph, matches: &Matches) -> bool
    requires graph { IsValid graph.now }
    requires matches { AreMatches graph.now other.now matches.now }
    ensures { IsTrue result → (offset : ℕ)
        → LeavesGraph (merge_of_graphs_by graph.now other.now offset) }
{
    let comparing = MatchedGraphs {
        graph,
        other,
        matches,
    };
    comparing.packages_stay()
        && comparing.interfaces_stay()
        && comparing.worlds_stay()
        && comparing.types_stay()
}

impl<'a> MatchedGraphs<'a> {
    /// Whether all types stay.
    fn types_stay(&self) -> bool
        requires { AreKnown self.now }
        ensures { IsTrue result → (t : ℕ)
            → LeavesAt (counterpart_type (merging_of self.now)) self.now.other.now.types
            self.now.graph.now.types TypeLeaves t }
    {
        for index in 0..self.other.types.len() {
            if !self.type_stays(index) {
                return false;
            }
        }
        true
    }

    /// Whether the type with which one is matched stays.
    fn type_stays(&self, index: usize) -> bool
        requires { AreKnown self.now }
        ensures { IsTrue result
            → LeavesAt (counterpart_type (merging_of self.now)) self.now.other.now.types
            self.now.graph.now.types TypeLeaves index }
    {
        let Some(from) = self.other.types.get(index) else {
            return true;
        };
        match self.matched_type(index) {
            Some(into) => joins_nothing(&from.stability, &into.stability),
            None => true,
        }
    }

    /// Whether all interfaces stay.
    fn interfaces_stay(&self) -> bool
        requires { AreKnown self.now }
        ensures { IsTrue result → (i : ℕ)
            → LeavesAt (counterpart_interface (merging_of self.now)) self.now.other.now.interfaces
            self.now.graph.now.interfaces (InterfaceLeaves (merging_of self.now)) i }
    {
        for index in 0..self.other.interfaces.len() {
            if !self.interface_stays(index) {
                return false;
            }
        }
        true
    }

    /// Whether the interface with which one is matched stays.
    fn interface_stays(&self, index: usize) -> bool
        requires { AreKnown self.now }
        ensures { IsTrue result
            → LeavesAt (counterpart_interface (merging_of self.now)) self.now.other.now.interfaces
            self.now.graph.now.interfaces (InterfaceLeaves (merging_of self.now)) index }
    {
        let Some(from) = self.other.interfaces.get(index) else {
            return true;
        };
        match self.matched_interface(index) {
            Some(into) => self.brings_nothing(from, into),
            None => true,
        }
    }

    /// Whether an interface brings nothing to the one with which it is matched.
    fn brings_nothing(&self, from: &Interface, into: &Interface) -> bool
        requires { AreKnown self.now }
        ensures { IsTrue result → InterfaceLeaves (merging_of self.now) from.now into.now }
    {
        all_types_matched(&from.types, &self.matches.types)
            && all_named(&from.functions, &into.functions)
            && joins_nothing(&from.stability, &into.stability)
    }

    /// Whether all worlds stay.
    fn worlds_stay(&self) -> bool
        requires { AreKnown self.now }
        ensures { IsTrue result → (w : ℕ)
            → LeavesAt (counterpart_world (merging_of self.now)) self.now.other.now.worlds
            self.now.graph.now.worlds (WorldLeaves (merging_of self.now)) w }
    {
        for index in 0..self.other.worlds.len() {
            if !self.world_stays(index) {
                return false;
            }
        }
        true
    }

    /// Whether the world with which one is matched stays.
    fn world_stays(&self, index: usize) -> bool
        requires { AreKnown self.now }
        ensures { IsTrue result
            → LeavesAt (counterpart_world (merging_of self.now)) self.now.other.now.worlds
            self.now.graph.now.worlds (WorldLeaves (merging_of self.now)) index }
    {
        let Some(from) = self.other.worlds.get(index) else {
            return true;
        };
        match self.matched_world(index) {
            Some(into) => self.lists_stay(from, into),
            None => true,
        }
    }

    /// Whether a world and its lists stay, where another is joined to it.
    fn lists_stay(&self, from: &World, into: &World) -> bool
        requires { AreKnown self.now }
        ensures { IsTrue result → WorldLeaves (merging_of self.now) from.now into.now }
    {
        self.entries_stay(&from.imports, &into.imports)
            && self.entries_stay(&from.exports, &into.exports)
            && joins_nothing(&from.stability, &into.stability)
    }

    /// Whether entries stay, where others are joined to them.
    fn entries_stay(
        &self,
        from: &Table<WorldKey, WorldItem>,
        into: &Table<WorldKey, WorldItem>,
    ) -> bool
        requires { AreKnown self.now }
        ensures { IsTrue result → EntriesLeave (merging_of self.now) from.now into.now }
    {
        into.keys_differ();
        for (key, item) in from.iter() {
            if !self.entry_stays(key, item, into) {
                return false;
            }
        }
        true
    }

    /// Whether what stands among entries under the key of another one stays, where that one is joined to it.
    fn entry_stays(
        &self,
        key: &WorldKey,
        item: &WorldItem,
        entries: &Table<WorldKey, WorldItem>,
    ) -> bool
        requires { AreKnown self.now }
        ensures { IsTrue result → EntryLeaves (merging_of self.now) entries.now key.now item.now }
    {
        let Some(from) = stability_under_id(key, item) else {
            return true;
        };
        let Some(there) = self.matched_item(key, entries) else {
            return true;
        };
        match there {
            WorldItem::Interface { stability, .. } => joins_nothing(from, stability),
            WorldItem::Function(_) | WorldItem::Type_ { .. } => true,
        }
    }

    /// Whether all packages stay.
    fn packages_stay(&self) -> bool
        requires { AreKnown self.now }
        ensures { IsTrue result → (p : ℕ)
            → LeavesAt (counterpart_package (merging_of self.now)) self.now.other.now.packages
            self.now.graph.now.packages (PackageLeaves (merging_of self.now)) p }
    {
        for index in 0..self.other.packages.len() {
            if !self.package_stays(index) {
                return false;
            }
        }
        true
    }

    /// Whether the package with which one is matched stays: no interface and no world of the other moves into it.
    fn package_stays(&self, index: usize) -> bool
        requires { AreKnown self.now }
        ensures { IsTrue result
            → LeavesAt (counterpart_package (merging_of self.now)) self.now.other.now.packages
            self.now.graph.now.packages (PackageLeaves (merging_of self.now)) index }
    {
        let Some(from) = self.other.packages.get(index) else {
            return true;
        };
        match match_at(&self.matches.packages, index) {
            Some(_) => self.moves_nothing(from),
            None => true,
        }
    }

    /// Whether no interface and no world of a package moves.
    fn moves_nothing(&self, from: &Package) -> bool
        requires { AreKnown self.now }
        ensures { IsTrue result → (into : Package)
            → PackageLeaves (merging_of self.now) from.now into }
    {
        all_interfaces_matched(&from.interfaces, &self.matches.interfaces)
            && all_worlds_matched(&from.worlds, &self.matches.worlds)
    }
}

/// Whether a stability stays as it is, where another is joined to it.
fn joins_nothing(from: &Stability, into: &Stability) -> bool
    ensures { IsTrue result → Stays from.now into.now }
{
    from.is_unknown() || *from == *into
}

/// The stability of an interface that stands under the key of one.
fn stability_under_id<'a>(key: &WorldKey, item: &'a WorldItem) -> Option<&'a Stability>
    ensures { option_copied result ≡ stability_under_id key.now item.now }
{
    match (key, item) {
        (WorldKey::Interface(_), WorldItem::Interface { stability, .. }) => Some(stability),
        _ => None,
    }
}

/// Whether all types that a table lists are matched.
fn all_types_matched(names: &Names<TypeId>, found: &Items<Option<TypeId>>) -> bool
    ensures { IsTrue result → filter (λ (e : List ℕ × ℕ). moves found.now e.1) names.now ≡ [] }
{
    for (_, id) in names.iter() {
        if moves(found, id.index()) {
            return false;
        }
    }
    true
}

/// Whether all interfaces that a table lists are matched.
fn all_interfaces_matched(names: &Names<InterfaceId>, found: &Items<Option<InterfaceId>>) -> bool
    ensures { IsTrue result → filter (λ (e : List ℕ × ℕ). moves found.now e.1) names.now ≡ [] }
{
    for (_, id) in names.iter() {
        if moves(found, id.index()) {
            return false;
        }
    }
    true
}

/// Whether all worlds that a table lists are matched.
fn all_worlds_matched(names: &Names<WorldId>, found: &Items<Option<WorldId>>) -> bool
    ensures { IsTrue result → filter (λ (e : List ℕ × ℕ). moves found.now e.1) names.now ≡ [] }
{
    for (_, id) in names.iter() {
        if moves(found, id.index()) {
            return false;
        }
    }
    true
}

/// Whether a thing moves: it is matched with none.
fn moves<T: Copy>(found: &Items<Option<T>>, index: usize) -> bool
    ensures { result ≡ not (is_some (get_or found.now index None)) }
{
    match match_at(found, index) {
        Some(_) => false,
        None => true,
    }
}

/// Whether all names of some functions are among those of others.
fn all_named(from: &Names<Function>, into: &Names<Function>) -> bool
    ensures { IsTrue result
        → filter (λ (e : List ℕ × Function). not (is_some (lookup (bytes_eq e.0) into.now)))
        from.now ≡ [] }
{
    for (name, _) in from.iter() {
        if !into.contains_key(name) {
            return false;
        }
    }
    true
}
