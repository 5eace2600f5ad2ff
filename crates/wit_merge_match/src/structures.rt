//! What differs in the structure of matched types, in the order in which they are compared.
ghost use Rattle.std.specs.Prelude.{◌≡◌, ◌∷◌, ◌<◌, ℕ, [], None, IfNone, IfOk, false, get_or, length};
ghost use Rattle.wit_graph_data.specs.Queries.{topological_packages, package_uses};
ghost use Rattle.wit_digraph.specs.Relation.{IsAcyclic};
ghost use Rattle.wit_merge_spec.specs.Matches.{entry_pairs, interface_pairs, item_pairs, paired, type_pairs, world_pairs};
ghost use Rattle.wit_merge_match.specs.steps.Differing.{AreKnown, merging_of};
ghost use Rattle.wit_merge_match.specs.steps.Structures.{AreComparable, FirstMismatch, IsOf, IsThere, ListsThere, NoneDiffer, TypesThere, common_pair, package_interface_pairs, package_world_pairs, pairs_in_order, side_pairs, unnamed_pairs};
ghost use Rattle.wit_merge_match.specs.steps.Told.{Tells};

use crate::comparison::Comparison;
use crate::matched_graphs::MatchedGraphs;
use crate::messages::{in_entry, in_part, in_type};
use crate::tables::match_at;
use std::alloc::{AllocError, Global};
use wit_data::{InterfaceId, Items, Names, PackageId, Table, TypeId, WorldId, WorldItem, WorldKey};
use wit_graph_data::Graph;
use wit_queries::package_deps::topological_packages;

impl<'a> MatchedGraphs<'a> {
    /// The first two matched types that differ in structure: those of interfaces, package by package, each after those
    /// that it depends on, and then those of worlds.
    pub(crate) fn structures_mismatch(&self, alloc: Global) -> Result<Option<String>, AllocError>
        requires { AreComparable self.now }
        ensures some { IfOk result
            (Tells (FirstMismatch (merging_of self.now) (type_pairs (merging_of self.now)))) }
        ensures none { IfOk result (λ found.
            IfNone found
            (NoneDiffer (merging_of self.now) (type_pairs (merging_of self.now)))) }
    {
        if !self.has_pairs() {
            return Ok(None);
        }
        let order = package_order(alloc, self.other)?;
        let types = &self.matches.types;
        let mut comparison = Comparison::new(alloc, &self.other.types, &self.graph.types, types)?;
        self.packages_differ(alloc, &mut comparison, &order)
    }

    /// Whether there may be types to compare: an interface or a world is matched.
    fn has_pairs(&self) -> bool
        requires { AreKnown self.now }
        ensures { result ≡ false → type_pairs (merging_of self.now) ≡ [] }
    {
        any_matched(&self.matches.interfaces) || any_matched(&self.matches.worlds)
    }

    /// What differs in types of the interfaces of some packages, and then of their worlds.
    fn packages_differ(
        &self,
        alloc: Global,
        comparison: &mut Comparison<'_>,
        order: &Items<PackageId>,
    ) -> Result<Option<String>, AllocError>
        requires comparable { AreComparable self.now }
        requires of { IsOf self.now comparison.old }
        ensures some { IfOk result (Tells (FirstMismatch (merging_of self.now)
            (pairs_in_order (merging_of self.now) order.now))) }
        ensures none { IfOk result (λ found.
            IfNone found (NoneDiffer (merging_of self.now)
            (pairs_in_order (merging_of self.now) order.now))) }
    {
        for id in order.as_slice() {
            if let Some(message) = self.package_interfaces_differ(alloc, comparison, *id)? {
                return Ok(Some(message));
            }
        }
        for id in order.as_slice() {
            if let Some(message) = self.package_worlds_differ(alloc, comparison, *id)? {
                return Ok(Some(message));
            }
        }
        Ok(None)
    }

    /// What differs in types of the interfaces of a package.
    fn package_interfaces_differ(
        &self,
        alloc: Global,
        comparison: &mut Comparison<'_>,
        id: PackageId,
    ) -> Result<Option<String>, AllocError>
        requires comparable { AreComparable self.now }
        requires of { IsOf self.now comparison.old }
        ensures of { IsOf self.now comparison.new }
        ensures some { IfOk result (Tells (FirstMismatch (merging_of self.now)
            (package_interface_pairs (merging_of self.now) id))) }
        ensures none { IfOk result (λ found.
            IfNone found (NoneDiffer (merging_of self.now)
            (package_interface_pairs (merging_of self.now) id))) }
    {
        let Some(home) = self.other.packages.get(id.index()) else {
            return Ok(None);
        };
        for (name, interface) in home.interfaces.iter() {
            if let Some(text) = self.interface_differs(alloc, comparison, *interface)? {
                return Ok(Some(in_part(alloc, &home.name, "interface", name, &text)?));
            }
        }
        Ok(None)
    }

    /// What differs in types of an interface and the one with which it is matched.
    fn interface_differs(
        &self,
        alloc: Global,
        comparison: &mut Comparison<'_>,
        id: InterfaceId,
    ) -> Result<Option<String>, AllocError>
        requires comparable { AreComparable self.now }
        requires of { IsOf self.now comparison.old }
        ensures of { IsOf self.now comparison.new }
        ensures some { IfOk result (Tells (FirstMismatch (merging_of self.now)
            (interface_pairs (merging_of self.now) [] id))) }
        ensures none { IfOk result (λ found.
            IfNone found (NoneDiffer (merging_of self.now)
            (interface_pairs (merging_of self.now) [] id))) }
    {
        let Some(from) = self.other.interfaces.get(id.index()) else {
            return Ok(None);
        };
        let Some(into) = self.matched_interface(id.index()) else {
            return Ok(None);
        };
        for (name, ty) in from.types.iter() {
            if let Some(text) = self.type_differs(alloc, comparison, name, *ty, &into.types)? {
                return Ok(Some(text));
            }
        }
        Ok(None)
    }

    /// What differs in a type and the one of its name among others, if there is one.
    fn type_differs(
        &self,
        alloc: Global,
        comparison: &mut Comparison<'_>,
        name: &str,
        from: TypeId,
        others: &Names<TypeId>,
    ) -> Result<Option<String>, AllocError>
        requires comparable { AreComparable self.now }
        requires of { IsOf self.now comparison.old }
        requires from { from < length self.now.other.now.types }
        requires others { ListsThere self.now.graph.now.types others.now }
        ensures of { IsOf self.now comparison.new }
        ensures some { IfOk result (Tells
            (FirstMismatch (merging_of self.now) (common_pair others.now (name.now, from)))) }
        ensures none { IfOk result (λ found.
            IfNone found
            (NoneDiffer (merging_of self.now) (common_pair others.now (name.now, from)))) }
    {
        match others.get(name) {
            Some(into) => self.types_differ(alloc, comparison, name, from, *into),
            None => Ok(None),
        }
    }

    /// What differs in two types of one name.
    fn types_differ(
        &self,
        alloc: Global,
        comparison: &mut Comparison<'_>,
        name: &str,
        from: TypeId,
        into: TypeId,
    ) -> Result<Option<String>, AllocError>
        requires comparable { AreComparable self.now }
        requires of { IsOf self.now comparison.old }
        requires from { from < length self.now.other.now.types }
        requires into { into < length self.now.graph.now.types }
        ensures of { IsOf self.now comparison.new }
        ensures some { IfOk result
            (Tells (FirstMismatch (merging_of self.now) (paired [] name.now from into ∷ []))) }
        ensures none { IfOk result (λ found.
            IfNone found
            (NoneDiffer (merging_of self.now) (paired [] name.now from into ∷ []))) }
    {
        match comparison.difference(alloc, from.index(), into.index())? {
            Some(text) => Ok(Some(in_type(alloc, name, &text)?)),
            None => Ok(None),
        }
    }

    /// What differs in types of the worlds of a package.
    fn package_worlds_differ(
        &self,
        alloc: Global,
        comparison: &mut Comparison<'_>,
        id: PackageId,
    ) -> Result<Option<String>, AllocError>
        requires comparable { AreComparable self.now }
        requires of { IsOf self.now comparison.old }
        ensures of { IsOf self.now comparison.new }
        ensures some { IfOk result (Tells (FirstMismatch (merging_of self.now)
            (package_world_pairs (merging_of self.now) id))) }
        ensures none { IfOk result (λ found.
            IfNone found (NoneDiffer (merging_of self.now)
            (package_world_pairs (merging_of self.now) id))) }
    {
        let Some(home) = self.other.packages.get(id.index()) else {
            return Ok(None);
        };
        for (name, world) in home.worlds.iter() {
            if let Some(text) = self.world_differs(alloc, comparison, *world)? {
                return Ok(Some(in_part(alloc, &home.name, "world", name, &text)?));
            }
        }
        Ok(None)
    }

    /// What differs in types of a world and the one with which it is matched, imports before exports.
    fn world_differs(
        &self,
        alloc: Global,
        comparison: &mut Comparison<'_>,
        id: WorldId,
    ) -> Result<Option<String>, AllocError>
        requires comparable { AreComparable self.now }
        requires of { IsOf self.now comparison.old }
        ensures of { IsOf self.now comparison.new }
        ensures some { IfOk result (Tells
            (FirstMismatch (merging_of self.now) (world_pairs (merging_of self.now) [] id))) }
        ensures none { IfOk result (λ found.
            IfNone found
            (NoneDiffer (merging_of self.now) (world_pairs (merging_of self.now) [] id))) }
    {
        let Some(from) = self.other.worlds.get(id.index()) else {
            return Ok(None);
        };
        let Some(into) = self.matched_world(id.index()) else {
            return Ok(None);
        };
        match self.entries_differ(alloc, comparison, "import", &from.imports, &into.imports)? {
            Some(text) => Ok(Some(text)),
            None => self.entries_differ(alloc, comparison, "export", &from.exports, &into.exports),
        }
    }

    /// What differs in types of the imports or the exports of two worlds; word is `import` or `export`.
    fn entries_differ(
        &self,
        alloc: Global,
        comparison: &mut Comparison<'_>,
        word: &str,
        from: &Table<WorldKey, WorldItem>,
        into: &Table<WorldKey, WorldItem>,
    ) -> Result<Option<String>, AllocError>
        requires comparable { AreComparable self.now }
        requires of { IsOf self.now comparison.old }
        requires from { TypesThere self.now.other.now.types from.now }
        requires into { TypesThere self.now.graph.now.types into.now }
        ensures of { IsOf self.now comparison.new }
        ensures some { IfOk result (Tells (FirstMismatch (merging_of self.now)
            (side_pairs (merging_of self.now) word.now from.now into.now))) }
        ensures none { IfOk result (λ found.
            IfNone found (NoneDiffer (merging_of self.now)
            (side_pairs (merging_of self.now) word.now from.now into.now))) }
    {
        for (key, item) in from.iter() {
            if let Some(text) = self.entry_differs(alloc, comparison, word, key, item, into)? {
                return Ok(Some(text));
            }
        }
        Ok(None)
    }

    /// What differs in types of an entry and the one under its label.
    fn entry_differs(
        &self,
        alloc: Global,
        comparison: &mut Comparison<'_>,
        word: &str,
        key: &WorldKey,
        from: &WorldItem,
        into: &Table<WorldKey, WorldItem>,
    ) -> Result<Option<String>, AllocError>
        requires comparable { AreComparable self.now }
        requires of { IsOf self.now comparison.old }
        requires from { IsThere self.now.other.now.types from.now }
        requires into { TypesThere self.now.graph.now.types into.now }
        ensures of { IsOf self.now comparison.new }
        ensures some { IfOk result (Tells (FirstMismatch (merging_of self.now)
            (entry_pairs (merging_of self.now) [] word.now into.now (key.now, from.now)))) }
        ensures none { IfOk result (λ found.
            IfNone found (NoneDiffer (merging_of self.now) (entry_pairs (merging_of self.now) []
            word.now into.now (key.now, from.now)))) }
    {
        match key {
            WorldKey::Interface(_) => Ok(None),
            WorldKey::Name(label) => {
                let label = label.as_str();
                let Some(there) = self.matched_item(key, into) else {
                    return Ok(None);
                };
                match self.items_differ(alloc, comparison, label, from, there)? {
                    Some(text) => Ok(Some(in_entry(alloc, word, label, &text)?)),
                    None => Ok(None),
                }
            }
        }
    }

    /// What differs in two items under one label: in the types that they are or, where the first is an interface without
    /// a name, in types of it and of the one with which that is matched.
    fn items_differ(
        &self,
        alloc: Global,
        comparison: &mut Comparison<'_>,
        label: &str,
        from: &WorldItem,
        into: &WorldItem,
    ) -> Result<Option<String>, AllocError>
        requires comparable { AreComparable self.now }
        requires of { IsOf self.now comparison.old }
        requires from { IsThere self.now.other.now.types from.now }
        requires into { IsThere self.now.graph.now.types into.now }
        ensures of { IsOf self.now comparison.new }
        ensures some { IfOk result (Tells (FirstMismatch (merging_of self.now)
            (item_pairs (merging_of self.now) [] label.now from.now into.now))) }
        ensures none { IfOk result (λ found.
            IfNone found (NoneDiffer (merging_of self.now)
            (item_pairs (merging_of self.now) [] label.now from.now into.now))) }
    {
        match from {
            WorldItem::Type_ { id, .. } => match into {
                WorldItem::Type_ { id: there, .. } => {
                    self.types_differ(alloc, comparison, label, *id, *there)
                }
                WorldItem::Interface { .. } | WorldItem::Function(_) => Ok(None),
            },
            WorldItem::Interface { id, .. } => self.unnamed_differs(alloc, comparison, *id),
            WorldItem::Function(_) => Ok(None),
        }
    }

    /// What differs in types of an interface, if it has no name, and the one with which it is matched.
    fn unnamed_differs(
        &self,
        alloc: Global,
        comparison: &mut Comparison<'_>,
        id: InterfaceId,
    ) -> Result<Option<String>, AllocError>
        requires comparable { AreComparable self.now }
        requires of { IsOf self.now comparison.old }
        ensures of { IsOf self.now comparison.new }
        ensures some { IfOk result (Tells
            (FirstMismatch (merging_of self.now) (unnamed_pairs (merging_of self.now) id))) }
        ensures none { IfOk result (λ found.
            IfNone found
            (NoneDiffer (merging_of self.now) (unnamed_pairs (merging_of self.now) id))) }
    {
        let Some(interface) = self.other.interfaces.get(id.index()) else {
            return Ok(None);
        };
        match interface.name {
            Some(_) => Ok(None),
            None => self.interface_differs(alloc, comparison, id),
        }
    }
}

/// Whether one of some things is matched.
fn any_matched<T: Copy>(found: &Items<Option<T>>) -> bool
    ensures { result ≡ false → (i : ℕ) → get_or found.now i None ≡ None }
{
    for index in 0..found.len() {
        if match_at(found, index).is_some() {
            return true;
        }
    }
    false
}

/// The packages of a valid graph, each after those that it depends on.
fn package_order(alloc: Global, graph: &Graph) -> Result<Items<PackageId>, AllocError>
    requires { IsAcyclic
        (package_uses graph.now.types graph.now.interfaces graph.now.worlds graph.now.packages) }
    ensures { IfOk result (λ order.
        order
        ≡ topological_packages graph.now.types graph.now.interfaces graph.now.worlds
        graph.now.packages) }
{
    match topological_packages(alloc, graph) {
        Ok(order) => Ok(Items::from_vec(order)),
        Err(_) => Err(AllocError),
    }
}
