//! Two graphs that become one.
ghost use Rattle.std.specs.Prelude.{◌≡◌, ◌<◌, Some, length, ℕ};
ghost use Rattle.wit_merge_spec.specs.Merged.{merged_package};
ghost use Rattle.wit_merge.specs.steps.MergeSteps.{CanMerge, merging_of};

use wit_data::{Items, PackageId, TypeId};
use wit_graph_data::Graph;
use wit_merge_match::{Matches, MergeIds};
use wit_remap::Mover;

/// Two graphs that become one: what is matched of them, and where the things of the other one go.
#[derive(Clone, Copy)]
pub(crate) struct MergePlan<'a> {
    pub(crate) graph: &'a Graph,
    pub(crate) other: &'a Graph,
    pub(crate) matches: &'a Matches,
    pub(crate) merge_ids: &'a MergeIds,
    /// What types are remapped to at value positions.
    pub(crate) values: &'a Items<TypeId>,
    pub(crate) offset: u32,
}

impl<'a> MergePlan<'a> {
    /// How what stands in a package of the other graph moves. Types and functions name no package, so for them `home` is
    /// None, and where the package goes isn't asked.
    pub(crate) fn mover(&self, home: Option<PackageId>) -> Mover<'a>
        requires { CanMerge self.now }
        ensures new_ids { result.new_ids.now ≡ self.now.merge_ids.now.new_ids }
        ensures values { result.values.now ≡ self.now.values.now }
        ensures home { (p : ℕ) → home ≡ Some p → p < length self.now.other.now.packages
            → result.«package» ≡ merged_package (merging_of self.now) p }
        ensures offset { result.offset ≡ self.now.offset }
    {
        let package = match home {
            Some(id) => self.merged_package(id),
            None => PackageId::from_index(0),
        };
        Mover {
            new_ids: &self.merge_ids.new_ids,
            values: self.values,
            package,
            offset: self.offset,
        }
    }

    /// Where a package of the other graph goes. One that isn't there stays.
    pub(crate) fn merged_package(&self, id: PackageId) -> PackageId
        requires { CanMerge self.now }
        ensures { id < length self.now.other.now.packages
            → result ≡ merged_package (merging_of self.now) id }
    {
        match self.merge_ids.packages.get(id.index()) {
            Some(new) => *new,
            None => id,
        }
    }
}
