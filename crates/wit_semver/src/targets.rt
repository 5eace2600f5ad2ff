//! What types name after semver merging.
ghost use Rattle.std.specs.Prelude.{◌≡◌, ◌⊎◌, ℕ, List, IfErr, IfOk, None, OnOk};
ghost use Rattle.std.specs.Option.{option_copied};
ghost use Rattle.wit_graph_data.specs.declared.cause.Cause.TheVariants as cause;
ghost use Rattle.wit_graph_data.specs.declared.error_kind.ResolveErrorKind.TheVariants.{OutOfMemory, Semantic};
ghost use Rattle.wit_semver.specs.SemverMerged.{LacksType, newest_type, target_name};
ghost use Rattle.wit_semver.specs.steps.Replacing.{IsFilled, IsSemverMergeReady, LackTypes, semver_merge_of};
ghost use Rattle.wit_semver.specs.steps.Parts.{interface_type};

use crate::notes::note;
use crate::refusal::type_missing;
use crate::semver_merge_plan::{SemverMergePlan, replacement_of};
use std::alloc::{AllocError, Global};
use wit_data::{
    Interface, InterfaceId, Items, Table, Text, TypeDef, TypeId, alias_target, type_interface_dep,
};
use wit_graph_data::ResolveResult;

impl<'a> SemverMergePlan<'a> {
    /// What types name after semver merging, of those that don't stay as they are: of some types that may
    /// name others, each that uses a replaced interface names the type of the same name in the one that
    /// replaces it, where that has one.
    pub(crate) fn new_targets(
        &self,
        alloc: Global,
        types_of_new_entries: &Items<TypeId>,
    ) -> Result<Table<TypeId, TypeId>, AllocError>
        requires { IsSemverMergeReady self.now }
        ensures { IfOk result (λ targets.
            IsFilled (newest_type (semver_merge_of self.now)) types_of_new_entries.now targets) }
    {
        let mut targets = Table::new(alloc);
        for id in types_of_new_entries.as_slice() {
            note(&mut targets, id, self.new_target(*id))?;
        }
        Ok(targets)
    }

    /// What a type of a new entry names then, None where it stays as it is.
    fn new_target(&self, id: TypeId) -> Option<TypeId>
        requires ready { IsSemverMergeReady self.now }
        ensures { result ≡ newest_type (semver_merge_of self.now) id }
    {
        let types = self.graph.types.as_slice();
        let old = type_interface_dep(types, id)?;
        let new = replacement_of(&self.replaced, old)?;
        let name = target_name(types, id)?;
        interface_type(self.graph.interfaces.as_slice(), new, name)
    }

    /// Refused where one of some types uses a replaced interface, and the one that replaces it has no type of
    /// the name (25).
    pub(crate) fn check_types(
        &self,
        alloc: Global,
        types_of_new_entries: &Items<TypeId>,
    ) -> ResolveResult<()>
        requires ready { IsSemverMergeReady self.now }
        ensures complete { OnOk result ((message : List ℕ)
            → LackTypes (semver_merge_of self.now) types_of_new_entries.now message → ⊥) }
        ensures cause { IfErr result (λ e.
            (e ≡ OutOfMemory)
            ⊎ ((message : List ℕ)
            × LackTypes (semver_merge_of self.now) types_of_new_entries.now message
            × (e ≡ Semantic None message cause.UpgradeMismatch))) }
    {
        for id in types_of_new_entries.as_slice() {
            self.check_type(alloc, *id)?;
        }
        Ok(())
    }

    /// The same of one type.
    fn check_type(&self, alloc: Global, id: TypeId) -> ResolveResult<()>
        requires ready { IsSemverMergeReady self.now }
        ensures complete { OnOk result
            ((message : List ℕ) → LacksType (semver_merge_of self.now) id message → ⊥) }
        ensures cause { IfErr result (λ e.
            (e ≡ OutOfMemory)
            ⊎ ((message : List ℕ) × LacksType (semver_merge_of self.now) id message
            × (e ≡ Semantic None message cause.UpgradeMismatch))) }
    {
        let types = self.graph.types.as_slice();
        let Some(old) = type_interface_dep(types, id) else {
            return Ok(());
        };
        let Some(new) = replacement_of(&self.replaced, old) else {
            return Ok(());
        };
        let Some(name) = target_name(types, id) else {
            return Ok(());
        };
        match interface_type(self.graph.interfaces.as_slice(), new, name) {
            Some(_) => Ok(()),
            None => Err(type_missing(alloc, self.graph, old, new, name)?),
        }
    }
}

/// The name of the type that a type names as an alias.
fn target_name(types: &[TypeDef], id: TypeId) -> Option<&Text>
    ensures { option_copied result ≡ target_name types.now id }
{
    let alias = types.get(id.index())?;
    let target = alias_target(&alias.kind)?;
    types.get(target.index())?.name.as_ref()
}

/// The type of a name in an interface.
fn interface_type(interfaces: &[Interface], id: InterfaceId, name: &Text) -> Option<TypeId>
    ensures { result ≡ interface_type interfaces.now id name.now }
{
    interfaces
        .get(id.index())?
        .types
        .get(name.as_str())
        .copied()
}
