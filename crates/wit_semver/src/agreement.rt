//! Whether what is replaced agrees with what replaces it.
ghost use Rattle.std.specs.Prelude.{◌≡◌, ◌⊎◌, ℕ, List, IfErr, None, OnOk};
ghost use Rattle.wit_graph_data.specs.declared.cause.Cause.TheVariants as cause;
ghost use Rattle.wit_graph_data.specs.declared.error_kind.ResolveErrorKind.TheVariants.{OutOfMemory, Semantic};
ghost use Rattle.wit_semver.specs.SemverMerged.{Disagrees};
ghost use Rattle.wit_semver.specs.steps.SemverMerged.{Agrees};
ghost use Rattle.wit_semver.specs.steps.Replacing.{IsSemverMergeReady, semver_merge_of};

use crate::refusal::functions_disagree;
use crate::semver_merge_plan::{SemverMergePlan, replacement_of};
use std::alloc::Global;
use wit_data::InterfaceId;
use wit_graph_data::ResolveResult;
use wit_transform::interface_mismatch;

impl<'a> SemverMergePlan<'a> {
    /// Refused where an interface that is replaced disagrees with the one that replaces it in a function
    /// that both have (25).
    pub(crate) fn check_functions(&self, alloc: Global) -> ResolveResult<()>
        requires ready { IsSemverMergeReady self.now }
        ensures agree { OnOk result (Agrees (semver_merge_of self.now)) }
        ensures cause { IfErr result (λ e.
            (e ≡ OutOfMemory)
            ⊎ ((f : ℕ) × (message : List ℕ) × Disagrees (semver_merge_of self.now) f message
            × (e ≡ Semantic None message cause.UpgradeMismatch))) }
    {
        for index in 0..self.replaced.len() {
            let (old, _) = self.replaced.entry_at(index);
            self.check_interface(alloc, *old)?;
        }
        Ok(())
    }

    /// The same of one interface.
    fn check_interface(&self, alloc: Global, old: InterfaceId) -> ResolveResult<()>
        requires ready { IsSemverMergeReady self.now }
        ensures agree { OnOk result
            ((message : List ℕ) → Disagrees (semver_merge_of self.now) old message → ⊥) }
        ensures cause { IfErr result (λ e.
            (e ≡ OutOfMemory)
            ⊎ ((message : List ℕ) × Disagrees (semver_merge_of self.now) old message
            × (e ≡ Semantic None message cause.UpgradeMismatch))) }
    {
        let Some(new) = replacement_of(&self.replaced, old) else {
            return Ok(());
        };
        let Some(from) = self.graph.interfaces.get(old.index()) else {
            return Ok(());
        };
        let Some(into) = self.graph.interfaces.get(new.index()) else {
            return Ok(());
        };
        match interface_mismatch(alloc, from, into)? {
            Some(mismatch) => { Err(functions_disagree(alloc, self.graph, old, new, &mismatch)?) }
            None => Ok(()),
        }
    }
}
