//! The versions that `@since` names.
ghost use Rattle.std.specs.Prelude.{◌≡◌, ◌⊎◌, ℕ, ◌≤◌, Contains, IfErr, IfOk, List, OnOk, Option, length};
ghost use Rattle.wit_values.specs.Version.{Parts};
ghost use Rattle.wit_sources.specs.Span.{moved_by};
ghost use Rattle.wit_data.specs.Each.{Each, EachAt};
ghost use Rattle.wit_data.specs.Entries.{Entry};
ghost use Rattle.wit_data.specs.Foreign.{foreign_interfaces, foreign_worlds};
ghost use Rattle.wit_data.specs.Shape.{IsShaped};
ghost use Rattle.wit_data.specs.declared.function.Function.{Function};
ghost use Rattle.wit_data.specs.declared.interface.Interface.{Interface};
ghost use Rattle.wit_data.specs.declared.types.TypeDef.{TypeDef};
ghost use Rattle.wit_data.specs.declared.world.World.{World};
ghost use Rattle.wit_data.specs.declared.world.WorldInclude.{WorldInclude};
ghost use Rattle.wit_data.specs.declared.stability.Stability.TheVariants.{Stable};
ghost use Rattle.wit_graph_data.specs.declared.cause.Cause.TheVariants as cause;
ghost use Rattle.wit_graph_data.specs.declared.error_kind.ResolveErrorKind.TheVariants.{OutOfMemory, Semantic};
ghost use Rattle.wit_link_spec.specs.steps.AdditionRefs.{activity_of, addition_of};
ghost use Rattle.wit_link_spec.specs.Cause.{IsAdditionCause};
ghost use Rattle.wit_link_spec.specs.Gates.{asked_gates};
ghost use Rattle.wit_link_spec.specs.steps.Passed.{GatesAreMet};
ghost use Rattle.wit_link_lookup.specs.steps.FeatureSteps.{Asks, AsksItem, HasReached, IsAt, IsCheckerReady, IsMet, IsThere, MayRefuse, MeetsForeign, MeetsFunctions, MeetsItem, MeetsParts};
ghost use Rattle.wit_link_spec.specs.steps.Parts.{gate_without_version_text, gate_unreleased_text, foreign_items};

use crate::checker::Checker;
use crate::needs::flag_at;
use std::alloc::{AllocError, Global};
use wit_data::{
    AstItem, Function, Items, Names, Span, Stability, Table, Version, WorldInclude, WorldItem,
    WorldKey, foreign_interfaces, foreign_worlds,
};
use wit_graph_data::{Cause, ResolveError, ResolveResult};
use wit_link_spec::{Activity, AdditionRef};

/// Refuses a `@since` that is asked and that the package doesn't meet: it has no version (9), or one that is below
/// (10). The package has its shape, and what is active of it is told by `activity`.
///
/// Else it is refused for want of memory (28) alone. That is told too where a span that would be told ends past
/// 4294967295, so the caller looks at the spans first.
///
/// Source: `include_stability` of wit-parser 0.263.0; WIT.md of the component model.
pub fn check_versions(
    alloc: Global,
    addition: &AdditionRef<'_>,
    activity: &Activity,
) -> ResolveResult<()>
    requires shaped { IsShaped addition.now.unresolved.now }
    requires activity { activity.now ≡ activity_of (addition_of addition.now) }
    ensures met { OnOk result (GatesAreMet (addition_of addition.now)) }
    ensures cause { IfErr result
        (λ kind. (kind ≡ OutOfMemory) ⊎ IsAdditionCause (addition_of addition.now) kind) }
{
    let checker = Checker {
        alloc,
        addition: *addition,
        activity,
    };
    checker.check_types()?;
    checker.check_packages()?;
    checker.check_interfaces()?;
    checker.check_worlds()?;
    checker.check_functions_of_interfaces()?;
    checker.check_parts_of_worlds()
}

impl<'a> Checker<'a> {
    /// The package has no version.
    fn without_version(&self, span: Span) -> Result<ResolveError, AllocError>
        ensures { IfOk result (λ e.
            e
            ≡ Semantic (moved_by self.now.addition.offset span)
            (gate_without_version_text self.now.addition.unresolved.now.name)
            cause.GateWithoutVersion) }
    {
        let name = &self.addition.unresolved.name;
        let message = format!(in self.alloc;
            "package [{name}] contains a feature gate with a version specifier, so it must have a version"
        )?;
        self.semantic(span, message, Cause::GateWithoutVersion)
    }

    /// The package's version is below another.
    fn unreleased(
        &self,
        since: &Version,
        version: &Version,
        span: Span,
    ) -> Result<ResolveError, AllocError>
        ensures { IfOk result (λ e.
            e
            ≡ Semantic (moved_by self.now.addition.offset span) (gate_unreleased_text since.now
            self.now.addition.unresolved.now.name version.now) cause.GateUnreleased) }
    {
        let name = &self.addition.unresolved.name;
        let message = format!(in self.alloc;
            "feature gate cannot reference unreleased version {since} of package [{name}] (current version {version})"
        )?;
        self.semantic(span, message, Cause::GateUnreleased)
    }

    /// A note that is asked of an item there.
    fn check_gate(&self, note: &Stability, span: Span) -> ResolveResult<()>
        requires { Asks self.now note.now span }
        ensures met { OnOk result (IsMet self.now note.now) }
        ensures cause { IfErr result (MayRefuse self.now) }
    {
        match note {
            Stability::Unknown => Ok(()),
            Stability::Stable { since, .. } => self.check_since(since, span),
            Stability::Unstable { .. } => Ok(()),
        }
    }

    /// A version with which an item came.
    fn check_since(&self, since: &Version, span: Span) -> ResolveResult<()>
        requires { (deprecated : Option Parts) × Asks self.now (Stable since.now deprecated) span }
        ensures met { OnOk result
            (HasReached self.now.addition.unresolved.now.name.version since.now) }
        ensures cause { IfErr result (MayRefuse self.now) }
    {
        match &self.addition.unresolved.name.version {
            None => Err(self.without_version(span)?),
            Some(version) => {
                if version < since {
                    return Err(self.unreleased(since, version, span)?);
                }
                Ok(())
            }
        }
    }

    /// Several notes of one item there, up to the first that lets it be active.
    fn check_gates(&self, notes: &Items<Stability>, span: Span) -> ResolveResult<()>
        requires { Each (λ note. Asks self.now note span)
            (asked_gates self.now.addition.features.now notes.now) }
        ensures met { OnOk result
            (Each (IsMet self.now) (asked_gates self.now.addition.features.now notes.now)) }
        ensures cause { IfErr result (MayRefuse self.now) }
    {
        for note in notes.as_slice() {
            self.check_gate(note, span)?;
            if self.is_active(note) {
                return Ok(());
            }
        }
        Ok(())
    }

    /// The gates of types, whoever owns them.
    fn check_types(&self) -> ResolveResult<()>
        ensures met { OnOk result (Each (λ (def : TypeDef). IsMet self.now def.stability)
            self.now.addition.unresolved.now.types) }
        ensures cause { IfErr result (MayRefuse self.now) }
    {
        for def in self.addition.unresolved.types.as_slice() {
            self.check_gate(&def.stability, def.span)?;
        }
        Ok(())
    }

    /// The gates of what is named of other packages.
    fn check_packages(&self) -> ResolveResult<()>
        requires { IsCheckerReady self.now }
        ensures met { OnOk result (Each (MeetsForeign self.now)
            (foreign_items self.now.addition.unresolved.now.foreign_deps)) }
        ensures cause { IfErr result (MayRefuse self.now) }
    {
        for (_, items) in self.addition.unresolved.foreign_deps.iter() {
            self.check_items(items)?;
        }
        Ok(())
    }

    /// Those of one other package.
    fn check_items(&self, items: &Names<(AstItem, Items<Stability>)>) -> ResolveResult<()>
        requires ready { IsCheckerReady self.now }
        requires named { Each
            (Contains (foreign_items self.now.addition.unresolved.now.foreign_deps)) items.now }
        ensures met { OnOk result (Each (MeetsForeign self.now) items.now) }
        ensures cause { IfErr result (MayRefuse self.now) }
    {
        for (_, (item, notes)) in items.iter() {
            self.check_gates(notes, self.span_of(*item))?;
        }
        Ok(())
    }

    /// Where an item is in the package.
    fn span_of(&self, item: AstItem) -> Span
        requires { IsThere self.now item }
        ensures { IsAt self.now item result }
    {
        let unresolved = self.addition.unresolved;
        match item {
            AstItem::Interface(id) => unresolved.interfaces.at(id.index()).span,
            AstItem::World(id) => unresolved.worlds.at(id.index()).span,
        }
    }

    /// The gates of the package's own interfaces.
    fn check_interfaces(&self) -> ResolveResult<()>
        ensures met { OnOk result (EachAt (λ i (interface : Interface).
            length (foreign_interfaces self.now.addition.unresolved.now.foreign_deps) ≤ i
            → IsMet self.now interface.stability)
            self.now.addition.unresolved.now.interfaces) }
        ensures cause { IfErr result (MayRefuse self.now) }
    {
        let unresolved = self.addition.unresolved;
        let foreign = foreign_interfaces(self.alloc, &unresolved.foreign_deps)?.len();
        for index in foreign..unresolved.interfaces.len() {
            let interface = unresolved.interfaces.at(index);
            self.check_gate(&interface.stability, interface.span)?;
        }
        Ok(())
    }

    /// The gates of the package's own worlds.
    fn check_worlds(&self) -> ResolveResult<()>
        ensures met { OnOk result (EachAt (λ w (world : World).
            length (foreign_worlds self.now.addition.unresolved.now.foreign_deps) ≤ w
            → IsMet self.now world.stability) self.now.addition.unresolved.now.worlds) }
        ensures cause { IfErr result (MayRefuse self.now) }
    {
        let unresolved = self.addition.unresolved;
        let foreign = foreign_worlds(self.alloc, &unresolved.foreign_deps)?.len();
        for index in foreign..unresolved.worlds.len() {
            let world = unresolved.worlds.at(index);
            self.check_gate(&world.stability, world.span)?;
        }
        Ok(())
    }

    /// The gates of the functions of interfaces that are active.
    fn check_functions_of_interfaces(&self) -> ResolveResult<()>
        requires { IsCheckerReady self.now }
        ensures met { OnOk result
            (EachAt (MeetsFunctions self.now) self.now.addition.unresolved.now.interfaces) }
        ensures cause { IfErr result (MayRefuse self.now) }
    {
        let interfaces = self.addition.unresolved.interfaces.as_slice();
        for (index, interface) in interfaces.iter().enumerate() {
            if !flag_at(&self.activity.interfaces, index) {
                continue;
            }
            self.check_functions(&interface.functions)?;
        }
        Ok(())
    }

    /// The gates of functions.
    fn check_functions(&self, functions: &Names<Function>) -> ResolveResult<()>
        requires { Each (λ (e : List ℕ × Function). Asks self.now e.1.stability e.1.span)
            functions.now }
        ensures met { OnOk result
            (Each (λ (e : List ℕ × Function). IsMet self.now e.1.stability) functions.now) }
        ensures cause { IfErr result (MayRefuse self.now) }
    {
        for (_, function) in functions.iter() {
            self.check_gate(&function.stability, function.span)?;
        }
        Ok(())
    }

    /// The gates of the entries and the includes of worlds that are active.
    fn check_parts_of_worlds(&self) -> ResolveResult<()>
        requires { IsCheckerReady self.now }
        ensures met { OnOk result
            (EachAt (MeetsParts self.now) self.now.addition.unresolved.now.worlds) }
        ensures cause { IfErr result (MayRefuse self.now) }
    {
        let worlds = self.addition.unresolved.worlds.as_slice();
        for (index, world) in worlds.iter().enumerate() {
            if !flag_at(&self.activity.worlds, index) {
                continue;
            }
            self.check_entries(&world.imports)?;
            self.check_entries(&world.exports)?;
            self.check_includes(&world.includes)?;
        }
        Ok(())
    }

    /// The gates of entries.
    fn check_entries(&self, entries: &Table<WorldKey, WorldItem>) -> ResolveResult<()>
        requires { Each (λ (e : Entry). AsksItem self.now e.1) entries.now }
        ensures met { OnOk result (Each (λ (e : Entry). MeetsItem self.now e.1) entries.now) }
        ensures cause { IfErr result (MayRefuse self.now) }
    {
        for (_, item) in entries.iter() {
            self.check_item(item)?;
        }
        Ok(())
    }

    /// The gate of an entry that has one of its own.
    fn check_item(&self, item: &WorldItem) -> ResolveResult<()>
        requires { AsksItem self.now item.now }
        ensures met { OnOk result (MeetsItem self.now item.now) }
        ensures cause { IfErr result (MayRefuse self.now) }
    {
        match item {
            WorldItem::Interface {
                stability,
                span,
                ..
            } => self.check_gate(stability, *span),
            WorldItem::Function(function) => self.check_gate(&function.stability, function.span),
            WorldItem::Type_ { .. } => Ok(()),
        }
    }

    /// The gates of includes.
    fn check_includes(&self, includes: &Items<WorldInclude>) -> ResolveResult<()>
        requires { Each (λ (i : WorldInclude). Asks self.now i.stability i.span) includes.now }
        ensures met { OnOk result
            (Each (λ (i : WorldInclude). IsMet self.now i.stability) includes.now) }
        ensures cause { IfErr result (MayRefuse self.now) }
    {
        for include in includes.as_slice() {
            self.check_gate(&include.stability, include.span)?;
        }
        Ok(())
    }
}
