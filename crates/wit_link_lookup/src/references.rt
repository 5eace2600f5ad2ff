//! What is active and needs what is left out.
ghost use Rattle.std.specs.Prelude.{◌≡◌, ◌≢◌, ◌⊎◌, ℕ, IfErr, IfOk, List, OnOk};
ghost use Rattle.wit_sources.specs.Span.{moved_by};
ghost use Rattle.wit_data.specs.Each.{Each, EachAt};
ghost use Rattle.wit_data.specs.Entries.{Entry};
ghost use Rattle.wit_data.specs.Shape.{IsShaped};
ghost use Rattle.wit_data.specs.declared.function.Function.{Function};
ghost use Rattle.wit_data.specs.declared.types.TypeDefKind.TheVariants as kinds;
ghost use Rattle.wit_graph_data.specs.declared.cause.Cause.TheVariants as cause;
ghost use Rattle.wit_graph_data.specs.declared.error_kind.ResolveErrorKind.TheVariants.{OutOfMemory, Semantic};
ghost use Rattle.wit_link_spec.specs.steps.AdditionRefs.{activity_of, addition_of};
ghost use Rattle.wit_link_spec.specs.Cause.{IsAdditionCause};
ghost use Rattle.wit_link_spec.specs.CauseText.{excluded_text, excluded_owner_text};
ghost use Rattle.wit_link_spec.specs.steps.Passed.{NeedsNothingExcluded};
ghost use Rattle.wit_link_spec.specs.Reasons.{AType, word_of};
ghost use Rattle.wit_link_lookup.specs.steps.FeatureSteps.{FieldStays, ForeignStays, FunctionStays, FunctionsStay, IncludeStays, IsActiveType, IsCheckerReady, IsReferred, ItemStays, KindRefers, KindStays, MayBeActive, MayRefuse, OwnerStays, PartsStay, RefersByInclude, RefersByItem, RefersInField, Stays, TypeStays, TypesStay, seen, thing_is_active, thing_of};

use crate::checker::Checker;
use crate::needs::{Needed, flag_at};
use std::alloc::{AllocError, Global};
use wit_data::{
    Field, Function, Items, Names, Span, Table, Type_, TypeDef, TypeDefKind, TypeId, TypeOwner,
    WorldInclude, WorldItem, WorldKey, function_references, referred,
};
use wit_graph_data::{Cause, ResolveError, ResolveResult};
use wit_link_spec::{Activity, AdditionRef, excluded_message, excluded_owner_message};

/// Refuses what is active and needs what is left out: something refers to it (11), or it owns a
/// type (12). The package has its shape, and what is active of it is told by `activity`.
///
/// Else it is refused for want of memory (28) alone. That is told too where a span that would be
/// told ends past 4294967295, so the caller looks at the spans first.
///
/// Source: `append` of wit-parser 0.263.0.
pub fn check_references(
    alloc: Global,
    addition: &AdditionRef<'_>,
    activity: &Activity,
) -> ResolveResult<()>
    requires shaped { IsShaped addition.now.unresolved.now }
    requires activity { activity.now ≡ activity_of (addition_of addition.now) }
    ensures met { OnOk result (NeedsNothingExcluded (addition_of addition.now)) }
    ensures cause { IfErr result
        (λ kind. (kind ≡ OutOfMemory) ⊎ IsAdditionCause (addition_of addition.now) kind) }
{
    let checker = Checker {
        alloc,
        addition: *addition,
        activity,
    };
    checker.look_at_types()?;
    checker.look_at_interfaces()?;
    checker.look_at_worlds()
}

impl<'a> Checker<'a> {
    /// Whether a thing is active.
    fn thing_is_active(&self, needed: Needed) -> bool
        requires { IsCheckerReady self.now }
        ensures { result ≡ thing_is_active (seen self.now) (thing_of needed) }
    {
        match needed {
            Needed::Type(id) => flag_at(&self.activity.types, id.index()),
            Needed::Interface(id) => flag_at(&self.activity.interfaces, id.index()),
            Needed::World(id) => flag_at(&self.activity.worlds, id.index()),
        }
    }

    /// Something refers to what is left out.
    fn excluded(&self, needed: Needed, span: Span) -> Result<ResolveError, AllocError>
        ensures { IfOk result (λ e.
            e
            ≡ Semantic (moved_by self.now.addition.offset span)
            (excluded_text (word_of (thing_of needed))) cause.Excluded) }
    {
        let message = excluded_message(self.alloc, needed.word())?;
        self.semantic(span, message, Cause::Excluded)
    }

    /// The owner of a type is left out.
    fn excluded_owner(&self, needed: Needed, span: Span) -> Result<ResolveError, AllocError>
        ensures { IfOk result (λ e.
            e
            ≡ Semantic (moved_by self.now.addition.offset span)
            (excluded_owner_text (word_of (thing_of needed))) cause.ExcludedOwner) }
    {
        let message = excluded_owner_message(self.alloc, needed.word())?;
        self.semantic(span, message, Cause::ExcludedOwner)
    }

    /// A thing to which something refers there.
    fn look_at(&self, needed: Needed, span: Span) -> ResolveResult<()>
        requires ready { IsCheckerReady self.now }
        requires referred { IsReferred self.now (thing_of needed) span }
        ensures stays { OnOk result (Stays self.now (thing_of needed)) }
        ensures cause { IfErr result (MayRefuse self.now) }
    {
        if self.thing_is_active(needed) {
            return Ok(());
        }
        Err(self.excluded(needed, span)?)
    }

    /// Types to which something refers there.
    fn look_at_ids(&self, ids: &Items<TypeId>, span: Span) -> ResolveResult<()>
        requires ready { IsCheckerReady self.now }
        requires referred { Each (λ t. IsReferred self.now (AType t) span) ids.now }
        ensures stay { OnOk result (Each (λ t. Stays self.now (AType t)) ids.now) }
        ensures cause { IfErr result (MayRefuse self.now) }
    {
        for id in ids.as_slice() {
            self.look_at(Needed::Type(*id), span)?;
        }
        Ok(())
    }

    /// What types need.
    fn look_at_types(&self) -> ResolveResult<()>
        requires { IsCheckerReady self.now }
        ensures stay { OnOk result
            (EachAt (TypesStay self.now) self.now.addition.unresolved.now.types) }
        ensures cause { IfErr result (MayRefuse self.now) }
    {
        let types = self.addition.unresolved.types.as_slice();
        for (index, def) in types.iter().enumerate() {
            if !flag_at(&self.activity.types, index) {
                continue;
            }
            self.look_at_type(def)?;
        }
        Ok(())
    }

    /// What a type that is active needs.
    fn look_at_type(&self, def: &TypeDef) -> ResolveResult<()>
        requires ready { IsCheckerReady self.now }
        requires taken { IsActiveType self.now def.now }
        ensures stays { OnOk result (TypeStays self.now def.now) }
        ensures cause { IfErr result (MayRefuse self.now) }
    {
        self.look_at_kind(def)?;
        match &def.kind {
            TypeDefKind::Unknown => self.look_at_home(def),
            _ => self.look_at_owner(def),
        }
    }

    /// What a type's kind names.
    fn look_at_kind(&self, def: &TypeDef) -> ResolveResult<()>
        requires ready { IsCheckerReady self.now }
        requires refers { KindRefers self.now def.now }
        ensures stays { OnOk result (KindStays self.now def.now) }
        ensures cause { IfErr result (MayRefuse self.now) }
    {
        match &def.kind {
            TypeDefKind::Record { fields } => self.look_at_fields(fields),
            _ => self.look_at_ids(&referred(self.alloc, &def.kind)?, def.span),
        }
    }

    /// What fields name.
    fn look_at_fields(&self, fields: &Items<Field>) -> ResolveResult<()>
        requires ready { IsCheckerReady self.now }
        requires refer { Each (RefersInField self.now) fields.now }
        ensures stay { OnOk result (Each (FieldStays self.now) fields.now) }
        ensures cause { IfErr result (MayRefuse self.now) }
    {
        for field in fields.as_slice() {
            self.look_at_field(field)?;
        }
        Ok(())
    }

    /// What a field names.
    fn look_at_field(&self, field: &Field) -> ResolveResult<()>
        requires ready { IsCheckerReady self.now }
        requires refers { RefersInField self.now field.now }
        ensures stays { OnOk result (FieldStays self.now field.now) }
        ensures cause { IfErr result (MayRefuse self.now) }
    {
        match field.ty {
            Type_::Id(id) => self.look_at(Needed::Type(id), field.span),
            _ => Ok(()),
        }
    }

    /// The interface of a foreign type that is active.
    fn look_at_home(&self, def: &TypeDef) -> ResolveResult<()>
        requires ready { IsCheckerReady self.now }
        requires taken { IsActiveType self.now def.now }
        requires foreign { def.now.kind ≡ kinds.Unknown }
        ensures stays { OnOk result (ForeignStays self.now def.now) }
        ensures cause { IfErr result (MayRefuse self.now) }
    {
        match def.owner {
            TypeOwner::Interface(id) => self.look_at(Needed::Interface(id), Span::unknown()),
            TypeOwner::World(_) => Ok(()),
            TypeOwner::None => Ok(()),
        }
    }

    /// The owner of a type that is active and isn't foreign.
    fn look_at_owner(&self, def: &TypeDef) -> ResolveResult<()>
        requires ready { IsCheckerReady self.now }
        requires taken { IsActiveType self.now def.now }
        requires own { def.now.kind ≢ kinds.Unknown }
        ensures stays { OnOk result (OwnerStays self.now def.now) }
        ensures cause { IfErr result (MayRefuse self.now) }
    {
        match Needed::of_owner(def.owner) {
            Some(owner) => {
                if self.thing_is_active(owner) {
                    return Ok(());
                }
                Err(self.excluded_owner(owner, def.span)?)
            }
            None => Ok(()),
        }
    }

    /// What interfaces that are active need.
    fn look_at_interfaces(&self) -> ResolveResult<()>
        requires { IsCheckerReady self.now }
        ensures stay { OnOk result
            (EachAt (FunctionsStay self.now) self.now.addition.unresolved.now.interfaces) }
        ensures cause { IfErr result (MayRefuse self.now) }
    {
        let interfaces = self.addition.unresolved.interfaces.as_slice();
        for (index, interface) in interfaces.iter().enumerate() {
            if !flag_at(&self.activity.interfaces, index) {
                continue;
            }
            self.look_at_functions(&interface.functions)?;
        }
        Ok(())
    }

    /// What functions need.
    fn look_at_functions(&self, functions: &Names<Function>) -> ResolveResult<()>
        requires ready { IsCheckerReady self.now }
        requires may { Each (λ (e : List ℕ × Function). MayBeActive self.now e.1) functions.now }
        ensures stay { OnOk result
            (Each (λ (e : List ℕ × Function). FunctionStays self.now e.1) functions.now) }
        ensures cause { IfErr result (MayRefuse self.now) }
    {
        for (_, function) in functions.iter() {
            self.look_at_function(function)?;
        }
        Ok(())
    }

    /// What a function needs where it is active.
    fn look_at_function(&self, function: &Function) -> ResolveResult<()>
        requires ready { IsCheckerReady self.now }
        requires may { MayBeActive self.now function.now }
        ensures stays { OnOk result (FunctionStays self.now function.now) }
        ensures cause { IfErr result (MayRefuse self.now) }
    {
        if !self.is_active(&function.stability) {
            return Ok(());
        }
        self.look_at_ids(&function_references(self.alloc, function)?, function.span)
    }

    /// What worlds that are active need.
    fn look_at_worlds(&self) -> ResolveResult<()>
        requires { IsCheckerReady self.now }
        ensures stay { OnOk result
            (EachAt (PartsStay self.now) self.now.addition.unresolved.now.worlds) }
        ensures cause { IfErr result (MayRefuse self.now) }
    {
        let worlds = self.addition.unresolved.worlds.as_slice();
        for (index, world) in worlds.iter().enumerate() {
            if !flag_at(&self.activity.worlds, index) {
                continue;
            }
            self.look_at_entries(&world.imports)?;
            self.look_at_entries(&world.exports)?;
            self.look_at_includes(&world.includes)?;
        }
        Ok(())
    }

    /// What entries need.
    fn look_at_entries(&self, entries: &Table<WorldKey, WorldItem>) -> ResolveResult<()>
        requires ready { IsCheckerReady self.now }
        requires refer { Each (λ (e : Entry). RefersByItem self.now e.1) entries.now }
        ensures stay { OnOk result (Each (λ (e : Entry). ItemStays self.now e.1) entries.now) }
        ensures cause { IfErr result (MayRefuse self.now) }
    {
        for (_, item) in entries.iter() {
            self.look_at_item(item)?;
        }
        Ok(())
    }

    /// What an entry needs where it is active.
    fn look_at_item(&self, item: &WorldItem) -> ResolveResult<()>
        requires ready { IsCheckerReady self.now }
        requires refers { RefersByItem self.now item.now }
        ensures stays { OnOk result (ItemStays self.now item.now) }
        ensures cause { IfErr result (MayRefuse self.now) }
    {
        match item {
            WorldItem::Interface {
                id,
                stability,
                span,
                ..
            } => {
                if !self.is_active(stability) {
                    return Ok(());
                }
                self.look_at(Needed::Interface(*id), *span)
            }
            WorldItem::Function(function) => self.look_at_function(function),
            WorldItem::Type_ { .. } => Ok(()),
        }
    }

    /// What includes need.
    fn look_at_includes(&self, includes: &Items<WorldInclude>) -> ResolveResult<()>
        requires ready { IsCheckerReady self.now }
        requires refer { Each (RefersByInclude self.now) includes.now }
        ensures stay { OnOk result (Each (IncludeStays self.now) includes.now) }
        ensures cause { IfErr result (MayRefuse self.now) }
    {
        for include in includes.as_slice() {
            self.look_at_include(include)?;
        }
        Ok(())
    }

    /// What an include needs where it is active.
    fn look_at_include(&self, include: &WorldInclude) -> ResolveResult<()>
        requires ready { IsCheckerReady self.now }
        requires refers { RefersByInclude self.now include.now }
        ensures stays { OnOk result (IncludeStays self.now include.now) }
        ensures cause { IfErr result (MayRefuse self.now) }
    {
        if !self.is_active(&include.stability) {
            return Ok(());
        }
        self.look_at(Needed::World(include.id), include.span)
    }
}
