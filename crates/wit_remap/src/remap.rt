//! Where the things of a handed-in package or graph stand in the graph that took them.
ghost use Rattle.std.specs.Prelude.{◌≡◌, ◌⊎◌, ◌<◌, ℕ, None, Some, Ok, IfErr, OnOk, codes, length, slice_get, string_bytes};
ghost use Rattle.wit_link_spec.specs.CauseText.{excluded_text, excluded_owner_text};
ghost use Rattle.wit_graph_data.specs.declared.cause.Cause.TheVariants as cause;
ghost use Rattle.wit_graph_data.specs.declared.error_kind.ResolveErrorKind.TheVariants.{OutOfMemory, Semantic};

use std::alloc::{AllocError, Global};
use wit_data::{Id, InterfaceId, Items, PackageId, Span, Text, TryClone, TypeId, WorldId};
use wit_graph_data::{Cause, ResolveError, ResolveErrorKind, ResolveResult};
use wit_link_spec::{excluded_message, excluded_owner_message};
use wit_values::try_clone_four;

/// The ids of the things that were handed in: for each index of the handed-in list the id in the graph that took it,
/// or None where the thing isn't there because its feature isn't active.
///
/// Source: `Remap` of wit-parser 0.263.0.
#[derive(Drop)]
pub struct Remap {
    types: Items<Option<TypeId>>,
    interfaces: Items<Option<InterfaceId>>,
    worlds: Items<Option<WorldId>>,
    packages: Items<PackageId>,
}

impl Remap {
    /// The remap of these lists, each with an id at each index of the handed-in list. It takes no memory.
    pub fn from_lists(
        types: Items<Option<TypeId>>,
        interfaces: Items<Option<InterfaceId>>,
        worlds: Items<Option<WorldId>>,
        packages: Items<PackageId>,
    ) -> Remap
        ensures { result
            ≡ record
            { types = types; interfaces = interfaces; worlds = worlds; packages = packages } }
    {
        Remap {
            types,
            interfaces,
            worlds,
            packages,
        }
    }

    /// For each type that came in, by its id there, its id now; None where it is left out.
    ///
    /// Source: `Remap::types` of wit-parser 0.263.0.
    pub fn types(&self) -> &[Option<TypeId>]
        ensures { result.now ≡ self.now.types }
    {
        self.types.as_slice()
    }

    /// For each interface that came in, by its id there, its id now; None where it is left out.
    ///
    /// Source: `Remap::interfaces` of wit-parser 0.263.0.
    pub fn interfaces(&self) -> &[Option<InterfaceId>]
        ensures { result.now ≡ self.now.interfaces }
    {
        self.interfaces.as_slice()
    }

    /// For each world that came in, by its id there, its id now; None where it is left out.
    ///
    /// Source: `Remap::worlds` of wit-parser 0.263.0.
    pub fn worlds(&self) -> &[Option<WorldId>]
        ensures { result.now ≡ self.now.worlds }
    {
        self.worlds.as_slice()
    }

    /// For each package that came in, by its id there, its id now.
    ///
    /// Source: `Remap::packages` of wit-parser 0.263.0.
    pub fn packages(&self) -> &[PackageId]
        ensures { result.now ≡ self.now.packages }
    {
        self.packages.as_slice()
    }
}

impl Remap {
    /// Where an incoming type is; the id is one of those that `types` lists. Where there is an id, that is
    /// answered, and no memory is taken. Refused with the span as it is given where the type is left out (11), and for memory
    /// (28).
    ///
    /// Source: `map_type` of wit-parser 0.263.0.
    pub fn map_type(&self, alloc: Global, id: TypeId, span: Span) -> ResolveResult<TypeId>
        requires { id < length self.now.types }
        ensures found { (new : ℕ) → slice_get self.now.types id ≡ Some (Some new)
            → result ≡ Ok new }
        ensures refuses { slice_get self.now.types id ≡ Some None → OnOk result ⊥ }
        ensures cause { IfErr result (λ kind.
            (kind ≡ OutOfMemory)
            ⊎ (kind ≡ Semantic span (excluded_text (codes "type")) cause.Excluded)) }
    {
        new_id(alloc, *self.types.at(id.index()), "type", span)
    }

    /// Where an incoming interface is: as `map_type`, with `interfaces`.
    ///
    /// Source: `map_interface` of wit-parser 0.263.0.
    pub fn map_interface(
        &self,
        alloc: Global,
        id: InterfaceId,
        span: Span,
    ) -> ResolveResult<InterfaceId>
        requires { id < length self.now.interfaces }
        ensures found { (new : ℕ) → slice_get self.now.interfaces id ≡ Some (Some new)
            → result ≡ Ok new }
        ensures refuses { slice_get self.now.interfaces id ≡ Some None → OnOk result ⊥ }
        ensures cause { IfErr result (λ kind.
            (kind ≡ OutOfMemory)
            ⊎ (kind ≡ Semantic span (excluded_text (codes "interface")) cause.Excluded)) }
    {
        new_id(alloc, *self.interfaces.at(id.index()), "interface", span)
    }

    /// Where an incoming world is: as `map_type`, with `worlds`.
    ///
    /// Source: `map_world` of wit-parser 0.263.0.
    pub fn map_world(&self, alloc: Global, id: WorldId, span: Span) -> ResolveResult<WorldId>
        requires { id < length self.now.worlds }
        ensures found { (new : ℕ) → slice_get self.now.worlds id ≡ Some (Some new)
            → result ≡ Ok new }
        ensures refuses { slice_get self.now.worlds id ≡ Some None → OnOk result ⊥ }
        ensures cause { IfErr result (λ kind.
            (kind ≡ OutOfMemory)
            ⊎ (kind ≡ Semantic span (excluded_text (codes "world")) cause.Excluded)) }
    {
        new_id(alloc, *self.worlds.at(id.index()), "world", span)
    }

    /// Where the interface that owns a type is: as `map_interface`, but where it is left out the type that isn't is
    /// what is refused (12).
    ///
    /// Source: `map_interface_for_type` of wit-parser 0.263.0.
    pub fn map_interface_for_type(
        &self,
        alloc: Global,
        id: InterfaceId,
        span: Span,
    ) -> ResolveResult<InterfaceId>
        requires { id < length self.now.interfaces }
        ensures found { (new : ℕ) → slice_get self.now.interfaces id ≡ Some (Some new)
            → result ≡ Ok new }
        ensures refuses { slice_get self.now.interfaces id ≡ Some None → OnOk result ⊥ }
        ensures cause { IfErr result (λ kind.
            (kind ≡ OutOfMemory)
            ⊎ (kind
            ≡ Semantic span (excluded_owner_text (codes "interface")) cause.ExcludedOwner)) }
    {
        new_owner_id(alloc, *self.interfaces.at(id.index()), "interface", span)
    }

    /// Where the world that owns a type is: as `map_interface_for_type`, with `worlds`.
    ///
    /// Source: `map_world_for_type` of wit-parser 0.263.0.
    pub fn map_world_for_type(
        &self,
        alloc: Global,
        id: WorldId,
        span: Span,
    ) -> ResolveResult<WorldId>
        requires { id < length self.now.worlds }
        ensures found { (new : ℕ) → slice_get self.now.worlds id ≡ Some (Some new)
            → result ≡ Ok new }
        ensures refuses { slice_get self.now.worlds id ≡ Some None → OnOk result ⊥ }
        ensures cause { IfErr result (λ kind.
            (kind ≡ OutOfMemory)
            ⊎ (kind
            ≡ Semantic span (excluded_owner_text (codes "world")) cause.ExcludedOwner)) }
    {
        new_owner_id(alloc, *self.worlds.at(id.index()), "world", span)
    }
}

/// The id that takes the place of one that is referred to. Refused where that is left out (11), for which `sort` is
/// `type`, `interface` or `world`, and for memory (28).
fn new_id<S>(alloc: Global, new: Option<Id<S>>, sort: &str, span: Span) -> ResolveResult<Id<S>>
    ensures found { (id : ℕ) → new ≡ Some id → result ≡ Ok id }
    ensures refuses { new ≡ None → OnOk result ⊥ }
    ensures cause { IfErr result (λ kind.
        (kind ≡ OutOfMemory) ⊎ (kind ≡ Semantic span (excluded_text sort.now) cause.Excluded)) }
{
    match new {
        Some(id) => Ok(id),
        None => Err(refusal(excluded_message(alloc, sort)?, span, Cause::Excluded)),
    }
}

/// The same of the owner of a type that isn't left out (12), for which `sort` is `interface` or `world`.
fn new_owner_id<S>(
    alloc: Global,
    new: Option<Id<S>>,
    sort: &str,
    span: Span,
) -> ResolveResult<Id<S>>
    ensures found { (id : ℕ) → new ≡ Some id → result ≡ Ok id }
    ensures refuses { new ≡ None → OnOk result ⊥ }
    ensures cause { IfErr result (λ kind.
        (kind ≡ OutOfMemory)
        ⊎ (kind ≡ Semantic span (excluded_owner_text sort.now) cause.ExcludedOwner)) }
{
    match new {
        Some(id) => Ok(id),
        None => Err(refusal(
            excluded_owner_message(alloc, sort)?,
            span,
            Cause::ExcludedOwner,
        )),
    }
}

/// A refusal with this message and this span.
fn refusal(message: String, span: Span, cause: Cause) -> ResolveError
    ensures { result ≡ Semantic span (string_bytes message) cause }
{
    ResolveErrorKind::Semantic {
        span,
        message: Text::from_string(message),
        cause,
    }
    .into()
}

impl TryClone for Remap {
    fn try_clone(&self) -> Result<Remap, AllocError> {
        let (types, interfaces, worlds, packages) = try_clone_four(
            &self.types,
            &self.interfaces,
            &self.worlds,
            &self.packages,
        )?;
        Ok(Remap {
            types,
            interfaces,
            worlds,
            packages,
        })
    }
}
