//! Types that come into a graph, by an addition or a merge.
ghost use Rattle.std.specs.Prelude.{◌≡◌, ◌⊎◌, ◌+◌, ◌^◌, ◌<◌, ℕ, false, None, Option, Some, length, slice_get, true, unwrap_or};
ghost use Rattle.wit_data.specs.Uses.{alias_target};
ghost use Rattle.wit_data.specs.declared.types.TypeDef.{TypeDef};
ghost use Rattle.wit_remap_spec.specs.Selected.{rank};
ghost use Rattle.wit_link_resources.specs.steps.IncomingTypes.{new_of};

use wit_data::{Items, TypeDef, TypeId, alias_target};
use wit_link_spec::is_new;

/// Types that come into a graph, and what they are remapped to.
#[derive(Clone, Copy)]
pub struct Incoming<'a> {
    /// The types of the graph.
    pub graph_types: &'a Items<TypeDef>,
    /// The types of the package or graph that comes.
    pub types: &'a Items<TypeDef>,
    /// What each of these is remapped to: to a type of the graph, or to the next id behind them. One that isn't active
    /// has none.
    pub ids: &'a Items<Option<TypeId>>,
}

impl Incoming<'_> {
    /// Whether a type is new in the graph.
    pub(crate) fn is_new(&self, index: usize) -> bool
        ensures { result ≡ new_of self.now index }
    {
        let first = TypeId::from_index(self.graph_types.len());
        is_new(self.ids.as_slice(), &first, index)
    }

    /// What a type names as an alias, where it is new.
    pub(crate) fn new_alias(&self, index: usize) -> Option<TypeId>
        requires { index < length self.now.types.now }
        ensures some { (target : ℕ) → result ≡ Some target
            → (new_of self.now index ≡ true)
            × ((def : TypeDef) × (slice_get self.now.types.now index ≡ Some def)
            × (alias_target def.kind ≡ Some target)) }
        ensures none { result ≡ None → new_of self.now index ≡ true → (def : TypeDef)
            → slice_get self.now.types.now index ≡ Some def → alias_target def.kind ≡ None }
    {
        if self.is_new(index) {
            alias_target(&self.types.at(index).kind)
        } else {
            None
        }
    }

    /// The type of the graph that a type is remapped to, if it isn't new.
    pub(crate) fn in_graph(&self, index: usize) -> Option<TypeId>
        requires { index < length self.now.ids.now }
        ensures some { (id : ℕ) → result ≡ Some id
            → (new_of self.now index ≡ false)
            × (slice_get self.now.ids.now index ≡ Some (Some id)) }
        ensures none { result ≡ None
            → (new_of self.now index ≡ true) ⊎ (slice_get self.now.ids.now index ≡ Some None) }
    {
        if self.is_new(index) {
            None
        } else {
            *self.ids.at(index)
        }
    }

    /// What a type is remapped to; one that isn't stays.
    pub(crate) fn remapped(&self, index: usize) -> TypeId
        requires { index < length self.now.ids.now }
        ensures { (o : Option ℕ) → slice_get self.now.ids.now index ≡ Some o
            → result ≡ unwrap_or o index }
    {
        match *self.ids.at(index) {
            Some(id) => id,
            None => TypeId::from_index(index),
        }
    }

    /// The id of the first `own`: it comes behind the types of the graph and those that are new.
    pub(crate) fn first_own(&self) -> usize
        ensures first { result
            ≡ length self.now.graph_types.now + rank (new_of self.now) (length self.now.ids.now) }
        ensures room { result + length self.now.ids.now < 2 ^ 64 }
    {
        self.graph_types.as_slice().len() + self.count_new()
    }

    /// How many types are new.
    fn count_new(&self) -> usize
        ensures count { result ≡ rank (new_of self.now) (length self.now.ids.now) }
        ensures small { length self.now.ids.now < 2 ^ 62 }
    {
        let ids = self.ids.as_slice();
        let mut count = 0;
        for index in 0..ids.len() {
            if self.is_new(index) {
                count += 1;
            }
        }
        count
    }
}
