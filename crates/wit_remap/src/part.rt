//! What of a package is active, and what of that is its own.
ghost use Rattle.std.specs.Prelude.{◌≡◌, IfOk, drop, filter, slice_get};
ghost use Rattle.std.specs.Slice.Iter.{iter_rest};
ghost use Rattle.wit_link_spec.specs.Gates.{is_active};
ghost use Rattle.wit_remap_spec.specs.Selected.{selected, selected_with_index};
ghost use Rattle.wit_link_spec.specs.steps.NewThings.{is_from, is_new};
ghost use Rattle.wit_remap_spec.specs.Kept.{cut_interface};
ghost use Rattle.wit_remap.specs.steps.Parts.{kept_of};
ghost use Rattle.wit_link_spec.specs.steps.Parts.{include_is_active};

use std::alloc::{AllocError, Global};
use wit_data::{Id, Interface, Items, Stability, Table, TypeId, WorldInclude, WorldItem, WorldKey};
use wit_graph_data::Features;
use wit_link_spec::{Activity, is_active, is_from, is_new};

/// Which features are on, and what of a package is active for that.
#[derive(Clone, Copy)]
pub struct Part<'a> {
    pub features: &'a Features,
    pub activity: &'a Activity,
}

impl<'a> Part<'a> {
    /// Whether a gate lets its item be active.
    fn is_active(&self, note: &Stability) -> bool
        ensures { result ≡ is_active self.now.features.now note.now }
    {
        is_active(self.features, note)
    }

    /// Whether a type is active.
    fn has_type(&self, id: TypeId) -> bool
        ensures { result ≡ (kept_of self.now).types id }
    {
        match self.activity.types.get(id.index()) {
            Some(active) => *active,
            None => false,
        }
    }

    /// Whether an entry of an active world is active.
    fn has_item(&self, item: &WorldItem) -> bool
        ensures { result ≡ (kept_of self.now).items item.now }
    {
        match item {
            WorldItem::Interface { stability, .. } => self.is_active(stability),
            WorldItem::Function(function) => self.is_active(&function.stability),
            WorldItem::Type_ { id, .. } => self.has_type(*id),
        }
    }

    /// Leaves of an interface what is active.
    pub(crate) fn cut_interface(&self, interface: &mut Interface)
        ensures { interface.new ≡ cut_interface (kept_of self.now) interface.old }
    {
        interface.types.retain(|id| self.has_type(*id));
        interface
            .functions
            .retain(|function| self.is_active(&function.stability));
    }

    /// The entries that are active.
    pub(crate) fn cut_entries(
        &self,
        entries: Table<WorldKey, WorldItem>,
    ) -> Table<WorldKey, WorldItem>
        ensures { result ≡ filter (λ e. (kept_of self.now).items e.1) entries }
    {
        let mut entries = entries;
        entries.retain(|item| self.has_item(item));
        entries
    }

    /// The includes that are active.
    pub(crate) fn cut_includes(&self, includes: Items<WorldInclude>) -> Items<WorldInclude>
        ensures { result ≡ filter (include_is_active self.now.features.now) includes }
    {
        let mut includes = includes.into_vec();
        includes.retain(
            |include: &WorldInclude| -> bool
                ensures { result ≡ include_is_active self.entry.now.features.now include.now }
            { self.is_active(&include.stability) },
        );
        Items::from_vec(includes)
    }
}

/// What goes to ids from the first one on.
pub(crate) fn selected<S, T: Drop>(
    items: Items<T>,
    new_ids: &[Option<Id<S>>],
    first: &Id<S>,
) -> Items<T>
    ensures { result ≡ selected (is_new first.now new_ids.now) items }
{
    let mut items = items.into_vec();
    let mut new_ids = new_ids.iter();
    items.retain(
        move |_item: &T| -> bool
            ensures answer { result
                ≡ is_from first.entry.now (slice_get (iter_rest new_ids.entry) 0) }
            ensures rest { iter_rest new_ids.exit ≡ drop 1 (iter_rest new_ids.entry) }
        { is_from(new_ids.next(), first) },
    );
    Items::from_vec(items)
}

/// What goes to ids from the first one on, each with its index.
pub(crate) fn selected_with_index<S, T: Drop>(
    alloc: Global,
    items: Items<T>,
    new_ids: &[Option<Id<S>>],
    first: &Id<S>,
) -> Result<Items<(usize, T)>, AllocError>
    ensures { IfOk result
        (λ selected. selected ≡ selected_with_index (is_new first.now new_ids.now) items) }
{
    let mut selected = Items::new(alloc);
    for (index, item) in items.into_vec().into_iter().enumerate() {
        if is_new(new_ids, first, index) {
            selected.push((index, item))?;
        }
    }
    Ok(selected)
}
