//! What of a list goes to ids that aren't there yet.
ghost use Rattle.std.specs.Prelude.{◌≡◌, IfOk, OnOk, is_some, not, unwrap_or};
ghost use Rattle.std.specs.Option.{option_copied};
ghost use Rattle.wit_link_spec.specs.facts.RankFacts.{after};
ghost use Rattle.wit_link_spec.specs.steps.NewThings.{is_from, is_new};

use std::alloc::AllocError;
use wit_data::Id;

/// Whether what a thing is remapped to is an id from the first one on.
pub fn is_from<S>(id: Option<&Option<Id<S>>>, first: &Id<S>) -> bool
    ensures { result ≡ is_from first.now (option_copied id.entry) }
{
    match id {
        Some(Some(id)) => first <= id,
        _ => false,
    }
}

/// Whether what stands at an index is remapped to an id that isn't there yet.
pub fn is_new<S>(ids: &[Option<Id<S>>], first: &Id<S>, index: usize) -> bool
    ensures { result ≡ is_new first.now ids.now index }
{
    is_from(ids.get(index), first)
}

/// The id to which a thing goes: that which is found of it, or the next id, which is then one further on. An id past
/// the last says that memory is wanting.
pub fn next_new_id<S>(found: Option<Id<S>>, next: &mut usize) -> Result<Id<S>, AllocError>
    ensures id { IfOk result (λ id. id ≡ unwrap_or found next.old) }
    ensures next { OnOk result (next.new ≡ after (not (is_some found)) next.old) }
{
    if let Some(id) = found {
        return Ok(id);
    }
    let id = Id::from_index(*next);
    *next = next.checked_add(1).ok_or(AllocError)?;
    Ok(id)
}
