//! Things that are needed.
ghost use Rattle.std.specs.Prelude.{◌≡◌, map, unwrap_or, slice_get, false};
ghost use Rattle.std.specs.Option.{option_to_list};
ghost use Rattle.wit_link_spec.specs.Reasons.{owner_thing, word_of};
ghost use Rattle.wit_link_lookup.specs.steps.FeatureSteps.{thing_of};

use wit_data::{InterfaceId, Items, TypeId, TypeOwner, WorldId};

/// A thing that is needed.
#[derive(Clone, Copy)]
pub(crate) enum Needed {
    Type(TypeId),
    Interface(InterfaceId),
    World(WorldId),
}

impl Needed {
    /// The owner of a type, where it has one.
    pub(crate) fn of_owner(owner: TypeOwner) -> Option<Needed>
        ensures { map thing_of (option_to_list result) ≡ owner_thing owner }
    {
        match owner {
            TypeOwner::World(id) => Some(Needed::World(id)),
            TypeOwner::Interface(id) => Some(Needed::Interface(id)),
            TypeOwner::None => None,
        }
    }

    /// The word for its sort.
    pub(crate) fn word(self) -> &'static str
        ensures { result.now ≡ word_of (thing_of self) }
    {
        match self {
            Needed::Type(_) => "type",
            Needed::Interface(_) => "interface",
            Needed::World(_) => "world",
        }
    }
}

/// The flag at an index, false past the last one.
pub(crate) fn flag_at(flags: &Items<bool>, index: usize) -> bool
    ensures { result ≡ unwrap_or (slice_get flags.now index) false }
{
    match flags.get(index) {
        Some(flag) => *flag,
        None => false,
    }
}
