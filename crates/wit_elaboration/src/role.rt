//! What the items of a world are to its elaboration.
ghost use Rattle.std.specs.Prelude.{◌≡◌};
ghost use Rattle.std.specs.Option.{option_to_list};
ghost use Rattle.wit_elaboration.specs.Entries.{elaboration_class, key_interface, item_interface, role_of};

use wit_data::{InterfaceId, TypeDef, WorldItem, WorldKey, type_interface_dep};

/// The interface that a key names, None where it is a label.
pub(crate) fn key_interface(key: &WorldKey) -> Option<InterfaceId>
    ensures { option_to_list result ≡ key_interface key.now }
{
    match key {
        WorldKey::Interface(id) => Some(*id),
        WorldKey::Name(_) => None,
    }
}

/// The interface that an item is, None where it is a function or a type.
pub fn item_interface(item: &WorldItem) -> Option<InterfaceId>
    ensures { option_to_list result ≡ item_interface item.now }
{
    match item {
        WorldItem::Interface { id, .. } => Some(*id),
        WorldItem::Function(_) | WorldItem::Type_ { .. } => None,
    }
}

/// What an item is to the elaboration of its world.
#[derive(Clone, Copy, Debug, PartialEq, Eq)]
pub enum Role {
    /// An interface, under a label or under its own key.
    Instance(InterfaceId),
    /// Another name of a type that this interface owns.
    TypeUse(InterfaceId),
    /// A type that the world defines.
    TypeDefinition,
    /// A function of no resource.
    FreeFunction,
    /// A function of a resource.
    ResourceFunction,
}

impl Role {
    /// The role of an item, whose type is one of `types`.
    pub fn of(types: &[TypeDef], item: &WorldItem) -> Role
        ensures { result ≡ role_of types.now item.now }
    {
        match item {
            WorldItem::Interface { id, .. } => Role::Instance(*id),
            WorldItem::Function(function) => match function.kind.resource() {
                Some(_) => Role::ResourceFunction,
                None => Role::FreeFunction,
            },
            WorldItem::Type_ { id, .. } => match type_interface_dep(types, *id) {
                Some(interface) => Role::TypeUse(interface),
                None => Role::TypeDefinition,
            },
        }
    }

    /// The class by which imports are sorted, from 0 to 4 in the order of the variants.
    ///
    /// Source: `elaborate_world` of wit-parser 0.263.0.
    pub fn class(self) -> u32
        ensures { result ≡ elaboration_class self }
    {
        match self {
            Role::Instance(_) => 0,
            Role::TypeUse(_) => 1,
            Role::TypeDefinition => 2,
            Role::FreeFunction => 3,
            Role::ResourceFunction => 4,
        }
    }
}
