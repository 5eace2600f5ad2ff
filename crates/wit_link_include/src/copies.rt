//! Where what an include copies goes, and images under it.
ghost use Rattle.std.specs.Prelude.{◌≡◌, IfOk, map};
ghost use Rattle.std.specs.Option.{option_map};
ghost use Rattle.wit_remap_spec.specs.Image.{entry_image, interface_image, key_image, item_image, type_image};
ghost use Rattle.wit_labels.specs.Rename.{renamed_label};
ghost use Rattle.wit_link_include.specs.steps.Included.{maps_of};

use std::alloc::{AllocError, Global};
use wit_data::{
    Interface, InterfaceId, Items, PackageId, Span, Table, Text, TryClone, TypeDef, TypeId,
    TypeOwner, WorldId, WorldItem, WorldKey,
};
use wit_labels::Renamings;
use wit_remap::{Moves, Update};

/// Where what an include copies of a world goes. All ids are of one graph, and one that isn't in these
/// tables stays.
pub struct Copies<'a> {
    pub types: Table<TypeId, TypeId>,
    pub interfaces: Table<InterfaceId, InterfaceId>,
    /// The included world.
    pub from: WorldId,
    /// The world that includes it.
    pub into: WorldId,
    /// The package of that world.
    pub home: PackageId,
    /// How labels are renamed.
    pub names: Renamings<'a>,
}

/// As the derived one: each field is let go. A call of it costs the check less.
impl<'a> Drop for Copies<'a> {
    fn drop(self) {
        let Copies {
            types,
            interfaces,
            from: _,
            into: _,
            home: _,
            names,
        } = self;
        drop(types);
        drop(interfaces);
        drop(names);
    }
}

impl<'a> Moves for Copies<'a> {
    ghost maps = { maps_of };

    ghost fits = { λ _ _. Unit {0} };

    fn type_id(&self, id: TypeId) -> TypeId {
        match self.types.get(&id) {
            Some(copy) => *copy,
            None => id,
        }
    }

    fn value_id(&self, id: TypeId) -> TypeId {
        self.type_id(id)
    }

    fn interface_id(&self, id: InterfaceId) -> InterfaceId {
        match self.interfaces.get(&id) {
            Some(copy) => *copy,
            None => id,
        }
    }

    fn world_id(&self, id: WorldId) -> WorldId {
        if id == self.from { self.into } else { id }
    }

    fn home(&self) -> PackageId {
        self.home
    }

    fn span(&self, span: Span) -> Span {
        span
    }
}

impl<'a> Copies<'a> {
    /// A label of the included world, renamed.
    fn label(&self, alloc: Global, label: &Text) -> Result<Text, AllocError>
        ensures { IfOk result (λ new. new ≡ renamed_label self.now.names label.now) }
    {
        self.names.rename(alloc, label.as_str())
    }

    /// The copy of a type. A type of the included world is renamed with its label.
    pub(crate) fn of_type(&self, alloc: Global, def: &TypeDef) -> Result<TypeDef, AllocError>
        ensures { IfOk result (λ copy. copy ≡ type_image (maps_of self.now) def.now) }
    {
        let mut copy = def.try_clone()?;
        copy.update(self);
        if let TypeOwner::World(world) = def.owner {
            if world == self.from {
                let name = self.name(alloc, &def.name)?;
                copy.name = name;
            }
        }
        Ok(copy)
    }

    /// A name of a type of the included world, renamed.
    fn name(&self, alloc: Global, name: &Option<Text>) -> Result<Option<Text>, AllocError>
        ensures { IfOk result (λ new. new ≡ option_map (renamed_label self.now.names) name.now) }
    {
        match name {
            Some(label) => Ok(Some(self.label(alloc, label)?)),
            None => Ok(None),
        }
    }

    /// The copy of an interface.
    pub(crate) fn of_interface(&self, interface: &Interface) -> Result<Interface, AllocError>
        ensures { IfOk result (λ copy. copy ≡ interface_image (maps_of self.now) interface.now) }
    {
        let mut copy = interface.try_clone()?;
        copy.update(self);
        Ok(copy)
    }

    /// What an entry of the included world becomes: its label is renamed, also as the name of a
    /// function, and its ids go to the copies. The only error is want of memory.
    ///
    /// Source: `resolve_include_item` of wit-parser 0.263.0.
    pub fn entry(
        &self,
        alloc: Global,
        key: &WorldKey,
        item: &WorldItem,
    ) -> Result<(WorldKey, WorldItem), AllocError>
        ensures { IfOk result
            (λ copy. copy ≡ entry_image (maps_of self.now) self.now.from (key.now, item.now)) }
    {
        Ok((self.key(alloc, key)?, self.item(alloc, item)?))
    }

    /// What entries of the included world become, in their order: see `entry`. Renamed labels may be
    /// equal. The only error is want of memory.
    ///
    /// Source: `resolve_include_item` of wit-parser 0.263.0.
    pub fn entries(
        &self,
        alloc: Global,
        entries: &Table<WorldKey, WorldItem>,
    ) -> Result<Items<(WorldKey, WorldItem)>, AllocError>
        ensures { IfOk result
            (λ copies. copies ≡ map (entry_image (maps_of self.now) self.now.from) entries.now) }
    {
        let mut copies = Items::new(alloc);
        for (key, item) in entries.iter() {
            copies.push(self.entry(alloc, key, item)?)?;
        }
        Ok(copies)
    }

    /// What a key becomes.
    fn key(&self, alloc: Global, key: &WorldKey) -> Result<WorldKey, AllocError>
        ensures { IfOk result (λ copy. copy ≡ key_image (maps_of self.now) self.now.from key.now) }
    {
        match key {
            WorldKey::Name(label) => Ok(WorldKey::Name(self.label(alloc, label)?)),
            WorldKey::Interface(id) => Ok(WorldKey::Interface(self.interface_id(*id))),
        }
    }

    /// What an item becomes. A function is renamed with its label.
    fn item(&self, alloc: Global, item: &WorldItem) -> Result<WorldItem, AllocError>
        ensures { IfOk result
            (λ copy. copy ≡ item_image (maps_of self.now) self.now.from item.now) }
    {
        let mut copy = item.try_clone()?;
        match &mut copy {
            WorldItem::Interface { id, .. } => *id = self.interface_id(*id),
            WorldItem::Function(function) => {
                let name = self.label(alloc, &function.name)?;
                function.name = name;
                function.update(self);
            }
            WorldItem::Type_ { id, .. } => id.update(self),
        }
        Ok(copy)
    }
}
