//! What a package knows of other packages by what its lines mention of them.
ghost use Rattle.std.specs.Prelude.{◌≡◌, OnOk, IfOk, Some};
ghost use Rattle.std.specs.List.{fold};
ghost use Rattle.wit_script_package.specs.steps.Mentioning.{with_counted, with_foreign, with_foreign_gate, with_foreign_type, with_item_gate, with_mention, with_mention_of, with_use_as};

use crate::adding::{new_interface, new_type, new_world};
use crate::draft::{Draft, ForeignNames, LineContext};
use crate::mention::{Mention, MentionKind};
use std::alloc::{AllocError, Global};
use wit_data::{
    AstItem, InterfaceId, Items, Names, Stability, Text, TryClone, TypeDefKind, TypeId, TypeOwner,
    WorldId,
};

/// Adds one more gate of an interface or world of a foreign package, which comes last where it is
/// mentioned first.
fn add_item_gate(
    alloc: Global,
    items: &mut ForeignNames,
    mention: &Mention,
    item: AstItem,
) -> Result<(), AllocError>
    ensures { OnOk result
        (items.new ≡ with_item_gate mention.now.name item mention.now.gate items.old) }
{
    let gate = mention.gate.try_clone()?;
    let name = mention.name.as_str();
    match items.get_index_of(name) {
        Some(at) => items.value_at_mut(at).1.push(gate),
        None => {
            let key = String::from_str(alloc, name)?;
            let mut gates = Items::new(alloc);
            gates.push(gate)?;
            items.push(key, (item, gates))
        }
    }
}

impl Draft {
    /// Notes the gate of a line that names an item.
    fn add_foreign_gate(
        &mut self,
        alloc: Global,
        mention: &Mention,
        item: &AstItem,
    ) -> Result<(), AllocError>
        ensures { OnOk result (self.new ≡ with_foreign_gate self.old mention.now item.now) }
    {
        match self.foreign.deps.get_index_of(&mention.parent) {
            Some(at) => add_item_gate(alloc, self.foreign.deps.value_at_mut(at), mention, *item),
            None => {
                let mut items = Names::new(alloc);
                add_item_gate(alloc, &mut items, mention, *item)?;
                let key = mention.parent.try_clone()?;
                self.foreign.dep_spans.push(mention.span)?;
                self.foreign.deps.push(key, items)
            }
        }
    }

    /// Adds the interface or world that a first mention names.
    fn add_foreign(&mut self, alloc: Global, mention: &Mention) -> Result<AstItem, AllocError>
        ensures { IfOk result (λ item. (item, self.new) ≡ with_foreign self.old mention.now) }
    {
        let name = mention.name.try_clone()?;
        let here = LineContext {
            gate: Stability::Unknown,
            span: mention.span,
        };
        match &mention.kind {
            MentionKind::Interface | MentionKind::Type_(_) => {
                let id = InterfaceId::from_index(self.interfaces.len());
                self.interfaces.push(new_interface(alloc, name, &here)?)?;
                Ok(AstItem::Interface(id))
            }
            MentionKind::World => {
                let id = WorldId::from_index(self.worlds.len());
                self.worlds.push(new_world(alloc, name, &here)?)?;
                Ok(AstItem::World(id))
            }
        }
    }

    /// Adds a type to a foreign interface, where it has none of that name yet.
    fn add_foreign_type(
        &mut self,
        alloc: Global,
        name: Text,
        here: &LineContext,
        at: usize,
    ) -> Result<(), AllocError>
        ensures { OnOk result (self.new ≡ with_foreign_type self.old name here.now at) }
    {
        let Some(interface) = self.interfaces.get(at) else {
            return Ok(());
        };
        if interface.types.contains_key(name.as_str()) {
            return Ok(());
        }
        let id = TypeId::from_index(self.types.len());
        let key = String::from_str(alloc, name.as_str())?;
        self.interfaces.at_mut(at).types.push(key, id)?;
        let owner = TypeOwner::Interface(InterfaceId::from_index(at));
        self.push_type(new_type(Some(name), TypeDefKind::Unknown, owner, here)?)?;
        self.foreign.type_spans.push(here.span)
    }

    /// Adds the type that a mention uses, where it uses one.
    fn add_foreign_use(
        &mut self,
        alloc: Global,
        mention: Mention,
        item: &AstItem,
    ) -> Result<(), AllocError>
        ensures { OnOk result (self.new ≡ with_use_as self.old mention item.now mention.kind) }
    {
        let Mention {
            kind,
            gate,
            span,
            ..
        } = mention;
        match (kind, item) {
            (MentionKind::Type_(name), AstItem::Interface(id)) => {
                self.add_foreign_type(alloc, name, &LineContext { gate, span }, id.index())
            }
            _ => Ok(()),
        }
    }

    /// Adds a mention of this item.
    fn add_counted(
        &mut self,
        alloc: Global,
        mention: Mention,
        item: &AstItem,
    ) -> Result<(), AllocError>
        ensures { OnOk result (self.new ≡ with_counted self.old mention item.now) }
    {
        self.add_foreign_gate(alloc, &mention, item)?;
        self.add_foreign_use(alloc, mention, item)
    }

    /// Adds a mention of an item that is there, where it takes it for what it is.
    fn add_fitting(
        &mut self,
        alloc: Global,
        mention: Mention,
        item: &AstItem,
    ) -> Result<(), AllocError>
        ensures { OnOk result (self.new ≡ with_mention_of self.old mention (Some item.now)) }
    {
        if !mention.kind.fits(item) {
            return Ok(());
        }
        self.add_counted(alloc, mention, item)
    }

    /// Adds what a line mentions of other packages, after what earlier lines mention. It doesn't count
    /// where it takes an item for what the first mention doesn't.
    fn add_mention(&mut self, alloc: Global, mention: Mention) -> Result<(), AllocError>
        ensures { OnOk result (self.new ≡ with_mention self.old mention) }
    {
        match self.foreign_named(&mention.parent, mention.name.as_str()) {
            Some(item) => self.add_fitting(alloc, mention, &item),
            None => {
                let item = self.add_foreign(alloc, &mention)?;
                self.add_counted(alloc, mention, &item)
            }
        }
    }

    /// Adds all that lines mention, one line after another. The only error is want of memory. After a
    /// fault nothing is told of the package.
    pub fn add_mentions(
        &mut self,
        alloc: Global,
        mentions: Items<Mention>,
    ) -> Result<(), AllocError>
        ensures { OnOk result (self.new ≡ fold with_mention self.old mentions) }
    {
        for mention in mentions.into_vec() {
            self.add_mention(alloc, mention)?;
        }
        Ok(())
    }
}
