//! Worlds.

use crate::draft::{Draft, Named};
use crate::fault::{EntrySide, EntrySort, Fault, NameFault, RuleFault};
use crate::gates::common_of;
use crate::interfaces::WrittenInterface;
use crate::scope::{Context, ScopeDraft};
use crate::written::world_types;
use std::alloc::AllocError;
use wit_data::{
    Docs, Function, IncludeName, Items, Span, Table, Text, TryClone, TypeOwner, World, WorldId,
    WorldInclude, WorldItem, WorldKey,
};
use wit_text::syntax::{
    DefinitionKind, Entry, Gate, Include, InterfaceStatement, Path, Piece, Renaming,
    ResourceFunction, WorldStatement, WorldStatementKind,
};

/// The imports or the exports of a world.
type Entries = Table<WorldKey, WorldItem>;

/// An entry under its key, and where a fault of it stands.
#[derive(Drop)]
struct MadeEntry {
    key: WorldKey,
    item: WorldItem,
    span: Span,
}

impl<'a> Context<'a> {
    /// Makes the world of an id, of which the name alone is known.
    pub fn make_world(
        self,
        draft: &mut Draft,
        id: WorldId,
        gate: &Gate,
        name: &Piece,
        statements: &'a [WorldStatement],
    ) -> Result<(), Fault> {
        let (docs, stability) = self.head(gate, false)?;
        let mut scope = ScopeDraft::new(self, TypeOwner::World(id));
        let types = world_types(self.alloc, statements)?;
        scope.define_types(draft, types.as_slice())?;
        let mut world = World::new(self.alloc, self.copy(name)?);
        world.docs = docs;
        world.stability = stability;
        world.span = name.span;
        world.includes = self.includes(draft, statements)?;
        scope.import_types(draft, &mut world.imports)?;
        for statement in statements {
            scope.add_statement(draft, &mut world, statement)?;
        }
        draft.set_world(id, world);
        Ok(())
    }

    /// What a world includes.
    fn includes(
        self,
        draft: &Draft,
        statements: &[WorldStatement],
    ) -> Result<Items<WorldInclude>, Fault> {
        let mut includes = Items::new(self.alloc);
        for statement in statements {
            if let WorldStatementKind::Include(include) = &statement.kind {
                includes.push(self.include(draft, &statement.gate, include)?)?;
            }
        }
        Ok(includes)
    }

    fn include(self, draft: &Draft, gate: &Gate, include: &Include) -> Result<WorldInclude, Fault> {
        let source = self.part.source;
        let common = common_of(self.alloc, source, gate, false)?;
        let id = draft.world_at(self.directory, self.file, source, &include.path)?;
        let names = self.include_names(include.names.as_slice())?;
        Ok(WorldInclude {
            stability: common.stability,
            id,
            names,
            span: include.path.name.span,
        })
    }

    /// The labels of an include and those in their place. The only error is want of memory.
    fn include_names(self, renamings: &[Renaming]) -> Result<Items<IncludeName>, AllocError> {
        let mut names = Items::new(self.alloc);
        for renaming in renamings {
            let name = self.copy(&renaming.name)?;
            let as_ = self.copy(&renaming.new)?;
            names.push(IncludeName { name, as_ })?;
        }
        Ok(names)
    }
}

impl<'a> ScopeDraft<'a> {
    /// Adds the types of a world to its imports.
    fn import_types(&self, draft: &Draft, imports: &mut Entries) -> Result<(), AllocError> {
        for (name, named) in self.names.iter() {
            if let Named::Type_(id) = named {
                let span = match draft.types.get(id.index()) {
                    Some(def) => def.span,
                    None => Span::unknown(),
                };
                let key = WorldKey::Name(Text::try_from_str(self.context.alloc, name)?);
                push_new(imports, key, WorldItem::Type_ { id: *id, span })?;
            }
        }
        Ok(())
    }

    /// Adds what a statement of a world says that isn't a type.
    fn add_statement(
        &self,
        draft: &mut Draft,
        world: &mut World,
        statement: &'a WorldStatement,
    ) -> Result<(), Fault> {
        match &statement.kind {
            WorldStatementKind::Define(definition) => match &definition.kind {
                DefinitionKind::Resource(functions) => {
                    let functions = functions.as_slice();
                    self.import_methods(draft, &mut world.imports, &definition.name, functions)
                }
                _ => Ok(()),
            },
            WorldStatementKind::Import(entry) => {
                let made = self.entry(draft, &statement.gate, entry)?;
                self.add_entry(&mut world.imports, EntrySide::Import, entry, made)
            }
            WorldStatementKind::Export(entry) => {
                let made = self.entry(draft, &statement.gate, entry)?;
                self.add_entry(&mut world.exports, EntrySide::Export, entry, made)
            }
            WorldStatementKind::Use(_) | WorldStatementKind::Include(_) => Ok(()),
        }
    }

    /// Adds the functions of a resource of a world.
    fn import_methods(
        &self,
        draft: &mut Draft,
        imports: &mut Entries,
        resource: &Piece,
        written: &[ResourceFunction],
    ) -> Result<(), Fault> {
        for function in written {
            let made = self.resource_function(draft, resource, function)?;
            let key = WorldKey::Name(made.name.try_clone()?);
            push_new(imports, key, WorldItem::Function(made))?;
        }
        Ok(())
    }

    /// Adds an entry under its key, which isn't there yet.
    fn add_entry(
        &self,
        entries: &mut Entries,
        side: EntrySide,
        written: &Entry,
        made: MadeEntry,
    ) -> Result<(), Fault> {
        let MadeEntry { key, item, span } = made;
        if let Some(there) = entries.get(&key) {
            let sort = sort_of(there);
            return Err(self.taken(side, sort, written, span));
        }
        entries.push(key, item)?;
        Ok(())
    }

    /// The fault of an entry whose key is taken by one of a sort.
    fn taken(&self, side: EntrySide, sort: EntrySort, written: &Entry, span: Span) -> Fault {
        match written {
            Entry::Path(_) => Fault::rule(span, RuleFault::EntryTwice(side)),
            Entry::Labelled(label, _) | Entry::Function(label, _) | Entry::Interface(label, _) => {
                let fault = NameFault::EntryConflict(side, sort);
                Fault::name(self.context.alloc, span, fault, self.context.text(label))
            }
        }
    }

    /// What a world imports or exports.
    fn entry(
        &self,
        draft: &mut Draft,
        gate: &'a Gate,
        entry: &'a Entry,
    ) -> Result<MadeEntry, Fault> {
        match entry {
            Entry::Path(path) => self.path_entry(draft, gate, path, None),
            Entry::Labelled(label, path) => self.path_entry(draft, gate, path, Some(label)),
            Entry::Function(label, signature) => {
                let function = self.free_function(draft, gate, label, signature)?;
                Ok(MadeEntry {
                    key: WorldKey::Name(self.context.copy(label)?),
                    item: WorldItem::Function(function),
                    span: label.span,
                })
            }
            Entry::Interface(label, statements) => {
                self.in_place_entry(draft, gate, label, statements.as_slice())
            }
        }
    }

    /// The entry of an interface that a path names, under a label or as itself.
    fn path_entry(
        &self,
        draft: &Draft,
        gate: &Gate,
        path: &Path,
        label: Option<&Piece>,
    ) -> Result<MadeEntry, Fault> {
        let common = common_of(self.context.alloc, self.context.part.source, gate, true)?;
        let id = self.context.interface(draft, path)?;
        let key = match label {
            Some(label) => WorldKey::Name(self.context.copy(label)?),
            None => WorldKey::Interface(id),
        };
        let span = path.name.span;
        Ok(MadeEntry {
            key,
            item: WorldItem::Interface {
                id,
                stability: common.stability,
                docs: common.docs,
                span,
                external_id: common.external_id,
            },
            span,
        })
    }

    /// The entry of an interface that the world writes in place, which is made.
    fn in_place_entry(
        &self,
        draft: &mut Draft,
        gate: &'a Gate,
        label: &Piece,
        statements: &'a [InterfaceStatement],
    ) -> Result<MadeEntry, Fault> {
        let common = common_of(self.context.alloc, self.context.part.source, gate, true)?;
        let id = draft.add_interface(None, label.span)?;
        let written = WrittenInterface {
            gate,
            name: *label,
            is_in_place: true,
            statements,
        };
        self.context.make_interface(draft, id, &written)?;
        Ok(MadeEntry {
            key: WorldKey::Name(self.context.copy(label)?),
            item: WorldItem::Interface {
                id,
                stability: common.stability,
                docs: Docs::none(),
                span: label.span,
                external_id: common.external_id,
            },
            span: label.span,
        })
    }
}

/// What an entry is.
fn sort_of(item: &WorldItem) -> EntrySort {
    match item {
        WorldItem::Interface { .. } => EntrySort::Interface,
        WorldItem::Function(_) => EntrySort::Function,
        WorldItem::Type_ { .. } => EntrySort::Type_,
    }
}

/// Adds an entry under a key that isn't there.
fn push_new(entries: &mut Entries, key: WorldKey, item: WorldItem) -> Result<(), AllocError> {
    if !entries.contains_key(&key) {
        entries.push(key, item)?;
    }
    Ok(())
}
