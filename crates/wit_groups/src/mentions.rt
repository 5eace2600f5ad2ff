//! What a package names by paths, in the order in which wit-parser meets it: of a world the imports
//! before the exports, behind all else.

use crate::written::Part;
use std::alloc::{AllocError, Global};
use wit_data::Items;
use wit_text::syntax::{
    Entry, Gate, InterfaceStatement, InterfaceStatementKind, Item, ItemKind, Path, Renaming,
    UseNames, WorldStatement, WorldStatementKind,
};

/// What a path names, and what for.
#[derive(Clone, Copy)]
pub(crate) enum MentionKind {
    /// An interface of which an interface or a world uses types.
    Use,
    /// An interface that a world imports or exports, or to which a file gives a name.
    Interface,
    /// A world that is included.
    World,
}

/// A path of a file, which has this number among the files of the package, and the gate under which it stands.
#[derive(Clone, Copy)]
pub(crate) struct Mention<'a> {
    pub file: usize,
    pub part: Part<'a>,
    pub gate: &'a Gate,
    pub path: &'a Path,
    pub kind: MentionKind,
    /// The types that are used.
    pub names: &'a [Renaming],
}

/// The file of which mentions are collected.
#[derive(Clone, Copy)]
struct Place<'a> {
    file: usize,
    part: Part<'a>,
}

impl<'a> Place<'a> {
    fn mention(self, gate: &'a Gate, path: &'a Path, kind: MentionKind) -> Mention<'a> {
        Mention {
            file: self.file,
            part: self.part,
            gate,
            path,
            kind,
            names: &[],
        }
    }

    fn mention_of_use(self, gate: &'a Gate, used: &'a UseNames) -> Mention<'a> {
        Mention {
            file: self.file,
            part: self.part,
            gate,
            path: &used.path,
            kind: MentionKind::Use,
            names: used.names.as_slice(),
        }
    }
}

/// All that is named by a path. The only error is want of memory.
pub(crate) fn mentions_of<'a>(
    alloc: Global,
    parts: &[Part<'a>],
) -> Result<Items<Mention<'a>>, AllocError> {
    let mut mentions = Items::new(alloc);
    for (file, part) in parts.iter().enumerate() {
        add_file(&mut mentions, Place { file, part: *part })?;
    }
    Ok(mentions)
}

fn add_file<'a>(mentions: &mut Items<Mention<'a>>, place: Place<'a>) -> Result<(), AllocError> {
    for item in place.part.items {
        add_item(mentions, place, item)?;
    }
    Ok(())
}

fn add_item<'a>(
    mentions: &mut Items<Mention<'a>>,
    place: Place<'a>,
    item: &'a Item,
) -> Result<(), AllocError> {
    match &item.kind {
        ItemKind::Use(top) => {
            mentions.push(place.mention(&item.gate, &top.path, MentionKind::Interface))
        }
        ItemKind::Interface(_, statements) => add_interface(mentions, place, statements.as_slice()),
        ItemKind::World(_, statements) => {
            let statements = statements.as_slice();
            add_world(mentions, place, statements)?;
            add_imports(mentions, place, statements)?;
            add_exports(mentions, place, statements)
        }
    }
}

/// Adds what an interface uses.
fn add_interface<'a>(
    mentions: &mut Items<Mention<'a>>,
    place: Place<'a>,
    statements: &'a [InterfaceStatement],
) -> Result<(), AllocError> {
    for statement in statements {
        if let InterfaceStatementKind::Use(used) = &statement.kind {
            mentions.push(place.mention_of_use(&statement.gate, used))?;
        }
    }
    Ok(())
}

/// Adds what a world uses and includes.
fn add_world<'a>(
    mentions: &mut Items<Mention<'a>>,
    place: Place<'a>,
    statements: &'a [WorldStatement],
) -> Result<(), AllocError> {
    for statement in statements {
        match &statement.kind {
            WorldStatementKind::Use(used) => {
                mentions.push(place.mention_of_use(&statement.gate, used))?;
            }
            WorldStatementKind::Include(include) => {
                let mention = place.mention(&statement.gate, &include.path, MentionKind::World);
                mentions.push(mention)?;
            }
            WorldStatementKind::Import(_)
            | WorldStatementKind::Export(_)
            | WorldStatementKind::Define(_) => {}
        }
    }
    Ok(())
}

fn add_imports<'a>(
    mentions: &mut Items<Mention<'a>>,
    place: Place<'a>,
    statements: &'a [WorldStatement],
) -> Result<(), AllocError> {
    for statement in statements {
        if let WorldStatementKind::Import(entry) = &statement.kind {
            add_entry(mentions, place, &statement.gate, entry)?;
        }
    }
    Ok(())
}

fn add_exports<'a>(
    mentions: &mut Items<Mention<'a>>,
    place: Place<'a>,
    statements: &'a [WorldStatement],
) -> Result<(), AllocError> {
    for statement in statements {
        if let WorldStatementKind::Export(entry) = &statement.kind {
            add_entry(mentions, place, &statement.gate, entry)?;
        }
    }
    Ok(())
}

fn add_entry<'a>(
    mentions: &mut Items<Mention<'a>>,
    place: Place<'a>,
    gate: &'a Gate,
    entry: &'a Entry,
) -> Result<(), AllocError> {
    match entry {
        Entry::Path(path) | Entry::Labelled(_, path) => {
            mentions.push(place.mention(gate, path, MentionKind::Interface))
        }
        Entry::Interface(_, statements) => add_interface(mentions, place, statements.as_slice()),
        Entry::Function(_, _) => Ok(()),
    }
}
