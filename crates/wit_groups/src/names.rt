//! The names of a package: of its interfaces and worlds, and of what its files call them.

use crate::fault::{Fault, NameFault, RuleFault};
use crate::order::{Need, Sorted, in_order};
use crate::tables::add_new;
use crate::written::{Part, Scope};
use std::alloc::{AllocError, Global};
use wit_data::{AstItem, Items, Names};
use wit_text::syntax::{
    InterfaceStatement, InterfaceStatementKind, Item, ItemKind, Path, Piece, WorldStatement,
    WorldStatementKind,
};

/// What a file calls things: the path to which a `use` gives a name, None where it defines what has the name.
pub(crate) type FileNames = Names<Option<Path>>;

/// What the names of a package stand for.
#[derive(Drop)]
pub(crate) struct Directory {
    /// The number of each interface and world of the package, among both of them.
    pub numbers: Names<usize>,
    /// The interface or world of each number.
    pub items: Items<Option<AstItem>>,
    /// What each file calls things.
    pub files: Items<FileNames>,
}

impl Directory {
    /// The names of the interfaces and worlds of files, none of which is made yet.
    pub fn new(
        alloc: Global,
        parts: &[Part<'_>],
        scopes: &[Scope<'_>],
    ) -> Result<Directory, Fault> {
        let numbers = numbers_of(alloc, scopes)?;
        let mut files = Items::new(alloc);
        for part in parts {
            let names = file_names(alloc, *part)?;
            check_needs(alloc, *part, &names, &numbers)?;
            files.push(names)?;
        }
        let mut items = Items::new(alloc);
        for _ in scopes {
            items.push(None)?;
        }
        Ok(Directory {
            numbers,
            items,
            files,
        })
    }

    /// The path to which a file gives the name that a path of it is, None where it gives it none.
    pub fn alias(&self, file: usize, source: &str, path: &Path) -> Option<Path> {
        if path.package.is_some() {
            return None;
        }
        let names = self.files.get(file)?;
        match names.get(path.name.text(source)) {
            Some(alias) => *alias,
            None => None,
        }
    }

    /// A path in place of the name that its file has for it.
    pub fn resolved(&self, file: usize, source: &str, path: &Path) -> Path {
        match self.alias(file, source, path) {
            Some(found) => found,
            None => *path,
        }
    }

    /// The interface or world of the package that has this name.
    pub fn item(&self, name: &str) -> Option<AstItem> {
        let number = self.numbers.get(name)?;
        self.item_at(*number).copied()
    }

    /// The interface or world of a number, None where it isn't begun.
    pub fn item_at(&self, number: usize) -> Option<&AstItem> {
        match self.items.get(number) {
            Some(Some(item)) => Some(item),
            _ => None,
        }
    }

    /// Notes what the interface or world of a number is.
    pub fn set_item(&mut self, number: usize, item: AstItem) {
        if number < self.items.len() {
            self.items.set(number, Some(item));
        }
    }

    /// The numbers of interfaces and worlds, each behind those that it needs.
    pub fn order(&self, alloc: Global, scopes: &[Scope<'_>]) -> Result<Items<usize>, Fault> {
        let mut needs = Items::new(alloc);
        for scope in scopes {
            let needed = self.needs(alloc, scopes, scope)?;
            needs.push(needed)?;
        }
        match in_order(alloc, needs.as_slice())? {
            Sorted::Order(order) => Ok(order),
            Sorted::Cycle(need) => Err(cycle(alloc, scopes, need)),
        }
    }

    /// What an interface or a world needs of its package: what an interface uses, what a world includes.
    fn needs(
        &self,
        alloc: Global,
        scopes: &[Scope<'_>],
        scope: &Scope<'_>,
    ) -> Result<Items<Need>, Fault> {
        let mut needs = Items::new(alloc);
        for path in item_needs(alloc, scope.item)?.iter() {
            if let Some(need) = self.need(alloc, scopes, scope, path)? {
                needs.push(need)?;
            }
        }
        Ok(needs)
    }

    /// What a path needs, None where that is of another package. A fault of what its own file has is shown where that
    /// stands.
    fn need(
        &self,
        alloc: Global,
        scopes: &[Scope<'_>],
        scope: &Scope<'_>,
        path: &Path,
    ) -> Result<Option<Need>, Fault> {
        let source = scope.part.source;
        if let Some(found) = self.alias(scope.file, source, path) {
            return self.need_of(alloc, source, &found);
        }
        match self.need_of(alloc, source, path)? {
            Some(need) => Ok(Some(shown_need(scopes, scope.file, need))),
            None => Ok(None),
        }
    }

    /// The need for what a path names, None where that is of another package.
    fn need_of(&self, alloc: Global, source: &str, path: &Path) -> Result<Option<Need>, Fault> {
        if path.package.is_some() {
            return Ok(None);
        }
        let name = path.name.text(source);
        match self.numbers.get(name) {
            Some(target) => Ok(Some(Need {
                target: *target,
                span: path.name.span,
            })),
            None => Err(Fault::name(alloc, path.name.span, NameFault::NoItem, name)),
        }
    }

    /// Whether the `use` lines of files are without attributes and name what is there.
    pub fn check_uses(&self, alloc: Global, parts: &[Part<'_>]) -> Result<(), Fault> {
        for part in parts {
            self.check_file(alloc, *part)?;
        }
        Ok(())
    }

    fn check_file(&self, alloc: Global, part: Part<'_>) -> Result<(), Fault> {
        for item in part.items {
            if let ItemKind::Use(top) = &item.kind {
                if !item.gate.attributes.is_empty() {
                    return Err(Fault::rule(top.span, RuleFault::AttributesOnUse));
                }
                let name = top.path.name.text(part.source);
                if top.path.package.is_none() && !self.numbers.contains_key(name) {
                    let span = top.path.name.span;
                    return Err(Fault::name(alloc, span, NameFault::NoItem, name));
                }
            }
        }
        Ok(())
    }
}

/// A need for what the file of a number may have itself, then with the place where that stands.
fn shown_need(scopes: &[Scope<'_>], file: usize, need: Need) -> Need {
    match scopes.get(need.target) {
        Some(there) if there.file == file => Need {
            target: need.target,
            span: there.name.span,
        },
        _ => need,
    }
}

/// The fault of what needs itself.
fn cycle(alloc: Global, scopes: &[Scope<'_>], need: Need) -> Fault {
    let name = match scopes.get(need.target) {
        Some(scope) => scope.name.text(scope.part.source),
        None => "",
    };
    Fault::name(alloc, need.span, NameFault::ItemDependsOnItself, name)
}

/// The numbers of interfaces and worlds by their names, which differ.
fn numbers_of(alloc: Global, scopes: &[Scope<'_>]) -> Result<Names<usize>, Fault> {
    let mut numbers = Names::new(alloc);
    for (number, scope) in scopes.iter().enumerate() {
        let name = scope.name.text(scope.part.source);
        if numbers.contains_key(name) {
            return Err(Fault::name(alloc, scope.name.span, NameFault::DuplicateItem, name));
        }
        add_new(&mut numbers, String::from_str(alloc, name)?, number)?;
    }
    Ok(numbers)
}

/// What a file calls things, by names that differ.
fn file_names(alloc: Global, part: Part<'_>) -> Result<FileNames, Fault> {
    let mut names = Names::new(alloc);
    for item in part.items {
        let (name, path) = named_by(item);
        let text = name.text(part.source);
        if names.contains_key(text) {
            return Err(Fault::name(alloc, name.span, NameFault::DuplicateInFile, text));
        }
        add_new(&mut names, String::from_str(alloc, text)?, path)?;
    }
    Ok(names)
}

/// The name that an item has in its file, and for a `use` the path that has it.
fn named_by(item: &Item) -> (Piece, Option<Path>) {
    match &item.kind {
        ItemKind::Interface(name, _) | ItemKind::World(name, _) => (*name, None),
        ItemKind::Use(top) => (top.name, Some(top.path)),
    }
}

/// Whether all that the interfaces and worlds of a file need is there, by the names of the file and of the package.
fn check_needs(
    alloc: Global,
    part: Part<'_>,
    names: &FileNames,
    numbers: &Names<usize>,
) -> Result<(), Fault> {
    for item in part.items {
        for path in item_needs(alloc, item)?.iter() {
            let name = path.name.text(part.source);
            if path.package.is_none() && !names.contains_key(name) && !numbers.contains_key(name) {
                return Err(Fault::name(alloc, path.name.span, NameFault::NoItem, name));
            }
        }
    }
    Ok(())
}

/// The paths that have to come before an item: of an interface those that it uses, of a world those that it includes.
fn item_needs(alloc: Global, item: &Item) -> Result<Items<Path>, AllocError> {
    match &item.kind {
        ItemKind::Interface(_, statements) => used_paths(alloc, statements.as_slice()),
        ItemKind::World(_, statements) => included_paths(alloc, statements.as_slice()),
        ItemKind::Use(_) => Ok(Items::new(alloc)),
    }
}

fn used_paths(alloc: Global, statements: &[InterfaceStatement]) -> Result<Items<Path>, AllocError> {
    let mut paths = Items::new(alloc);
    for statement in statements {
        if let InterfaceStatementKind::Use(used) = &statement.kind {
            paths.push(used.path)?;
        }
    }
    Ok(paths)
}

fn included_paths(alloc: Global, statements: &[WorldStatement]) -> Result<Items<Path>, AllocError> {
    let mut paths = Items::new(alloc);
    for statement in statements {
        if let WorldStatementKind::Include(include) = &statement.kind {
            paths.push(include.path)?;
        }
    }
    Ok(paths)
}
