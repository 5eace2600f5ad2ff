//! A package of which some lines are read.
ghost use Rattle.std.specs.Prelude.{◌≡◌, ◌++◌, [], length, IfOk, OnOk};
ghost use Rattle.wit_script_package.specs.steps.DraftResult.{DraftResult};
ghost use Rattle.wit_script_package.specs.Draft.{as_group, new_draft, new_draft_at, span_after};
ghost use Rattle.wit_script_package.specs.Lines.{with_line};
ghost use Rattle.wit_script_package.specs.steps.Built.{IsBuilt};
ghost use Rattle.wit_script_package.specs.steps.Pushable.{IsPushable};
ghost use Rattle.wit_data.specs.Shape.{IsGroupShaped};
ghost use Rattle.wit_script_lines.specs.steps.ReadResult.{IsRead};
ghost use Rattle.wit_script_package.specs.steps.Parts.{with_newline, with_text, one_file};

use crate::mention::Mention;
use std::alloc::{AllocError, Global};
use std::mem;
use wit_data::{
    AstItem, Docs, Interface, InterfaceId, Items, MapFault, Names, PackageName, SourceMap, Span,
    Stability, Table, Text, TypeDef, TypeId, UnresolvedPackage, UnresolvedPackageGroup, World,
    WorldId,
};
use wit_script_lines::{LineFault, PackageLine, content_range};

/// Into what the next lines of a package go.
#[derive(Clone, Copy, Debug, PartialEq, Eq)]
pub enum Scope {
    /// Into the package alone: it has neither an interface nor a world.
    Package,
    /// Into the last interface.
    Interface,
    /// Into the last world.
    World,
}

/// The gate of a line, and its span in the file of its package, in bytes from 0.
#[derive(Drop)]
pub struct LineContext {
    pub gate: Stability,
    pub span: Span,
}

/// The interfaces and worlds of a foreign package.
pub(crate) type ForeignNames = Names<(AstItem, Items<Stability>)>;

/// What a package knows of other packages.
#[derive(Drop)]
pub struct Foreign {
    /// Under each package the interfaces and worlds that are named, each with the gates of the lines
    /// that name it.
    pub deps: Table<PackageName, ForeignNames>,
    /// Where each of these packages is named first.
    pub dep_spans: Items<Span>,
    /// Where each type of theirs is used first.
    pub type_spans: Items<Span>,
}

/// A package of which some lines are read. What is foreign stands first in its lists.
pub struct Draft {
    pub name: PackageName,
    pub name_span: Span,
    /// The lines, each with a newline: the file of the package.
    pub contents: Text,
    pub interfaces: Items<Interface>,
    pub worlds: Items<World>,
    pub types: Items<TypeDef>,
    /// For each type the one at the end of its aliases.
    pub roots: Items<TypeId>,
    /// The foreign types that have to be resources, and where they have to be.
    pub required: Items<(TypeId, Span)>,
    /// The interfaces of the package by name.
    pub interface_ids: Names<InterfaceId>,
    /// The worlds of the package by name.
    pub world_ids: Names<WorldId>,
    pub scope: Scope,
    pub foreign: Foreign,
}

/// As the derived one: each field is let go. A call of it costs the check less than a derived one,
/// which is checked again wherever a value is let go.
impl Drop for Draft {
    fn drop(self) {
        let Draft {
            name,
            name_span: _,
            contents,
            interfaces,
            worlds,
            types,
            roots,
            required,
            interface_ids,
            world_ids,
            scope: _,
            foreign,
        } = self;
        drop(name);
        drop(contents);
        drop(interfaces);
        drop(worlds);
        drop(types);
        drop(roots);
        drop(required);
        drop(interface_ids);
        drop(world_ids);
        drop(foreign);
    }
}

/// How long a file can be: it takes its length plus one positions, of which the last is 4294967295.
const LONGEST_FILE: usize = 4294967294;

/// The span of a line that goes, with a newline, to the end of a file of so many bytes: from its first
/// to its last byte that isn't a space. Not understood where the file would have more than 4294967294
/// bytes, which is past the positions of a source map.
pub fn span_of(file_len: usize, line: &str) -> Result<Span, LineFault>
    ensures { IsRead (span_after file_len line.now) result }
{
    if file_len > LONGEST_FILE || line.len() >= LONGEST_FILE - file_len {
        return Err(LineFault::NotUnderstood);
    }
    let (start, end) = content_range(line);
    Ok(Span::new((file_len + start) as u32, (file_len + end) as u32))
}

/// A file with one more line.
fn with_newline(contents: Text, line: &str) -> Result<Text, AllocError>
    ensures { IfOk result (λ file. file ≡ contents ++ with_newline line.now) }
{
    let mut contents = contents.into_string();
    contents.push_str(line)?;
    contents.push('\n')?;
    Ok(Text::from_string(contents))
}

impl Draft {
    /// The package that a first line begins, and whose lines mention this of other packages, in their
    /// order. A mention that takes a name for something else than the first mention of it does is left
    /// out. Not understood where the line doesn't fit into a file, as `span_of` says. Else only want of
    /// memory is an error.
    pub fn begin(
        alloc: Global,
        name: PackageName,
        line: &str,
        mentions: Items<Mention>,
    ) -> Result<Draft, LineFault>
        ensures { IsRead (new_draft name line.now mentions) result }
    {
        let span = span_of(0, line)?;
        let mut draft = Draft::empty(alloc, name, line, span)?;
        draft.add_mentions(alloc, mentions)?;
        Ok(draft)
    }

    /// The package of a first line that stands here, which knows nothing of other packages.
    fn empty(alloc: Global, name: PackageName, line: &str, span: Span) -> Result<Draft, AllocError>
        ensures { IfOk result (λ draft. draft ≡ new_draft_at name line.now [] span) }
    {
        let contents = with_newline(Text::new(alloc), line)?;
        Ok(Draft {
            name,
            name_span: span,
            contents,
            interfaces: Items::new(alloc),
            worlds: Items::new(alloc),
            types: Items::new(alloc),
            roots: Items::new(alloc),
            required: Items::new(alloc),
            interface_ids: Names::new(alloc),
            world_ids: Names::new(alloc),
            scope: Scope::Package,
            foreign: Foreign {
                deps: Table::new(alloc),
                dep_spans: Items::new(alloc),
                type_spans: Items::new(alloc),
            },
        })
    }

    /// Adds one more line of the package, which says this and has this gate. Not understood where the
    /// line can't be added, as `add` says, or doesn't fit into the file, as `span_of` says. Else only
    /// want of memory is an error. After a fault nothing is told of the package.
    pub fn add_line(
        &mut self,
        alloc: Global,
        said: PackageLine,
        gate: Stability,
        line: &str,
    ) -> Result<(), LineFault>
        ensures { DraftResult (with_line self.old said gate line.now) result self.new }
    {
        let span = self.add_text(alloc, line)?;
        self.add(alloc, said, &LineContext { gate, span })
    }

    /// Adds the text of one more line to the file of the package, and answers where the line stands
    /// there.
    fn add_text(&mut self, alloc: Global, line: &str) -> Result<Span, LineFault>
        ensures span { IsRead (span_after (length self.old.contents) line.now) result }
        ensures text { OnOk result (self.new ≡ with_text self.old line.now) }
    {
        let span = span_of(self.contents.len(), line)?;
        let contents = mem::replace(&mut self.contents, Text::new(alloc));
        self.contents = with_newline(contents, line)?;
        Ok(span)
    }

    /// The package as a group of its own, with its file, whose path is the package's name. Not
    /// understood where the file doesn't fit into a source map. Else only want of memory is an error.
    /// Of a package that lines built, the group has its shape where `is_pushable` tells that it may be
    /// pushed.
    pub fn into_group(self, alloc: Global) -> Result<UnresolvedPackageGroup, LineFault>
        ensures read { IsRead (as_group self) result }
        ensures shaped { IsBuilt self
            → IfOk result (λ group. IsPushable group.main → IsGroupShaped group) }
    {
        let mut draft = self;
        draft.close();
        draft.into_closed_group(alloc)
    }

    /// The same of a package whose last interface or world is closed.
    fn into_closed_group(self, alloc: Global) -> Result<UnresolvedPackageGroup, LineFault>
        ensures { IsRead (as_group self) result }
    {
        let path = self.name.to_string(alloc)?;
        let Draft {
            name,
            name_span,
            contents,
            interfaces,
            worlds,
            types,
            roots,
            required,
            interface_ids,
            world_ids,
            scope: _,
            foreign,
        } = self;
        drop(roots);
        drop(interface_ids);
        drop(world_ids);
        let Foreign {
            deps,
            dep_spans,
            type_spans,
        } = foreign;
        let main = UnresolvedPackage {
            name,
            package_name_span: name_span,
            docs: Docs::none(),
            worlds,
            interfaces,
            types,
            foreign_deps: shrunk(deps),
            foreign_dep_spans: dep_spans,
            unknown_type_spans: type_spans,
            required_resource_types: required,
        };
        Ok(UnresolvedPackageGroup {
            main,
            nested: Items::new(alloc),
            source_map: one_file(alloc, &path, contents)?,
        })
    }
}

/// What a package knows of other packages, of which it names few things each, without memory that nothing takes.
fn shrunk(mut deps: Table<PackageName, ForeignNames>) -> Table<PackageName, ForeignNames>
    ensures { result ≡ deps }
{
    for at in 0..deps.len() {
        deps.value_at_mut(at).shrink();
    }
    deps.shrink();
    deps
}

/// A source map of one file.
fn one_file(alloc: Global, path: &str, contents: Text) -> Result<SourceMap, LineFault>
    ensures { IsRead (one_file path.now contents) result }
{
    let mut source_map = SourceMap::new(alloc);
    match source_map.push_str(alloc, path, contents.into_string()) {
        Ok(_) => Ok(source_map),
        Err(MapFault::OffsetOverflow) => Err(LineFault::NotUnderstood),
        Err(MapFault::OutOfMemory) => Err(LineFault::OutOfMemory),
    }
}
