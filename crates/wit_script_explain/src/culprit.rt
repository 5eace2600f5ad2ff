//! The line at which what isn't understood stands: of a package that hasn't its shape not the `push`, but the line that
//! breaks it.
ghost use Rattle.std.specs.Prelude.{◌≡◌, IfOk, OnOk, take};
ghost use Rattle.wit_script_explain.specs.Culprit.{fault_index, includes, is_at_fault, is_push, noted, searched, no_search, world_after};
ghost use Rattle.wit_script_explain.specs.steps.Parts.{names_badly, with_part, with_line, culprit};

use crate::lines::{LineSort, ScriptLines, sort_of};
use std::alloc::{AllocError, Global};
use wit_data::{PackageName, ParsedUsePath, Text, is_kebab_name};
use wit_script_lines::{LineFault, PackageLine, Statement, read_line};

/// A search through the lines of packages, for the first that names something by no kebab name, or includes the world in
/// which it stands.
#[derive(Drop)]
pub struct Search {
    /// The index of that line.
    pub found: Option<usize>,
    /// The world into which the next line goes.
    pub world: Option<Text>,
}

/// The index of the line at which what isn't understood stands, where the line of this number isn't: where that is a
/// `push`, the first line since the last command that names something by no kebab name or includes the world in which it
/// stands, where there is one; else that line. The only error is want of memory.
pub fn fault_index(alloc: Global, script: &ScriptLines, number: usize) -> Result<usize, AllocError>
    ensures { IfOk result (λ index. index ≡ fault_index script.now number) }
{
    let index = number.saturating_sub(1);
    if !is_push(alloc, script, index)? {
        return Ok(index);
    }
    match culprit(alloc, first_lines(script.lines.as_slice(), index))? {
        Some(found) => Ok(found),
        None => Ok(index),
    }
}

/// Whether the line of an index is a `push`.
fn is_push(alloc: Global, script: &ScriptLines, index: usize) -> Result<bool, AllocError>
    ensures { IfOk result (λ answer. answer ≡ is_push script.now index) }
{
    match script.lines.get(index) {
        Some(line) => Ok(matches!(sort_of(alloc, line.as_str())?, LineSort::Push)),
        None => Ok(false),
    }
}

/// The first so many lines.
fn first_lines(lines: &[Text], count: usize) -> &[Text]
    ensures { result.now ≡ take count lines.now }
{
    match lines.get(..count) {
        Some(first) => first,
        None => lines,
    }
}

/// The first line since the last command that names something by no kebab name or includes its own world.
fn culprit(alloc: Global, lines: &[Text]) -> Result<Option<usize>, AllocError>
    ensures { IfOk result (λ found. found ≡ culprit lines.now) }
{
    let mut search = Search::new();
    for (index, line) in lines.iter().enumerate() {
        search.add(alloc, index, line.as_str())?;
    }
    Ok(search.found)
}

impl Search {
    ghost use Rattle.wit_script_explain.specs.Culprit.{with_said};

    /// Nothing is found, and no world is open.
    fn new() -> Search
        ensures { result ≡ no_search }
    {
        Search {
            found: None,
            world: None,
        }
    }

    /// Looks at a line of this index.
    fn add(&mut self, alloc: Global, index: usize, line: &str) -> Result<(), AllocError>
        ensures { OnOk result (self.new ≡ with_line self.old index line.now) }
    {
        match read_line(alloc, line) {
            Ok(Some(said)) => {
                self.add_said(index, said);
                Ok(())
            }
            Ok(None) => Ok(()),
            Err(LineFault::NotUnderstood) => Ok(()),
            Err(LineFault::OutOfMemory) => Err(AllocError),
        }
    }

    /// Looks at a line of this index that says this.
    fn add_said(&mut self, index: usize, said: Statement)
        ensures { self.new ≡ with_said self.old index said }
    {
        match said {
            Statement::Package(name) => {
                self.found = noted(self.found, names_badly(&name), index);
                self.world = None;
            }
            Statement::Line { said, .. } => self.add_part(index, said),
            Statement::Push => self.clear(),
            Statement::Request(_) => self.clear(),
        }
    }

    /// Looks at a line of a package.
    fn add_part(&mut self, index: usize, said: PackageLine)
        ensures { self.new ≡ with_part self.old index said }
    {
        let bad = is_at_fault(&self.world, &said);
        self.found = noted(self.found, bad, index);
        let world = self.world.take();
        self.world = world_after(world, said);
    }

    /// Begins anew.
    fn clear(&mut self)
        ensures { self.new ≡ no_search }
    {
        self.found = None;
        self.world = None;
    }
}

/// The world into which the lines after a line of a package go, where this one was open before it.
fn world_after(world: Option<Text>, said: PackageLine) -> Option<Text>
    ensures { result ≡ world_after world said }
{
    match said {
        PackageLine::Interface(_) => None,
        PackageLine::World(name) => Some(name),
        _ => world,
    }
}

/// The first line that is at fault, after one more.
fn noted(found: Option<usize>, bad: bool, index: usize) -> Option<usize>
    ensures { result ≡ noted found bad index }
{
    match found {
        Some(first) => Some(first),
        None => bad.then_some(index),
    }
}

/// Whether a package is called by what is no kebab name.
fn names_badly(name: &PackageName) -> bool
    ensures { result ≡ names_badly name.now }
{
    !is_kebab_name(name.namespace.as_str()) || !is_kebab_name(name.name.as_str())
}

/// Whether a line of a package, where this world is open, names something by no kebab name, or includes that world.
fn is_at_fault(world: &Option<Text>, said: &PackageLine) -> bool
    ensures { result ≡ is_at_fault world.now said.now }
{
    match said {
        PackageLine::Interface(name) => !is_kebab_name(name.as_str()),
        PackageLine::World(name) => !is_kebab_name(name.as_str()),
        PackageLine::Include { path, .. } => includes(world, path),
        _ => false,
    }
}

/// Whether a path names the world that is open.
fn includes(world: &Option<Text>, path: &ParsedUsePath) -> bool
    ensures { result ≡ includes world.now path.now }
{
    match (world, path) {
        (Some(world), ParsedUsePath::Name(name)) => world.as_str() == name.as_str(),
        _ => false,
    }
}
