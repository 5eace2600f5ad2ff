//! From the text of a script to its commands.
ghost use Rattle.std.specs.Prelude.{◌≡◌, ◌↔◌, ◌||◌, [], ◌∷◌, is_some, map, None, Some, IfOk, IfErr, IfSome, IsTrue, OnOk, not};
ghost use Rattle.wit_script_package.specs.Draft.{as_group};
ghost use Rattle.wit_script_lines.specs.steps.ReadResult.{IsRead};
ghost use Rattle.wit_script_lines.specs.PackageLine.{each_of};
ghost use Rattle.wit_data.specs.Each.{Each};
ghost use Rattle.wit_data.specs.declared.unresolved.UnresolvedPackageGroup.{UnresolvedPackageGroup};
ghost use Rattle.wit_script_package.specs.steps.Built.{IsBuilt};
ghost use Rattle.wit_script_package.specs.steps.Pushable.{IsPushable};
ghost use Rattle.wit_script_lines.specs.Line.{last_statement_line};
ghost use Rattle.wit_script.specs.Ready.{AreReady, IsReady};
ghost use Rattle.wit_script.specs.steps.BuiltReading.{AreBuilt, AreShapedIfPushable};
ghost use Rattle.wit_script_package.specs.steps.DraftResult.{DraftResult};
ghost use Rattle.wit_script.specs.Script.{HasReadFault, IsUnderstood, after_line, after_statement_in, new_reading, reading_of, with_groups, with_package, with_package_line, with_push, with_request};
ghost use Rattle.wit_script.specs.steps.Ready.{IsReadyStatement};
ghost use Rattle.wit_script.specs.steps.Script.{GoesOn, HasLineFault};
ghost use Rattle.wit_script_lines.specs.steps.Parts.{is_blank_or_comment};

use crate::ahead::mentions_ahead;
use crate::fault::ReadFault;
use crate::ready::{ReadyCommand, other_after};
use std::alloc::Global;
use std::mem;
use wit_commands::Change;
use wit_data::{Items, PackageName, Stability, UnresolvedPackageGroup};
use wit_script_lines::{LineFault, PackageLine, Request, Statement, lines, read_line};
use wit_script_package::{Draft, is_pushable};

/// What the lines so far say.
#[derive(Drop)]
pub struct Reading {
    pub commands: Items<ReadyCommand>,
    /// The packages since the last command that are followed by another.
    pub finished: Items<Draft>,
    /// The package that gets the lines.
    pub current: Option<Draft>,
    /// Whether an `other` waits for its `merge`.
    pub other: bool,
}

/// Whether each of these groups may be pushed, where lines built it: what lines may break of its shape is asked.
fn are_pushable(groups: &[UnresolvedPackageGroup]) -> bool
    ensures { IsTrue result
        ↔ Each (λ (group : UnresolvedPackageGroup). IsPushable group.main) groups.now }
{
    groups.iter().all(|group| is_pushable(&group.main))
}

/// Packages that lines built as groups, each of its own.
fn into_groups(
    alloc: Global,
    packages: Items<Draft>,
) -> Result<Items<UnresolvedPackageGroup>, LineFault>
    requires { Each IsBuilt packages }
    ensures read { IsRead (each_of as_group packages) result }
    ensures shaped { IfOk result (λ groups. AreShapedIfPushable groups) }
{
    let mut groups = Items::new(alloc);
    for package in packages.into_vec() {
        match package.into_group(alloc) {
            Ok(group) => groups.push(group)?,
            Err(fault) => return Err(fault),
        }
    }
    Ok(groups)
}

/// The first group and those after it, where there is one.
fn split_main(
    groups: Items<UnresolvedPackageGroup>,
) -> Option<(UnresolvedPackageGroup, Items<UnresolvedPackageGroup>)>
    ensures some { IfSome result (λ split. groups ≡ split.0 ∷ split.1) }
    ensures none { result ≡ None → groups ≡ [] }
{
    if groups.is_empty() {
        return None;
    }
    let mut deps = groups.into_vec();
    let main = deps.remove(0);
    Some((main, Items::from_vec(deps)))
}

impl Reading {
    /// No line is read. It takes no memory.
    pub fn new(alloc: Global) -> Reading
        ensures { result ≡ new_reading }
    {
        Reading {
            commands: Items::new(alloc),
            finished: Items::new(alloc),
            current: None,
            other: false,
        }
    }

    /// Whether a package waits for its `push`, or an `other` for its `merge`.
    fn waits(&self) -> bool
        ensures { result ≡ (is_some self.now.current || self.now.other) }
    {
        self.current.is_some() || self.other
    }

    /// Adds what a line says.
    fn add(
        &mut self,
        alloc: Global,
        said: Statement,
        line: &str,
        ahead: &[&str],
    ) -> Result<(), LineFault>
        requires ready { AreReady self.old.commands }
        requires built { AreBuilt self.old }
        requires said { IsReadyStatement said }
        ensures { GoesOn (after_statement_in self.old line.now (map (λ line. line.now) ahead.now)
            (Some (Some said))) result self.new }
    {
        match said {
            Statement::Package(name) => self.add_package(alloc, name, line, ahead),
            Statement::Line { said, gate } => self.add_package_line(alloc, said, gate, line),
            Statement::Push => self.add_push(alloc),
            Statement::Request(request) => self.add_request(request),
        }
    }

    /// Begins a package.
    fn add_package(
        &mut self,
        alloc: Global,
        name: PackageName,
        line: &str,
        ahead: &[&str],
    ) -> Result<(), LineFault>
        ensures next { DraftResult
            (with_package self.old name line.now (map (λ line. line.now) ahead.now)) result
            self.new }
        ensures commands { self.new.commands ≡ self.old.commands }
    {
        let mentions = mentions_ahead(alloc, line.len() + 1, ahead)?;
        let package = Draft::begin(alloc, name, line, mentions)?;
        if let Some(before) = self.current.replace(package) {
            self.finished.push(before)?;
        }
        Ok(())
    }

    /// Adds a line to the package that gets the lines.
    fn add_package_line(
        &mut self,
        alloc: Global,
        said: PackageLine,
        gate: Stability,
        line: &str,
    ) -> Result<(), LineFault>
        ensures next { DraftResult (with_package_line self.old said gate line.now) result self.new }
        ensures commands { self.new.commands ≡ self.old.commands }
    {
        match &mut self.current {
            Some(package) => package.add_line(alloc, said, gate, line),
            None => Err(LineFault::NotUnderstood),
        }
    }

    /// Ends the packages since the last command, and adds the command that pushes them, the first being
    /// the main one.
    fn add_push(&mut self, alloc: Global) -> Result<(), LineFault>
        requires ready { AreReady self.old.commands }
        requires built { AreBuilt self.old }
        ensures { GoesOn (with_push self.old) result self.new }
    {
        let Some(last) = self.current.take() else {
            return Err(LineFault::NotUnderstood);
        };
        let mut packages = mem::replace(&mut self.finished, Items::new(alloc));
        packages.push(last)?;
        let groups = into_groups(alloc, packages)?;
        self.add_groups(groups)
    }

    /// Adds the command that pushes groups, where they can be pushed.
    fn add_groups(&mut self, groups: Items<UnresolvedPackageGroup>) -> Result<(), LineFault>
        requires ready { AreReady self.old.commands }
        requires finished { self.old.finished ≡ [] }
        requires current { self.old.current ≡ None }
        requires shaped { AreShapedIfPushable groups }
        ensures { GoesOn (with_groups self.old groups) result self.new }
    {
        if !are_pushable(groups.as_slice()) {
            return Err(LineFault::NotUnderstood);
        }
        let Some((main, deps)) = split_main(groups) else {
            return Err(LineFault::NotUnderstood);
        };
        let change = Change::PushGroups { main, deps };
        self.commands
            .push(ReadyCommand::new(Request::Change(change)))?;
        Ok(())
    }

    /// Adds another command, where no package waits for its `push`: `other` where none waits for its `merge`, and
    /// `merge` where one does.
    fn add_request(&mut self, request: Request) -> Result<(), LineFault>
        requires ready { AreReady self.old.commands }
        requires asked { IsReady request }
        ensures { GoesOn (with_request self.old request) result self.new }
    {
        if self.current.is_some() {
            return Err(LineFault::NotUnderstood);
        }
        let Some(other) = other_after(&request, self.other) else {
            return Err(LineFault::NotUnderstood);
        };
        self.other = other;
        self.commands.push(ReadyCommand::new(request))?;
        Ok(())
    }
}

/// Adds a line, and tells whether it says anything.
fn add_line(
    alloc: Global,
    reading: &mut Reading,
    line: &str,
    ahead: &[&str],
) -> Result<bool, LineFault>
    requires ready { AreReady reading.old.commands }
    requires built { AreBuilt reading.old }
    ensures next { GoesOn (after_line reading.old line.now (map (λ line. line.now) ahead.now))
        result reading.new }
    ensures told { IfOk result (λ said. said ≡ not (is_blank_or_comment line.now)) }
{
    match read_line(alloc, line)? {
        None => Ok(false),
        Some(said) => {
            reading.add(alloc, said, line, ahead)?;
            Ok(true)
        }
    }
}

/// Adds the lines of a script, and answers how many there are up to the last that says something.
fn add_lines(alloc: Global, reading: &mut Reading, lines: &[&str]) -> Result<usize, ReadFault>
    requires { reading.old ≡ new_reading }
    ensures read { OnOk result (reading_of (map (λ line. line.now) lines.now) ≡ Some reading.new) }
    ensures ready { OnOk result (AreReady reading.new.commands) }
    ensures last { IfOk result
        (λ last. last ≡ last_statement_line (map (λ line. line.now) lines.now)) }
    ensures fault { IfErr result (λ fault. HasLineFault (map (λ line. line.now) lines.now) fault) }
{
    let mut last = 0;
    for (index, line) in lines.iter().enumerate() {
        let says_something = match add_line(alloc, reading, line, &lines[index + 1..]) {
            Ok(says_something) => says_something,
            Err(LineFault::NotUnderstood) => {
                return Err(ReadFault::NotUnderstood { line: index + 1 });
            }
            Err(LineFault::OutOfMemory) => return Err(ReadFault::OutOfMemory),
        };
        if says_something {
            last = index + 1;
        }
    }
    Ok(last)
}

/// The commands of a script, or the number of its first line that isn't understood, counted from 1. Where all lines
/// are understood but packages wait for their `push`, or an `other` for its `merge`, the last line that says
/// something is named. Else only want of memory is an error.
pub fn read_script(alloc: Global, text: &str) -> Result<Items<ReadyCommand>, ReadFault>
    ensures ok { IfOk result (λ commands. IsUnderstood text.now commands) }
    ensures fault { IfErr result (λ fault. HasReadFault text.now fault) }
{
    let lines = lines(alloc, text)?;
    let mut reading = Reading::new(alloc);
    let last = add_lines(alloc, &mut reading, &lines)?;
    if reading.waits() {
        return Err(ReadFault::NotUnderstood { line: last });
    }
    Ok(reading.commands)
}
