//! The lines of a script, and which of them are commands and which go into the files of packages.
ghost use Rattle.std.specs.Prelude.{◌≡◌, ◌+◌, ◌<◌, ◌^◌, OnOk, IfOk, IfSome, map, option_map, slice_get};
ghost use Rattle.wit_script_lines.specs.Line.{lines_of};
ghost use Rattle.wit_script_explain.specs.Lines.{script_lines_of, sort_of, sort_of_statement, with_next_line};

use std::alloc::{AllocError, Global};
use wit_data::{Items, Text};
use wit_script_lines::{LineFault, Statement, lines, read_line};

/// What a line is, by its tokens alone.
#[derive(Clone, Copy)]
pub enum LineSort {
    /// It says nothing, or isn't understood.
    Silent,
    /// It begins a package.
    Package,
    /// It goes into a package.
    Part,
    /// `push`
    Push,
    /// Another command.
    Request,
}

/// A command: its line, and what comes before it. All is counted from 0.
#[derive(Clone, Copy)]
pub struct CommandPlace {
    /// The index of its line.
    pub line: usize,
    /// How many packages begin before the command that comes before it: those that it pushes come behind them.
    pub packages: usize,
    /// Whether it is a `push`.
    pub is_push: bool,
}

/// The lines of a script. All indices count from 0.
#[derive(Drop)]
pub struct ScriptLines {
    pub lines: Items<Text>,
    /// The indices of the lines that go into files of packages, in order.
    pub filed: Items<usize>,
    /// Of each package the place of its first line among those.
    pub packages: Items<usize>,
    /// Its commands, in order.
    pub commands: Items<CommandPlace>,
    /// How many packages begin before the last command.
    pub pushed: usize,
}

/// The lines of a script. The only error is want of memory.
pub fn script_lines(alloc: Global, script: &str) -> Result<ScriptLines, AllocError>
    ensures { IfOk result (λ read. read ≡ script_lines_of (lines_of script.now)) }
{
    let lines = lines(alloc, script)?;
    numbered(alloc, &lines)
}

/// Lines, one after another.
fn numbered(alloc: Global, lines: &[&str]) -> Result<ScriptLines, AllocError>
    ensures { IfOk result (λ read. read ≡ script_lines_of (map (λ line. line.now) lines.now)) }
{
    let mut read = ScriptLines::new(alloc);
    for line in lines {
        read.add(alloc, line)?;
    }
    Ok(read)
}

impl ScriptLines {
    ghost use Rattle.wit_script_explain.specs.Lines.{with_command_line, with_sort};
    ghost use Rattle.wit_script_explain.specs.steps.Parts.{no_lines};

    /// The line of an index, where it is there; then it has a number, counted from 1.
    pub fn line_at(&self, index: usize) -> Option<&str>
        ensures line { option_map (λ line. line.now) result ≡ slice_get self.now.lines index }
        ensures counted { IfSome result (λ _. index + 1 < 2 ^ 64) }
    {
        let lines = self.lines.as_slice();
        if index < lines.len() {
            return Some(lines[index].as_str());
        }
        None
    }

    /// No line. It takes no memory.
    fn new(alloc: Global) -> ScriptLines
        ensures { result ≡ no_lines }
    {
        ScriptLines {
            lines: Items::new(alloc),
            filed: Items::new(alloc),
            packages: Items::new(alloc),
            commands: Items::new(alloc),
            pushed: 0,
        }
    }

    /// Adds a line.
    fn add(&mut self, alloc: Global, line: &str) -> Result<(), AllocError>
        ensures { OnOk result (self.new ≡ with_next_line self.old line.now) }
    {
        let sort = sort_of(alloc, line)?;
        self.add_sort(sort)?;
        self.lines.push(Text::try_from_str(alloc, line)?)
    }

    /// Notes a line of a sort, which comes next.
    fn add_sort(&mut self, sort: LineSort) -> Result<(), AllocError>
        ensures { OnOk result (self.new ≡ with_sort self.old sort) }
    {
        let index = self.lines.len();
        match sort {
            LineSort::Silent => Ok(()),
            LineSort::Package => {
                self.packages.push(self.filed.len())?;
                self.filed.push(index)
            }
            LineSort::Part => self.filed.push(index),
            LineSort::Push => self.add_command(true),
            LineSort::Request => self.add_command(false),
        }
    }

    /// Notes a command, which comes next.
    fn add_command(&mut self, is_push: bool) -> Result<(), AllocError>
        ensures { OnOk result (self.new ≡ with_command_line self.old is_push) }
    {
        self.commands.push(CommandPlace {
            line: self.lines.len(),
            packages: self.pushed,
            is_push,
        })?;
        self.pushed = self.packages.len();
        Ok(())
    }
}

/// What a line is.
pub fn sort_of(alloc: Global, line: &str) -> Result<LineSort, AllocError>
    ensures { IfOk result (λ sort. sort ≡ sort_of line.now) }
{
    match read_line(alloc, line) {
        Ok(Some(said)) => Ok(sort_of_statement(&said)),
        Ok(None) => Ok(LineSort::Silent),
        Err(LineFault::NotUnderstood) => Ok(LineSort::Silent),
        Err(LineFault::OutOfMemory) => Err(AllocError),
    }
}

/// What a line is that says this.
fn sort_of_statement(said: &Statement) -> LineSort
    ensures { result ≡ sort_of_statement said.now }
{
    match said {
        Statement::Package(_) => LineSort::Package,
        Statement::Line { .. } => LineSort::Part,
        Statement::Push => LineSort::Push,
        Statement::Request(_) => LineSort::Request,
    }
}
