//! What the comment lines of a script choose for its picture.
ghost use Rattle.std.specs.Prelude.{◌≡◌, IfOk, OnOk};
ghost use Rattle.wit_script_lines.specs.Line.{lines_of};
ghost use Rattle.witgraph_dot.specs.Choice.{choice_of, pick_of, picks, and_line};
ghost use Rattle.witgraph_dot.specs.steps.Parts.{matches_version, picks_name, picks_package, is_picked, and_pick, all_things};

use std::alloc::{AllocError, Global};
use wit_resolve_graph::{Items, PackageName, Text, Version};
use wit_script_lines::{LineFault, Request, Statement, after_prefix, lines, read_line};

/// What a line picks: a package, or what has this name in it, an interface or a world. A package that is named without a
/// version stands for each of its versions.
#[derive(Drop)]
pub struct Pick {
    pub package: PackageName,
    pub name: Option<Text>,
}

/// What the comment lines of a script choose: `# show PKG [NAME]`, `# hide PKG [NAME]` and `# only-added`.
#[derive(Drop)]
pub struct Choice {
    /// What is shown; where no line says it, all is.
    pub shown: Items<Pick>,
    /// What isn't shown all the same.
    pub hidden: Items<Pick>,
    /// Of the entries of worlds, the imports that elaboration added alone.
    pub only_added: bool,
}

/// Whether a version is that of a pick, which may have none.
fn matches_version(picked: &Option<Version>, version: &Option<Version>) -> bool
    ensures { result ≡ matches_version picked.now version.now }
{
    match picked {
        Some(_) => picked == version,
        None => true,
    }
}

impl Pick {
    /// Whether it picks a package, or something in it.
    fn picks_package(&self, owner: &PackageName) -> bool
        ensures { result ≡ picks_package self.now owner.now }
    {
        self.package.namespace == owner.namespace
            && self.package.name == owner.name
            && matches_version(&self.package.version, &owner.version)
    }

    /// Whether it picks all of its package, or what has this name in it.
    fn picks_name(&self, name: &Text) -> bool
        ensures { result ≡ picks_name self.now name.now }
    {
        match &self.name {
            Some(picked) => picked == name,
            None => true,
        }
    }

    /// Whether it picks what has this name in a package.
    fn picks(&self, owner: &PackageName, name: &Text) -> bool
        ensures { result ≡ picks self.now owner.now name.now }
    {
        self.picks_name(name) && self.picks_package(owner)
    }
}

/// Whether one of some picks is of what has this name in a package.
pub fn is_picked(picked: &[Pick], owner: &PackageName, name: &Text) -> bool
    ensures { result ≡ is_picked picked.now owner.now name.now }
{
    picked.iter().any(|pick| pick.picks(owner, name))
}

/// What `# show` or `# hide` picks: the package, and the world or interface, that `select` followed by the same says;
/// nothing where that is no such command, and the line is a comment like others. The only error is want of memory.
fn read_pick(alloc: Global, text: &str) -> Result<Option<Pick>, AllocError>
    ensures { IfOk result (λ pick. pick ≡ pick_of text.now) }
{
    let line = format!(in alloc; "select {text}")?;
    match read_line(alloc, &line) {
        Ok(Some(Statement::Request(Request::Select { package, text }))) => Ok(Some(Pick {
            package,
            name: text,
        })),
        Ok(_) => Ok(None),
        Err(LineFault::NotUnderstood) => Ok(None),
        Err(LineFault::OutOfMemory) => Err(AllocError),
    }
}

impl Choice {
    /// All things. It takes no memory.
    pub fn all_things(alloc: Global) -> Choice
        ensures { result ≡ all_things }
    {
        Choice {
            shown: Items::new(alloc),
            hidden: Items::new(alloc),
            only_added: false,
        }
    }

    /// The choice of a script. The only error is want of memory.
    pub fn of_script(alloc: Global, script: &str) -> Result<Choice, AllocError>
        ensures { IfOk result (λ choice. choice ≡ choice_of (lines_of script.now)) }
    {
        let mut choice = Choice::all_things(alloc);
        let all = lines(alloc, script)?;
        for line in &all {
            choice.add_line(alloc, line)?;
        }
        Ok(choice)
    }

    /// Adds what a line chooses.
    fn add_line(&mut self, alloc: Global, line: &str) -> Result<(), AllocError>
        ensures { OnOk result (self.new ≡ and_line self.old line.now) }
    {
        if line == "# only-added" {
            self.only_added = true;
            return Ok(());
        }
        if let Some(text) = after_prefix("# show ", line) {
            return add_pick(alloc, &mut self.shown, text);
        }
        if let Some(text) = after_prefix("# hide ", line) {
            return add_pick(alloc, &mut self.hidden, text);
        }
        Ok(())
    }
}

/// Adds what a text picks to some picks.
fn add_pick(alloc: Global, picked: &mut Items<Pick>, text: &str) -> Result<(), AllocError>
    ensures { OnOk result (picked.new ≡ and_pick picked.old (pick_of text.now)) }
{
    match read_pick(alloc, text)? {
        Some(pick) => picked.push(pick),
        None => Ok(()),
    }
}
