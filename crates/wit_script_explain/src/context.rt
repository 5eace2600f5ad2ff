//! What stands before a line: the package that is begun, and whether a second graph is open.
use std::alloc::{AllocError, Global};
use wit_data::{Items, PackageName, Span, Stability, Text};
use wit_script_lines::{LineFault, PackageLine, Request, Statement, read_line};
use wit_script_package::{Draft, Mention, mention_of};

/// What stands before a line.
#[derive(Drop)]
pub struct Context {
    /// The package that gets the next line.
    pub draft: Option<Draft>,
    /// Whether an `other` waits for its `merge`.
    pub other: bool,
}

/// What stands before the line of an index.
pub fn context_before(alloc: Global, lines: &[Text], index: usize) -> Result<Context, AllocError> {
    let mut context = Context {
        draft: None,
        other: false,
    };
    let mut rest = lines;
    for _line in 0..index {
        let Some((line, ahead)) = rest.split_first() else {
            return Ok(context);
        };
        context.add_line(alloc, line.as_str(), ahead)?;
        rest = ahead;
    }
    Ok(context)
}

/// What a line says, where it says something that is understood.
pub fn said_by(alloc: Global, line: &str) -> Result<Option<Statement>, AllocError> {
    match read_line(alloc, line) {
        Ok(said) => Ok(said),
        Err(LineFault::NotUnderstood) => Ok(None),
        Err(LineFault::OutOfMemory) => Err(AllocError),
    }
}

impl Context {
    /// Adds a line, before those ahead.
    fn add_line(&mut self, alloc: Global, line: &str, ahead: &[Text]) -> Result<(), AllocError> {
        match said_by(alloc, line)? {
            Some(said) => self.add(alloc, said, line, ahead),
            None => Ok(()),
        }
    }

    /// Adds a line that says this.
    fn add(
        &mut self,
        alloc: Global,
        said: Statement,
        line: &str,
        ahead: &[Text],
    ) -> Result<(), AllocError> {
        match said {
            Statement::Package(name) => {
                self.draft = begun(alloc, name, line, ahead)?;
            }
            Statement::Line { said, gate } => {
                let _is_added = self.is_added(alloc, said, gate, line)?;
            }
            Statement::Push => self.draft = None,
            Statement::Request(request) => self.other = waits_after(&request, self.other),
        }
        Ok(())
    }

    /// Adds a line of a package, and tells whether it can be added.
    pub fn is_added(
        &mut self,
        alloc: Global,
        said: PackageLine,
        gate: Stability,
        line: &str,
    ) -> Result<bool, AllocError> {
        let Some(draft) = &mut self.draft else {
            return Ok(false);
        };
        match draft.add_line(alloc, said, gate, line) {
            Ok(_) => Ok(true),
            Err(LineFault::NotUnderstood) => Ok(false),
            Err(LineFault::OutOfMemory) => Err(AllocError),
        }
    }
}

/// Whether an `other` waits for its `merge` after a command, where one waited or none did.
fn waits_after(request: &Request, other: bool) -> bool {
    match request {
        Request::Other => true,
        Request::Merge => false,
        _ => other,
    }
}

/// The package that a line begins, before those ahead.
fn begun(
    alloc: Global,
    name: PackageName,
    line: &str,
    ahead: &[Text],
) -> Result<Option<Draft>, AllocError> {
    let mentions = mentions_in(alloc, ahead)?;
    match Draft::begin(alloc, name, line, mentions) {
        Ok(draft) => Ok(Some(draft)),
        Err(LineFault::NotUnderstood) => Ok(None),
        Err(LineFault::OutOfMemory) => Err(AllocError),
    }
}

/// What lines mention of other packages, up to the end of the package.
fn mentions_in(alloc: Global, lines: &[Text]) -> Result<Items<Mention>, AllocError> {
    let mut mentions = Items::new(alloc);
    for line in lines {
        match said_by(alloc, line.as_str())? {
            Some(Statement::Line { said, gate }) => {
                if let Some(mention) = mention_of(said, gate, Span::unknown()) {
                    mentions.push(mention)?;
                }
            }
            Some(_) => return Ok(mentions),
            None => {}
        }
    }
    Ok(mentions)
}
