//! The comments before a token, and the documentation in them.

use crate::front::{Front, read_front};
use crate::token::TokenKind;
use std::alloc::{AllocError, Global};
use wit_sources::Span;
use wit_values::Text;

/// The comments before a token: the bytes of the source before the first of them, and the place from
/// there to the end of the last.
#[derive(Clone, Copy)]
pub struct Comments {
    pub start: usize,
    pub span: Span,
}

impl Comments {
    /// The documentation in them: the lines of each comment that begins with `///` or `/**`, None
    /// where there is no such comment. The only error is want of memory.
    pub fn docs(&self, alloc: Global, source: &str) -> Result<Option<Text>, AllocError> {
        let mut lines = DocLines {
            text: String::new(alloc),
            has_some: false,
        };
        let mut rest = source.get(self.start..).unwrap_or("");
        while let Some(Ok(front)) = read_front(rest) {
            let comment = &rest[..front.len];
            match front.kind {
                TokenKind::Whitespace => {}
                TokenKind::LineComment => lines.add_line_comment(comment)?,
                TokenKind::BlockComment => lines.add_block_comment(comment)?,
                _ => break,
            }
            rest = &rest[front.len..];
        }
        lines.contents(alloc)
    }
}

/// Lines of documentation, with newlines between.
#[derive(Drop)]
struct DocLines {
    text: String,
    has_some: bool,
}

impl DocLines {
    /// Adds a line.
    fn add(&mut self, line: &str) -> Result<(), AllocError> {
        if self.has_some {
            self.text.push_str("\n")?;
        }
        self.has_some = true;
        self.text.push_str(line)
    }

    /// Adds the line of a comment that begins with `///`.
    fn add_line_comment(&mut self, comment: &str) -> Result<(), AllocError> {
        match comment.strip_prefix("///") {
            Some(line) => self.add(line.strip_prefix(" ").unwrap_or(line).trim_end()),
            None => Ok(()),
        }
    }

    /// Adds the lines of a comment that begins with `/**`.
    fn add_block_comment(&mut self, comment: &str) -> Result<(), AllocError> {
        let Some(inner) = block_docs(comment) else {
            return Ok(());
        };
        if inner.is_empty() {
            return self.add("");
        }
        for line in inner.lines() {
            self.add(line.trim())?;
        }
        Ok(())
    }

    /// All lines, without empty ones at the beginning and at the end; None where there is none.
    fn contents(&self, alloc: Global) -> Result<Option<Text>, AllocError> {
        if !self.has_some {
            return Ok(None);
        }
        let text = self.text.as_str().trim_matches('\n');
        Ok(Some(Text::try_from_str(alloc, text)?))
    }
}

/// What stands in a comment that begins with `/**`, None where it doesn't or is `/**/`.
fn block_docs(comment: &str) -> Option<&str> {
    let inner = comment.strip_prefix("/**")?.strip_suffix("*/")?;
    Some(inner.trim())
}
