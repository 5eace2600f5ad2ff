//! Spans of a source map as they are told, and the text that shows one.
ghost use Rattle.std.specs.Prelude.{◌≡◌, Some, IfOk, IfSome, find, option_and_then, string_bytes};
ghost use Rattle.std.specs.Option.{option_copied, option_map};
ghost use Rattle.wit_sources.specs.Lines.{column, line_number};
ghost use Rattle.wit_sources.specs.Locations.{file_at, has_position, highlight_text, highlight_text_in, location_of, location_text, offset_in, location_data, shown_in, shown_span};
ghost use Rattle.wit_sources.specs.steps.Locations.{IsIn, if_it_has};
ghost use Rattle.wit_sources.specs.Span.{start_of};

use super::{SourceFile, SourceMap};
use crate::lines::{column, len_in_line, line_at, offset_in_line};
use crate::shown::{LONGEST_LINE, marked_line};
use crate::span::Span;
use std::alloc::{AllocError, Global};
use std::fmt;

impl SourceMap {
    /// Where a span begins. None where the span is unknown or in no file.
    pub fn location(&self, span: Span) -> Option<Location<'_>>
        ensures { option_map (λ l. (l.path.now, l.line, l.column)) result
            ≡ location_data self.now.files span }
    {
        let file = self.file_at(span)?;
        Some(file.location(span))
    }

    /// Where a span begins: `path:line:column`, both numbers from 1, or `<unknown>` where the span is unknown or in no
    /// file. Lines end at line feeds, columns count characters. The only error is want of memory.
    ///
    /// Source: `render_location` of `SourceMap` of wit-parser 0.263.0.
    pub fn render_location(&self, alloc: Global, span: Span) -> Result<String, AllocError>
        ensures { IfOk result (λ text. string_bytes text ≡ location_of self.now.files span) }
    {
        match self.file_at(span) {
            Some(file) => {
                let location = file.location(span);
                format!(in alloc; "{location}")
            }
            None => String::from_str(alloc, "<unknown>"),
        }
    }

    /// A text with the line in which a span begins, the span underlined in it. None where the span is unknown or in no
    /// file. A line of more than 500 bytes isn't shown: then the position stands before the text. The only error is
    /// want of memory.
    ///
    /// Source: `highlight_span` of `SourceMap` of wit-parser 0.263.0.
    pub fn highlight_span(
        &self,
        alloc: Global,
        span: Span,
        text: &str,
    ) -> Result<Option<String>, AllocError>
        ensures { IfOk result (λ shown.
            option_map string_bytes shown ≡ highlight_text self.now.files span text.now) }
    {
        match self.file_at(span) {
            Some(file) => Ok(Some(file.highlight_text(alloc, span, text)?)),
            None => Ok(None),
        }
    }

    /// The place at which a span begins, and below it the line with its number and the span underlined in it; of a line of
    /// more than 500 bytes its beginning. None where the span is unknown or in no file. The only error is want of memory.
    pub fn show_span(&self, alloc: Global, span: Span) -> Result<Option<String>, AllocError>
        ensures { IfOk result
            (λ shown. option_map string_bytes shown ≡ shown_span self.now.files span) }
    {
        match self.file_at(span) {
            Some(file) => Ok(Some(file.shown_text(alloc, span)?)),
            None => Ok(None),
        }
    }

    /// The file in which a span begins.
    fn file_at(&self, span: Span) -> Option<&SourceFile>
        ensures file { option_copied result ≡ file_at self.now.files span }
        ensures inside { IfSome result (λ file. IsIn file.now span) }
    {
        if !span.is_known() {
            return None;
        }
        let position = span.start();
        let file = self.last_file_up_to(position)?;
        if file.has_position(position) {
            Some(file)
        } else {
            None
        }
    }

    /// The last file that begins at a position or before it: none but it may have the position.
    fn last_file_up_to(&self, position: u32) -> Option<&SourceFile>
        ensures { find (has_position position) self.now.files
            ≡ option_and_then (if_it_has position) (option_copied result) }
    {
        let files = self.files.as_slice();
        let count = files.partition_point(|file| file.start <= position);
        files[..count].last()
    }
}

impl SourceFile {
    /// Whether a position is in this file or at the end of its text.
    fn has_position(&self, position: u32) -> bool
        ensures { result ≡ has_position position self.now }
    {
        match position.checked_sub(self.start) {
            Some(offset) => offset as usize <= self.contents.len(),
            None => false,
        }
    }

    /// Where a span that begins in this file begins.
    fn location(&self, span: Span) -> Location<'_>
        requires { IsIn self.now span }
        ensures path { result.path.now ≡ self.now.path }
        ensures line { result.line
            ≡ line_number self.now.contents (offset_in self.now (start_of span)) }
        ensures column { result.column
            ≡ column self.now.contents (offset_in self.now (start_of span)) }
    {
        let offset = (span.start() - self.start) as usize;
        Location {
            path: self.path.as_str(),
            line: self.contents.line_number(offset),
            column: column(self.contents.as_str(), offset),
        }
    }

    /// A text with the line in which a span of this file begins.
    fn highlight_text(&self, alloc: Global, span: Span, text: &str) -> Result<String, AllocError>
        requires { IsIn self.now span }
        ensures { IfOk result
            (λ shown. string_bytes shown ≡ highlight_text_in self.now span text.now) }
    {
        let location = self.location(span);
        let offset = (span.start() - self.start) as usize;
        if line_at(self.contents.as_str(), offset).len() > LONGEST_LINE {
            return format!(in alloc; "{location}: {text}");
        }
        let shown = self.shown_text(alloc, span)?;
        format!(in alloc; "{text}\n{shown}")
    }

    /// The place at which a span of this file begins, and its line with a mark under the span.
    fn shown_text(&self, alloc: Global, span: Span) -> Result<String, AllocError>
        requires { IsIn self.now span }
        ensures { IfOk result (λ shown. string_bytes shown ≡ shown_in self.now span) }
    {
        let location = self.location(span);
        let contents = self.contents.as_str();
        let offset = (span.start() - self.start) as usize;
        let start = offset_in_line(contents, offset);
        let len = len_in_line(contents, offset, (span.end() - self.start) as usize);
        let line = line_at(contents, offset);
        let line = marked_line(alloc, location.line, line, start, start + len)?;
        format!(in alloc; "     --> {location}\n{line}")
    }
}

/// A position in a file, both numbers from 1.
#[derive(Drop)]
pub struct Location<'a> {
    pub path: &'a str,
    pub line: usize,
    pub column: usize,
}

impl<'a> fmt::Display for Location<'a> {
    ghost output = { λ l. Some (location_text l.path.now l.line l.column) };

    fn fmt<W: fmt::Write>(&self, f: &mut fmt::Formatter<W>) -> fmt::Result {
        let (path, line, column) = (self.path, self.line, self.column);
        write!(f, "{path}:{line}:{column}")
    }
}
