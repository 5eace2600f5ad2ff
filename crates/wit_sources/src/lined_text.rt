//! A text that knows the lines of its positions.
ghost use Rattle.std.specs.Prelude.{◌≡◌, ◌≤◌, IfOk, length, string_bytes};
ghost use Rattle.wit_sources.specs.Lines.{line_number};
ghost use Rattle.wit_sources.specs.steps.Marks.{AreMarks, feeds_before};

use crate::lines::count_feeds;
use std::alloc::{AllocError, Global};
use std::marker::Model;
use wit_values::{Items, Text, TryClone, try_clone_two};

/// How many bytes lie between two marks of a text.
const STRIDE: usize = 128;

/// A text with a mark at each 128th byte, which tells how many line feeds stand before it. So a line is counted from the mark
/// before it: from the beginning, all lines of a long text would cost its square. A short text has no mark.
#[derive(Drop)]
pub(crate) struct LinedText {
    text: Text,
    marks: Items<usize>,
}

impl Model for LinedText {
    ghost use Rattle.std.specs.Prelude.{List, ℕ};
    ghost use Rattle.wit_sources.specs.steps.Marks.{AreMarks};

    ghost Value = { List ℕ };

    ghost view = { λ t. t.text };

    ghost invariant = { λ t. AreMarks t.text 0 t.marks };
}

impl LinedText {
    /// A text with its marks. The only error is want of memory.
    pub(crate) fn from_string(alloc: Global, text: String) -> Result<LinedText, AllocError>
        ensures { IfOk result (λ t. t ≡ string_bytes text) }
    {
        let text = Text::from_string(text);
        let characters = text.as_str();
        let marks = marks_of(alloc, characters.as_bytes())?;
        Ok(LinedText { text, marks })
    }

    /// The text, to look at.
    pub(crate) fn as_str(&self) -> &str
        ensures { result.now ≡ self.now }
    {
        self.text.as_str()
    }

    /// How many bytes it has.
    pub(crate) fn len(&self) -> usize
        ensures { result ≡ length self.now }
    {
        self.text.len()
    }

    /// The number of the line in which a position stands, from 1.
    pub(crate) fn line_number(&self, offset: usize) -> usize
        requires { offset ≤ length self.now }
        ensures { result ≡ line_number self.now offset }
    {
        let (from, feeds) = self.mark_before(offset);
        let bytes = self.as_str().as_bytes();
        feeds + count_feeds(&bytes[from..offset]) + 1
    }

    /// The last mark up to a position, and the line feeds before it; the beginning where no mark is before the position.
    fn mark_before(&self, offset: usize) -> (usize, usize)
        ensures before { result.0 ≤ offset }
        ensures feeds { result.1 ≡ feeds_before self.now result.0 }
        ensures few { result.1 ≤ result.0 }
    {
        let number = (offset / STRIDE).min(self.marks.len());
        match number.checked_sub(1) {
            Some(index) => (number * STRIDE, *self.marks.at(index)),
            None => (0, 0),
        }
    }
}

/// How many line feeds stand before each 128th byte of a text.
fn marks_of(alloc: Global, bytes: &[u8]) -> Result<Items<usize>, AllocError>
    ensures { IfOk result (λ marks. AreMarks bytes.now 0 marks) }
{
    let number = bytes.len() / STRIDE;
    let mut marks = Vec::with_capacity(alloc, number)?;
    let mut feeds = 0;
    for index in 0..number {
        let from = index * STRIDE;
        feeds += count_feeds(&bytes[from..from + STRIDE]);
        marks.push(feeds)?;
    }
    Ok(Items::from_vec(marks))
}

impl TryClone for LinedText {
    fn try_clone(&self) -> Result<LinedText, AllocError> {
        let (text, marks) = try_clone_two(&self.text, &self.marks)?;
        Ok(LinedText { text, marks })
    }
}
