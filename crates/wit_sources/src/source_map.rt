//! Source maps, which give each byte of several files a position of its own.
ghost use Rattle.std.specs.Prelude.{◌≡◌, ◌≤◌, ◌<◌, ◌+◌, ◌^◌, ◌↔◌, [], length, take, map, Some, string_bytes, IsTrue, IfOk, OnOk, OnErr};
ghost use Rattle.std.specs.Option.{SomeIff};
ghost use Rattle.std.specs.List.{AllByRecursion};
ghost use Rattle.std.specs.Iterator.{YieldsFirstBy, item_count};
ghost use Rattle.wit_sources.specs.SourceMap.{AreLaidOut, end_after, with_file, moved_file, with_sources, paths_of, files_of, map_fault_text};

use crate::lined_text::LinedText;
use std::alloc::{AllocError, Global};
use std::error::Error;
use std::marker::Model;
use std::{fmt, slice};
use wit_values::{Text, TryClone, try_clone_two};

mod rendering;

pub use rendering::Location;

/// Why a source map takes no further file.
#[derive(Clone, Copy, Debug, PartialEq, Eq)]
pub enum MapFault {
    /// The end of the map would pass 4294967295.
    OffsetOverflow,
    /// Memory was refused.
    OutOfMemory,
}

impl fmt::Display for MapFault {
    ghost output = { λ fault. Some (map_fault_text fault) };

    fn fmt<W: fmt::Write>(&self, f: &mut fmt::Formatter<W>) -> fmt::Result {
        match self {
            MapFault::OffsetOverflow => f.write_str("source positions would pass 4294967295"),
            MapFault::OutOfMemory => f.write_str("out of memory"),
        }
    }
}

impl Error for MapFault {}

impl From<AllocError> for MapFault {
    ghost use Rattle.std.specs.Prelude.{◌≡◌};
    ghost use Rattle.wit_sources.specs.declared.source_map.MapFault.TheVariants.{OutOfMemory};

    ghost from_gives = { λ _ fault. fault ≡ OutOfMemory };

    fn from(_error: AllocError) -> MapFault {
        MapFault::OutOfMemory
    }
}

/// A file, and the position at which its contents begin.
#[derive(Drop)]
struct SourceFile {
    path: Text,
    contents: LinedText,
    start: u32,
}

impl TryClone for SourceFile {
    fn try_clone(&self) -> Result<SourceFile, AllocError> {
        let (path, contents) = try_clone_two(&self.path, &self.contents)?;
        Ok(SourceFile {
            path,
            contents,
            start: self.start,
        })
    }
}

/// Files in one row of positions, which count from 0. Each file takes its length in bytes plus one
/// positions, so that the end of its text has a position too, and begins where those before it end.
///
/// Source: `SourceMap` of wit-parser 0.263.0.
#[derive(Drop)]
pub struct SourceMap {
    files: Vec<SourceFile>,
    end: u32,
}

impl Model for SourceMap {
    ghost use Rattle.wit_sources.specs.SourceMap.{Sources, AreLaidOut};

    ghost Value = { Sources };

    ghost view = { λ map. record { files = map.files.items; end = map.end } };

    ghost invariant = { λ map. AreLaidOut 0 map.files.items map.end };
}

impl SourceMap {
    /// The map of no file, which takes no memory.
    pub fn new(alloc: Global) -> SourceMap
        ensures { result ≡ record { files = []; end = 0 } }
    {
        SourceMap::with_base(alloc, 0)
    }

    /// The map of no file whose end stands at a position, where its first file will begin. It takes
    /// no memory.
    pub fn with_base(alloc: Global, end: u32) -> SourceMap
        ensures { result ≡ record { files = []; end = end } }
    {
        SourceMap {
            files: Vec::new(alloc),
            end,
        }
    }

    /// Adds a file at the end. The map is as before after a fault, which is `OffsetOverflow`
    /// exactly where the file would end past 4294967295, and else only want of memory.
    ///
    /// Source: `push_str` of `SourceMap` of wit-parser 0.263.0.
    pub fn push_str(&mut self, alloc: Global, path: &str, contents: String) -> Result<(), MapFault>
        ensures ok { OnOk result (self.new ≡ with_file self.old path.now (string_bytes contents)) }
        ensures unchanged { OnErr result (self.new ≡ self.old) }
        ensures overflow { (result ≡ Err MapFault.OffsetOverflow)
            ↔ (2 ^ 32 ≤ end_after self.old.end (string_bytes contents)) }
    {
        let start = self.end;
        let Some(end) = position_after(start, &contents) else {
            return Err(MapFault::OffsetOverflow);
        };
        let path = Text::try_from_str(alloc, path)?;
        let contents = LinedText::from_string(alloc, contents)?;
        let file = SourceFile {
            path,
            contents,
            start,
        };
        self.files.push(file).map_err(AllocError::from)?;
        self.end = end;
        Ok(())
    }

    /// Adds the files of another map at the end, and answers where they begin: they and the end of
    /// their map move by that many positions. The map is as before after a fault, which is
    /// `OffsetOverflow` exactly where the new end would pass 4294967295, and else only want of
    /// memory.
    ///
    /// Source: `append` of `SourceMap` of wit-parser 0.263.0.
    pub fn append(&mut self, _alloc: Global, other: SourceMap) -> Result<u32, MapFault>
        ensures ok { IfOk result
            (λ offset. (offset ≡ self.old.end) × (self.new ≡ with_sources self.old other)) }
        ensures unchanged { OnErr result (self.new ≡ self.old) }
        ensures overflow { (result ≡ Err MapFault.OffsetOverflow)
            ↔ (2 ^ 32 ≤ self.old.end + other.end) }
    {
        let offset = self.end;
        let Some(end) = offset.checked_add(other.end) else {
            return Err(MapFault::OffsetOverflow);
        };
        let mut files = moved_files(other.files, offset);
        self.files.append(&mut files)?;
        self.end = end;
        Ok(offset)
    }

    /// Leaves the first so many files, of which the last ends at this position at most, where the next
    /// one would begin then.
    pub fn truncate(&mut self, len: usize, end: u32)
        requires { AreLaidOut 0 (take len self.old.files) end }
        ensures { self.new ≡ record { files = take len self.old.files; end = end } }
    {
        self.files.truncate(len);
        self.end = end;
    }

    /// How many files it has.
    pub fn len(&self) -> usize
        ensures { result ≡ length self.now.files }
    {
        self.files.len()
    }

    /// Whether it has no file.
    pub fn is_empty(&self) -> bool
        ensures { IsTrue result ↔ (length self.now.files ≡ 0) }
    {
        self.len() == 0
    }

    /// The position at which the next file would begin.
    pub fn end(&self) -> u32
        ensures value { result ≡ self.now.end }
        ensures laid_out { AreLaidOut 0 self.now.files self.now.end }
    {
        self.end
    }

    /// The paths of the files, in order.
    ///
    /// Source: `source_names` of `SourceMap` of wit-parser 0.263.0.
    pub fn source_names(&self) -> SourceNames<'_>
        ensures { result ≡ paths_of self.now.files }
    {
        SourceNames {
            files: self.files.iter(),
        }
    }

    /// The path and the contents of each file, in order.
    pub fn files(&self) -> SourceFiles<'_>
        ensures { result ≡ files_of self.now.files }
    {
        SourceFiles {
            files: self.files.iter(),
        }
    }
}

/// The position after a file that begins at a position, where there is one.
fn position_after(start: u32, contents: &str) -> Option<u32>
    ensures { SomeIff result (end_after start contents.now < 2 ^ 32)
        (end_after start contents.now) }
{
    let len = u32::try_from(contents.len()).ok()?;
    start.checked_add(len)?.checked_add(1)
}

/// The files, moved by an offset in place.
fn moved_files(mut files: Vec<SourceFile>, offset: u32) -> Vec<SourceFile>
    requires { AllByRecursion (λ file. file.start + offset < 2 ^ 32) files.items }
    ensures { result.items ≡ map (moved_file offset) files.items }
{
    for file in files.iter_mut() {
        file.start += offset;
    }
    files
}

impl TryClone for SourceMap {
    fn try_clone(&self) -> Result<SourceMap, AllocError> {
        let mut files = Vec::with_capacity(*self.files.allocator(), self.files.len())?;
        for file in &self.files {
            files.push(file.try_clone()?)?;
        }
        Ok(SourceMap {
            files,
            end: self.end,
        })
    }
}

/// The paths of a source map's files, in order.
#[derive(Drop)]
pub struct SourceNames<'a> {
    files: slice::Iter<'a, SourceFile>,
}

impl<'a> Model for SourceNames<'a> {
    ghost use Rattle.std.specs.Prelude.{List, ℕ};
    ghost use Rattle.std.specs.Slice.Iter.{iter_rest};
    ghost use Rattle.wit_sources.specs.SourceMap.{paths_of};

    ghost Value = { List (List ℕ) };

    ghost view = { λ names. paths_of (iter_rest names.files) };
}

impl<'a> Iterator for SourceNames<'a> {
    type Item = &'a str;

    ghost next_gives = { YieldsFirstBy (λ name. name.now) (λ names. names) };

    ghost remaining = { item_count (λ names. names) };

    fn next(&mut self) -> Option<&'a str> {
        let file = self.files.next()?;
        Some(file.path.as_str())
    }
}

/// The path and the contents of each file of a source map, in order.
#[derive(Drop)]
pub struct SourceFiles<'a> {
    files: slice::Iter<'a, SourceFile>,
}

impl<'a> Model for SourceFiles<'a> {
    ghost use Rattle.std.specs.Prelude.{List, ℕ};
    ghost use Rattle.std.specs.Slice.Iter.{iter_rest};
    ghost use Rattle.wit_sources.specs.SourceMap.{files_of};

    ghost Value = { List (List ℕ × List ℕ) };

    ghost view = { λ files. files_of (iter_rest files.files) };
}

impl<'a> Iterator for SourceFiles<'a> {
    type Item = (&'a str, &'a str);

    ghost next_gives = { YieldsFirstBy (λ file. (file.0.now, file.1.now)) (λ files. files) };

    ghost remaining = { item_count (λ files. files) };

    fn next(&mut self) -> Option<(&'a str, &'a str)> {
        let file = self.files.next()?;
        Some((file.path.as_str(), file.contents.as_str()))
    }
}
