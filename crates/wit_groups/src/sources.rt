//! The files of a source map in the order in which they are read.

use std::alloc::{AllocError, Global};
use wit_data::{Items, SourceMap};

/// A file: its text, and the position of its first byte.
#[derive(Clone, Copy)]
pub(crate) struct Source<'a> {
    pub text: &'a str,
    pub start: u32,
}

/// The files of a source map in the order of their paths, as wit-parser reads them. The only error is want of memory.
pub(crate) fn sources_by_path<'a>(
    alloc: Global,
    map: &'a SourceMap,
) -> Result<Items<Source<'a>>, AllocError> {
    let sources = sources_of(alloc, map)?;
    let order = order_of_paths(alloc, map)?;
    let mut sorted = Items::new(alloc);
    for (_, place) in order.iter() {
        if let Some(source) = sources.get(*place) {
            sorted.push(*source)?;
        }
    }
    Ok(sorted)
}

/// The files in the order in which they were added.
fn sources_of<'a>(alloc: Global, map: &'a SourceMap) -> Result<Items<Source<'a>>, AllocError> {
    let mut sources = Items::new(alloc);
    let mut start = first_position(map);
    for (_, text) in map.files() {
        sources.push(Source { text, start })?;
        start = start.saturating_add(positions(text));
    }
    Ok(sources)
}

/// The paths in their order, each with its place among the files.
fn order_of_paths<'a>(
    alloc: Global,
    map: &'a SourceMap,
) -> Result<Vec<(&'a str, usize)>, AllocError> {
    let mut paths = Vec::new(alloc);
    for (place, path) in map.source_names().enumerate() {
        paths.push((path, place))?;
    }
    paths.sort()?;
    Ok(paths)
}

/// Where the first file begins, if the files stand one behind another up to the end of the map.
fn first_position(map: &SourceMap) -> u32 {
    let mut start = map.end();
    for (_, text) in map.files() {
        start = start.saturating_sub(positions(text));
    }
    start
}

/// How many positions a file takes.
fn positions(text: &str) -> u32 {
    match u32::try_from(text.len()) {
        Ok(len) => len.saturating_add(1),
        Err(_) => u32::MAX,
    }
}
