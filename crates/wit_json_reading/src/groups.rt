//! Groups of packages with their files.
ghost use Rattle.json.specs.Value.{value_view};
ghost use Rattle.wit_json_reading.specs.Groups.{read_group, read_source, read_sources, with_source};
ghost use Rattle.wit_json_reading.specs.Reading.{Reads};
ghost use Rattle.wit_json_reading.specs.steps.Parts.{source_behind};

use crate::fault::{Expected, ReadError, in_item, instead_of};
use crate::reader::{ReadJson, only, required};
use json::Value;
use std::alloc::Global;
use wit_data::{MapFault, SourceMap, UnresolvedPackageGroup};
use wit_values::Text;

/// A path and a text.
#[tactic(auto, unfolding(crate::specs::Groups::read_source))]
fn source(alloc: Global, value: &Value<'_>) -> Result<(Text, Text), ReadError>
    ensures { Reads result (read_source (value_view value.now)) }
{
    only(alloc, value, &["path", "text"])?;
    let path = required(alloc, value, "path")?;
    let text = required(alloc, value, "text")?;
    Ok((path, text))
}

/// The sources with the file that a value is at their end.
fn with_value(alloc: Global, sources: SourceMap, value: &Value<'_>) -> Result<SourceMap, ReadError>
    ensures { Reads result (source_behind sources (value_view value.now)) }
{
    let (path, text) = source(alloc, value)?;
    with_source(alloc, sources, &path, text)
}

/// The sources with one more file at their end.
fn with_source(
    alloc: Global,
    mut sources: SourceMap,
    path: &Text,
    text: Text,
) -> Result<SourceMap, ReadError>
    ensures { Reads result (with_source sources (path.now, text)) }
{
    match sources.push_str(alloc, path.as_str(), text.into_string()) {
        Ok(()) => Ok(sources),
        Err(MapFault::OffsetOverflow) => instead_of(alloc, Expected::Source),
        Err(MapFault::OutOfMemory) => Err(ReadError::OutOfMemory),
    }
}

impl ReadJson for SourceMap {
    ghost reading = { read_sources };

    fn read_json(alloc: Global, value: &Value<'_>) -> Result<SourceMap, ReadError> {
        let Value::Array(items) = value else {
            return instead_of(alloc, Expected::List);
        };
        let mut sources = SourceMap::new(alloc);
        for item in items {
            let index = sources.len();
            sources = in_item(with_value(alloc, sources, item), index)?;
        }
        Ok(sources)
    }
}

impl ReadJson for UnresolvedPackageGroup {
    ghost reading = { read_group };

    #[tactic(auto, unfolding(crate::specs::Groups::read_group))]
    fn read_json(alloc: Global, value: &Value<'_>) -> Result<UnresolvedPackageGroup, ReadError> {
        only(alloc, value, &["main", "nested", "sources"])?;
        let main = required(alloc, value, "main")?;
        let nested = required(alloc, value, "nested")?;
        let source_map = required(alloc, value, "sources")?;
        Ok(UnresolvedPackageGroup {
            main,
            nested,
            source_map,
        })
    }
}
