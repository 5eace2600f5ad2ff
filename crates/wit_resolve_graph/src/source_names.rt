//! Names of sources, copied and told once.
ghost use Rattle.std.specs.Prelude.{◌≡◌, IfOk, OnOk, map};
ghost use Rattle.wit_resolve_graph.specs.SourceNames.{names_of};
ghost use Rattle.wit_resolve_graph.specs.steps.Seen.{with_all};
ghost use Rattle.wit_sources.specs.SourceMap.{paths_of};

use std::alloc::{AllocError, Global};
use wit_data::{Items, SourceMap, Text};
use wit_values::NameSet;

/// The names of the sources of each map.
pub(crate) fn names_of(alloc: Global, maps: &[SourceMap]) -> Result<Items<Items<Text>>, AllocError>
    ensures { IfOk result (λ names. names ≡ names_of maps.now) }
{
    let mut names = Items::new(alloc);
    for map in maps {
        names.push(names_in(alloc, map)?)?;
    }
    Ok(names)
}

/// The names of the sources of a map.
fn names_in(alloc: Global, map: &SourceMap) -> Result<Items<Text>, AllocError>
    ensures { IfOk result (λ names. names ≡ paths_of map.now.files) }
{
    let mut names = Items::new(alloc);
    for name in map.source_names() {
        names.push(Text::try_from_str(alloc, name)?)?;
    }
    Ok(names)
}

/// Adds the names that aren't among those that were seen.
pub(crate) fn add_unseen<'a>(
    alloc: Global,
    names: &'a [Text],
    seen: &mut NameSet,
    found: &mut Vec<&'a str>,
) -> Result<(), AllocError>
    requires { map (λ name. name.now) found.old.items ≡ seen.old }
    ensures seen { OnOk result (seen.new ≡ with_all seen.old names.now) }
    ensures found { OnOk result (map (λ name. name.now) found.new.items ≡ seen.new) }
{
    for name in names {
        let count = seen.len();
        seen.insert(alloc, name.as_str())?;
        if seen.len() > count {
            found.push(name.as_str())?;
        }
    }
    Ok(())
}
