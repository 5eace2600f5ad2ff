//! Changes of a graph as they are read.
ghost use Rattle.json.specs.Value.{value_view};
ghost use Rattle.wit_json_commands.specs.Changes.{read_change_by, read_exportize, read_importize, read_push, read_semver};
ghost use Rattle.wit_json_reading.specs.Reading.{Reads};

use json::Value;
use std::alloc::Global;
use wit_commands::Change;
use wit_json_reading::{Expected, ReadError, ReadJson, instead_of, only, optional, required};

#[tactic(auto, unfolding(crate::specs::Changes::read_push))]
fn push(alloc: Global, value: &Value<'_>) -> Result<Change, ReadError>
    ensures { Reads result (read_push (value_view value.now)) }
{
    only(alloc, value, &["main", "deps"])?;
    let main = required(alloc, value, "main")?;
    let deps = required(alloc, value, "deps")?;
    Ok(Change::PushGroups { main, deps })
}

#[tactic(auto, unfolding(crate::specs::Changes::read_importize))]
fn importize(alloc: Global, value: &Value<'_>) -> Result<Change, ReadError>
    ensures { Reads result (read_importize (value_view value.now)) }
{
    only(alloc, value, &["package", "world", "out"])?;
    let package = required(alloc, value, "package")?;
    let world = required(alloc, value, "world")?;
    let out = optional(alloc, value, "out")?;
    Ok(Change::Importize {
        package,
        world,
        out,
    })
}

#[tactic(auto, unfolding(crate::specs::Changes::read_exportize))]
fn exportize(alloc: Global, value: &Value<'_>) -> Result<Change, ReadError>
    ensures { Reads result (read_exportize (value_view value.now)) }
{
    only(alloc, value, &["package", "world", "out", "keys"])?;
    let package = required(alloc, value, "package")?;
    let world = required(alloc, value, "world")?;
    let out = optional(alloc, value, "out")?;
    let keys = optional(alloc, value, "keys")?;
    Ok(Change::Exportize {
        package,
        world,
        out,
        keys,
    })
}

#[tactic(auto, unfolding(crate::specs::Changes::read_semver))]
fn semver(alloc: Global, value: &Value<'_>) -> Result<Change, ReadError>
    ensures { Reads result (read_semver (value_view value.now)) }
{
    only(alloc, value, &["package", "world"])?;
    let package = required(alloc, value, "package")?;
    let world = required(alloc, value, "world")?;
    Ok(Change::Semver { package, world })
}

/// The change of this name.
#[tactic(auto, unfolding(crate::specs::Changes::read_change_by))]
pub fn change_by(alloc: Global, name: &str, value: &Value<'_>) -> Result<Change, ReadError>
    ensures { Reads result (read_change_by name.now (value_view value.now)) }
{
    match name {
        "add-feature" => Ok(Change::AddFeature(ReadJson::read_json(alloc, value)?)),
        "set-all-features" => Ok(Change::SetAllFeatures(ReadJson::read_json(alloc, value)?)),
        "set-track-rule" => Ok(Change::SetTrackRule(ReadJson::read_json(alloc, value)?)),
        "push-groups" => push(alloc, value),
        "importize" => importize(alloc, value),
        "exportize" => exportize(alloc, value),
        "semver" => semver(alloc, value),
        _ => instead_of(alloc, Expected::Command),
    }
}
