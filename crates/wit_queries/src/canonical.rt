//! Canonical names: with the text of the track in the place of the version.
ghost use Rattle.std.specs.Prelude.{◌≡◌, IfErr, IfOk, string_bytes};
ghost use Rattle.std.specs.Option.{option_map};
ghost use Rattle.wit_graph_data.specs.Queries.{canonical_id_text, canonical_interface_id_at, canonical_key_text, track_part, version_suffix_of};
ghost use Rattle.wit_graph_data.specs.declared.error_kind.ResolveErrorKind.TheVariants.{OutOfMemory};
ghost use Rattle.wit_graph_data.specs.steps.Parts.{canonical_id_text_in};

use std::alloc::{AllocError, Global};
use wit_data::{InterfaceId, PackageId, PackageName, Version, WorldKey};
use wit_graph_data::{Graph, ResolveResult};

/// The canonical id text of an interface or a world of this name in a package:
/// `namespace:package/name`, and `@track` where the package has a version. Empty where the package
/// isn't there. The only refusal is want of memory (28).
///
/// Source: `canonicalized_id_of_name` of wit-parser 0.263.0; Explainer.md of the component model.
pub fn canonicalized_id_of_name(
    alloc: Global,
    graph: &Graph,
    package: PackageId,
    name: &str,
) -> ResolveResult<String>
    ensures text { IfOk result
        (λ text. string_bytes text ≡ canonical_id_text graph.now.packages «package» name.now) }
    ensures memory { IfErr result (λ e. e ≡ OutOfMemory) }
{
    match graph.packages.get(package.index()) {
        Some(package) => Ok(canonical_id_in(alloc, &package.name, name)?),
        None => Ok(String::new(alloc)),
    }
}

/// The canonical id text of an interface, None where it has no name or no package, or isn't there.
/// The only refusal is want of memory (28).
///
/// Source: `canonicalized_id_of` of wit-parser 0.263.0.
pub fn canonicalized_id_of(
    alloc: Global,
    graph: &Graph,
    id: InterfaceId,
) -> ResolveResult<Option<String>>
    ensures text { IfOk result (λ text.
        option_map string_bytes text
        ≡ canonical_interface_id_at graph.now.packages graph.now.interfaces id) }
    ensures memory { IfErr result (λ e. e ≡ OutOfMemory) }
{
    let Some(interface) = graph.interfaces.get(id.index()) else {
        return Ok(None);
    };
    let Some(name) = &interface.name else {
        return Ok(None);
    };
    let Some(package) = interface.package else {
        return Ok(None);
    };
    Ok(Some(canonicalized_id_of_name(alloc, graph, package, name.as_str())?))
}

/// What names a key of a world: a label as it stands, an interface by its canonical id text, which
/// is empty where the interface has none. The only refusal is want of memory (28).
///
/// Source: `name_canonicalized_world_key` of wit-parser 0.263.0.
pub fn name_canonicalized_world_key(
    alloc: Global,
    graph: &Graph,
    key: &WorldKey,
) -> ResolveResult<String>
    ensures text { IfOk result (λ text.
        string_bytes text
        ≡ canonical_key_text graph.now.packages graph.now.interfaces key.now) }
    ensures memory { IfErr result (λ e. e ≡ OutOfMemory) }
{
    match key {
        WorldKey::Name(label) => Ok(String::from_str(alloc, label.as_str())?),
        WorldKey::Interface(id) => match canonicalized_id_of(alloc, graph, *id)? {
            Some(text) => Ok(text),
            None => Ok(String::new(alloc)),
        },
    }
}

/// The part of the package's version that the canonical id text of an interface leaves out: the rest of the version's
/// text behind its track. None if there is no version, if nothing is left out, and if the interface has no package or
/// isn't there. The only refusal is want of memory (28).
///
/// Source: `version_suffix_of` of wit-parser 0.263.0.
pub fn version_suffix_of(
    alloc: Global,
    graph: &Graph,
    id: InterfaceId,
) -> ResolveResult<Option<String>>
    ensures text { IfOk result (λ text.
        option_map string_bytes text
        ≡ version_suffix_of graph.now.packages graph.now.interfaces id) }
    ensures memory { IfErr result (λ e. e ≡ OutOfMemory) }
{
    let Some(interface) = graph.interfaces.get(id.index()) else {
        return Ok(None);
    };
    let Some(package) = interface.package else {
        return Ok(None);
    };
    let Some(package) = graph.packages.get(package.index()) else {
        return Ok(None);
    };
    let Some(version) = &package.name.version else {
        return Ok(None);
    };
    let (_track, suffix) = PackageName::version_compat_track_string(alloc, version)?;
    Ok(suffix)
}

/// `namespace:package/name`, and `@track` where the package has a version.
fn canonical_id_in(alloc: Global, package: &PackageName, name: &str) -> Result<String, AllocError>
    ensures { IfOk result
        (λ text. string_bytes text ≡ canonical_id_text_in «package».now name.now) }
{
    let namespace = &package.namespace;
    let package_name = &package.name;
    let track = track_part(alloc, &package.version)?;
    format!(in alloc; "{namespace}:{package_name}/{name}{track}")
}

/// `@` and the text of the track, where there is a version.
fn track_part(alloc: Global, version: &Option<Version>) -> Result<String, AllocError>
    ensures { IfOk result (λ text. string_bytes text ≡ track_part version.now) }
{
    match version {
        Some(version) => {
            let (track, _suffix) = PackageName::version_compat_track_string(alloc, version)?;
            format!(in alloc; "@{track}")
        }
        None => Ok(String::new(alloc)),
    }
}
