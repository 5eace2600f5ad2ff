//! Source maps, and the sources of packages.
ghost use Rattle.std.specs.Prelude.{IfOk};
ghost use Rattle.wit_resolve_graph.specs.SourceNames.{ArePlaced};

use crate::marks::{bare, call, copied, tell, tell_made};
use crate::states::map_state;
use std::alloc::{AllocError, Global};
use std::collections::BTreeMap;
use wit_graph::ResolveResult;
use wit_items::{MapFault, PackageId, SourceMap, Span};
use wit_resolve_graph::PackageSources;

/// All of them.
pub fn make_sources(rt: &impl Print, alloc: Global) -> Option<()> {
    push_file(rt, alloc)?;
    append_map(rt, alloc)?;
    show_map(rt, alloc)?;
    source_packages(rt, alloc)?;
    ask_sources(rt, alloc)
}

// ---- source maps

/// A map of one file.
pub fn one_file(alloc: Global) -> Option<SourceMap> {
    let mut map = SourceMap::new(alloc);
    let contents = String::from_str(alloc, "package a:b;\nworld w {}\n").ok()?;
    map.push_str(alloc, "m.wit", contents).ok()?;
    Some(map)
}

/// What a source map answers.
fn refusing<T: Drop>(answer: Result<T, MapFault>) -> ResolveResult<T> {
    Ok(answer?)
}

fn push_file(rt: &impl Print, alloc: Global) -> Option<()> {
    let mut map = one_file(alloc)?;
    let contents = String::from_str(alloc, "text").ok()?;
    map_state(rt, "base", &map)?;
    call(rt, "push_str");
    let answer = map.push_str(alloc, "n.wit", contents);
    tell(rt, refusing(answer))?;
    map_state(rt, "state", &map)
}

fn append_map(rt: &impl Print, alloc: Global) -> Option<()> {
    let mut map = SourceMap::with_base(alloc, 7);
    let other = one_file(alloc)?;
    map_state(rt, "base", &map)?;
    call(rt, "append of SourceMap");
    let answer = map.append(alloc, other);
    tell(rt, refusing(answer))?;
    map_state(rt, "state", &map)
}

fn show_map(rt: &impl Print, alloc: Global) -> Option<()> {
    let map = one_file(alloc)?;
    copied(rt, "try_clone of SourceMap", &map)?;
    call(rt, "render_location of SourceMap");
    tell_made(rt, map.render_location(alloc, Span::new(13, 18)))?;
    call(rt, "highlight_span");
    tell_made(rt, map.highlight_span(alloc, Span::new(13, 18), "bad"))?;
    call(rt, "show_span");
    tell_made(rt, map.show_span(alloc, Span::new(13, 18)))
}

// ---- the sources of packages

/// Of one package, the first index.
fn one_index(alloc: Global) -> Result<BTreeMap<PackageId, usize>, AllocError>
    ensures { IfOk result (λ indices. ArePlaced indices.entries 1) }
{
    let mut indices = BTreeMap::new(alloc);
    indices.insert(PackageId::from_index(0), 0)?;
    Ok(indices)
}

fn source_packages(rt: &impl Print, alloc: Global) -> Option<()> {
    let map = one_file(alloc)?;
    let maps = vec![in alloc; map].ok()?;
    let indices = one_index(alloc).ok()?;
    call(rt, "from_source_maps");
    tell(rt, PackageSources::from_source_maps(alloc, maps, indices))
}

fn ask_sources(rt: &impl Print, alloc: Global) -> Option<()> {
    let id = PackageId::from_index(0);
    call(rt, "from_single_source");
    tell(rt, PackageSources::from_single_source(alloc, id, "m"))?;
    let sources = PackageSources::from_single_source(alloc, id, "m").ok()?;
    copied(rt, "try_clone of PackageSources", &sources)?;
    call(rt, "source_names of PackageSources");
    tell(rt, sources.source_names(alloc))?;
    bare(rt, "package_source_names");
    tell(rt, Ok(sources.package_source_names(id).is_some()))
}
