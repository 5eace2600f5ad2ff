//! Calls that need no graph: lists, texts, names, versions.
use crate::marks::{bare, call, copied, tell, tell_made};
use indexmap::IndexMap;
use std::alloc::{AllocError, Global};
use std::hash::Hash;
use wit_graph::NameSet;
use wit_items::{
    Case, Docs, EnumCase, Flag, IncludeName, Items, Names, PackageName, ParsedUsePath, Span,
    Stability, Table, Text, TrackRule, TryClone, Type_, TypeId, UsePathFault, Version,
    is_kebab_name, parse_use_path,
};
use wit_link::rename;

/// All of them.
pub fn make_values(rt: &impl Print, alloc: Global) -> Option<()> {
    push_items(rt, alloc)?;
    append_items(rt, alloc)?;
    push_keys(rt, alloc)?;
    convert_tables(rt, alloc)?;
    convert_names(rt, alloc)?;
    copy_parts(rt, alloc)?;
    rename_label(rt, alloc)?;
    for path in ["kebab", "foo:bar/baz@1.2.3-rc.1+b", "foo bar"] {
        read_path(rt, alloc, path)?;
    }
    for version in ["1.2.3", "0.2.3-rc.1+b", "0.0.3", "1.2"] {
        read_version(rt, alloc, version)?;
    }
    Some(())
}

// ---- lists

fn push_items(rt: &impl Print, alloc: Global) -> Option<()> {
    let mut items: Items<usize> = Items::new(alloc);
    call(rt, "push of Items");
    tell_made(rt, items.push(7))?;
    call(rt, "reserve");
    tell_made(rt, items.reserve(70))
}

/// Two lists, of which the first has no room for the second.
fn append_items(rt: &impl Print, alloc: Global) -> Option<()> {
    let mut items: Items<usize> = Items::new(alloc);
    items.push(7).ok()?;
    let mut others: Items<usize> = Items::new(alloc);
    for index in 0..70 {
        others.push(index).ok()?;
    }
    call(rt, "append of Items");
    tell_made(rt, items.append(others))
}

fn push_keys(rt: &impl Print, alloc: Global) -> Option<()> {
    let mut names: Names<usize> = Names::new(alloc);
    let key = String::from_str(alloc, "key").ok()?;
    call(rt, "push of Names");
    tell_made(rt, names.push(key, 7))?;
    let mut table: Table<TypeId, usize> = Table::new(alloc);
    call(rt, "push of Table");
    tell_made(rt, table.push(TypeId::from_index(7), 7))?;
    let mut set = NameSet::new(alloc);
    call(rt, "insert of NameSet");
    tell_made(rt, set.insert(alloc, "name"))
}

// ---- tables of an `IndexMap`, and given back as one

fn convert_tables(rt: &impl Print, alloc: Global) -> Option<()> {
    let mut map = IndexMap::new(alloc);
    map.insert(TypeId::from_index(7), 7usize).ok()?;
    call(rt, "from_map of Table");
    let made: Result<Table<TypeId, usize>, AllocError> = Table::from_map(map);
    tell_made(rt, made)?;
    let mut table: Table<TypeId, usize> = Table::new(alloc);
    table.push(TypeId::from_index(7), 7).ok()?;
    call(rt, "into_map of Table");
    tell_length(rt, table.into_map())
}

fn convert_names(rt: &impl Print, alloc: Global) -> Option<()> {
    let mut map = IndexMap::new(alloc);
    let key = String::from_str(alloc, "key").ok()?;
    map.insert(key, 7usize).ok()?;
    call(rt, "from_map of Names");
    let made: Result<Names<usize>, AllocError> = Names::from_map(map);
    tell_made(rt, made)?;
    let mut names: Names<usize> = Names::new(alloc);
    let key = String::from_str(alloc, "key").ok()?;
    names.push(key, 7).ok()?;
    call(rt, "into_map of Names");
    tell_length(rt, names.into_map())
}

/// How many pairs a map has.
fn tell_length<K: Eq + Hash + Drop>(
    rt: &impl Print,
    answer: Result<IndexMap<K, usize>, AllocError>,
) -> Option<()> {
    match answer {
        Ok(map) => tell(rt, Ok(map.len())),
        Err(refusal) => tell_made(rt, Err::<usize, AllocError>(refusal)),
    }
}

// ---- texts, and copies of what no script has

fn text(alloc: Global, text: &str) -> Option<Text> {
    Text::try_from_str(alloc, text).ok()
}

fn copy_parts(rt: &impl Print, alloc: Global) -> Option<()> {
    call(rt, "try_from_str");
    tell_made(rt, Text::try_from_str(alloc, "text"))?;
    let stability = Stability::Unstable {
        feature: text(alloc, "f")?,
        deprecated: None,
    };
    copied(rt, "try_clone of Stability", &stability)?;
    let case = Case {
        name: text(alloc, "a")?,
        ty: Some(Type_::U32),
        docs: Docs::none(),
        span: Span::unknown(),
    };
    copied(rt, "try_clone of Case", &case)?;
    copy_documented(rt, alloc)
}

fn copy_documented(rt: &impl Print, alloc: Global) -> Option<()> {
    let contents = Some(text(alloc, "docs")?);
    let docs = Docs { contents };
    copied(rt, "try_clone of Docs", &docs)?;
    let name = text(alloc, "a")?;
    let span = Span::unknown();
    let flag = Flag { name, docs, span };
    copied(rt, "try_clone of Flag", &flag)?;
    let Flag { name, docs, span } = flag;
    copied(rt, "try_clone of EnumCase", &EnumCase { name, docs, span })
}

// ---- names and versions

fn rename_label(rt: &impl Print, alloc: Global) -> Option<()> {
    let name = IncludeName {
        name: text(alloc, "p")?,
        as_: text(alloc, "q")?,
    };
    call(rt, "rename");
    tell(rt, rename(alloc, "[get]p", &name))
}

fn read_path(rt: &impl Print, alloc: Global, path: &str) -> Option<()> {
    bare(rt, "is_kebab_name");
    tell(rt, Ok(is_kebab_name(path)))?;
    call(rt, "parse_use_path");
    tell_path(rt, parse_use_path(alloc, path))?;
    match parse_use_path(alloc, path) {
        Ok(path) => copied(rt, "try_clone of ParsedUsePath", &path),
        Err(_) => Some(()),
    }
}

fn tell_path(rt: &impl Print, path: Result<ParsedUsePath, UsePathFault>) -> Option<()> {
    match &path {
        Ok(_) => println!(rt; "answer a path").ok(),
        Err(UsePathFault::Invalid) => println!(rt; "answer no path").ok(),
        Err(UsePathFault::OutOfMemory) => println!(rt; "answer refused 28 out of memory").ok(),
    }
}

fn read_version(rt: &impl Print, alloc: Global, version: &str) -> Option<()> {
    call(rt, "parse of Version");
    tell_version(rt, Version::parse(alloc, version))?;
    match Version::parse(alloc, version) {
        Ok(version) => ask_version(rt, alloc, &version),
        Err(_) => Some(()),
    }
}

fn tell_version(rt: &impl Print, version: Result<Version, semver::Error>) -> Option<()> {
    match &version {
        Ok(version) => println!(rt; "answer {version}").ok(),
        Err(fault) if *fault == semver::Error::from(AllocError) => {
            println!(rt; "answer refused 28 out of memory").ok()
        }
        Err(fault) => println!(rt; "answer {fault}").ok(),
    }
}

fn ask_version(rt: &impl Print, alloc: Global, version: &Version) -> Option<()> {
    copied(rt, "try_clone of Version", version)?;
    let inner = version.try_clone().ok()?.into_version();
    call(rt, "from_version");
    tell_made(rt, Version::from_version(alloc, inner))?;
    call(rt, "version_compat_track");
    tell_made(rt, PackageName::version_compat_track(alloc, version))?;
    call(rt, "version_compat_track_string");
    tell_made(rt, PackageName::version_compat_track_string(alloc, version))?;
    call(rt, "track_by");
    let track = PackageName::track_by(alloc, version, TrackRule::Published);
    tell_made(rt, track)
}
