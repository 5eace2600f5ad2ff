//! The calls of `wit_items`.
use crate::fixtures::{assert_text, file, groups, list, package, text, version};
use std::alloc::Global;
use std::fmt::Write;
use std::process::Abort;
use wit_items::{
    InterfaceId, Items, Names, PackageName, ParsedUsePath, Shape, Span, Table, Text, TrackRule,
    TryClone, is_kebab_name, parse_use_path,
};

const SCRIPT: &str = "package foo:bar\ninterface i\ntype t u32\npush\n";

/// Whether a group has its shape, whether its package has, and whether the package has with a span too much.
fn shapes(rt: &impl Abort, alloc: Global) -> [bool; 3] {
    let mut groups = groups(rt, alloc, SCRIPT);
    let mut group = groups.pop().expect(rt, "a group");
    let whole = group.is_shaped(alloc).expect(rt, "memory");
    let alone = group.main.is_shaped(alloc).expect(rt, "memory");
    let spans = &mut group.main.foreign_dep_spans;
    spans.push(Span::unknown()).expect(rt, "memory");
    [
        whole,
        alone,
        group.main.is_shaped(alloc).expect(rt, "memory"),
    ]
}

#[test]
fn what_has_its_shape_is_told(rt: HostRuntime) {
    assert!(rt; shapes(&rt, rt.alloc()) == [true, true, false]);
}

/// The track of a version by both rules, and with its text and what remains.
fn tracks(rt: &impl Abort, alloc: Global, of: &str) -> String {
    let version = version(rt, alloc, of);
    let published = PackageName::track_by(alloc, &version, TrackRule::Published);
    let published = published.expect(rt, "memory");
    let with = PackageName::track_by(alloc, &version, TrackRule::WithPrereleases);
    let with = with.expect(rt, "memory");
    let (track, suffix) = PackageName::version_compat_track(alloc, &version).expect(rt, "memory");
    let suffix = suffix.unwrap_or(String::new(alloc));
    let mut out = format!(in alloc; "{published} {with} {track} {suffix}").expect(rt, "memory");
    let (text, suffix) = PackageName::version_compat_track_string(alloc, &version).expect(
        rt, "memory",
    );
    let suffix = suffix.unwrap_or(String::new(alloc));
    write!(out, " {text} {suffix}").expect(rt, "memory");
    out
}

#[test]
fn a_pre_release_has_a_track_by_each_rule(rt: HostRuntime) {
    assert_text(
        &rt,
        tracks(&rt, rt.alloc(), "1.2.3-rc.1+b"),
        "1.2.3-rc.1 1.0.0 1.2.3-rc.1 +b 1.2.3-rc.1 +b",
    );
}

#[test]
fn a_release_has_one_track(rt: HostRuntime) {
    assert_text(
        &rt,
        tracks(&rt, rt.alloc(), "1.2.3"),
        "1.0.0 1.0.0 1.0.0 .2.3 1 .2.3",
    );
}

/// What a use path says: its package and its name, or its name alone.
fn path(rt: &impl Abort, alloc: Global, text: &str) -> String {
    match parse_use_path(alloc, text).expect(rt, "a path") {
        ParsedUsePath::Name(name) => format!(in alloc; "{name}").expect(rt, "memory"),
        ParsedUsePath::Package(home, name) => {
            format!(in alloc; "{home} {name}").expect(rt, "memory")
        }
    }
}

#[test]
fn use_paths_are_read(rt: HostRuntime) {
    let alloc = rt.alloc();
    assert_text(&rt, path(&rt, alloc, "a:b/c@1.0.0"), "a:b@1.0.0 c");
    assert_text(&rt, path(&rt, alloc, "c"), "c");
    assert!(rt; parse_use_path(alloc, "a:b").is_err());
    assert!(rt; is_kebab_name("a-b") && !is_kebab_name("a--b"));
}

/// Where a second file begins and the two end, where a span of the second is, how a text is told there, and the files; how
/// many are left where none is to be, and where a next one would begin then.
fn sources(rt: &impl Abort, alloc: Global) -> String {
    let mut map = file(rt, alloc);
    let start = map.append(alloc, file(rt, alloc)).expect(rt, "positions");
    let end = map.end();
    let span = Span::new(13, 18).moved(start).expect(rt, "a span");
    let place = map.render_location(alloc, span).expect(rt, "memory");
    let told = map.highlight_span(alloc, span, "bad").expect(rt, "memory");
    let told = told.expect(rt, "a line");
    let mut out = format!(in alloc; "{start} {end} {place} {told}").expect(rt, "memory");
    for name in map.source_names() {
        write!(out, " {name}").expect(rt, "memory");
    }
    for (path, contents) in map.files() {
        write!(out, "\n{path}: {contents}").expect(rt, "memory");
    }
    map.truncate(0, 7);
    let (count, end) = (map.len(), map.end());
    write!(out, " {count} {end}").expect(rt, "memory");
    out
}

#[test]
fn spans_are_found_in_their_files(rt: HostRuntime) {
    assert_text(
        &rt,
        sources(&rt, rt.alloc()),
        "25 50 m.wit:2:1 bad\n\
        \x20    --> m.wit:2:1\n\
        \x20     |\n\
        \x20   2 | world w {}\n\
        \x20     | ^---- m.wit m.wit\n\
        m.wit: package a:b;\n\
        world w {}\n\
        \n\
        m.wit: package a:b;\n\
        world w {}\n\
        \x200 7",
    );
    assert!(rt; !Span::unknown().is_known() && Span::new(0, 0).is_known());
    assert!(rt; Span::new(0, 1).moved(u32::MAX).is_none());
}

/// A text, a list, a table and names, each given back as the type of the language that it was made from.
fn given_back(rt: &impl Abort, alloc: Global) -> String {
    let text = Text::from_string(text(rt, alloc, "t").into_string());
    let mut items = list(rt, alloc, [1, 2]);
    assert!(rt; items.len() == 2);
    let former = items.replace(1, 3);
    let items = Items::from_vec(items.into_vec());
    let mut table: Table<InterfaceId, usize> = Table::new(alloc);
    table
        .push(InterfaceId::from_index(4), 5)
        .expect(rt, "memory");
    let map = table.into_map().expect(rt, "memory");
    let table: Table<InterfaceId, usize> = Table::from_map(map).expect(rt, "memory");
    let mut names: Names<usize> = Names::new(alloc);
    let name = String::from_str(alloc, "n").expect(rt, "memory");
    names.push(name, 6).expect(rt, "memory");
    let map = names.into_map().expect(rt, "memory");
    let names = Names::from_map(map).expect(rt, "memory");
    let mut out = format!(in alloc; "{text} {former}").expect(rt, "memory");
    for item in items.iter() {
        write!(out, " {item}").expect(rt, "memory");
    }
    for (key, value) in table.iter() {
        write!(out, " {} {value}", key.index()).expect(rt, "memory");
    }
    for (name, value) in names.iter() {
        write!(out, " {name} {value}").expect(rt, "memory");
    }
    out
}

/// The name of a package, and the first entries of a table and of names, which have given back what they don't need.
fn first_entries(rt: &impl Abort, alloc: Global) -> String {
    let name = package(rt, alloc, SCRIPT).into_name();
    let mut out = format!(in alloc; "{name}").expect(rt, "memory");
    let mut table: Table<InterfaceId, usize> = Table::new(alloc);
    table
        .push(InterfaceId::from_index(4), 5)
        .expect(rt, "memory");
    table.shrink();
    assert!(rt; table.len() == 1);
    let (key, value) = table.entry_at(0);
    write!(out, " {} {value}", key.index()).expect(rt, "memory");
    let (key, value) = table.get_index(0).expect(rt, "an entry");
    let is_last = table.get_index(1).is_none();
    write!(out, " {} {value} {is_last}", key.index()).expect(rt, "memory");
    let mut names: Names<usize> = Names::new(alloc);
    let name = String::from_str(alloc, "n").expect(rt, "memory");
    names.push(name, 6).expect(rt, "memory");
    names.shrink();
    assert!(rt; names.len() == 1);
    let (name, value) = names.entry_at(0);
    write!(out, " {name} {value}").expect(rt, "memory");
    out
}

#[test]
fn data_are_given_back(rt: HostRuntime) {
    assert_text(&rt, given_back(&rt, rt.alloc()), "t 2 1 3 4 5 n 6");
    assert_text(
        &rt,
        first_entries(&rt, rt.alloc()),
        "foo:bar 4 5 4 5 true n 6",
    );
}

/// The first and the last of a list of three, of its entries in a table and among names, and the one by an index.
fn ends(rt: &impl Abort, alloc: Global) -> String {
    let items = list(rt, alloc, [3, 1, 2]);
    assert!(rt; items.len() == 3);
    let mut table: Table<InterfaceId, usize> = Table::new(alloc);
    let mut names: Names<usize> = Names::new(alloc);
    for (index, name) in [(0, "a"), (1, "b"), (2, "c")] {
        let key = InterfaceId::from_index(index + 4);
        if !table.contains_key(&key) {
            table.push(key, index).expect(rt, "memory");
        }
        if !names.contains_key(name) {
            let name = String::from_str(alloc, name).expect(rt, "memory");
            names.push(name, index).expect(rt, "memory");
        }
    }
    let middle = items[1];
    let mut out = format!(in alloc; "{middle}").expect(rt, "memory");
    for item in [items.first(), items.last()] {
        write!(out, " {}", item.expect(rt, "an item")).expect(rt, "memory");
    }
    for pair in [table.first(), table.last()] {
        let (key, value) = pair.expect(rt, "a pair");
        write!(out, " {} {value}", key.index()).expect(rt, "memory");
    }
    for pair in [names.first(), names.get_index(1), names.last()] {
        let (name, value) = pair.expect(rt, "a pair");
        write!(out, " {name} {value}").expect(rt, "memory");
    }
    out
}

/// Whether nothing has no first and no last.
fn nothing_has_ends(alloc: Global) -> bool {
    let items: Items<usize> = Items::new(alloc);
    let table: Table<InterfaceId, usize> = Table::new(alloc);
    let names: Names<usize> = Names::new(alloc);
    let is_first = items.first().is_none() && table.first().is_none() && names.first().is_none();
    is_first && items.last().is_none() && table.last().is_none() && names.last().is_none()
}

#[test]
fn ends_are_found(rt: HostRuntime) {
    assert_text(&rt, ends(&rt, rt.alloc()), "1 3 2 4 0 6 2 a 0 b 1 c 2");
    assert!(rt; nothing_has_ends(rt.alloc()));
}

/// A table with so many pairs, the first of them under 1, the next under 2, and so on.
fn numbered(rt: &impl Abort, alloc: Global, count: usize) -> Table<InterfaceId, usize> {
    let mut table = Table::new(alloc);
    for index in 0..count {
        let key = InterfaceId::from_index(index + 1);
        if !table.contains_key(&key) {
            table.push(key, index).expect(rt, "memory");
        }
    }
    table
}

/// Whether each look-up tells of each pair what was put there, and misses a key that isn't there.
fn is_found(table: &Table<InterfaceId, usize>) -> bool {
    for index in 0..table.len() {
        let (key, value) = table.entry_at(index);
        let there = table.get(key) == Some(value) && table.get_index_of(key) == Some(index);
        if !there || *value != index {
            return false;
        }
    }
    let other = InterfaceId::from_index(0);
    table.get(&other).is_none() && table.get_index_of(&other).is_none()
}

/// How many pairs a table has, and whether they are found; none where they aren't.
fn found(table: &Table<InterfaceId, usize>) -> usize {
    if is_found(table) { table.len() } else { 0 }
}

/// The same of a table of so many pairs, of its copy, of the table of its `IndexMap`, of the table with room for as many
/// more, and of its first 15 pairs.
fn found_in_each(rt: &impl Abort, alloc: Global, count: usize) -> [usize; 5] {
    let table = numbered(rt, alloc, count);
    let copy = table.try_clone().expect(rt, "memory");
    let map = copy.into_map().expect(rt, "memory");
    let mapped = Table::from_map(map).expect(rt, "memory");
    let mut roomy = table.try_clone().expect(rt, "memory");
    roomy.reserve(count).expect(rt, "memory");
    let mut first = table.try_clone().expect(rt, "memory");
    first.truncate(15);
    let copy = table.try_clone().expect(rt, "memory");
    [
        found(&table),
        found(&copy),
        found(&mapped),
        found(&roomy),
        found(&first),
    ]
}

#[test]
fn tables_of_few_and_of_many_pairs_answer_alike(rt: HostRuntime) {
    for count in [16, 17, 40] {
        assert!(rt; found_in_each(&rt, rt.alloc(), count) == [count, count, count, count, 15]);
    }
}

/// How many names there are, of which each is `n` so many times, where each is found under itself and no other is.
fn found_names(rt: &impl Abort, alloc: Global, count: usize) -> usize {
    let mut names: Names<usize> = Names::new(alloc);
    let mut name = String::new(alloc);
    for index in 0..count {
        name.push('n').expect(rt, "memory");
        let key = name.clone().expect(rt, "memory");
        if !names.contains_key(key.as_str()) {
            names.push(key, index).expect(rt, "memory");
        }
    }
    let names = names.try_clone().expect(rt, "memory");
    for index in 0..names.len() {
        let (name, value) = names.entry_at(index);
        let there = names.get(name) == Some(value) && names.get_index_of(name) == Some(index);
        if !there || *value != index {
            return 0;
        }
    }
    if names.get("").is_none() && !names.contains_key("m") {
        names.len()
    } else {
        0
    }
}

#[test]
fn few_and_many_names_answer_alike(rt: HostRuntime) {
    for count in [16, 17, 40] {
        assert!(rt; found_names(&rt, rt.alloc(), count) == count);
    }
}
