//! The calls on texts, lists, tables and versions that take memory, each once, and versions as SemVer has them.
use crate::fixtures::{assert_text, string, text};
use std::alloc::Global;
use std::cmp::Ordering;
use std::process::Abort;
use wit_values::{
    Items, NameSet, Names, Table, Text, TryClone, Version, try_clone_four, try_clone_six,
    try_clone_three, try_clone_two,
};

/// A text and how its copy is shown.
fn snippet_text(rt: &impl Abort, alloc: Global, kept: &str) -> String {
    let kept = text(rt, alloc, kept);
    let copy = kept.try_clone().expect(rt, "memory");
    format!(in alloc; "{kept} {copy:?}").expect(rt, "memory")
}

#[test]
fn texts_are_copied_and_shown(rt: HostRuntime) {
    assert_text(
        &rt,
        snippet_text(&rt, rt.alloc(), "a\"\u{e9}"),
        "a\"\u{e9} \"a\\\"\u{e9}\"",
    );
}

/// A list that has grown by each call that makes a list longer, copied.
fn shown_list(rt: &impl Abort, alloc: Global) -> String {
    let mut items = Items::new(alloc);
    items.reserve(2).expect(rt, "memory");
    items.push(10).expect(rt, "memory");
    let more = Items::from_vec(Vec::from_slice(alloc, &[30, 40]).expect(rt, "memory"));
    items.append(more).expect(rt, "memory");
    let copy = items.try_clone().expect(rt, "memory");
    format!(in alloc; "{copy:?}").expect(rt, "memory")
}

#[test]
fn lists_grow_and_are_copied(rt: HostRuntime) {
    assert_text(&rt, shown_list(&rt, rt.alloc()), "[10, 30, 40]");
}

/// A table of one text, copied.
fn shown_table(rt: &impl Abort, alloc: Global) -> String {
    let mut table: Table<Text, usize> = Table::new(alloc);
    table.push(text(rt, alloc, "b"), 1).expect(rt, "memory");
    let copy = table.try_clone().expect(rt, "memory");
    format!(in alloc; "{copy:?}").expect(rt, "memory")
}

/// A table of one name, copied.
fn shown_names(rt: &impl Abort, alloc: Global) -> String {
    let mut names = Names::new(alloc);
    names.push(string(rt, alloc, "b"), 1).expect(rt, "memory");
    let copy = names.try_clone().expect(rt, "memory");
    format!(in alloc; "{copy:?}").expect(rt, "memory")
}

/// A set of two texts, one of them inserted twice.
fn shown_set(rt: &impl Abort, alloc: Global) -> String {
    let mut set = NameSet::new(alloc);
    for text in ["b", "a", "b"] {
        set.insert(alloc, text).expect(rt, "memory");
    }
    let copy = set.try_clone().expect(rt, "memory");
    format!(in alloc; "{copy:?}").expect(rt, "memory")
}

#[test]
fn tables_grow_and_are_copied(rt: HostRuntime) {
    assert_text(&rt, shown_table(&rt, rt.alloc()), "{\"b\": 1}");
    assert_text(&rt, shown_names(&rt, rt.alloc()), "{\"b\": 1}");
    assert_text(&rt, shown_set(&rt, rt.alloc()), "{\"b\", \"a\"}");
}

/// What a version that is read and copied is shown as, or nothing where the text is no version.
fn shown_version(rt: &impl Abort, alloc: Global, text: &str) -> String {
    match Version::parse(alloc, text) {
        Ok(version) => {
            let copy = version.try_clone().expect(rt, "memory");
            format!(in alloc; "{copy}").expect(rt, "memory")
        }
        Err(_) => String::new(alloc),
    }
}

/// Examples of sections 2, 9 and 10 of SemVer 2.0.0.
const VERSIONS: [&str; 9] = [
    "1.9.0",
    "1.0.0-alpha.1",
    "1.0.0-0.3.7",
    "1.0.0-x-y-z.--",
    "1.0.0-alpha+001",
    "1.0.0+20130313144700",
    "1.0.0-beta+exp.sha.5114f85",
    "1.0.0+21AF26D3----117B344092BD",
    "18446744073709551615.0.0",
];

const NO_VERSIONS: [&str; 9] = [
    "",
    "1.0",
    "v1.0.0",
    "01.0.0",
    "1.0.0-01",
    "1.0.0-",
    "1.0.0+",
    " 1.0.0",
    "18446744073709551616.0.0",
];

#[test]
fn versions_are_shown_as_they_were_read(rt: HostRuntime) {
    for &text in &VERSIONS {
        assert_text(&rt, shown_version(&rt, rt.alloc(), text), text);
    }
    for &text in &NO_VERSIONS {
        assert_text(&rt, shown_version(&rt, rt.alloc(), text), "");
    }
}

fn order(rt: &impl Abort, alloc: Global, low: &str, high: &str) -> Ordering {
    let low = Version::parse(alloc, low).expect(rt, "a version");
    let high = Version::parse(alloc, high).expect(rt, "a version");
    low.cmp(&high)
}

/// What follows `1.0.0-alpha` in the example of section 11 of SemVer 2.0.0, with versions that differ in their build metadata.
const IN_ORDER: [&str; 12] = [
    "1.0.0-alpha.1",
    "1.0.0-alpha.beta",
    "1.0.0-beta",
    "1.0.0-beta.2",
    "1.0.0-beta.11",
    "1.0.0-rc.1",
    "1.0.0",
    "1.0.0+b",
    "1.0.0+c",
    "1.0.1",
    "1.9.0",
    "1.10.0",
];

#[test]
fn versions_are_ordered(rt: HostRuntime) {
    let mut low = "1.0.0-alpha";
    for &high in &IN_ORDER {
        let order = order(&rt, rt.alloc(), low, high);
        assert_eq!(rt; order, Ordering::Less, "{low} {high}");
        low = high;
    }
}

/// The numbers that copies of several numbers have.
fn copied_numbers(rt: &impl Abort) -> [usize; 5] {
    let one = Some(1).try_clone().expect(rt, "memory");
    let (_, two) = try_clone_two(&0, &2).expect(rt, "memory");
    let (_, _, three) = try_clone_three(&0, &0, &3).expect(rt, "memory");
    let (_, _, _, four) = try_clone_four(&0, &0, &0, &4).expect(rt, "memory");
    let (_, _, _, _, _, six) = try_clone_six(&0, &0, &0, &0, &0, &6).expect(rt, "memory");
    [one.unwrap_or(0), two, three, four, six]
}

#[test]
fn several_values_are_copied_by_one_call(rt: HostRuntime) {
    assert_eq!(rt; copied_numbers(&rt), [1, 2, 3, 4, 6]);
}
