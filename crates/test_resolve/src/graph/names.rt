//! Names and use paths as WIT writes them.
use crate::fixtures::{assert_text, package_name, text};
use std::alloc::Global;
use std::cmp::Ordering;
use std::process::Abort;
use wit_data::{PackageName, ParsedUsePath, TryClone, Version, is_kebab_name, parse_use_path};

#[test]
fn kebab_names_are_told(rt: HostRuntime) {
    for &name in &["a", "foo-bar", "a1-B2", "FOO-bar", "a-1", "Z"] {
        assert!(rt; is_kebab_name(name), "{name}");
    }
    for &name in &[
        "", "-", "-a", "a-", "a--b", "1a", "aB", "a-bC", "a_b", "a b", "é", "a:b", "a/b", "a@b",
    ] {
        assert!(rt; !is_kebab_name(name), "{name}");
    }
}

/// The parts of the copy of a use path, or why there are none.
fn told(rt: &impl Abort, alloc: Global, path: &str) -> String {
    match parse_use_path(alloc, path) {
        Ok(path) => parts(rt, alloc, &path),
        Err(fault) => format!(in alloc; "{fault}").expect(rt, "memory"),
    }
}

fn parts(rt: &impl Abort, alloc: Global, path: &ParsedUsePath) -> String {
    match path.try_clone().expect(rt, "memory") {
        ParsedUsePath::Name(name) => format!(in alloc; "{name}"),
        ParsedUsePath::Package(package, name) => format!(in alloc; "{name} of {package}"),
    }
    .expect(rt, "memory")
}

const PATHS: [(&str, &str); 5] = [
    ("w", "w"),
    ("foo:bar/w", "w of foo:bar"),
    ("foo:bar/w@1.0.0", "w of foo:bar@1.0.0"),
    ("a:b/c@1.0.0-rc.1+b-2", "c of a:b@1.0.0-rc.1+b-2"),
    ("FOO:b1/c-D@0.0.0", "c-D of FOO:b1@0.0.0"),
];

const NO_PATHS: [&str; 20] = [
    "",
    "W-",
    "foo@1.0.0",
    "foo:bar",
    "foo:bar@1.0.0",
    "foo:bar/",
    "foo:bar/@1.0.0",
    "foo:bar/w/x",
    "foo:bar/w/x@1.0.0",
    "foo/w",
    ":bar/w",
    "foo:/w",
    "foo:bar/w@1",
    "foo:bar/w@",
    "foo:bar/w@1.0.0@2.0.0",
    "foo:bar/w@01.0.0",
    "foo:bar/w@18446744073709551616.0.0",
    "foo:bar/w@1.0.0 ",
    "a:b:c/d",
    "a/b:c",
];

#[test]
fn use_paths_are_read(rt: HostRuntime) {
    for &(path, parts) in &PATHS {
        assert_text(&rt, told(&rt, rt.alloc(), path), parts);
    }
    for &path in &NO_PATHS {
        assert_text(&rt, told(&rt, rt.alloc(), path), "invalid use path");
    }
}

fn versioned(rt: &impl Abort, alloc: Global, version: &str) -> PackageName {
    let version = Version::parse(alloc, version).expect(rt, "a version");
    let (namespace, name) = (text(rt, alloc, "foo"), text(rt, alloc, "bar"));
    PackageName::new(namespace, name, Some(version))
}

/// A name without and a copy of one with a version.
fn shown_names(rt: &impl Abort, alloc: Global) -> String {
    let plain = package_name(rt, alloc, "foo", "bar");
    let versioned = versioned(rt, alloc, "1.0.0-rc.1+b");
    let copy = versioned.try_clone().expect(rt, "memory");
    format!(in alloc; "{plain} {copy}").expect(rt, "memory")
}

fn order_of_versions(rt: &impl Abort, alloc: Global) -> Ordering {
    let plain = package_name(rt, alloc, "foo", "bar");
    plain.cmp(&versioned(rt, alloc, "1.0.0"))
}

#[test]
fn package_names_are_shown_and_ordered(rt: HostRuntime) {
    assert_text(
        &rt,
        shown_names(&rt, rt.alloc()),
        "foo:bar foo:bar@1.0.0-rc.1+b",
    );
    assert_eq!(rt; order_of_versions(&rt, rt.alloc()), Ordering::Less);
}
