//! The choice of a world by a `Resolve` where there is not one main package, or an empty text. The choice among the
//! worlds of one main package is in the cases of `test_cases`.
use crate::calls::fixtures::resolve_of;
use crate::fixtures::assert_text;
use std::alloc::Global;
use std::process::Abort;
use wit_data::PackageId;

/// The id of the world that is chosen among these main packages, or what is said where none is.
fn selected(
    rt: &impl Abort,
    alloc: Global,
    script: &str,
    mains: &[usize],
    text: Option<&str>,
) -> String {
    let resolve = resolve_of(rt, alloc, script);
    let mut main_packages = Vec::new(alloc);
    for place in mains {
        main_packages
            .push(PackageId::from_index(*place))
            .expect(rt, "memory");
    }
    match resolve.select_world(alloc, &main_packages, text) {
        Ok(id) => {
            let place = id.index();
            format!(in alloc; "{place}")
        }
        Err(refusal) => format!(in alloc; "{refusal}"),
    }
    .expect(rt, "memory")
}

/// A package with a world, and one without.
const ONE_EMPTY: &str = "package t:s\n\
    world foo\n\
    push\n\
    package t:e\n\
    push\n";

/// Two versions of a package.
const TWO_VERSIONS: &str = "package e:v@1.0.0\n\
    world foo\n\
    push\n\
    package e:v@2.0.0\n\
    world foo\n\
    push\n";

/// Two packages, each with a world of its own name.
const TWO_PACKAGES: &str = "package e:o\n\
    world foo\n\
    push\n\
    package e:f\n\
    world bar\n\
    push\n";

const OF_ONE_EMPTY: &str =
    "There are multiple main packages; a world must be explicitly chosen:\n  t:s/foo";

const OF_TWO_VERSIONS: &str =
    "There are multiple main packages; a world must be explicitly chosen:\n  e:v/foo@1.0.0\n  e:v/foo@2.0.0";

const OF_TWO_PACKAGES: &str =
    "There are multiple main packages; a world must be explicitly chosen:\n  e:o/foo\n  e:f/bar";

/// A script, its main packages and a text; the id of a world, or what is said.
type Choice = (
    &'static str,
    &'static [usize],
    Option<&'static str>,
    &'static str,
);

const CHOICES: [Choice; 14] = [
    (
        ONE_EMPTY,
        &[0],
        Some(""),
        "failed to parse world specifier ``: invalid use path",
    ),
    (ONE_EMPTY, &[], Some("t:s/foo"), "No main packages defined"),
    (ONE_EMPTY, &[0, 1], None, OF_ONE_EMPTY),
    (ONE_EMPTY, &[0, 1], Some("foo"), OF_ONE_EMPTY),
    (TWO_VERSIONS, &[0, 1], Some("foo"), OF_TWO_VERSIONS),
    (
        TWO_VERSIONS,
        &[0, 1],
        Some("e:v/foo"),
        "package name `e:v` is available at both versions 1.0.0 and 2.0.0 but which is not specified",
    ),
    (TWO_VERSIONS, &[0, 1], Some("e:v/foo@1.0.0"), "0"),
    (TWO_VERSIONS, &[0, 1], Some("e:v/foo@2.0.0"), "1"),
    (TWO_PACKAGES, &[0, 1], Some("foo"), OF_TWO_PACKAGES),
    (TWO_PACKAGES, &[0, 1], Some("bar"), OF_TWO_PACKAGES),
    (
        TWO_PACKAGES,
        &[0, 1],
        Some("e:o/bar"),
        "World `bar` not found in package `e:o`",
    ),
    (
        TWO_PACKAGES,
        &[0, 1],
        Some("e:f/foo"),
        "World `foo` not found in package `e:f`",
    ),
    (TWO_PACKAGES, &[0, 1], Some("e:o/foo"), "0"),
    (TWO_PACKAGES, &[0, 1], Some("e:f/bar"), "1"),
];

#[test]
fn worlds_are_chosen_among_several_packages(rt: HostRuntime) {
    for &(script, mains, text, wanted) in &CHOICES {
        assert_text(&rt, selected(&rt, rt.alloc(), script, mains, text), wanted);
    }
}
