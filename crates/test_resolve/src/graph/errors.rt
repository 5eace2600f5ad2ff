//! Errors that no push tells, with their texts as wit-parser 0.263.0 has them. The texts of the others are in
//! `packages` and in the cases of `test_cases`.
use crate::fixtures::{assert_text, package_name, string, text, version};
use std::alloc::Global;
use std::process::Abort;
use wit_data::{Items, Span, Stability, TryClone};
use wit_graph_data::{Cause, ResolveError, ResolveErrorKind};

/// Which error, and what of its text is left out.
#[derive(Clone, Copy)]
enum Told {
    NoPackageKnown,
    StableToUnknown,
    UnknownToUnstable,
    Semantic,
    OutOfMemory,
}

const TEXTS: [(Told, &str); 5] = [
    (
        Told::NoPackageKnown,
        "1 package 'some:dependency' not found",
    ),
    (
        Told::StableToUnknown,
        "8 mismatch in stability from 'stable 1.0.0' to 'unknown'",
    ),
    (
        Told::UnknownToUnstable,
        "8 mismatch in stability from 'unknown' to 'unstable f deprecated 2.0.0-rc.1'",
    ),
    (Told::Semantic, "0 bad"),
    (Told::OutOfMemory, "28 out of memory"),
];

fn kind(rt: &impl Abort, alloc: Global, told: Told) -> ResolveErrorKind {
    let span = Span::new(13, 18);
    match told {
        Told::NoPackageKnown => ResolveErrorKind::PackageNotFound {
            span,
            requested: package_name(rt, alloc, "some", "dependency"),
            known: Items::new(alloc),
        },
        Told::StableToUnknown => ResolveErrorKind::StabilityMismatch {
            span,
            from: stable(rt, alloc),
            into: Stability::Unknown,
        },
        Told::UnknownToUnstable => ResolveErrorKind::StabilityMismatch {
            span,
            from: Stability::Unknown,
            into: unstable(rt, alloc),
        },
        Told::Semantic => ResolveErrorKind::Semantic {
            span,
            message: text(rt, alloc, "bad"),
            cause: Cause::Other,
        },
        Told::OutOfMemory => ResolveErrorKind::OutOfMemory,
    }
}

fn stable(rt: &impl Abort, alloc: Global) -> Stability {
    Stability::Stable {
        since: version(rt, alloc, "1.0.0"),
        deprecated: None,
    }
}

fn unstable(rt: &impl Abort, alloc: Global) -> Stability {
    Stability::Unstable {
        feature: text(rt, alloc, "f"),
        deprecated: Some(version(rt, alloc, "2.0.0-rc.1")),
    }
}

/// The number of an error, and the text of its copy.
fn number_and_text(rt: &impl Abort, alloc: Global, told: Told) -> String {
    let error = ResolveError::from(kind(rt, alloc, told));
    let copy = error.try_clone().expect(rt, "memory");
    let number = error.number();
    format!(in alloc; "{number} {copy}").expect(rt, "memory")
}

#[test]
fn errors_have_their_texts(rt: HostRuntime) {
    for &(told, text) in &TEXTS {
        assert_text(&rt, number_and_text(&rt, rt.alloc(), told), text);
    }
}

/// An error of a message, as a program shows it to its programmer.
fn shown_message(rt: &impl Abort, alloc: Global) -> String {
    let error = ResolveError::new_semantic(Span::new(13, 18), string(rt, alloc, "bad"));
    format!(in alloc; "{error:?}").expect(rt, "memory")
}

#[test]
fn errors_of_a_message_are_shown(rt: HostRuntime) {
    let shown = shown_message(&rt, rt.alloc());
    assert!(rt; shown.as_str().contains("bad"));
}
