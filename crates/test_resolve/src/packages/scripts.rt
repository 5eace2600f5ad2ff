//! Graphs of packages that are written as the lines of a script, where these say all that a test needs.
use std::alloc::Global;
use std::process::Abort;
use wit_data::{Items, PackageId, UnresolvedPackageGroup};
use wit_graph_data::ResolveResult;
use wit_resolve_graph::{Resolve, Shape};
use wit_script_lines::{Statement, read_line};
use wit_script_package::{Draft, Mention, mention_of, span_of};

/// What lines mention of other packages, where so many bytes stand before them.
fn mentions(rt: &impl Abort, alloc: Global, before: usize, lines: &[&str]) -> Items<Mention> {
    let mut mentions = Items::new(alloc);
    let mut at = before;
    for line in lines {
        let span = span_of(at, line).expect(rt, "a span");
        if let Some(Statement::Line { said, gate }) = read_line(alloc, line).expect(rt, "a line") {
            if let Some(mention) = mention_of(said, gate, span) {
                mentions.push(mention).expect(rt, "memory");
            }
        }
        at = at.wrapping_add(line.len()).wrapping_add(1);
    }
    mentions
}

/// A package of its first line, which knows what the others mention.
fn begun(rt: &impl Abort, alloc: Global, first: &str, lines: &[&str]) -> Draft {
    let Some(Statement::Package(name)) = read_line(alloc, first).expect(rt, "a line") else {
        panic!(rt; "no package");
    };
    let mentions = mentions(rt, alloc, first.len().wrapping_add(1), lines);
    Draft::begin(alloc, name, first, mentions).expect(rt, "a package")
}

/// Adds one more line of a package.
fn add_line(rt: &impl Abort, alloc: Global, draft: &mut Draft, line: &str) {
    let Some(Statement::Line { said, gate }) = read_line(alloc, line).expect(rt, "a line") else {
        panic!(rt; "no line of a package");
    };
    draft.add_line(alloc, said, gate, line).expect(rt, "a line");
}

/// The group of a package that these lines write.
pub fn group(rt: &impl Abort, alloc: Global, text: &str) -> UnresolvedPackageGroup {
    let lines: Vec<&str> = text.lines().collect(alloc).expect(rt, "memory");
    let (first, others) = lines.split_first().expect(rt, "a line");
    let mut draft = begun(rt, alloc, first, others);
    for line in others {
        add_line(rt, alloc, &mut draft, line);
    }
    draft.into_group(alloc).expect(rt, "a group")
}

/// What the push of the package that these lines write answers.
pub fn push_script(
    rt: &impl Abort,
    alloc: Global,
    resolve: &mut Resolve,
    text: &str,
) -> ResolveResult<PackageId> {
    let group = group(rt, alloc, text);
    assert!(rt; group.is_shaped(alloc).expect(rt, "memory"));
    resolve.push_group(alloc, group)
}

/// A `Resolve` with the packages that are written so, each pushed by itself where a line `push` stands behind it.
pub fn pushed(rt: &impl Abort, alloc: Global, script: &str) -> Resolve {
    let mut resolve = Resolve::new(alloc);
    for text in script.split("push\n") {
        if !text.is_empty() {
            push_script(rt, alloc, &mut resolve, text).expect(rt, "a package");
        }
    }
    assert!(rt; resolve.assert_valid(alloc).expect(rt, "memory"));
    resolve
}
