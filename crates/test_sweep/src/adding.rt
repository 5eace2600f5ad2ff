//! Calls that add packages, each on a copy of a `Resolve`.
ghost use Rattle.std.specs.Prelude.{◌∷◌, IfOk, IsErr};
ghost use Rattle.std.specs.List.{AllByRecursion};
ghost use Rattle.wit_data.specs.Shape.{IsGroupShaped, IsShaped};

use crate::marks::{call, copy_of, tell_made, tell_refusal};
use crate::states::{incoming, state, tell_state};
use std::alloc::Global;
use wit_resolve_graph::{
    Items, PackageId, ParseFault, Resolve, Shape, SourceFault, SourceMap, Span, Text, TryClone,
    UnresolvedPackage, UnresolvedPackageGroup, find_shape_fault,
};

/// Each way to add a package that is alone.
pub fn add_package(
    rt: &impl Print,
    alloc: Global,
    resolve: &Resolve,
    package: &UnresolvedPackage,
) -> Option<()>
    requires { IsShaped «package».now }
{
    call(rt, "is_shaped of a package");
    tell_made(rt, package.is_shaped(alloc))?;
    call(rt, "find_shape_fault");
    tell_made(rt, find_shape_fault(alloc, package))?;
    push(rt, alloc, resolve, package)?;
    push_source(rt, alloc, resolve, package)?;
    push_source_unread(rt, alloc, resolve, true)?;
    push_source_unread(rt, alloc, resolve, false)
}

/// Each way to add a group that is alone.
pub fn add_group(
    rt: &impl Print,
    alloc: Global,
    resolve: &Resolve,
    group: &UnresolvedPackageGroup,
) -> Option<()>
    requires { IsGroupShaped group.now }
{
    call(rt, "is_shaped of a group");
    tell_made(rt, group.is_shaped(alloc))?;
    push_group(rt, alloc, resolve, group)?;
    add_package(rt, alloc, resolve, &group.main)
}

/// Groups together, the first being the main one.
pub fn push_groups(
    rt: &impl Print,
    alloc: Global,
    resolve: &Resolve,
    main: &UnresolvedPackageGroup,
    deps: &Items<UnresolvedPackageGroup>,
) -> Option<()>
    requires { AllByRecursion IsGroupShaped (main.now ∷ deps.now) }
{
    let mut copy = copy_of(resolve)?;
    let (main, deps) = (copy_of(main)?, copy_of(deps)?);
    call(rt, "push_groups");
    let answer = copy.push_groups(alloc, main, deps);
    tell_state(rt, answer, &copy)
}

fn push(
    rt: &impl Print,
    alloc: Global,
    resolve: &Resolve,
    package: &UnresolvedPackage,
) -> Option<()>
    requires { IsShaped «package».now }
{
    let mut copy = copy_of(resolve)?;
    let package = copy_of(package)?;
    call(rt, "push");
    let answer = copy.push(alloc, package, 0);
    tell_state(rt, answer, &copy)
}

fn push_group(
    rt: &impl Print,
    alloc: Global,
    resolve: &Resolve,
    group: &UnresolvedPackageGroup,
) -> Option<()>
    requires { IsGroupShaped group.now }
{
    let mut copy = copy_of(resolve)?;
    let group = copy_of(group)?;
    incoming(rt, &group.source_map)?;
    call(rt, "push_group");
    let answer = copy.push_group(alloc, group);
    tell_state(rt, answer, &copy)
}

// ---- sources

const CONTENTS: &str = "package a:b;\nworld w {}\n";

/// The package as what a parse makes of the file.
fn parsed(
    alloc: Global,
    source_map: SourceMap,
    package: &UnresolvedPackage,
) -> Result<UnresolvedPackageGroup, ParseFault>
    ensures { IfOk result (λ group. IsGroupShaped group) }
{
    let Ok(main) = package.try_clone() else {
        return Err(ParseFault::OutOfMemory);
    };
    let group = UnresolvedPackageGroup {
        main,
        nested: Items::new(alloc),
        source_map,
    };
    match group.is_shaped(alloc) {
        Ok(true) => Ok(group),
        _ => Err(ParseFault::OutOfMemory),
    }
}

fn push_source(
    rt: &impl Print,
    alloc: Global,
    resolve: &Resolve,
    package: &UnresolvedPackage,
) -> Option<()> {
    let mut copy = copy_of(resolve)?;
    let parse = |source_map: SourceMap| parsed(alloc, source_map, package);
    incoming_source(rt)?;
    call(rt, "push_source");
    let answer = copy.push_source(alloc, "m.wit", CONTENTS, parse);
    tell_source(rt, answer)?;
    state(rt, &copy)
}

/// The file of a source, as it is told before the call.
fn incoming_source(rt: &impl Print) -> Option<()> {
    println!(rt; "incoming 1 end 25").ok()
}

/// What a parse answers that can't read its text, or that says that it has no memory.
fn unread(
    alloc: Global,
    source_map: SourceMap,
    has_memory: bool,
) -> Result<UnresolvedPackageGroup, ParseFault>
    ensures { IsErr result }
{
    if !has_memory {
        return Err(ParseFault::OutOfMemory);
    }
    match Text::try_from_str(alloc, "bad") {
        Ok(message) => Err(ParseFault::Text {
            source_map,
            span: Span::new(13, 18),
            message,
        }),
        Err(_) => Err(ParseFault::OutOfMemory),
    }
}

fn push_source_unread(
    rt: &impl Print,
    alloc: Global,
    resolve: &Resolve,
    has_memory: bool,
) -> Option<()> {
    let mut copy = copy_of(resolve)?;
    let parse = |source_map: SourceMap| unread(alloc, source_map, has_memory);
    incoming_source(rt)?;
    call(
        rt,
        if has_memory {
            "push_source that isn't read"
        } else {
            "push_source whose parse has no memory"
        },
    );
    let answer = copy.push_source(alloc, "m.wit", CONTENTS, parse);
    tell_source(rt, answer)?;
    state(rt, &copy)
}

/// What a pushed source answers: a text that can't be read is told with its span.
fn tell_source(rt: &impl Print, answer: Result<PackageId, SourceFault>) -> Option<()> {
    match &answer {
        Ok(id) => println!(rt; "answer {id:?}").ok(),
        Err(SourceFault::Resolve(refusal)) => tell_refusal(rt, refusal),
        Err(SourceFault::Parse { span, message }) => println!(rt; "answer {span:?} {message}").ok(),
    }
}
