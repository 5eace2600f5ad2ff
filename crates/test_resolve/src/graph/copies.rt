//! What calls on data answer, each once with ample memory.
use crate::fixtures::{assert_text, text};
use crate::graph::shape::{Change, group, package};
use std::alloc::Global;
use std::process::Abort;
use wit_data::{
    AccessorKind, FunctionKind, MapFault, SourceMap, Stability, TryClone, TypeId, Version, uses_of,
};

/// A gate's copy as it is shown to a programmer.
fn shown_gate(rt: &impl Abort, alloc: Global) -> String {
    let feature = text(rt, alloc, "fancy");
    let deprecated = Version::parse(alloc, "0.3.1").expect(rt, "a version");
    let gate = Stability::Unstable {
        feature,
        deprecated: Some(deprecated),
    };
    let copy = gate.try_clone().expect(rt, "memory");
    format!(in alloc; "{copy:?}").expect(rt, "memory")
}

#[test]
fn gates_are_copied_and_shown(rt: HostRuntime) {
    assert_text(
        &rt,
        shown_gate(&rt, rt.alloc()),
        "Unstable { feature: \"fancy\", deprecated: Some(Version { major: 0, minor: 3, patch: 1 }) }",
    );
}

/// Whether gates are unknown, and whether they are stable: none, `@since`, and `@unstable`.
fn gates_asked(rt: &impl Abort, alloc: Global) -> [(bool, bool); 3] {
    let since = Version::parse(alloc, "0.3.1").expect(rt, "a version");
    let stable = Stability::Stable {
        since,
        deprecated: None,
    };
    let unstable = Stability::Unstable {
        feature: text(rt, alloc, "fancy"),
        deprecated: None,
    };
    let none = Stability::Unknown;
    [
        (none.is_unknown(), none.is_stable()),
        (stable.is_unknown(), stable.is_stable()),
        (unstable.is_unknown(), unstable.is_stable()),
    ]
}

#[test]
fn gates_are_unknown_stable_or_neither(rt: HostRuntime) {
    assert!(rt; gates_asked(&rt, rt.alloc()) == [(true, false), (false, true), (false, false)]);
}

/// How many types, interfaces, worlds and nested packages the copy of a group has.
fn copied_group(rt: &impl Abort, alloc: Global) -> [usize; 4] {
    let group = group(rt, alloc, Change::Nothing, Change::Nothing);
    let copy = group.try_clone().expect(rt, "memory");
    [
        copy.main.types.len(),
        copy.main.interfaces.len(),
        copy.main.worlds.len(),
        copy.nested.len(),
    ]
}

#[test]
fn packages_are_copied(rt: HostRuntime) {
    assert_eq!(rt; copied_group(&rt, rt.alloc()), [8, 4, 3, 1]);
}

/// Which interfaces each interface of the shaped package uses.
fn uses(rt: &impl Abort, alloc: Global) -> String {
    let package = package(rt, alloc, Change::Nothing);
    let rows = uses_of(
        alloc,
        package.types.as_slice(),
        package.interfaces.as_slice(),
    )
    .expect(rt, "memory");
    format!(in alloc; "{rows:?}").expect(rt, "memory")
}

#[test]
fn interfaces_tell_what_they_use(rt: HostRuntime) {
    assert_text(&rt, uses(&rt, rt.alloc()), "[[], [0], [1], []]");
}

#[test]
fn kinds_of_functions_tell_resource_and_accessor(rt: HostRuntime) {
    let id = TypeId::from_index(4);
    let (get, set) = (Some(AccessorKind::Getter), Some(AccessorKind::Setter));
    for &(kind, resource, accessor) in &[
        (FunctionKind::Freestanding, None, None),
        (FunctionKind::AsyncFreestanding, None, None),
        (FunctionKind::Method(id), Some(id), None),
        (FunctionKind::AsyncMethod(id), Some(id), None),
        (FunctionKind::Static(id), Some(id), None),
        (FunctionKind::AsyncStatic(id), Some(id), None),
        (FunctionKind::Constructor(id), Some(id), None),
        (FunctionKind::Getter, None, get),
        (FunctionKind::Setter, None, set),
        (FunctionKind::MethodGetter(id), Some(id), get),
        (FunctionKind::MethodSetter(id), Some(id), set),
        (FunctionKind::StaticGetter(id), Some(id), get),
        (FunctionKind::StaticSetter(id), Some(id), set),
    ] {
        assert_eq!(rt; kind.resource(), resource);
        assert_eq!(rt; kind.accessor(), accessor);
    }
}

/// What a map that is full answers to one more file, and to files that take a position.
fn past_the_last_position(rt: &impl Abort, alloc: Global) -> [Option<MapFault>; 2] {
    let mut map = SourceMap::with_base(alloc, 4294967294);
    map.push_str(alloc, "last.wit", String::new(alloc))
        .expect(rt, "memory");
    let file = map.push_str(alloc, "next.wit", String::new(alloc)).err();
    let files = map.append(alloc, SourceMap::with_base(alloc, 1)).err();
    [file, files]
}

#[test]
fn no_position_passes_the_last(rt: HostRuntime) {
    let passed = Some(MapFault::OffsetOverflow);
    assert_eq!(rt; past_the_last_position(&rt, rt.alloc()), [passed, passed]);
}
