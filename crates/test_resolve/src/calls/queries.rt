//! The questions of a `Resolve`, each with ample memory, and what they answer of a small package.
use crate::calls::fixtures::resolve_of;
use crate::fixtures::assert_text;
use std::alloc::Global;
use std::fmt::Write;
use std::process::Abort;
use wit_data::{
    Docs, InterfaceId, PackageId, Span, Stability, Text, Type_, TypeId, WorldItem, WorldKey,
};

/// Types `t`, at index 0, and `p`, at 1; the types of `stages`, from 2 on; and `t` of `y`, at 5.
const SCRIPT: &str = "package foo:x@0.2.1\n\
    interface x\n\
    type t u32\n\
    record p a:t b:f64\n\
    func stages(a:future<future<u32>>,b:u32)->stream<string>\n\
    interface y\n\
    use x t\n\
    world w\n\
    import y\n\
    push\n\
    package foo:z\n\
    push\n";

/// The interface that a type's alias leads to.
fn interface_dep(rt: &impl Abort, alloc: Global, place: usize) -> Option<usize> {
    let resolve = resolve_of(rt, alloc, SCRIPT);
    let id = resolve.type_interface_dep(TypeId::from_index(place))?;
    Some(id.index())
}

/// What interface `y` uses, what package `foo:x` depends on, and the order of packages.
fn dependencies(rt: &impl Abort, alloc: Global) -> String {
    let resolve = resolve_of(rt, alloc, SCRIPT);
    assert_eq!(rt; resolve.interfaces().len(), 2);
    assert_eq!(rt; resolve.packages().len(), 2);
    let mut text = String::new(alloc);
    for used in resolve.interface_direct_deps(InterfaceId::from_index(1)) {
        write_place(rt, &mut text, "uses", used.index());
    }
    for used in resolve.package_direct_deps(PackageId::from_index(0)) {
        write_place(rt, &mut text, "depends", used.index());
    }
    let order = resolve.topological_packages(alloc).expect(rt, "memory");
    for package in &order {
        write_place(rt, &mut text, "package", package.index());
    }
    text
}

fn write_place(rt: &impl Abort, text: &mut String, word: &str, place: usize) {
    write!(text, "{word} {place};").expect(rt, "memory");
}

#[test]
fn dependencies_are_told(rt: HostRuntime) {
    assert_eq!(rt; interface_dep(&rt, rt.alloc(), 0), None);
    assert_eq!(rt; interface_dep(&rt, rt.alloc(), 5), Some(0));
    assert_text(
        &rt,
        dependencies(&rt, rt.alloc()),
        "uses 0;package 0;package 1;",
    );
}

/// The canonical names of interface `x` and of world `w` and of the key of `x`, and what they leave
/// out, where the package has this version.
fn canonical_names(rt: &impl Abort, alloc: Global, version: &str) -> String {
    let script = format!(in alloc; "package foo:x{version}\ninterface x\nworld w\npush\n");
    let resolve = resolve_of(rt, alloc, script.expect(rt, "memory").as_str());
    let x = InterfaceId::from_index(0);
    let interface = resolve
        .canonicalized_id_of(alloc, x)
        .expect(rt, "memory")
        .expect(rt, "a name");
    let world = resolve
        .canonicalized_id_of_name(alloc, PackageId::from_index(0), "w")
        .expect(rt, "memory");
    let key = resolve
        .name_canonicalized_world_key(alloc, &WorldKey::Interface(x))
        .expect(rt, "memory");
    let suffix = resolve.version_suffix_of(alloc, x).expect(rt, "memory");
    let suffix = match &suffix {
        Some(suffix) => suffix.as_str(),
        None => "none",
    };
    format!(in alloc; "{interface} {world} {key} {suffix}").expect(rt, "memory")
}

const CANONICAL: [(&str, &str); 6] = [
    ("@1.2.3", "foo:x/x@1 foo:x/w@1 foo:x/x@1 .2.3"),
    ("@0.2.1+b", "foo:x/x@0.2 foo:x/w@0.2 foo:x/x@0.2 .1+b"),
    ("@0.0.3", "foo:x/x@0.0.3 foo:x/w@0.0.3 foo:x/x@0.0.3 none"),
    ("@0.0.3+b", "foo:x/x@0.0.3 foo:x/w@0.0.3 foo:x/x@0.0.3 +b"),
    (
        "@1.2.3-rc.1+b",
        "foo:x/x@1.2.3-rc.1 foo:x/w@1.2.3-rc.1 foo:x/x@1.2.3-rc.1 +b",
    ),
    ("", "foo:x/x foo:x/w foo:x/x none"),
];

#[test]
fn canonical_names_have_the_track(rt: HostRuntime) {
    for &(version, names) in &CANONICAL {
        assert_text(&rt, canonical_names(&rt, rt.alloc(), version), names);
    }
}

/// The entry of an interface, with an external id.
fn entry(rt: &impl Abort, alloc: Global) -> WorldItem {
    WorldItem::Interface {
        id: InterfaceId::from_index(0),
        stability: Stability::Unknown,
        docs: Docs::none(),
        span: Span::unknown(),
        external_id: Some(Text::try_from_str(alloc, "e").expect(rt, "memory")),
    }
}

/// The interface that an entry implements under a label, and under its own key.
fn implemented(rt: &impl Abort, alloc: Global) -> [Option<usize>; 2] {
    let resolve = resolve_of(rt, alloc, SCRIPT);
    let item = entry(rt, alloc);
    let label = WorldKey::Name(Text::try_from_str(alloc, "lab").expect(rt, "memory"));
    let own = WorldKey::Interface(InterfaceId::from_index(0));
    [label, own].map(|key| match resolve.implements_interface(&key, &item) {
        Some(id) => Some(id.index()),
        None => None,
    })
}

/// The external ids of an entry that has one, and of a type that has none.
fn external_ids(rt: &impl Abort, alloc: Global) -> (String, bool) {
    let resolve = resolve_of(rt, alloc, SCRIPT);
    let item = entry(rt, alloc);
    let id = resolve
        .external_id_value(alloc, &item)
        .expect(rt, "memory")
        .expect(rt, "an id");
    let item = WorldItem::Type_ {
        id: TypeId::from_index(0),
        span: Span::unknown(),
    };
    let none = resolve.external_id_value(alloc, &item).expect(rt, "memory");
    (id, none.is_none())
}

#[test]
fn entries_are_told(rt: HostRuntime) {
    assert_eq!(rt; implemented(&rt, rt.alloc()), [Some(0), None]);
    let (id, is_none) = external_ids(&rt, rt.alloc());
    assert_eq!(rt; id.as_str(), "e");
    assert!(rt; is_none);
}

fn are_all_bits_valid(rt: &impl Abort, alloc: Global, ty: Type_) -> bool {
    let resolve = resolve_of(rt, alloc, SCRIPT);
    resolve.all_bits_valid(ty)
}

/// The futures and streams of `stages`, which is the only function of `x`.
fn futures(rt: &impl Abort, alloc: Global) -> String {
    let resolve = resolve_of(rt, alloc, SCRIPT);
    let mut text = String::new(alloc);
    for interface in resolve.interfaces() {
        if let Some(function) = interface.functions.get("stages") {
            let found = resolve.find_futures_and_streams(alloc, function);
            for id in &found.expect(rt, "memory") {
                write_place(rt, &mut text, "type", id.index());
            }
        }
    }
    text
}

#[test]
fn values_are_told(rt: HostRuntime) {
    for (ty, wanted) in [
        (Type_::U32, true),
        (Type_::Bool, false),
        (Type_::Id(TypeId::from_index(1)), true),
        (Type_::Id(TypeId::from_index(2)), false),
    ] {
        assert_eq!(rt; are_all_bits_valid(&rt, rt.alloc(), ty), wanted);
    }
    assert_text(&rt, futures(&rt, rt.alloc()), "type 2;type 3;type 4;");
}
