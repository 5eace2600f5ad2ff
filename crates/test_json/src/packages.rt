//! Whole packages: what is read of a text is written as that text.
use std::alloc::Global;
use std::process::Abort;
use wit_data::{UnresolvedPackage, UnresolvedPackageGroup};
use wit_json::package_to_json;
use wit_json_reading::{ReadError, read_text};

/// A package with each kind of type, of function and of gate, each sort of entry, and all that is named of others.
const EVERYTHING: &str =
    "{\"name\":\"a:b@1.2.3-rc.1+build\",\"span\":[8,11],\"docs\":{\"contents\":\"The \\\"b\\\".\\n\"},\
    \"worlds\":[{\"name\":\"far-world\",\"imports\":{},\"exports\":{},\"includes\":[]},{\"name\":\"w\",\
    \"imports\":{\"interface-0\":{\"interface\":{\"id\":0,\"stability\":{\"unstable\":{\"feature\":\"f\"}},\
    \"docs\":{\"contents\":\"I.\"},\"span\":[50,51],\"external-id\":\"i\"}},\"l\":{\"interface\":{\"id\":2}},\
    \"h\":{\"function\":{\"name\":\"h\",\"kind\":\"freestanding\",\"params\":[]}},\"al\":{\"type\":16},\
    \"t\":{\"type\":{\"id\":16,\"span\":[52,53]}}},\"exports\":{\"interface-1\":{\"interface\":{\"id\":1}},\
    \"%interface-1\":{\"interface\":{\"id\":2}},\"interface-1a\":{\"interface\":{\"id\":2}}},\
    \"includes\":[{\"id\":0,\"names\":[{\"name\":\"a\",\"as\":\"b\"},{\"name\":\"c\",\"as\":\"d\"}],\
    \"stability\":{\"stable\":{\"since\":\"1.0.0\"}},\"span\":[54,55]},{\"id\":0,\"names\":[]}],\
    \"docs\":{\"contents\":\"W.\"},\"stability\":{\"unstable\":{\"feature\":\"f\",\"deprecated\":\"1.1.0\"}},\
    \"span\":[56,57]}],\"interfaces\":[{\"name\":\"far\",\"types\":{\"far\":0},\"functions\":{}},{\"name\":\"i\",\
    \"types\":{\"r\":1,\"rec\":4,\"fl\":5,\"v\":6,\"e\":7},\"functions\":{\"f\":{\"name\":\"f\",\
    \"kind\":\"freestanding\",\"params\":[{\"name\":\"a\",\"type\":\"u8\",\"span\":[40,41]},{\"name\":\"b\",\
    \"type\":12}],\"result\":13,\"docs\":{\"contents\":\"F.\"},\"stability\":{\"stable\":{\"since\":\"1.0.0\",\
    \"deprecated\":\"1.1.0\"}},\"span\":[42,43],\"external-id\":\"g\"},\"g\":{\"name\":\"g\",\
    \"kind\":\"async-freestanding\",\"params\":[]},\"[method]r.m\":{\"name\":\"[method]r.m\",\
    \"kind\":{\"method\":1},\"params\":[{\"name\":\"self\",\"type\":3}]},\
    \"[async method]r.m\":{\"name\":\"[async method]r.m\",\"kind\":{\"async-method\":1},\"params\":[]},\
    \"[static]r.s\":{\"name\":\"[static]r.s\",\"kind\":{\"static\":1},\"params\":[]},\
    \"[async static]r.s\":{\"name\":\"[async static]r.s\",\"kind\":{\"async-static\":1},\"params\":[]},\
    \"[constructor]r\":{\"name\":\"[constructor]r\",\"kind\":{\"constructor\":1},\"params\":[],\"result\":2},\
    \"[get]p\":{\"name\":\"[get]p\",\"kind\":\"getter\",\"params\":[],\"result\":\"u8\"},\
    \"[set]p\":{\"name\":\"[set]p\",\"kind\":\"setter\",\"params\":[]},\
    \"[get][method]r.p\":{\"name\":\"[get][method]r.p\",\"kind\":{\"method-getter\":1},\"params\":[]},\
    \"[set][method]r.p\":{\"name\":\"[set][method]r.p\",\"kind\":{\"method-setter\":1},\"params\":[]},\
    \"[get][static]r.p\":{\"name\":\"[get][static]r.p\",\"kind\":{\"static-getter\":1},\"params\":[]},\
    \"[set][static]r.p\":{\"name\":\"[set][static]r.p\",\"kind\":{\"static-setter\":1},\"params\":[]}},\
    \"docs\":{\"contents\":\"I.\"},\"stability\":{\"stable\":{\"since\":\"1.0.0\"}},\"span\":[60,61]},\
    {\"name\":null,\"types\":{},\"functions\":{}}],\"types\":[{\"name\":\"far\",\"kind\":\"unknown\",\
    \"owner\":{\"interface\":0}},{\"name\":\"r\",\"kind\":\"resource\",\"owner\":{\"interface\":1},\
    \"docs\":{\"contents\":\"R.\"},\"stability\":{\"stable\":{\"since\":\"1.0.0\"}},\"span\":[20,30],\
    \"external-id\":\"x\"},{\"name\":null,\"kind\":{\"handle\":{\"own\":1}},\"owner\":null},{\"name\":null,\
    \"kind\":{\"handle\":{\"borrow\":1}},\"owner\":null},{\"name\":\"rec\",\
    \"kind\":{\"record\":{\"fields\":[{\"name\":\"x\",\"type\":\"bool\",\"docs\":{\"contents\":\"X.\"},\"span\":[1,\
    2]},{\"name\":\"y\",\"type\":0}]}},\"owner\":{\"interface\":1},\"stability\":{\"stable\":{\"since\":\"1.0.0\",\
    \"deprecated\":\"1.1.0\"}}},{\"name\":\"fl\",\"kind\":{\"flags\":{\"flags\":[{\"name\":\"p\",\
    \"docs\":{\"contents\":\"P.\"},\"span\":[3,4]},{\"name\":\"q\"}]}},\"owner\":{\"interface\":1},\
    \"stability\":{\"unstable\":{\"feature\":\"f\"}}},{\"name\":\"v\",\
    \"kind\":{\"variant\":{\"cases\":[{\"name\":\"a\",\"type\":null},{\"name\":\"b\",\"type\":\"u8\",\
    \"docs\":{\"contents\":\"B.\"},\"span\":[5,6]}]}},\"owner\":{\"interface\":1},\
    \"stability\":{\"unstable\":{\"feature\":\"f\",\"deprecated\":\"1.1.0\"}}},{\"name\":\"e\",\
    \"kind\":{\"enum\":{\"cases\":[{\"name\":\"red\",\"docs\":{\"contents\":\"Red.\"},\"span\":[7,8]},\
    {\"name\":\"blue\"}]}},\"owner\":{\"interface\":1}},{\"name\":null,\"kind\":{\"tuple\":{\"types\":[\"u16\",\
    \"u32\",\"u64\",\"s8\",\"s16\",\"s32\",\"s64\"]}},\"owner\":null},{\"name\":null,\"kind\":{\"option\":\"f32\"},\
    \"owner\":null},{\"name\":null,\"kind\":{\"result\":{\"ok\":null,\"err\":\"f64\"}},\"owner\":null},\
    {\"name\":null,\"kind\":{\"list\":\"char\"},\"owner\":null},{\"name\":null,\"kind\":{\"map\":[\"string\",9]},\
    \"owner\":null},{\"name\":null,\"kind\":{\"fixed-length-list\":[\"error-context\",4294967295]},\"owner\":null},\
    {\"name\":null,\"kind\":{\"future\":null},\"owner\":null},{\"name\":null,\"kind\":{\"stream\":11},\
    \"owner\":null},{\"name\":\"al\",\"kind\":{\"type\":1},\"owner\":{\"world\":1}}],\
    \"foreign-deps\":{\"c:d\":{\"far\":[{\"interface\":0},[{\"stable\":{\"since\":\"1.0.0\"}},null]],\
    \"far-world\":[{\"world\":0},[{\"unstable\":{\"feature\":\"f\",\"deprecated\":\"1.1.0\"}}]]},\"c:d@0.1.0\":{}},\
    \"foreign-dep-spans\":[[70,71],null],\"unknown-type-spans\":[[72,73]],\"required-resources\":[[0,[74,75]],[0,\
    null]]}";

/// What a text reads as, written again, or the fault.
fn written_again(rt: &impl Abort, alloc: Global, text: &str) -> String {
    let made: UnresolvedPackage = match read_text(alloc, text) {
        Ok(made) => made,
        Err(error) => return error.to_string(alloc).expect(rt, "memory"),
    };
    package_to_json(alloc, &made).expect(rt, "memory")
}

#[test]
fn packages_are_written_as_they_are_read(rt: HostRuntime) {
    let written = written_again(&rt, rt.alloc(), EVERYTHING);
    assert_eq!(&rt; written.as_str(), EVERYTHING);
}

/// The package `a:b` without anything, with these members in front.
fn with_members(rt: &impl Abort, alloc: Global, members: &str) -> String {
    let lists =
        "\"foreign-deps\":{},\"foreign-dep-spans\":[],\"unknown-type-spans\":[],\"required-resources\":[]";
    format!(in alloc; "{{{members}{lists}}}").expect(rt, "memory")
}

#[test]
fn faults_of_packages_are_told(rt: HostRuntime) {
    for (members, wanted) in [
        ("\"name\":\"b\",", "$.name: expected the name of a package"),
        ("\"name\":\"a:b@1\",", "$.name: expected a version"),
        (
            "\"name\":\"a:b\",\"worlds\":[],\"interfaces\":[],",
            "$.types: expected a member of this name",
        ),
        (
            "\"name\":\"a:b\",\"worlds\":[{\"name\":\"w\",\"imports\":{\"l\":{\"interfaces\":{}}},\"exports\":{},\"includes\":[]}],\"interfaces\":[],\"types\":[],",
            "$.worlds[0].imports.l.interfaces: expected an entry of a world",
        ),
        (
            "\"name\":\"a:b\",\"worlds\":[],\"interfaces\":[{\"name\":null,\"types\":{},\"functions\":{\"f\":{\"name\":\"f\",\"kind\":{\"methods\":0},\"params\":[]}}}],\"types\":[],",
            "$.interfaces[0].functions.f.kind.methods: expected a kind of function",
        ),
        (
            "\"name\":\"a:b\",\"worlds\":[{\"name\":\"w\",\"imports\":{\"interface-0\":{\"interface\":{\"id\":0}},\"interface-0\":{\"type\":0}},\"exports\":{}}],",
            "$.worlds[0].imports.interface-0: expected no second member of this name",
        ),
        (
            "\"name\":\"a:b\",\"worlds\":[{\"name\":\"w\",\"imports\":{},\"exports\":{},\"package\":null}],",
            "$.worlds[0].package: expected no member of this name",
        ),
        (
            "\"name\":\"a:b\",\"worlds\":[],\"interfaces\":[{\"name\":\"i\",\"types\":{},\"functions\":{},\"package\":0}],",
            "$.interfaces[0].package: expected no member of this name",
        ),
        (
            "\"name\":\"a:b\",\"package\":1,",
            "$.package: expected no member of this name",
        ),
    ] {
        let text = with_members(&rt, rt.alloc(), members);
        let told = written_again(&rt, rt.alloc(), text.as_str());
        assert!(&rt; told.as_str() == wanted, "{told}");
    }
}

/// What a group of these packages and files reads as: its main package, how many are nested, its files and where the
/// next one would begin; or the fault.
fn group_read(rt: &impl Abort, alloc: Global, sources: &str) -> String {
    let lists =
        "\"worlds\":[],\"interfaces\":[],\"types\":[],\"foreign-deps\":{},\"foreign-dep-spans\":[],\"unknown-type-spans\":[],\"required-resources\":[]";
    let text = format!(in alloc;
        "{{\"main\":{{\"name\":\"a:b\",{lists}}},\"nested\":[{{\"name\":\"a:c\",{lists}}}],\"sources\":{sources}}}"
    );
    let text = text.expect(rt, "memory");
    let read: Result<UnresolvedPackageGroup, ReadError> = read_text(alloc, text.as_str());
    let group = match read {
        Ok(group) => group,
        Err(error) => return error.to_string(alloc).expect(rt, "memory"),
    };
    let (name, nested) = (&group.main.name, group.nested.len());
    let mut shown = format!(in alloc; "{name} and {nested}").expect(rt, "memory");
    for path in group.source_map.source_names() {
        shown.push_str(" ").expect(rt, "memory");
        shown.push_str(path).expect(rt, "memory");
    }
    let end = group.source_map.end();
    let end = format!(in alloc; " to {end}").expect(rt, "memory");
    shown.push_str(end.as_str()).expect(rt, "memory");
    shown
}

#[test]
fn groups_are_read(rt: HostRuntime) {
    for (sources, wanted) in [
        ("[]", "a:b and 1 to 0"),
        (
            "[{\"path\":\"a.wit\",\"text\":\"ab\"},{\"text\":\"\",\"path\":\"b.wit\"}]",
            "a:b and 1 a.wit b.wit to 4",
        ),
        (
            "[{\"path\":\"a.wit\",\"text\":\"ab\"},{\"path\":\"b.wit\"}]",
            "$.sources[1].text: expected a member of this name",
        ),
        ("{}", "$.sources: expected a list"),
    ] {
        let shown = group_read(&rt, rt.alloc(), sources);
        assert!(&rt; shown.as_str() == wanted, "{shown}");
    }
}

#[test]
fn booleans_are_read(rt: HostRuntime) {
    let alloc = rt.alloc();
    let yes: Result<bool, ReadError> = read_text(alloc, " true ");
    assert!(&rt; matches!(yes, Ok(true)));
    let none: Result<bool, ReadError> = read_text(alloc, "null");
    assert!(&rt; matches!(none, Err(ReadError::Fault(_))));
}
