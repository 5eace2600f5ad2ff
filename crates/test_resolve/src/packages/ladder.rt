//! Interfaces of which each uses all types of the two before it.
use crate::packages::scripts::pushed;
use std::alloc::Global;
use std::fmt::Write;
use std::process::Abort;
use wit_data::WorldKey;

/// How many interfaces there are.
const COUNT: usize = 64;

/// Interface `i` of this number: a type of its own, and all that the one before has as `t`, and the one before
/// that.
fn write_interface(rt: &impl Abort, out: &mut String, number: usize) {
    write!(out, "interface i{number}\ntype t{number} u32\n").expect(rt, "memory");
    if let Some(before) = number.checked_sub(1) {
        for place in 0..number {
            write!(out, "use i{before} t{place}\n").expect(rt, "memory");
        }
    }
    if let Some(before) = number.checked_sub(2) {
        for place in 0..=before {
            write!(out, "use i{before} t{place} u{place}\n").expect(rt, "memory");
        }
    }
}

/// How many imports a world has that lists the last interface, and how many of them stand where their numbers are.
fn imports(rt: &impl Abort, alloc: Global) -> [usize; 2] {
    let mut script = String::from_str(alloc, "package foo:bar\n").expect(rt, "memory");
    for number in 0..COUNT {
        write_interface(rt, &mut script, number);
    }
    script
        .push_str("world w\nimport i63\npush\n")
        .expect(rt, "memory");
    let resolve = pushed(rt, alloc, script.as_str());
    let mut counts = [0, 0];
    for world in resolve.worlds() {
        for (key, _item) in world.imports.iter() {
            if let WorldKey::Interface(id) = key {
                if id.index() == counts[0] {
                    counts[1] = counts[1].wrapping_add(1);
                }
            }
            counts[0] = counts[0].wrapping_add(1);
        }
    }
    counts
}

#[test]
fn interfaces_that_use_the_two_before_are_imported_in_order(rt: HostRuntime) {
    assert_eq!(rt; imports(&rt, rt.alloc()), [COUNT, COUNT]);
}
