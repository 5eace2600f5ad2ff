//! Runs of commands: of none, and of some that are carried out, refused, or ask for what isn't there.
use crate::fixtures::{assert_text, text};
use crate::packages::parts::package_name;
use crate::packages::scripts::pushed;
use crate::packages::shown::shown;
use crate::packages::told::{kept, write_files};
use std::alloc::{AllocError, Global};
use std::fmt::Write;
use std::process::Abort;
use wit_data::TrackRule;
use wit_resolve_graph::{Command, Reply, Resolve, run};

const SCRIPT: &str = "package foo:bar\n\
    interface a\n\
    type t u32\n\
    world v\n\
    import a\n\
    world w\n\
    export a\n\
    push\n";

/// A `Resolve` with a package, a feature, and the second rule of tracks.
fn resolve(rt: &impl Abort, alloc: Global) -> Resolve {
    let mut resolve = pushed(rt, alloc, SCRIPT);
    resolve.add_feature(alloc, "f").expect(rt, "memory");
    resolve.set_track_rule(TrackRule::WithPrereleases);
    resolve
}

/// Writes what isn't the graph: the features, the rule, and the files.
fn write_rest(out: &mut String, resolve: &Resolve) -> Result<(), AllocError> {
    let names = &resolve.features().names;
    for place in 0..names.len() {
        write!(out, ", feature {}", names.text_at(place))?;
    }
    let (all, rule) = (resolve.all_features(), resolve.track_rule());
    write!(out, ", all {all}, {rule:?}, files")?;
    write_files(out, resolve)
}

fn write_reply(out: &mut String, reply: &Reply) -> Result<(), AllocError> {
    match reply {
        Reply::Done => out.push_str("done, "),
        Reply::Pushed(_) => out.push_str("pushed, "),
        Reply::Merged(_) => out.push_str("merged, "),
        Reply::NoWorld => out.push_str("no world, "),
        Reply::Refused(refusal) => {
            let number = refusal.number();
            write!(out, "refused {number}, ")
        }
    }
}

/// The replies, whether the graph is as before, and all else.
fn outcome(
    rt: &impl Abort,
    alloc: Global,
    before: &str,
    resolve: &Resolve,
    replies: Vec<Reply>,
) -> String {
    let mut out = String::new(alloc);
    for reply in &replies {
        write_reply(&mut out, reply).expect(rt, "memory");
    }
    out.push_str(kept(rt, alloc, before, resolve))
        .expect(rt, "memory");
    write_rest(&mut out, resolve).expect(rt, "memory");
    out
}

fn run_none(rt: &impl Abort, alloc: Global) -> String {
    let mut resolve = resolve(rt, alloc);
    let before = shown(rt, alloc, resolve.graph());
    let commands: Vec<Command> = Vec::new(alloc);
    let replies = run(alloc, &mut resolve, commands).expect(rt, "memory");
    outcome(rt, alloc, before.as_str(), &resolve, replies)
}

fn run_some(rt: &impl Abort, alloc: Global) -> String {
    let mut resolve = resolve(rt, alloc);
    let before = shown(rt, alloc, resolve.graph());
    let commands = [
        Command::AddFeature(text(rt, alloc, "g")),
        Command::Importize {
            package: package_name(rt, alloc, "bar", ""),
            world: text(rt, alloc, "w"),
            out: Some(text(rt, alloc, "v")),
        },
        Command::Semver {
            package: package_name(rt, alloc, "bar", "1.0.0"),
            world: text(rt, alloc, "w"),
        },
        Command::SetAllFeatures(true),
        Command::SetTrackRule(TrackRule::Published),
    ];
    let commands = Vec::from_array(alloc, commands).expect(rt, "memory");
    let replies = run(alloc, &mut resolve, commands).expect(rt, "memory");
    outcome(rt, alloc, before.as_str(), &resolve, replies)
}

#[test]
fn no_commands_change_nothing(rt: HostRuntime) {
    assert_text(
        &rt,
        run_none(&rt, rt.alloc()),
        "graph as before, feature f, all false, WithPrereleases, files foo:bar to 74",
    );
}

#[test]
fn each_command_has_its_reply(rt: HostRuntime) {
    assert_text(
        &rt,
        run_some(&rt, rt.alloc()),
        "done, refused 20, no world, done, done, graph as before, feature f, feature g, all true, Published, files foo:bar to 74",
    );
}
