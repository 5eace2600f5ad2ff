//! The calls that are offered to other languages: what they tell with ample memory, with too small an output, and of an
//! input that is no text; and a graph that stays between calls.
use crate::fixtures::assert_text;
use std::alloc::Global;
use std::process::Abort;
use witgraph_calls::{Session, execute, explain};

/// Which of the two calls.
#[derive(Clone, Copy)]
enum Call {
    Execute,
    Explain,
}

/// The status of a call whose output has so much room, what it needs, and the output after it, which was dots.
fn told(rt: &impl Abort, alloc: Global, call: Call, input: &[u8], room: usize) -> String {
    let mut output = Vec::new(alloc);
    for _byte in 0..room {
        output.push(b'.').expect(rt, "memory");
    }
    let mut needed = 77;
    let status = match call {
        Call::Execute => execute(alloc, input, &mut output, &mut needed),
        Call::Explain => explain(alloc, input, &mut output, &mut needed),
    };
    let output = String::from_utf8(output).expect(rt, "a text");
    format!(in alloc; "{status} {needed} {output}").expect(rt, "memory")
}

/// The calls, each with its input, the room of its output, and what is told.
const CALLS: [(Call, &[u8], usize, &str); 17] = [
    (
        Call::Execute,
        b"package a:b\npush\n",
        14,
        "0 11 pushed a:b\n...",
    ),
    (
        Call::Execute,
        b"package a:b\npush\n",
        11,
        "0 11 pushed a:b\n",
    ),
    (Call::Execute, b"package a:b\npush\n", 10, "2 11 .........."),
    (Call::Execute, b"", 2, "0 0 .."),
    (Call::Execute, b"push", 24, "1 23 line 1: not understood\n."),
    (Call::Execute, b"push", 23, "1 23 line 1: not understood\n"),
    (Call::Execute, b"push", 3, "2 23 ..."),
    (Call::Execute, b"push\xff", 3, "3 0 ..."),
    (Call::Execute, b"\xff", 0, "3 0 "),
    (
        Call::Explain,
        b"package a:b\npush\nselect a:b\n",
        147,
        "0 146 refused 26 The main package `a:b` contains no worlds\n\
        \x20    --> line 3\n\
        \x20     |\n\
        \x20   3 | select a:b\n\
        \x20     | ^---------\n\
        \x20     = 26 in docs/REFUSALS.md\n.",
    ),
    (
        Call::Explain,
        b"package a:b\npush\nselect a:b\n",
        3,
        "2 146 ...",
    ),
    (
        Call::Explain,
        b"package p:q\n\
        interface i @unstable=f\n\
        world w\n\
        import i\n\
        push\n",
        200,
        "0 200 refused 11 found a reference to a interface which is excluded due to its feature not being activated\n\
        \x20    --> line 4 (p:q:4:1)\n\
        \x20     |\n\
        \x20   4 | import i\n\
        \x20     | ^-------\n\
        \x20     = 11 in docs/REFUSALS.md\n",
    ),
    (Call::Explain, b"package a:b\npush\n", 3, "0 0 ..."),
    (
        Call::Explain,
        b"push",
        71,
        "1 70 line 1: no package stands before it\n\
        \x20     |\n\
        \x20   1 | push\n\
        \x20     | ^---\n.",
    ),
    (Call::Explain, b"push", 22, "2 70 ......................"),
    (Call::Explain, b"push\xff", 3, "3 0 ..."),
    (Call::Explain, b"\xff", 0, "3 0 "),
];

#[test]
fn calls_tell_what_they_write_and_need(rt: HostRuntime) {
    for &(call, input, room, wanted) in &CALLS {
        assert_text(&rt, told(&rt, rt.alloc(), call, input, room), wanted);
    }
}

/// Documents that one after another come to a graph that stays, each with the status, what is needed, and the text.
const DOCUMENTS: [(&[u8], &str); 8] = [
    (
        b"{\"commands\":[{\"set-all-features\":true}]}",
        "0 20 {\"replies\":[\"done\"]}",
    ),
    (
        b"{\"commands\":1}",
        "1 84 {\"fault\":{\"path\":[\"commands\"],\"offset\":12,\"line\":1,\"column\":13,\"expected\":\"a list\"}}",
    ),
    (b"push\xff", "3 0 "),
    (
        b"{\"commands\":[\"package-order\"]}",
        "0 29 {\"replies\":[{\"packages\":[]}]}",
    ),
    (b"", WITH_ALL_FEATURES),
    (
        b"{\"commands\":[],\"resolve\":{\"graph\":{\"worlds\":[],\"interfaces\":[{\"name\":null,\"types\":{},\"functions\":{},\"package\":0}],\
        \"types\":[],\"packages\":[]}}}",
        "1 241 {\"fault\":{\"path\":[\"resolve\",\"graph\",\"interfaces\",0],\"offset\":61,\"line\":1,\"column\":62,\"expected\":\"a valid graph\",\
        \"clause\":\"tables.interfaces_listed\",\"message\":\"interface 0 has no package, or isn't in the table of its package under its name\"}}",
    ),
    (b"", WITH_ALL_FEATURES),
    (
        b"{\"commands\":[],\"resolve\":{\"graph\":{\"worlds\":[],\"interfaces\":[],\"types\":[],\"packages\":[]}}}",
        "0 14 {\"replies\":[]}",
    ),
];

/// What is told where the graph is written.
const WITH_ALL_FEATURES: &str =
    "0 188 {\"graph\":{\"worlds\":[],\"interfaces\":[],\"types\":[],\"packages\":[]},\
    \"details\":{\"worlds\":[],\"interfaces\":[],\"types\":[]},\"features\":{\"all\":true,\"names\":[]},\
    \"track-rule\":\"published\",\"sources\":[]}";

/// What is told of a document, or of the graph where there is none.
fn told_of(rt: &impl Abort, alloc: Global, session: &mut Session, document: &[u8]) -> String {
    let mut needed = 77;
    let status = match document.len() {
        0 => session.write(alloc, &mut needed),
        _ => session.apply(alloc, document, &mut needed),
    };
    let reply = session.reply.as_str();
    format!(in alloc; "{status} {needed} {reply}").expect(rt, "memory")
}

/// What is told of what is new.
fn told_new(rt: &impl Abort, alloc: Global, session: &mut Session) -> String {
    let mut needed = 77;
    let status = session.write_new(alloc, &mut needed);
    let reply = session.reply.as_str();
    format!(in alloc; "{status} {needed} {reply}").expect(rt, "memory")
}

#[test]
fn what_is_new_is_told_once(rt: HostRuntime) {
    let alloc = rt.alloc();
    let mut session = Session::new(alloc);
    for wanted in [WITH_A_PACKAGE, WITHOUT_IT] {
        told_of(&rt, alloc, &mut session, A_PACKAGE);
        assert_text(&rt, told_new(&rt, alloc, &mut session), wanted);
    }
}

/// A document that pushes a package without parts.
const A_PACKAGE: &[u8] =
    b"{\"commands\":[{\"push-groups\":{\"deps\":[],\"main\":{\"nested\":[],\"sources\":[],\
    \"main\":{\"name\":\"a:b\",\"worlds\":[],\"interfaces\":[],\"types\":[],\"foreign-deps\":{},\
    \"foreign-dep-spans\":[],\"unknown-type-spans\":[],\"required-resources\":[]}}}}]}";

/// What is new once it is carried out, and once it is refused.
const WITH_A_PACKAGE: &str =
    "0 301 {\"from\":{\"worlds\":0,\"interfaces\":0,\"types\":0,\"packages\":0,\"sources\":0},\
    \"graph\":{\"worlds\":[],\"interfaces\":[],\"types\":[],\
    \"packages\":[{\"name\":\"a:b\",\"interfaces\":{},\"worlds\":{}}]},\
    \"details\":{\"worlds\":[],\"interfaces\":[],\"types\":[]},\"features\":{\"all\":false,\"names\":[]},\
    \"track-rule\":\"published\",\"sources\":[]}";

const WITHOUT_IT: &str =
    "0 259 {\"from\":{\"worlds\":0,\"interfaces\":0,\"types\":0,\"packages\":1,\"sources\":0},\
    \"graph\":{\"worlds\":[],\"interfaces\":[],\"types\":[],\"packages\":[]},\
    \"details\":{\"worlds\":[],\"interfaces\":[],\"types\":[]},\"features\":{\"all\":false,\"names\":[]},\
    \"track-rule\":\"published\",\"sources\":[]}";

#[test]
fn a_graph_stays_between_documents(rt: HostRuntime) {
    let mut session = Session::new(rt.alloc());
    for &(document, wanted) in &DOCUMENTS {
        assert_text(
            &rt,
            told_of(&rt, rt.alloc(), &mut session, document),
            wanted,
        );
    }
}
