//! Readers and writers that fail at one of their calls, or take little at a time, input that is no text, and scripts that
//! are understood or aren't.
use crate::fixtures::assert_text;
use std::alloc::{AllocError, Global};
use std::io;
use std::io::{ErrorKind, Read, Write};
use std::process::Abort;
use wit_script::{ScriptFault, Watched, execute};

const SCRIPT: &str = "package foo:bar\n\
    interface a\n\
    type t u32\n\
    interface b\n\
    use a t\n\
    world w\n\
    import b\n\
    push\n\
    print foo:bar w\n";

/// What the script prints.
const PRINTED: &str = "pushed foo:bar\n\
    world foo:bar/w\n\
    \x20 import foo:bar/a\n\
    \x20 import foo:bar/b\n";

/// No script here makes as many calls.
const MANY_CALLS: usize = 1000;

/// How streams go: how many bytes a call gives or takes at most, and which calls fail.
#[derive(Clone, Copy)]
struct Pace {
    bytes: usize,
    calls_left: usize,
    /// Whether all calls fail from one on; else only that one does.
    fails_on: bool,
}

impl Pace {
    /// Whether the next call goes through.
    fn passes(&mut self) -> bool {
        if self.calls_left > 0 {
            self.calls_left -= 1;
            return true;
        }
        if !self.fails_on {
            self.calls_left = MANY_CALLS;
        }
        false
    }
}

/// A reader of some bytes.
#[derive(Drop)]
struct FailingReader<'a> {
    rest: &'a [u8],
    pace: Pace,
}

impl Read for FailingReader<'_> {
    fn read(&mut self, buf: &mut [u8]) -> io::Result<usize> {
        if !self.pace.passes() {
            return Err(io::Error::from(ErrorKind::TimedOut));
        }
        let count = self.rest.len().min(buf.len()).min(self.pace.bytes);
        let (given, rest) = self.rest.split_at(count);
        buf[..count].copy_from_slice(given);
        self.rest = rest;
        Ok(count)
    }
}

/// A writer that keeps what it takes.
#[derive(Drop)]
struct FailingWriter {
    taken: Vec<u8>,
    pace: Pace,
}

impl Write for FailingWriter {
    fn write(&mut self, buf: &[u8]) -> io::Result<usize> {
        if !self.pace.passes() {
            return Err(io::Error::from(ErrorKind::TimedOut));
        }
        let count = buf.len().min(self.pace.bytes);
        self.taken
            .extend_from_slice(&buf[..count])
            .map_err(AllocError::from)?;
        Ok(count)
    }

    fn flush(&mut self) -> io::Result<()> {
        if !self.pace.passes() {
            return Err(io::Error::from(ErrorKind::TimedOut));
        }
        Ok(())
    }
}

/// The answer to a script, where the reader and the writer go like this, and what the writer has taken. Each knows
/// whether it failed.
fn run(
    rt: &impl Abort,
    alloc: Global,
    script: &[u8],
    reads: Pace,
    writes: Pace,
) -> (Result<bool, ScriptFault>, String) {
    let mut reader = Watched::new(FailingReader {
        rest: script,
        pace: reads,
    });
    let mut writer = Watched::new(FailingWriter {
        taken: Vec::new(alloc),
        pace: writes,
    });
    let answer = execute(alloc, &mut reader, &mut writer);
    assert!(rt; reader.failed() == (answer == Err(ScriptFault::Read)));
    assert!(rt; writer.failed() == (answer == Err(ScriptFault::Write)));
    let taken = writer.into_inner().taken;
    (answer, String::from_utf8(taken).expect(rt, "a text"))
}

/// A stream whose calls all go through, with so many bytes each.
fn steady(bytes: usize) -> Pace {
    Pace {
        bytes,
        calls_left: MANY_CALLS,
        fails_on: true,
    }
}

/// How many bytes a call has, whether all calls fail from one on, and how many calls of the reader and of the writer
/// there are, the last of them at the end of the input and the flush.
const PACES: [(usize, bool, usize, usize); 3] = [
    (5, true, 21, 15),
    (5, false, 21, 15),
    (1, false, 98, 70),
];

#[test]
fn a_read_that_fails_is_told(rt: HostRuntime) {
    for &(bytes, fails_on, calls, _) in &PACES {
        for calls_left in 0..calls {
            let reads = Pace {
                bytes,
                calls_left,
                fails_on,
            };
            let (answer, text) = run(&rt, rt.alloc(), SCRIPT.as_bytes(), reads, steady(bytes));
            assert!(rt; answer == Err(ScriptFault::Read), "{calls_left}");
            assert_text(&rt, text, "");
        }
    }
}

#[test]
fn a_write_that_fails_is_told(rt: HostRuntime) {
    for &(bytes, fails_on, _, calls) in &PACES {
        for calls_left in 0..calls {
            let writes = Pace {
                bytes,
                calls_left,
                fails_on,
            };
            let (answer, text) = run(&rt, rt.alloc(), SCRIPT.as_bytes(), steady(bytes), writes);
            assert!(rt; answer == Err(ScriptFault::Write), "{calls_left}");
            assert!(rt; PRINTED.starts_with(text.as_str()), "{calls_left}");
        }
    }
}

#[test]
fn streams_that_fail_after_all_calls_or_go_slowly_change_nothing(rt: HostRuntime) {
    for &(bytes, fails_on, reads, writes) in &PACES {
        let reads = Pace {
            bytes,
            calls_left: reads,
            fails_on,
        };
        let writes = Pace {
            bytes,
            calls_left: writes,
            fails_on,
        };
        let (answer, text) = run(&rt, rt.alloc(), SCRIPT.as_bytes(), reads, writes);
        assert!(rt; answer == Ok(true));
        assert_text(&rt, text, PRINTED);
    }
}

#[test]
fn input_that_is_no_text_prints_nothing(rt: HostRuntime) {
    let (answer, text) = run(&rt, rt.alloc(), b"push\xff", steady(1), steady(1));
    assert!(rt; answer == Err(ScriptFault::NotUtf8));
    assert_text(&rt, text, "");
}

/// Scripts, whether each is understood, and what it prints. A refusal is an answer like any other.
const SCRIPTS: [(&str, bool, &str); 6] = [
    ("", true, ""),
    ("push", false, "line 1: not understood\n"),
    ("package foo:bar\n\n# x", false, "line 1: not understood\n"),
    ("other", false, "line 1: not understood\n"),
    (
        "select foo:bar\npackage foo:bar\npush\nprint foo:bar",
        false,
        "line 4: not understood\n",
    ),
    (
        "package foo:bar\npush\npackage foo:bar\npush",
        true,
        "pushed foo:bar\n\
        refused 5 package `foo:bar` is defined in two different locations\n",
    ),
];

#[test]
fn whether_a_script_is_understood_is_answered(rt: HostRuntime) {
    for &(script, understood, wanted) in &SCRIPTS {
        let (answer, text) = run(&rt, rt.alloc(), script.as_bytes(), steady(1), steady(1));
        assert!(rt; answer == Ok(understood), "{script}");
        assert_text(&rt, text, wanted);
    }
}
