//! Errors as they are told in a file and without a span, and tracks of versions.
use crate::fixtures::{assert_text, string};
use std::alloc::Global;
use std::process::Abort;
use wit_data::{PackageName, SourceMap, Span, Version};
use wit_graph_data::ResolveError;

/// A file of 24 bytes, which takes 25 positions.
fn file(rt: &impl Abort, alloc: Global) -> SourceMap {
    let mut map = SourceMap::new(alloc);
    let contents = string(rt, alloc, "package a:b;\nworld w {}\n");
    map.push_str(alloc, "m.wit", contents).expect(rt, "memory");
    map
}

/// Where a span begins, and how the error `bad` at it is told, by the file.
fn bad_at(rt: &impl Abort, alloc: Global, span: Span) -> String {
    let map = file(rt, alloc);
    let error = ResolveError::new_semantic(span, string(rt, alloc, "bad"));
    let place = map.render_location(alloc, span).expect(rt, "memory");
    let shown = error.render(alloc, &map).expect(rt, "memory");
    format!(in alloc; "{place} {shown}").expect(rt, "memory")
}

#[test]
fn an_error_without_a_place_is_its_text(rt: HostRuntime) {
    for span in [Span::unknown(), Span::new(25, 26)] {
        assert_text(&rt, bad_at(&rt, rt.alloc(), span), "<unknown> bad");
    }
}

#[test]
fn an_error_is_told_in_its_line(rt: HostRuntime) {
    assert_text(
        &rt,
        bad_at(&rt, rt.alloc(), Span::new(13, 18)),
        "m.wit:2:1 bad\n\
        \x20    --> m.wit:2:1\n\
        \x20     |\n\
        \x20   2 | world w {}\n\
        \x20     | ^----",
    );
}

/// Where a second file begins, and how a text is told at a span of the two.
fn highlight_text(rt: &impl Abort, alloc: Global, span: Span) -> String {
    let mut map = file(rt, alloc);
    let start = map.append(alloc, file(rt, alloc)).expect(rt, "positions");
    let end = map.end();
    let shown = map.highlight_span(alloc, span, "bad").expect(rt, "memory");
    match shown {
        Some(shown) => format!(in alloc; "{start} {end} {shown}").expect(rt, "memory"),
        None => format!(in alloc; "{start} {end} nowhere").expect(rt, "memory"),
    }
}

#[test]
fn a_text_is_told_in_the_line_of_its_span(rt: HostRuntime) {
    let alloc = rt.alloc();
    assert_text(
        &rt,
        highlight_text(&rt, alloc, Span::new(44, 45)),
        "25 50 bad\n\
        \x20    --> m.wit:2:7\n\
        \x20     |\n\
        \x20   2 | world w {}\n\
        \x20     |       ^",
    );
    for span in [Span::unknown(), Span::new(50, 51)] {
        assert_text(&rt, highlight_text(&rt, alloc, span), "25 50 nowhere");
    }
}

/// A file whose second line is so many letters long.
fn with_second_line(rt: &impl Abort, alloc: Global, letters: usize) -> SourceMap {
    let mut contents = string(rt, alloc, "world a\n");
    for _i in 0..letters {
        contents.push_str("x").expect(rt, "memory");
    }
    let mut map = SourceMap::new(alloc);
    map.push_str(alloc, "m.wit", contents).expect(rt, "memory");
    map
}

/// The place and the line of a span in that line.
fn shown_in_second_line(rt: &impl Abort, alloc: Global, letters: usize, span: Span) -> String {
    let map = with_second_line(rt, alloc, letters);
    match map.show_span(alloc, span).expect(rt, "memory") {
        Some(shown) => shown,
        None => string(rt, alloc, "nowhere"),
    }
}

/// How a text is told at a place in that line.
fn told_in_second_line(rt: &impl Abort, alloc: Global, letters: usize) -> String {
    let map = with_second_line(rt, alloc, letters);
    let told = map.highlight_span(alloc, Span::new(9, 11), "bad");
    match told.expect(rt, "memory") {
        Some(told) => told,
        None => string(rt, alloc, "nowhere"),
    }
}

#[test]
fn a_span_is_shown_in_its_line(rt: HostRuntime) {
    assert_text(
        &rt,
        shown_in_second_line(&rt, rt.alloc(), 4, Span::new(9, 11)),
        "     --> m.wit:2:2\n\
        \x20     |\n\
        \x20   2 | xxxx\n\
        \x20     |  ^-",
    );
    assert_text(
        &rt,
        shown_in_second_line(&rt, rt.alloc(), 4, Span::unknown()),
        "nowhere",
    );
}

#[test]
fn of_a_long_line_the_beginning_is_shown(rt: HostRuntime) {
    let shown = shown_in_second_line(&rt, rt.alloc(), 501, Span::new(8, 10));
    let (head, rest) = shown.as_str().split_once(" | ").expect(&rt, "a line");
    let (line, mark) = rest.split_once('\n').expect(&rt, "a mark");
    assert!(rt; head == "     --> m.wit:2:1\n      |\n    2", "the place");
    assert!(rt; line.len() == 503 && line.ends_with("xx .."), "500 letters");
    assert!(rt; mark == "      | ^-", "the mark");
}

#[test]
fn a_text_at_a_long_line_has_its_place_alone(rt: HostRuntime) {
    let alloc = rt.alloc();
    assert_text(&rt, told_in_second_line(&rt, alloc, 501), "m.wit:2:2: bad");
    let told = told_in_second_line(&rt, alloc, 500);
    assert!(rt;
        told.as_str().starts_with("bad\n     --> m.wit:2:2\n"),
        "its line"
    );
}

/// Where a position stands in a file of 120 lines, each of a letter of two bytes and two of one.
fn place_in_lines(rt: &impl Abort, alloc: Global, position: u32) -> String {
    let mut contents = String::new(alloc);
    for _i in 0..120 {
        contents.push_str("é;;\n").expect(rt, "memory");
    }
    let mut map = SourceMap::new(alloc);
    map.push_str(alloc, "m.wit", contents).expect(rt, "memory");
    map.render_location(alloc, Span::new(position, position))
        .expect(rt, "memory")
}

/// Positions around the marks of the text, which stand at each 128th byte: the second one is in a letter.
const PLACES: [(u32, &str); 10] = [
    (0, "m.wit:1:1"),
    (128, "m.wit:26:3"),
    (255, "m.wit:52:1"),
    (256, "m.wit:52:2"),
    (257, "m.wit:52:2"),
    (259, "m.wit:52:4"),
    (260, "m.wit:53:1"),
    (512, "m.wit:103:2"),
    (600, "m.wit:121:1"),
    (601, "<unknown>"),
];

#[test]
fn places_are_told_in_many_lines(rt: HostRuntime) {
    for &(position, place) in &PLACES {
        assert_text(&rt, place_in_lines(&rt, rt.alloc(), position), place);
    }
}

/// Where a position stands in the row of four files, of which the third is empty.
fn place_in_files(rt: &impl Abort, alloc: Global, position: u32) -> String {
    let mut map = SourceMap::new(alloc);
    for (path, contents) in [("a", "i"), ("b", "j\nj"), ("c", ""), ("d", "k")] {
        let contents = string(rt, alloc, contents);
        map.push_str(alloc, path, contents).expect(rt, "memory");
    }
    map.render_location(alloc, Span::new(position, position))
        .expect(rt, "memory")
}

#[test]
fn places_are_told_in_many_files(rt: HostRuntime) {
    let places = [
        (1, "a:1:2"),
        (2, "b:1:1"),
        (5, "b:2:2"),
        (6, "c:1:1"),
        (7, "d:1:1"),
        (8, "d:1:2"),
        (9, "<unknown>"),
    ];
    for &(position, place) in &places {
        assert_text(&rt, place_in_files(&rt, rt.alloc(), position), place);
    }
}

#[test]
fn a_location_has_its_path_line_and_column(rt: HostRuntime) {
    let mut map = file(&rt, rt.alloc());
    let other = file(&rt, rt.alloc());
    map.append(rt.alloc(), other).expect(&rt, "positions");
    let location = map.location(Span::new(40, 43)).expect(&rt, "a location");
    assert_eq!(rt; location.path, "m.wit");
    assert_eq!(rt; location.line, 2);
    assert_eq!(rt; location.column, 3);
    assert_eq!(rt; map.location(Span::new(50, 51)).is_none(), true);
    assert_eq!(rt; map.location(Span::unknown()).is_none(), true);
}

const TRACKS: [(&str, &str, &str); 4] = [
    ("1.2.3", "1", "on 1.0.0 with .2.3"),
    ("0.2.1+b", "0.2", "on 0.2.0 with .1+b"),
    ("0.0.3", "0.0.3", "on 0.0.3"),
    ("1.2.3-rc.1+b", "1.2.3-rc.1", "on 1.2.3-rc.1 with +b"),
];

/// The text of a version's track.
fn track_text(rt: &impl Abort, alloc: Global, version: &Version) -> String {
    let (text, _) = PackageName::version_compat_track_string(alloc, version).expect(rt, "memory");
    text
}

/// The track of a version, and what remains of its text.
fn track(rt: &impl Abort, alloc: Global, version: &Version) -> String {
    let (track, suffix) = PackageName::version_compat_track(alloc, version).expect(rt, "memory");
    match suffix {
        Some(suffix) => format!(in alloc; "on {track} with {suffix}").expect(rt, "memory"),
        None => format!(in alloc; "on {track}").expect(rt, "memory"),
    }
}

#[test]
fn versions_have_tracks(rt: HostRuntime) {
    for &(text, shown, whole) in &TRACKS {
        let version = Version::parse(rt.alloc(), text).expect(&rt, "a version");
        assert_text(&rt, track_text(&rt, rt.alloc(), &version), shown);
        assert_text(&rt, track(&rt, rt.alloc(), &version), whole);
    }
}
