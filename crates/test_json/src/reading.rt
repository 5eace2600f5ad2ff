//! What JSON values read as, written again, and faults.
use crate::parts::list;
use std::alloc::Global;
use std::process::Abort;
use wit_data::TypeDef;
use wit_graph_data::Graph;
use wit_json::graph_to_json;
use wit_json_reading::{ReadError, place_of, read_text};

/// What a text reads as, as it is written in a graph with this type alone, or the fault.
fn read_type(rt: &impl Abort, alloc: Global, text: &str) -> String {
    let made: TypeDef = match read_text(alloc, text) {
        Ok(made) => made,
        Err(error) => return error.to_string(alloc).expect(rt, "memory"),
    };
    let mut graph = Graph::new(alloc);
    graph.types = list(rt, alloc, [made]);
    graph_to_json(alloc, &graph).expect(rt, "memory")
}

/// Ends the test where a text reads as something else, or its fault is another one.
fn assert_type(rt: &impl Abort, alloc: Global, text: &str, wanted: &str) {
    let read = read_type(rt, alloc, text);
    assert!(rt; read.as_str().contains(wanted), "{read}");
}

#[test]
fn types_are_read(rt: HostRuntime) {
    for (text, wanted) in [
        (
            " { \"owner\" : null, \"kind\":\"resource\" ,\"name\":\"r\"}\n",
            "[{\"name\":\"r\",\"kind\":\"resource\",\"owner\":null}]",
        ),
        (
            "{\"name\":null,\"owner\":{\"interface\":12},\"kind\":{\"record\":{\"fields\":[{\"docs\":{\"contents\":\"X.\"},\"type\":\"u8\",\"name\":\"x\",\"span\":[3,4]}]}}}",
            "[{\"name\":null,\"kind\":{\"record\":{\"fields\":[{\"name\":\"x\",\"type\":\"u8\",\"docs\":{\"contents\":\"X.\"}}]}},\"owner\":{\"interface\":12}}]",
        ),
        (
            "{\"name\":\"v\",\"kind\":{\"variant\":{\"cases\":[{\"name\":\"a\",\"type\":null},{\"type\":7,\"name\":\"b\"}]}},\"owner\":{\"world\":0},\"stability\":{\"unstable\":{\"deprecated\":\"1.0.0\",\"feature\":\"f\"}}}",
            "[{\"name\":\"v\",\"kind\":{\"variant\":{\"cases\":[{\"name\":\"a\",\"type\":null},{\"name\":\"b\",\"type\":7}]}},\"owner\":{\"world\":0},\"stability\":{\"unstable\":{\"feature\":\"f\",\"deprecated\":\"1.0.0\"}}}]",
        ),
        (
            "{\"name\":null,\"kind\":{\"fixed-length-list\":[\"u16\",4]},\"owner\":null,\"external-id\":\"x\"}",
            "[{\"name\":null,\"kind\":{\"fixed-length-list\":[\"u16\",4]},\"owner\":null}]",
        ),
        (
            "{\"name\":null,\"kind\":{\"map\":[\"string\",18446744073709551615]},\"owner\":null}",
            "[{\"name\":null,\"kind\":{\"map\":[\"string\",18446744073709551615]},\"owner\":null}]",
        ),
        (
            "{\"name\":null,\"kind\":{\"result\":{\"err\":\"string\",\"ok\":null}},\"owner\":null}",
            "[{\"name\":null,\"kind\":{\"result\":{\"ok\":null,\"err\":\"string\"}},\"owner\":null}]",
        ),
        (
            "{\"name\":null,\"kind\":{\"handle\":{\"borrow\":5}},\"owner\":null}",
            "[{\"name\":null,\"kind\":{\"handle\":{\"borrow\":5}},\"owner\":null}]",
        ),
        (
            "{\"name\":null,\"kind\":{\"future\":null},\"owner\":null}",
            "[{\"name\":null,\"kind\":{\"future\":null},\"owner\":null}]",
        ),
    ] {
        assert_type(&rt, rt.alloc(), text, wanted);
    }
}

#[test]
fn faults_of_types_are_told(rt: HostRuntime) {
    for (text, wanted) in [
        (
            "{",
            "$: expected a name in quotes or `}` before the text ends",
        ),
        ("{} {}", "$: expected the end of the text"),
        ("[]", "$: expected an object"),
        ("{}", "$.name: expected a member of this name"),
        (
            "{\"name\":\"a\",\"nam\":1}",
            "$.nam: expected no member of this name",
        ),
        (
            "{\"name\":\"a\",\"name\":\"b\"}",
            "$.name: expected no second member of this name",
        ),
        (
            "{\"name\":1,\"kind\":\"resource\",\"owner\":null}",
            "$.name: expected a text",
        ),
        (
            "{\"name\":null,\"kind\":\"resourc\",\"owner\":null}",
            "$.kind: expected a kind of type",
        ),
        (
            "{\"name\":null,\"kind\":{\"record\":{\"fields\":[{\"name\":\"x\",\"type\":\"u8\"},{\"name\":\"y\",\"type\":\"u9\"}]}},\"owner\":null}",
            "$.kind.record.fields[1].type: expected the name of a primitive type, or the index of a type",
        ),
        (
            "{\"name\":null,\"kind\":{\"list\":18446744073709551616},\"owner\":null}",
            "$.kind.list: expected the name of a primitive type, or the index of a type",
        ),
        (
            "{\"name\":null,\"kind\":{\"list\":1.0},\"owner\":null}",
            "$.kind.list: expected the name of a primitive type, or the index of a type",
        ),
        (
            "{\"name\":null,\"kind\":{\"list\":-1},\"owner\":null}",
            "$.kind.list: expected the name of a primitive type, or the index of a type",
        ),
        (
            "{\"name\":null,\"kind\":{\"handle\":{\"own\":18446744073709551616}},\"owner\":null}",
            "$.kind.handle.own: expected a number in digits alone, below 18446744073709551616",
        ),
        (
            "{\"name\":null,\"kind\":{\"fixed-length-list\":[\"u8\",4294967296]},\"owner\":null}",
            "$.kind.fixed-length-list[1]: expected a number below 4294967296",
        ),
        (
            "{\"name\":null,\"kind\":{\"map\":[\"u8\"]},\"owner\":null}",
            "$.kind.map: expected a list of two values",
        ),
        (
            "{\"name\":null,\"kind\":\"resource\",\"owner\":null,\"stability\":{\"stable\":{\"since\":\"1.0\"}}}",
            "$.stability.stable.since: expected a version",
        ),
        (
            "{\"name\":null,\"kind\":\"resource\",\"owner\":null,\"stability\":{\"stabel\":{}}}",
            "$.stability.stabel: expected a gate",
        ),
        (
            "{\"name\":null,\"kind\":\"resource\",\"owner\":null,\"span\":[9,3]}",
            "$.span: expected a start that isn't after its end",
        ),
        (
            "{\"name\":null,\"kind\":\"resource\",\"owner\":{\"interface\":0,\"world\":0}}",
            "$.owner: expected an owner of a type",
        ),
    ] {
        assert_type(&rt, rt.alloc(), text, wanted);
    }
}

/// Where the fault of a text is, and what was expected there; where it has none, that.
fn fault_of(rt: &impl Abort, alloc: Global, text: &str) -> String {
    let read: Result<TypeDef, ReadError> = read_text(alloc, text);
    match read {
        Ok(_) | Err(ReadError::OutOfMemory) => String::from_str(alloc, "none").expect(rt, "memory"),
        Err(ReadError::Fault(fault)) => {
            let place = place_of(alloc, text, &fault).expect(rt, "memory");
            let (line, column) = (place.line, place.column);
            let rest = text.get(place.offset..).unwrap_or("in a character");
            let expected = fault.expected;
            format!(in alloc; "{line}:{column} {expected}, not {rest}").expect(rt, "memory")
        }
    }
}

/// Ends the test where the fault of a text is another one.
fn assert_fault(rt: &impl Abort, alloc: Global, text: &str, wanted: &str) {
    let told = fault_of(rt, alloc, text);
    assert!(rt; told.as_str() == wanted, "{told}");
}

#[test]
fn faults_are_placed(rt: HostRuntime) {
    for (text, wanted) in [
        ("{\"name\":1}", "1:9 a text, not 1}"),
        (
            "{ \"name\" : null,\n \"kind\": {\"list\" : -1}}",
            "2:20 the name of a primitive type, or the index of a type, not -1}}",
        ),
        (
            "{\"name\":null,\"kind\":{\"map\":[\"u8\", \"u9\"]}}",
            "1:35 the name of a primitive type, or the index of a type, not \"u9\"]}}",
        ),
        (
            "{\"name\":null,\n\n\"name\":true}",
            "3:8 no second member of this name, not true}",
        ),
        ("{\"né\":1}", "1:7 no member of this name, not 1}"),
    ] {
        assert_fault(&rt, rt.alloc(), text, wanted);
    }
}

#[test]
fn faults_of_json_are_told(rt: HostRuntime) {
    for (text, wanted) in [
        ("", "1:1 a value before the text ends, not "),
        ("[,]", "1:2 a value or `]`, not ,]"),
        ("{,}", "1:2 a name in quotes or `}`, not ,}"),
        ("{\"a\":1,}", "1:8 a name in quotes, not }"),
        ("{\"a\"\n1}", "2:1 `:`, not 1}"),
        ("[1 2]", "1:4 `,` or `]`, not 2]"),
        ("{\"a\":01}", "1:7 `,` or `}`, not 1}"),
        ("{}\n {}", "2:2 the end of the text, not {}"),
        (
            "[\"é\n\"]",
            "1:4 a closing quote, or a character that isn't a control character, not \n\"]",
        ),
        ("[\"\\x\"]", "1:4 an escape, not x\"]"),
        ("[\"\\u00g0\"]", "1:7 a hexadecimal digit, not g0\"]"),
        (
            "[\"\\uDc00\"]",
            "1:6 a hexadecimal digit below `c`, not c00\"]",
        ),
        (
            "[\"\\ud83d\\u0000\"]",
            "1:11 the second half of a surrogate pair, not 0000\"]",
        ),
        ("[-a]", "1:3 a digit, not a]"),
        ("[1ea]", "1:4 a digit or a sign, not a]"),
        ("[tRue]", "1:3 `true`, not Rue]"),
        ("[fals", "1:6 `false` before the text ends, not "),
        ("[nil]", "1:3 `null`, not il]"),
    ] {
        assert_fault(&rt, rt.alloc(), text, wanted);
    }
}
