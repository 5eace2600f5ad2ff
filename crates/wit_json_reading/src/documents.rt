//! Whole texts.
ghost use Rattle.std.specs.Prelude.{◌≡◌, ◌≤◌, IfOk, length};
ghost use Rattle.wit_json_reading.specs.Documents.{expected_at, read_from};
ghost use Rattle.wit_json_reading.specs.Places.{IsOffsetOf, IsPlaceOf, is_of_text, stop_offset};
ghost use Rattle.wit_json_reading.specs.Reading.{Reads, instead_of};
ghost use Rattle.wit_json_reading.specs.Stops.{stop_in};

use crate::fault::{Expected, Fault, ReadError, Step, instead_of};
use crate::places::{FaultPlace, place_at};
use crate::reader::ReadJson;
use crate::stops::first_stop;
use json::{MAX_DEPTH, Reader, Scratch, Token, Value};
use std::alloc::{AllocError, Global};

/// What a text reads as that is a JSON value, with whatever white space.
pub fn read_text<T: ReadJson>(alloc: Global, text: &str) -> Result<T, ReadError>
    ensures { Reads result (read_from T.reading text.now) }
{
    let mut scratch = Scratch::new(alloc);
    match Value::parse(alloc, text, &mut scratch) {
        Ok(value) => T::read_json(alloc, &value),
        Err(json::Error::OutOfMemory) => Err(ReadError::OutOfMemory),
        Err(_) => broken(alloc, text),
    }
}

/// The fault of a text that isn't JSON: what was expected where it stops being JSON.
fn broken<T>(alloc: Global, text: &str) -> Result<T, ReadError>
    ensures { Reads result (instead_of (expected_at (stop_in text.now))) }
{
    match first_stop(alloc, text)? {
        Some((_, expected)) => instead_of(alloc, expected),
        None => instead_of(alloc, Expected::Document),
    }
}

/// Where in a text a fault is: where a text stops being JSON, or else where a value begins. The only error is want of memory.
pub fn place_of(alloc: Global, text: &str, fault: &Fault) -> Result<FaultPlace, AllocError>
    ensures { IfOk result (λ place. IsPlaceOf text.now fault.now place) }
{
    let offset = offset_of(alloc, text, fault)?;
    Ok(place_at(text, offset))
}

/// How many bytes stand before a fault.
fn offset_of(alloc: Global, text: &str, fault: &Fault) -> Result<usize, AllocError>
    ensures { IfOk result (λ offset. IsOffsetOf text.now fault.now offset) }
{
    if is_of_text(fault.expected) {
        return stop_offset(alloc, text);
    }
    let offset = value_offset(alloc, text, fault)?;
    Ok(offset.min(text.len()))
}

/// Whether a fault is one of a text that isn't JSON.
fn is_of_text(expected: Expected) -> bool
    ensures { result ≡ is_of_text expected }
{
    match expected {
        Expected::Document | Expected::Nesting => true,
        Expected::Json(_) | Expected::UnfinishedJson(_) => true,
        _ => false,
    }
}

/// How many bytes of a text are the beginning of JSON.
fn stop_offset(alloc: Global, text: &str) -> Result<usize, AllocError>
    ensures value { IfOk result (λ offset. offset ≡ stop_offset text.now) }
    ensures within { IfOk result (λ offset. offset ≤ length text.now) }
{
    match first_stop(alloc, text)? {
        Some((offset, _)) => Ok(offset),
        None => Ok(text.len()),
    }
}

/// Where in a text the value of a fault begins, as far as its path leads there: for a message, contracts don't say it. The
/// only error is want of memory.
fn value_offset(alloc: Global, text: &str, fault: &Fault) -> Result<usize, AllocError> {
    let mut scratch = Scratch::new(alloc);
    let mut reader = Reader::new(text, &mut scratch)?;
    let count = fault.path.len();
    for index in 0..count {
        if !take_step(&mut reader, fault.path.at(count - 1 - index), text.len()) {
            return Ok(reader.offset());
        }
    }
    if fault.expected == Expected::NoSecondMember && count > 0 {
        return Ok(second_offset(&mut reader, fault.path.at(0), text.len()));
    }
    Ok(reader.offset())
}

/// Goes to where a step leads. Answers whether it is there.
fn take_step(reader: &mut Reader<'_>, step: &Step, most: usize) -> bool {
    match step {
        Step::Member(name) => {
            matches!(reader.next(), Some(Token::BeginObject))
                && take_to(reader, name.as_str(), most)
        }
        Step::Item(index) => {
            let mut found = matches!(reader.next(), Some(Token::BeginArray));
            for _ in 0..*index {
                found = found && reader.skip_value(MAX_DEPTH).is_ok();
            }
            found
        }
    }
}

/// Where the second member of a name begins, after the first one was found: that one where there is no second, since a label
/// may stand without a mark and with one.
fn second_offset(reader: &mut Reader<'_>, step: &Step, most: usize) -> usize {
    let first = reader.offset();
    if let Step::Member(name) = step {
        if reader.skip_value(MAX_DEPTH).is_ok() && take_to(reader, name.as_str(), most) {
            return reader.offset();
        }
    }
    first
}

/// Goes on in an object to the value of the next member of this name, past so many others at the most.
fn take_to(reader: &mut Reader<'_>, name: &str, most: usize) -> bool {
    for _ in 0..most {
        match reader.next_key() {
            Ok(Some(key)) => {
                if key == name {
                    return true;
                }
                if reader.skip_value(MAX_DEPTH).is_err() {
                    return false;
                }
            }
            _ => return false,
        }
    }
    false
}
