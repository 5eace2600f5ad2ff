//! Faults as texts.
ghost use Rattle.std.specs.Prelude.{None, Some};
ghost use Rattle.wit_json_reading.specs.Messages.{expected_text, json_part_text, path_step_text};

use crate::fault::{Expected, Fault, ReadError, Step};
use crate::syntax::JsonPart;
use std::error::Error;
use std::fmt;

impl fmt::Display for Expected {
    ghost output = { λ expected. Some (expected_text expected) };

    fn fmt<W: fmt::Write>(&self, f: &mut fmt::Formatter<W>) -> fmt::Result {
        let text = match self {
            Expected::Document => "a JSON value and nothing else",
            Expected::Json(part) => return part.fmt(f),
            Expected::UnfinishedJson(part) => return write!(f, "{part} before the text ends"),
            Expected::Nesting => "at most 128 lists and objects in one another",
            Expected::Object => "an object",
            Expected::List => "a list",
            Expected::Text => "a text",
            Expected::Number => "a number in digits alone, below 18446744073709551616",
            Expected::SmallNumber => "a number below 4294967296",
            Expected::Version => "a version",
            Expected::Pair => "a list of two values",
            Expected::Span => "a start that isn't after its end",
            Expected::Member => "a member of this name",
            Expected::NoMember => "no member of this name",
            Expected::NoSecondMember => "no second member of this name",
            Expected::Type => "the name of a primitive type, or the index of a type",
            Expected::TypeKind => "a kind of type",
            Expected::FunctionKind => "a kind of function",
            Expected::Gate => "a gate",
            Expected::Owner => "an owner of a type",
            Expected::Handle => "a handle",
            Expected::Entry => "an entry of a world",
            Expected::PackageName => "the name of a package",
            Expected::ForeignItem => "an interface or a world of another package",
            Expected::Source => "a file that ends before position 4294967296",
            Expected::Boolean => "true or false",
            Expected::Command => "a command",
            Expected::TrackRule => "a rule of tracks",
            Expected::Mangling => "a mangling",
            Expected::FunctionPlace => "where a function stands",
            Expected::NewName => "a name that no package before it has",
            Expected::Details => "details of the same things in the same order",
            Expected::ValidGraph(_) => "a valid graph",
        };
        f.write_str(text)
    }
}

impl fmt::Display for JsonPart {
    ghost output = { λ part. Some (json_part_text part) };

    fn fmt<W: fmt::Write>(&self, f: &mut fmt::Formatter<W>) -> fmt::Result {
        let text = match self {
            JsonPart::Value => "a value",
            JsonPart::ValueOrListEnd => "a value or `]`",
            JsonPart::NameOrObjectEnd => "a name in quotes or `}`",
            JsonPart::Name => "a name in quotes",
            JsonPart::Colon => "`:`",
            JsonPart::CommaOrListEnd => "`,` or `]`",
            JsonPart::CommaOrObjectEnd => "`,` or `}`",
            JsonPart::TextEnd => "the end of the text",
            JsonPart::Character => "a closing quote, or a character that isn't a control character",
            JsonPart::Escape => "an escape",
            JsonPart::HexDigit => "a hexadecimal digit",
            JsonPart::HexDigitBelowC => "a hexadecimal digit below `c`",
            JsonPart::SecondHalf => "the second half of a surrogate pair",
            JsonPart::Digit => "a digit",
            JsonPart::DigitOrSign => "a digit or a sign",
            JsonPart::True => "`true`",
            JsonPart::False => "`false`",
            JsonPart::Null => "`null`",
        };
        f.write_str(text)
    }
}

impl fmt::Display for Step {
    ghost output = { λ step. Some (path_step_text step) };

    fn fmt<W: fmt::Write>(&self, f: &mut fmt::Formatter<W>) -> fmt::Result {
        match self {
            Step::Member(name) => write!(f, ".{name}"),
            Step::Item(index) => write!(f, "[{index}]"),
        }
    }
}

/// The path from the whole value, and what was to stand there: for a message, contracts don't say it.
impl fmt::Display for Fault {
    ghost output = { λ _. None };

    fn fmt<W: fmt::Write>(&self, f: &mut fmt::Formatter<W>) -> fmt::Result {
        write!(f, "$")?;
        for step in self.path.iter().rev() {
            write!(f, "{step}")?;
        }
        let expected = self.expected;
        write!(f, ": expected {expected}")?;
        match expected {
            Expected::ValidGraph(reason) => write!(f, ", but {reason}"),
            _ => Ok(()),
        }
    }
}

impl fmt::Display for ReadError {
    ghost output = { λ _. None };

    fn fmt<W: fmt::Write>(&self, f: &mut fmt::Formatter<W>) -> fmt::Result {
        match self {
            ReadError::Fault(fault) => fault.fmt(f),
            ReadError::OutOfMemory => f.write_str("out of memory"),
        }
    }
}

impl Error for ReadError {}
