//! Lines and columns of faults.
ghost use Rattle.std.specs.Prelude.{◌≡◌, ◌≤◌, length};
ghost use Rattle.wit_sources.specs.Lines.{column, line_number};

/// Where in a text a fault is: how many bytes stand before it, and its line and column, both from 1. Lines end at line feeds,
/// columns count characters.
#[derive(Clone, Copy, Debug, PartialEq, Eq)]
pub struct FaultPlace {
    pub offset: usize,
    pub line: usize,
    pub column: usize,
}

/// The line and the column of a place.
pub(crate) fn place_at(text: &str, offset: usize) -> FaultPlace
    requires { offset ≤ length text.now }
    ensures offset { result.offset ≡ offset }
    ensures line { result.line ≡ line_number text.now offset }
    ensures column { result.column ≡ column text.now offset }
{
    let bytes = text.as_bytes();
    let (mut line, mut column) = (1, 1);
    for index in 0..offset {
        if bytes[index] == b'\n' {
            line += 1;
            column = 1;
        } else if bytes[index] < 0x80 || bytes[index] >= 0xC0 {
            column += 1;
        }
    }
    FaultPlace {
        offset,
        line,
        column,
    }
}
