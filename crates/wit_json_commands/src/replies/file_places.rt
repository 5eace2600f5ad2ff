//! Places in files by path, line and column, as data.
ghost use Rattle.std.specs.Prelude.{◌≡◌, IfOk, OnOk};
ghost use Rattle.wit_json.specs.Values.{json_of_number, member};
ghost use Rattle.wit_json.specs.steps.Members.{Adds};
ghost use Rattle.wit_json_commands.specs.FilePlaces.{file_place};
ghost use Rattle.wit_json_commands.specs.RefusalJson.{json_of_file_place};

use std::alloc::{AllocError, Global};
use wit_data::{SourceMap, Span, Text};
use wit_json::{JsonText, WriteJson};

/// Where something begins: a file by its path, a line and a column, both from 1.
#[derive(Drop)]
pub struct FilePlace {
    pub path: Text,
    pub line: usize,
    pub column: usize,
}

/// Where a span begins; None where it is unknown or in no file. The only error is want of memory.
pub fn file_place(
    alloc: Global,
    files: &SourceMap,
    span: Span,
) -> Result<Option<FilePlace>, AllocError>
    ensures { IfOk result (λ place. place ≡ file_place files.now.files span) }
{
    match files.location(span) {
        Some(location) => {
            let path = Text::try_from_str(alloc, location.path)?;
            let (line, column) = (location.line, location.column);
            Ok(Some(FilePlace { path, line, column }))
        }
        None => Ok(None),
    }
}

/// Writes a member that has a number.
pub fn write_number(out: &mut JsonText, name: &str, number: usize) -> Result<(), AllocError>
    ensures { OnOk result (Adds out.old out.new (member name.now (json_of_number number))) }
{
    out.key(name)?;
    out.number(number as u64)
}

impl WriteJson for FilePlace {
    ghost json = { json_of_file_place };

    fn write_json(&self, out: &mut JsonText) -> Result<(), AllocError> {
        out.begin_object()?;
        out.member("path", &self.path)?;
        write_number(out, "line", self.line)?;
        write_number(out, "column", self.column)?;
        out.end_object()
    }
}
