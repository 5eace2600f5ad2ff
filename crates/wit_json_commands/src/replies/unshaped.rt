//! What a push adds without its shape.
ghost use Rattle.std.specs.Prelude.{◌≡◌, ◌++◌, OnOk, codes};
ghost use Rattle.json.specs.Tree.{json_tokens};
ghost use Rattle.wit_json.specs.Values.{json_of_text, member};
ghost use Rattle.wit_json.specs.steps.Members.{Adds};
ghost use Rattle.wit_json_commands.specs.UnshapedJson.{json_of_unshaped, package_path, steps_to};
ghost use Rattle.wit_json_commands.specs.steps.Paths.{steps_tokens};
ghost use Rattle.wit_shape.specs.FaultText.{clause_name, clause_text, place_text};

use std::alloc::AllocError;
use wit_json::{JsonText, WriteJson};
use wit_shape::{ShapeFault, ShapePlace};

/// A package of a push that lacks its shape, and what it lacks first.
#[derive(Clone, Copy)]
pub struct Unshaped {
    /// The index of its group among those that come with the main one; none of the main one.
    pub group: Option<usize>,
    /// Its index among the nested packages of its group; none of the main one.
    pub package: Option<usize>,
    pub fault: ShapeFault,
}

/// Writes where a group stands in a push.
fn write_group(out: &mut JsonText, group: Option<usize>) -> Result<(), AllocError>
    ensures { OnOk result (out.new ≡ out.old ++ steps_tokens (steps_to (codes "deps") group)) }
{
    match group {
        Some(index) => {
            out.string("deps")?;
            out.number(index as u64)
        }
        None => out.string("main"),
    }
}

/// Writes where a package stands in a group.
fn write_package(out: &mut JsonText, package: Option<usize>) -> Result<(), AllocError>
    ensures { OnOk result
        (out.new ≡ out.old ++ steps_tokens (steps_to (codes "nested") «package»)) }
{
    match package {
        Some(index) => {
            out.string("nested")?;
            out.number(index as u64)
        }
        None => out.string("main"),
    }
}

/// Writes the path to a package of a push.
fn write_path(
    out: &mut JsonText,
    group: Option<usize>,
    package: Option<usize>,
) -> Result<(), AllocError>
    ensures { OnOk result (out.new ≡ out.old ++ json_tokens (package_path group «package»)) }
{
    out.begin_array()?;
    write_group(out, group)?;
    write_package(out, package)?;
    out.end_array()
}

/// Writes the member that has the path to the package.
fn write_path_member(out: &mut JsonText, unshaped: &Unshaped) -> Result<(), AllocError>
    ensures { OnOk result (Adds out.old out.new
        (member (codes "path") (package_path unshaped.now.group unshaped.now.«package»))) }
{
    out.key("path")?;
    write_path(out, unshaped.group, unshaped.package)
}

/// Writes a member whose value is a text.
pub(super) fn write_text(out: &mut JsonText, name: &str, text: &str) -> Result<(), AllocError>
    ensures { OnOk result (Adds out.old out.new (member name.now (json_of_text text.now))) }
{
    out.key(name)?;
    out.string(text)
}

/// Writes the member that has the place of what breaks the shape.
fn write_place(out: &mut JsonText, place: ShapePlace) -> Result<(), AllocError>
    ensures { OnOk result
        (Adds out.old out.new (member (codes "place") (json_of_text (place_text place)))) }
{
    let alloc = out.allocator();
    let text = format!(in alloc; "{place}")?;
    write_text(out, "place", text.as_str())
}

/// Writes the clause of the shape that is broken, and what breaks it.
fn write_fault(out: &mut JsonText, fault: ShapeFault) -> Result<(), AllocError>
    ensures { OnOk result (Adds out.old out.new
        (member (codes "clause") (json_of_text (clause_name fault.clause))
        ++ member (codes "place") (json_of_text (place_text fault.place))
        ++ member (codes "text") (json_of_text (clause_text fault.clause)))) }
{
    write_text(out, "clause", fault.clause.name())?;
    write_place(out, fault.place)?;
    write_text(out, "text", fault.clause.text())
}

impl WriteJson for Unshaped {
    ghost json = { json_of_unshaped };

    fn write_json(&self, out: &mut JsonText) -> Result<(), AllocError> {
        out.begin_object()?;
        write_path_member(out, self)?;
        write_fault(out, self.fault)?;
        out.end_object()
    }
}
