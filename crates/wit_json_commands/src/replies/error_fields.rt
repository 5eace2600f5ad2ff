//! The fields of errors as members of an object.
ghost use Rattle.std.specs.Prelude.{◌≡◌, ◌++◌, OnOk, codes};
ghost use Rattle.json.specs.Tree.{json_tokens};
ghost use Rattle.wit_json.specs.Values.{member};
ghost use Rattle.wit_json.specs.steps.Members.{Adds};
ghost use Rattle.wit_json_commands.specs.RefusalJson.{error_fields, json_of_fields};

use std::alloc::AllocError;
use wit_graph_data::ResolveErrorKind;
use wit_json::{JsonText, WriteJson};

/// Writes the member that has the fields of an error under their names.
pub fn write_fields(out: &mut JsonText, kind: &ResolveErrorKind) -> Result<(), AllocError>
    ensures { OnOk result
        (Adds out.old out.new (member (codes "fields") (json_of_fields kind.now))) }
{
    out.key("fields")?;
    write_object(out, kind)
}

/// Writes the object of the fields of an error.
fn write_object(out: &mut JsonText, kind: &ResolveErrorKind) -> Result<(), AllocError>
    ensures { OnOk result (out.new ≡ out.old ++ json_tokens (json_of_fields kind.now)) }
{
    out.begin_object()?;
    write_members(out, kind)?;
    out.end_object()
}

/// Writes the fields of an error. Its span and its cause stand beside them.
fn write_members(out: &mut JsonText, kind: &ResolveErrorKind) -> Result<(), AllocError>
    ensures { OnOk result (Adds out.old out.new (error_fields kind.now)) }
{
    match kind {
        ResolveErrorKind::PackageNotFound {
            requested,
            known,
            ..
        } => write_two(out, "requested", requested, "known", known),
        ResolveErrorKind::WorldNotFound {
            requested,
            package,
            ..
        } => write_two(out, "requested", requested, "package", package),
        ResolveErrorKind::InterfaceNotFound {
            requested,
            package,
            ..
        } => write_two(out, "requested", requested, "package", package),
        ResolveErrorKind::InvalidTransitiveDependency { name, .. } => out.member("name", name),
        ResolveErrorKind::DuplicatePackage { name, span1, span2 } => {
            write_two(out, "name", name, "span1", span1)?;
            out.member("span2", span2)
        }
        ResolveErrorKind::PackageCycle { package, .. } => out.member("package", package),
        ResolveErrorKind::ItemShadowing {
            item_type,
            name,
            ..
        } => write_two(out, "item-type", item_type, "name", name),
        ResolveErrorKind::StabilityMismatch { from, into, .. } => {
            write_two(out, "from", from, "into", into)
        }
        ResolveErrorKind::Semantic { message, .. } => out.member("message", message),
        ResolveErrorKind::OffsetOverflow => Ok(()),
        ResolveErrorKind::OutOfMemory => Ok(()),
    }
}

/// Writes two members.
fn write_two<A: WriteJson, B: WriteJson>(
    out: &mut JsonText,
    first: &str,
    one: &A,
    second: &str,
    other: &B,
) -> Result<(), AllocError>
    ensures { OnOk result (Adds out.old out.new
        (member first.now (A.json one.now) ++ member second.now (B.json other.now))) }
{
    out.member(first, one)?;
    out.member(second, other)
}
