//! What stands above a thing (its documentation, its gate, its external id), and the braces around what stands in it.
ghost use Rattle.std.specs.Prelude.{◌≡◌, ◌==◌, ◌++◌, [], OnOk, codes, flat_map, string_bytes};
ghost use Rattle.std.specs.List.{slice_split};
ghost use Rattle.std.specs.Option.{option_map_or};
ghost use Rattle.semver.specs.Identifiers.{parts_text};
ghost use Rattle.wit_print.specs.Headings.{attribute_wit, block_wit, deprecated_wit, doc_line, docs_wit, gate_wit, heading_wit};
ghost use Rattle.wit_print.specs.Names.{name_wit};

use crate::names::Name;
use std::alloc::AllocError;
use std::fmt::Write;
use wit_data::{Docs, Stability, Text, Version};

/// Writes all that stands above a thing.
#[tactic(auto, unfolding(crate::specs::Headings::heading_wit))]
pub fn write_heading(
    indent: &str,
    docs: &Docs,
    stability: &Stability,
    external_id: &Option<Text>,
    text: &mut String,
) -> Result<(), AllocError>
    ensures { OnOk result (string_bytes text.new
        ≡ string_bytes text.old
        ++ heading_wit indent.now docs.now stability.now external_id.now) }
{
    write_docs(indent, docs, text)?;
    write_gate(indent, stability, text)?;
    write_external_id(indent, external_id, text)
}

/// Writes documentation, a comment for each line of it.
#[tactic(auto, unfolding(crate::specs::Headings::docs_wit))]
pub fn write_docs(indent: &str, docs: &Docs, text: &mut String) -> Result<(), AllocError>
    ensures { OnOk result
        (string_bytes text.new ≡ string_bytes text.old ++ docs_wit indent.now docs.now) }
{
    match &docs.contents {
        Some(contents) => write_doc_lines(indent, contents.as_str(), text),
        None => Ok(()),
    }
}

fn write_doc_lines(indent: &str, contents: &str, text: &mut String) -> Result<(), AllocError>
    ensures { OnOk result (string_bytes text.new
        ≡ string_bytes text.old
        ++ flat_map (doc_line indent.now) (slice_split (λ b. b == 10) contents.now)) }
{
    for line in contents.split('\n') {
        write_doc_line(indent, line, text)?;
    }
    Ok(())
}

fn write_doc_line(indent: &str, line: &str, text: &mut String) -> Result<(), AllocError>
    ensures { OnOk result
        (string_bytes text.new ≡ string_bytes text.old ++ doc_line indent.now line.now) }
{
    if line.len() == 0 {
        write!(text, "{indent}///\n")
    } else {
        write!(text, "{indent}/// {line}\n")
    }
}

/// Writes a gate.
#[tactic(auto, unfolding(crate::specs::Headings::gate_wit))]
fn write_gate(indent: &str, stability: &Stability, text: &mut String) -> Result<(), AllocError>
    ensures { OnOk result
        (string_bytes text.new ≡ string_bytes text.old ++ gate_wit indent.now stability.now) }
{
    match stability {
        Stability::Unknown => Ok(()),
        Stability::Stable { since, deprecated } => {
            write_since(indent, since, text)?;
            write_deprecated(indent, deprecated, text)
        }
        Stability::Unstable {
            feature,
            deprecated,
        } => {
            write_unstable(indent, feature, text)?;
            write_deprecated(indent, deprecated, text)
        }
    }
}

fn write_since(indent: &str, version: &Version, text: &mut String) -> Result<(), AllocError>
    ensures { OnOk result (string_bytes text.new
        ≡ string_bytes text.old
        ++ attribute_wit indent.now (codes "@since(version = ") (parts_text version.now)) }
{
    write!(text, "{indent}@since(version = {version})\n")
}

fn write_unstable(indent: &str, feature: &Text, text: &mut String) -> Result<(), AllocError>
    ensures { OnOk result (string_bytes text.new
        ≡ string_bytes text.old
        ++ attribute_wit indent.now (codes "@unstable(feature = ") (name_wit feature.now)) }
{
    let feature = Name(feature.as_str());
    write!(text, "{indent}@unstable(feature = {feature})\n")
}

fn write_deprecated(
    indent: &str,
    deprecated: &Option<Version>,
    text: &mut String,
) -> Result<(), AllocError>
    ensures { OnOk result (string_bytes text.new
        ≡ string_bytes text.old ++ deprecated_wit indent.now deprecated.now) }
{
    match deprecated {
        Some(version) => write!(text, "{indent}@deprecated(version = {version})\n"),
        None => Ok(()),
    }
}

/// Writes an external id.
fn write_external_id(
    indent: &str,
    external_id: &Option<Text>,
    text: &mut String,
) -> Result<(), AllocError>
    ensures { OnOk result (string_bytes text.new
        ≡ string_bytes text.old
        ++ option_map_or
        (λ id. attribute_wit indent.now (codes "@external-id(\"") (id ++ codes "\""))
        external_id.now []) }
{
    match external_id {
        Some(id) => write!(text, "{indent}@external-id(\"{id}\")\n"),
        None => Ok(()),
    }
}

/// Writes a word, a name, and a body in braces.
#[tactic(auto, unfolding(crate::specs::Headings::block_wit))]
pub fn write_block(
    indent: &str,
    word: &str,
    name: &str,
    body: &str,
    text: &mut String,
) -> Result<(), AllocError>
    ensures { OnOk result (string_bytes text.new
        ≡ string_bytes text.old ++ block_wit indent.now word.now name.now body.now) }
{
    let name = Name(name);
    write!(text, "{indent}{word}{name} {{\n{body}{indent}}}\n")
}
