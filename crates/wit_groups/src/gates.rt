//! What stands before a statement: its gate, its documentation, its external id.

use crate::fault::{Fault, GroupFaultKind, RuleFault};
use std::alloc::{AllocError, Global};
use wit_data::{Docs, Stability, Text, Version};
use wit_text::syntax::{Attribute, AttributeKind, Gate, Piece};
use wit_text::{Comments, ReadFaultKind};

/// What most things may have.
#[derive(Drop)]
pub(crate) struct Common {
    pub docs: Docs,
    pub stability: Stability,
    pub external_id: Option<Text>,
}

/// What stands before a thing of a file with this text.
pub(crate) fn common_of(
    alloc: Global,
    source: &str,
    gate: &Gate,
    may_have_id: bool,
) -> Result<Common, Fault> {
    check_attributes(gate, may_have_id)?;
    let stability = stability_of(alloc, source, gate)?;
    let docs = docs_of(alloc, source, &gate.docs)?;
    let external_id = external_id(alloc, source, gate)?;
    Ok(Common {
        docs,
        stability,
        external_id,
    })
}

/// Whether the attributes of a statement go together.
pub(crate) fn check_attributes(gate: &Gate, may_have_id: bool) -> Result<(), Fault> {
    check_external_ids(gate, may_have_id)?;
    check_gates(gate)
}

/// Whether there is at most one external id, and none where there may be none.
fn check_external_ids(gate: &Gate, may_have_id: bool) -> Result<(), Fault> {
    let mut last = None;
    let mut are_too_many = false;
    for attribute in gate.attributes.iter() {
        if attribute.kind == AttributeKind::ExternalId {
            are_too_many = !may_have_id || last.is_some();
            last = Some(attribute.span);
        }
    }
    match last {
        Some(span) if are_too_many => Err(Fault::rule(span, RuleFault::MisplacedExternalId)),
        _ => Ok(()),
    }
}

/// Whether the attributes that aren't external ids are none, `since` or `unstable`, or one of these and `deprecated`.
fn check_gates(gate: &Gate) -> Result<(), Fault> {
    let Some(first) = nth_gate(gate, 0) else {
        return Ok(());
    };
    match nth_gate(gate, 1) {
        None if first.kind == AttributeKind::Deprecated => {
            Err(Fault::rule(first.span, RuleFault::DeprecatedAlone))
        }
        None => Ok(()),
        Some(second) => {
            if nth_gate(gate, 2).is_none() && go_together(first.kind, second.kind) {
                return Ok(());
            }
            Err(Fault::rule(second.span, RuleFault::UnsupportedAttributes))
        }
    }
}

/// Of the attributes that aren't external ids the one behind so many others.
fn nth_gate(gate: &Gate, count: usize) -> Option<Attribute> {
    let mut before: usize = 0;
    for attribute in gate.attributes.iter() {
        if attribute.kind != AttributeKind::ExternalId {
            if before == count {
                return Some(*attribute);
            }
            before = before.saturating_add(1);
        }
    }
    None
}

/// Whether one of two attributes says since when a thing is deprecated, and the other doesn't.
fn go_together(first: AttributeKind, second: AttributeKind) -> bool {
    (first == AttributeKind::Deprecated) != (second == AttributeKind::Deprecated)
}

/// The gate of a statement. An `unstable` goes before a `since`.
pub(crate) fn stability_of(alloc: Global, source: &str, gate: &Gate) -> Result<Stability, Fault> {
    if let Some(feature) = value(gate, AttributeKind::Unstable) {
        let deprecated = deprecated(alloc, source, gate)?;
        let feature = Text::try_from_str(alloc, feature.text(source))?;
        return Ok(Stability::Unstable {
            feature,
            deprecated,
        });
    }
    match value(gate, AttributeKind::Since) {
        Some(since) => {
            let since = version_of(alloc, source, &since)?;
            let deprecated = deprecated(alloc, source, gate)?;
            Ok(Stability::Stable { since, deprecated })
        }
        None => Ok(Stability::Unknown),
    }
}

/// Since when a thing is deprecated.
fn deprecated(alloc: Global, source: &str, gate: &Gate) -> Result<Option<Version>, Fault> {
    match value(gate, AttributeKind::Deprecated) {
        Some(piece) => Ok(Some(version_of(alloc, source, &piece)?)),
        None => Ok(None),
    }
}

/// The external id of a thing.
fn external_id(alloc: Global, source: &str, gate: &Gate) -> Result<Option<Text>, AllocError> {
    match value(gate, AttributeKind::ExternalId) {
        Some(piece) => Ok(Some(Text::try_from_str(alloc, piece.text(source))?)),
        None => Ok(None),
    }
}

/// What the first attribute of this kind says.
fn value(gate: &Gate, kind: AttributeKind) -> Option<Piece> {
    for attribute in gate.attributes.iter() {
        if attribute.kind == kind {
            return Some(attribute.value);
        }
    }
    None
}

/// The version that a piece of a text is.
pub(crate) fn version_of(alloc: Global, source: &str, piece: &Piece) -> Result<Version, Fault> {
    match Version::parse(alloc, piece.text(source)) {
        Ok(version) => Ok(version),
        Err(error) if error == semver::Error::from(AllocError) => Err(Fault::OutOfMemory),
        Err(error) => {
            let kind = GroupFaultKind::Syntax(ReadFaultKind::NoVersion(error));
            Err(Fault::At(piece.span, kind))
        }
    }
}

/// The documentation in comments of a text.
pub(crate) fn docs_of(
    alloc: Global,
    source: &str,
    comments: &Option<Comments>,
) -> Result<Docs, AllocError> {
    match comments {
        Some(comments) => Ok(Docs {
            contents: comments.docs(alloc, source)?,
        }),
        None => Ok(Docs::none()),
    }
}
