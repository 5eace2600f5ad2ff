//! Refusals.
ghost use Rattle.std.specs.Prelude.{◌≡◌, ◌++◌, IfOk, OnOk, string_bytes, codes};
ghost use Rattle.json.specs.Tree.{json_tokens};
ghost use Rattle.wit_json.specs.Graph.{compact};
ghost use Rattle.wit_json.specs.Refusals.{cause_word, json_of_refusal, kind_word};
ghost use Rattle.wit_json.specs.Details.{span_member};
ghost use Rattle.wit_json.specs.Values.{json_of_number, json_of_text, member, object};
ghost use Rattle.wit_json.specs.steps.Members.{Adds};

use crate::writer::{JsonText, WriteJson, text_of};
use std::alloc::{AllocError, Global};
use wit_data::{Span, Text};
use wit_graph_data::{Cause, ResolveError, ResolveErrorKind};

impl WriteJson for ResolveError {
    ghost json = { json_of_refusal };

    fn write_json(&self, out: &mut JsonText) -> Result<(), AllocError> {
        let alloc = out.allocator();
        let text = Text::from_string(format!(in alloc; "{self}")?);
        let (number, word, span) = (self.number(), kind_word(self.kind()), self.kind().span());
        out.refusal(number, word, &text, span)
    }
}

impl JsonText {
    /// Writes a refusal with these parts.
    fn refusal(
        &mut self,
        number: u32,
        word: &str,
        text: &Text,
        span: Span,
    ) -> Result<(), AllocError>
        ensures { OnOk result (self.new
            ≡ self.old
            ++ json_tokens
            (object (member (codes "number") (json_of_number number)
            ++ member (codes "cause") (json_of_text word.now)
            ++ member (codes "text") (json_of_text text.now) ++ span_member span))) }
    {
        self.begin_object()?;
        self.member("number", &number)?;
        self.word("cause", word)?;
        self.member("text", text)?;
        self.span(span)?;
        self.end_object()
    }

    /// Writes a member whose value is a word.
    fn word(&mut self, name: &str, word: &str) -> Result<(), AllocError>
        ensures { OnOk result (Adds self.old self.new (member name.now (json_of_text word.now))) }
    {
        self.key(name)?;
        self.string(word)
    }
}

/// The word of what went wrong.
fn kind_word(kind: &ResolveErrorKind) -> &'static str
    ensures { result.now ≡ kind_word kind.now }
{
    match kind {
        ResolveErrorKind::PackageNotFound { .. } => "package-not-found",
        ResolveErrorKind::WorldNotFound { .. } => "world-not-found",
        ResolveErrorKind::InterfaceNotFound { .. } => "interface-not-found",
        ResolveErrorKind::InvalidTransitiveDependency { .. } => "invalid-transitive-dependency",
        ResolveErrorKind::DuplicatePackage { .. } => "duplicate-package",
        ResolveErrorKind::PackageCycle { .. } => "package-cycle",
        ResolveErrorKind::ItemShadowing { .. } => "item-shadowing",
        ResolveErrorKind::StabilityMismatch { .. } => "stability-mismatch",
        ResolveErrorKind::Semantic { cause, .. } => cause_word(*cause),
        ResolveErrorKind::OffsetOverflow => "offset-overflow",
        ResolveErrorKind::OutOfMemory => "out-of-memory",
    }
}

/// The word of a cause that is told by a message.
fn cause_word(cause: Cause) -> &'static str
    ensures { result.now ≡ cause_word cause }
{
    match cause {
        Cause::GateWithoutVersion => "gate-without-version",
        Cause::GateUnreleased => "gate-unreleased",
        Cause::Excluded => "excluded",
        Cause::ExcludedOwner => "excluded-owner",
        Cause::TypeNotDefined => "type-not-defined",
        Cause::NotAResource => "not-a-resource",
        Cause::BorrowInResult => "borrow-in-result",
        Cause::RenameUnmatched => "rename-unmatched",
        Cause::NotStronglyUnique => "not-strongly-unique",
        Cause::NoGetter => "no-getter",
        Cause::LabelClash => "label-clash",
        Cause::NameTaken => "name-taken",
        Cause::TypeExported => "type-exported",
        Cause::InterfaceCycle => "interface-cycle",
        Cause::TypeCycle => "type-cycle",
        Cause::MergeMismatch => "merge-mismatch",
        Cause::UpgradeMismatch => "upgrade-mismatch",
        Cause::WorldSelection => "world-selection",
        Cause::Other => "other",
    }
}

/// A refusal as JSON, without a space. The only error is want of memory.
pub fn refusal_to_json(alloc: Global, refusal: &ResolveError) -> Result<String, AllocError>
    ensures { IfOk result (λ text. string_bytes text ≡ compact (json_of_refusal refusal.now)) }
{
    text_of(alloc, refusal)
}
