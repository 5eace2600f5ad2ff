//! The attributes before a statement.
ghost use Rattle.std.specs.Prelude.{◌<◌, ◌≤◌, length, OnOk};

use crate::read_fault::{Found, ReadFault, ReadFaultKind, Wanted};
use crate::reading::cursor::Cursor;
use crate::syntax::{Attribute, AttributeKind, Gate, Piece};
use crate::token::{Sign, TokenKind};
use wit_values::{Items, Text};

impl<'a> Cursor<'a> {
    /// Takes the attributes before a statement.
    pub fn gate(&mut self) -> Result<Gate, ReadFault>
        ensures { OnOk result (length self.new.rest.now ≤ length self.old.rest.now) }
    {
        let docs = self.comments();
        let attributes = self.attributes()?;
        Ok(Gate { docs, attributes })
    }

    /// Takes attributes, each behind its `@`.
    fn attributes(&mut self) -> Result<Items<Attribute>, ReadFault>
        ensures { OnOk result (length self.new.rest.now ≤ length self.old.rest.now) }
    {
        let mut attributes = Items::new(self.alloc);
        while self.takes(Sign::At) {
            let attribute = self.attribute()?;
            attributes.push(attribute)?;
        }
        Ok(attributes)
    }

    /// Takes an attribute, behind its `@`.
    fn attribute(&mut self) -> Result<Attribute, ReadFault>
        ensures { OnOk result (length self.new.rest.now < length self.old.rest.now) }
    {
        let name = self.name()?;
        let word = name.text(self.source);
        let Some(kind) = attribute_kind(word) else {
            let text = Text::try_from_str(self.alloc, word)?;
            let unknown = ReadFaultKind::UnknownAttribute(text);
            return Err(ReadFault::At(name.span, unknown));
        };
        self.expect_sign(Sign::LeftParen)?;
        let value = self.attribute_value(kind)?;
        self.expect_sign(Sign::RightParen)?;
        Ok(Attribute {
            kind,
            value,
            span: name.span,
        })
    }

    /// Takes what stands in the parentheses of an attribute.
    fn attribute_value(&mut self, kind: AttributeKind) -> Result<Piece, ReadFault>
        ensures { OnOk result (length self.new.rest.now < length self.old.rest.now) }
    {
        match kind {
            AttributeKind::ExternalId => {
                let token = self.expect(TokenKind::Text)?;
                Ok(token.quoted())
            }
            AttributeKind::Unstable => {
                self.argument("feature", Wanted::Feature)?;
                self.name()
            }
            AttributeKind::Since | AttributeKind::Deprecated => {
                self.argument("version", Wanted::Version)?;
                self.version()
            }
        }
    }

    /// Takes a word and the `=` behind it.
    fn argument(&mut self, word: &str, wanted: Wanted) -> Result<(), ReadFault>
        ensures { OnOk result (length self.new.rest.now < length self.old.rest.now) }
    {
        let name = self.name()?;
        let found = name.text(self.source);
        if found != word {
            let found = Found::Word(Text::try_from_str(self.alloc, found)?);
            let kind = ReadFaultKind::Expected { wanted, found };
            return Err(ReadFault::At(name.span, kind));
        }
        self.expect_sign(Sign::Equals)
    }
}

/// What an attribute of this name is about.
fn attribute_kind(name: &str) -> Option<AttributeKind> {
    match name {
        "since" => Some(AttributeKind::Since),
        "unstable" => Some(AttributeKind::Unstable),
        "deprecated" => Some(AttributeKind::Deprecated),
        "external-id" => Some(AttributeKind::ExternalId),
        _ => None,
    }
}
