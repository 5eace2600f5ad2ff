//! What writes JSON, value by value.
ghost use Rattle.std.specs.Prelude.{◌≡◌, ◌++◌, ◌∷◌, [], IfOk, OnOk, string_bytes, decimal};
ghost use Rattle.std.specs.Option.{option_map};
ghost use Rattle.std.specs.Str.{IsUtf8};
ghost use Rattle.json.specs.Json.{Json};
ghost use Rattle.json.specs.Lex.{tokens};
ghost use Rattle.json.specs.Print.{print};
ghost use Rattle.json.specs.Tree.{json_tokens};
ghost use Rattle.json.specs.Token.{begin_array, begin_object, boolean, end_array, end_object, key, null, number, string};
ghost use Rattle.wit_json.specs.Graph.{compact};
ghost use Rattle.wit_json.specs.Values.{list_of, member, optional, tagged};
ghost use Rattle.wit_json.specs.steps.Members.{Adds};

use json::Writer;
use std::alloc::{AllocError, Global};
use std::marker::Model;

/// What is written as a JSON value.
pub trait WriteJson {
    /// The value.
    ghost json: { Self → Json };

    /// Writes it. The only error is want of memory, after which a part of it may be written.
    fn write_json(&self, out: &mut JsonText) -> Result<(), AllocError>
        ensures { OnOk result (out.new ≡ out.old ++ json_tokens (json self.now)) };
}

/// A JSON text as far as it is written, which contracts see as its tokens.
#[derive(Drop)]
pub struct JsonText {
    alloc: Global,
    writer: Writer,
}

impl Model for JsonText {
    ghost use Rattle.std.specs.Prelude.{◌≡◌, List, []};
    ghost use Rattle.json.specs.Token.{Token, tokens_code};

    ghost Value = { List Token };

    ghost coded = { tokens_code };

    ghost view = { λ t. t.writer.tokens };

    ghost invariant = { λ t. t.writer.before ≡ [] };
}

/// What is written of a value, without a space. The only error is want of memory.
pub fn text_of<T: WriteJson>(alloc: Global, value: &T) -> Result<String, AllocError>
    ensures { IfOk result (λ text. string_bytes text ≡ compact (T.json value.now)) }
{
    let mut out = JsonText::new(alloc);
    value.write_json(&mut out)?;
    Ok(out.into_string())
}

impl JsonText {
    /// The empty text.
    pub fn new(alloc: Global) -> JsonText
        ensures { result ≡ [] }
    {
        JsonText {
            alloc,
            writer: Writer::new(Vec::new(alloc)),
        }
    }

    /// The bytes of the text.
    pub fn into_bytes(self) -> Vec<u8>
        ensures text { result.items ≡ print self }
        ensures reads_back { tokens (print self) ≡ self }
        ensures utf8 { IsUtf8 result.items }
    {
        self.writer.into_inner()
    }

    /// The text.
    pub fn into_string(self) -> String
        ensures { string_bytes result ≡ print self }
    {
        match String::from_utf8(self.into_bytes()) {
            Ok(text) => text,
            Err(_) => unreachable!(),
        }
    }

    /// The allocator that the text was made with, of which contracts say nothing.
    pub fn allocator(&self) -> Global {
        self.alloc
    }

    pub fn begin_object(&mut self) -> Result<(), AllocError>
        ensures { OnOk result (self.new ≡ self.old ++ begin_object ∷ []) }
    {
        self.writer.begin_object()
    }

    pub fn end_object(&mut self) -> Result<(), AllocError>
        ensures { OnOk result (self.new ≡ self.old ++ end_object ∷ []) }
    {
        self.writer.end_object()
    }

    pub fn begin_array(&mut self) -> Result<(), AllocError>
        ensures { OnOk result (self.new ≡ self.old ++ begin_array ∷ []) }
    {
        self.writer.begin_array()
    }

    pub fn end_array(&mut self) -> Result<(), AllocError>
        ensures { OnOk result (self.new ≡ self.old ++ end_array ∷ []) }
    {
        self.writer.end_array()
    }

    /// Writes the name of a member, whose value comes next.
    pub fn key(&mut self, name: &str) -> Result<(), AllocError>
        ensures { OnOk result (self.new ≡ self.old ++ key name.now ∷ []) }
    {
        self.writer.key(name)
    }

    /// Begins an object of one member, whose value comes next.
    pub fn begin_tagged(&mut self, name: &str) -> Result<(), AllocError>
        ensures { OnOk result (self.new ≡ self.old ++ begin_object ∷ key name.now ∷ []) }
    {
        self.begin_object()?;
        self.key(name)
    }

    pub fn string(&mut self, text: &str) -> Result<(), AllocError>
        ensures { OnOk result (self.new ≡ self.old ++ string text.now ∷ []) }
    {
        self.writer.string(text)
    }

    pub fn number(&mut self, n: u64) -> Result<(), AllocError>
        ensures { OnOk result (self.new ≡ self.old ++ number (decimal n) ∷ []) }
    {
        self.writer.u64(n)
    }

    pub fn boolean(&mut self, value: bool) -> Result<(), AllocError>
        ensures { OnOk result (self.new ≡ self.old ++ boolean value ∷ []) }
    {
        self.writer.boolean(value)
    }

    pub fn null(&mut self) -> Result<(), AllocError>
        ensures { OnOk result (self.new ≡ self.old ++ null ∷ []) }
    {
        self.writer.null()
    }

    /// Writes a member.
    pub fn member<T: WriteJson>(&mut self, name: &str, value: &T) -> Result<(), AllocError>
        ensures { OnOk result (Adds self.old self.new (member name.now (T.json value.now))) }
    {
        self.key(name)?;
        value.write_json(self)
    }

    /// Writes a member where its value is there.
    pub fn optional<T: WriteJson>(
        &mut self,
        name: &str,
        value: &Option<T>,
    ) -> Result<(), AllocError>
        ensures { OnOk result
            (Adds self.old self.new (optional name.now (option_map T.json value.now))) }
    {
        match value {
            Some(value) => self.member(name, value),
            None => Ok(()),
        }
    }

    /// Writes an object of one member.
    pub fn tagged<T: WriteJson>(&mut self, name: &str, value: &T) -> Result<(), AllocError>
        ensures { OnOk result
            (self.new ≡ self.old ++ json_tokens (tagged name.now (T.json value.now))) }
    {
        self.begin_tagged(name)?;
        value.write_json(self)?;
        self.end_object()
    }

    /// Writes an object of one member, whose value is an object with a list alone.
    pub fn tagged_list<T: WriteJson>(
        &mut self,
        tag: &str,
        name: &str,
        items: &[T],
    ) -> Result<(), AllocError>
        ensures { OnOk result (self.new
            ≡ self.old
            ++ json_tokens (tagged tag.now (tagged name.now (list_of T.json items.now)))) }
    {
        self.begin_tagged(tag)?;
        self.begin_tagged(name)?;
        self.list(items)?;
        self.end_object()?;
        self.end_object()
    }

    /// Writes a list.
    pub fn list<T: WriteJson>(&mut self, items: &[T]) -> Result<(), AllocError>
        ensures { OnOk result (self.new ≡ self.old ++ json_tokens (list_of T.json items.now)) }
    {
        self.begin_array()?;
        for item in items {
            item.write_json(self)?;
        }
        self.end_array()
    }
}
