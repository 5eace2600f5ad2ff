//! The texts of types.
ghost use Rattle.std.specs.Option.{option_map};
ghost use Rattle.std.specs.Prelude.{◌≡◌, ◌<◌, length, IfOk, IfSome};
ghost use Rattle.wit_script_lines.specs.TypeText.{form_of, type_text_of, written_of};

use crate::token::inside;
use std::alloc::{AllocError, Global};
use wit_data::{Items, Text};

/// A form that stands around one other type, as `list<..>`.
#[derive(Clone, Copy, Debug, PartialEq, Eq)]
pub enum Wrap {
    List,
    Option,
    Future,
    Stream,
}

/// What stands innermost in the text of a type.
#[derive(Drop)]
pub enum Written {
    /// A primitive or another type, by its name.
    Named(Text),
    /// `future`
    Future,
    /// `stream`
    Stream,
    /// `own<NAME>`
    Own(Text),
    /// `borrow<NAME>`
    Borrow(Text),
}

/// The text of a type: forms, the outermost first, and what stands inside them.
pub struct TypeText {
    pub wraps: Items<Wrap>,
    pub core: Written,
}

/// As the derived one: each field is let go. A call of it costs the check less than a derived one,
/// which is checked again wherever a value is let go.
impl Drop for TypeText {
    fn drop(self) {
        let TypeText { wraps, core } = self;
        drop(wraps);
        drop(core);
    }
}

/// What the text of a type says. What is none of its forms is a name, whatever stands there. The only
/// error is want of memory.
pub fn read_type_text(alloc: Global, text: &str) -> Result<TypeText, AllocError>
    ensures { IfOk result (λ read. read ≡ type_text_of text.now) }
{
    let mut wraps = Items::new(alloc);
    let mut rest = text;
    while let Some((wrap, inner)) = form(rest) {
        wraps.push(wrap)?;
        rest = inner;
    }
    let core = read_written(alloc, rest)?;
    Ok(TypeText { wraps, core })
}

/// The outermost form of a text, and what stands inside it.
fn form(text: &str) -> Option<(Wrap, &str)>
    ensures form { option_map (λ f. (f.0, f.1.now)) result ≡ form_of text.now }
    ensures shorter { IfSome result (λ f. length f.1.now < length text.now) }
{
    if let Some(inner) = inside("list<", text) {
        return Some((Wrap::List, inner));
    }
    if let Some(inner) = inside("option<", text) {
        return Some((Wrap::Option, inner));
    }
    if let Some(inner) = inside("future<", text) {
        return Some((Wrap::Future, inner));
    }
    if let Some(inner) = inside("stream<", text) {
        return Some((Wrap::Stream, inner));
    }
    None
}

/// What a text without such a form says.
fn read_written(alloc: Global, text: &str) -> Result<Written, AllocError>
    ensures { IfOk result (λ read. read ≡ written_of text.now) }
{
    if text == "future" {
        return Ok(Written::Future);
    }
    if text == "stream" {
        return Ok(Written::Stream);
    }
    if let Some(name) = inside("own<", text) {
        return Ok(Written::Own(Text::try_from_str(alloc, name)?));
    }
    if let Some(name) = inside("borrow<", text) {
        return Ok(Written::Borrow(Text::try_from_str(alloc, name)?));
    }
    Ok(Written::Named(Text::try_from_str(alloc, text)?))
}
