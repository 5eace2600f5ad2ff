//! Names with types, and functions, as lines write them.
ghost use Rattle.std.specs.Prelude.{◌≡◌, map, IfOk};
ghost use Rattle.wit_script_lines.specs.steps.ReadResult.{IsRead};
ghost use Rattle.wit_script_lines.specs.PackageLine.{answer_of, each_of, params_of, signature_of, signature_with, typed_name_of};

use crate::fault::LineFault;
use crate::line::parts_between;
use crate::token::{after_prefix, read_part};
use crate::type_text::{TypeText, read_type_text};
use std::alloc::Global;
use wit_data::{Items, Text};

/// A name and a type, as `NAME:TYPE` writes them.
#[derive(Drop)]
pub struct TypedName {
    pub name: Text,
    pub ty: TypeText,
}

/// A function, as `NAME(P:TYPE,..)->TYPE` writes it.
pub struct Signature {
    pub name: Text,
    pub params: Items<TypedName>,
    pub answer: Option<TypeText>,
}

impl Signature {
    /// Its name, its parameters and its result.
    pub fn into_parts(self) -> (Text, Items<TypedName>, Option<TypeText>)
        ensures { result ≡ (self.name, self.params, self.answer) }
    {
        let Signature {
            name,
            params,
            answer,
        } = self;
        (name, params, answer)
    }
}

/// As the derived one: each field is let go. A call of it costs the check less than a derived one,
/// which is checked again wherever a value is let go.
impl Drop for Signature {
    fn drop(self) {
        let Signature {
            name,
            params,
            answer,
        } = self;
        drop(name);
        drop(params);
        drop(answer);
    }
}

/// The function that a token is: `NAME(P:TYPE,..)` or `NAME(P:TYPE,..)->TYPE`. The name ends at the
/// first `(`, and the parameters at the first `)` after it. Not understood where it is none of these,
/// or a name is empty. Else only want of memory is an error.
pub fn read_signature(alloc: Global, token: &str) -> Result<Signature, LineFault>
    ensures { IsRead (signature_of token.now) result }
{
    let Some((name, rest)) = token.split_once('(') else {
        return Err(LineFault::NotUnderstood);
    };
    match rest.split_once(')') {
        Some((params, answer)) => signed(alloc, name, params, answer),
        None => Err(LineFault::NotUnderstood),
    }
}

/// The function of this name from what stands between its brackets and after them.
fn signed(alloc: Global, name: &str, params: &str, answer: &str) -> Result<Signature, LineFault>
    ensures { IsRead (signature_with name.now params.now answer.now) result }
{
    let name = read_part(alloc, name)?;
    let params = read_params(alloc, params)?;
    let answer = read_answer(alloc, answer)?;
    Ok(Signature {
        name,
        params,
        answer,
    })
}

/// The parameters between the brackets.
fn read_params(alloc: Global, text: &str) -> Result<Items<TypedName>, LineFault>
    ensures { IsRead (params_of text.now) result }
{
    if text.is_empty() {
        return Ok(Items::new(alloc));
    }
    let params = parts_between(alloc, text, ',')?;
    read_typed_names(alloc, &params)
}

/// What follows the closing bracket: nothing, or `->TYPE`.
fn read_answer(alloc: Global, text: &str) -> Result<Option<TypeText>, LineFault>
    ensures { IsRead (answer_of text.now) result }
{
    if text.is_empty() {
        return Ok(None);
    }
    match after_prefix("->", text) {
        Some(ty) => Ok(Some(read_type_text(alloc, ty)?)),
        None => Err(LineFault::NotUnderstood),
    }
}

/// Each of these tokens as `NAME:TYPE`, in their order. The name ends at the first colon. Not
/// understood where one has no colon, or no name before it. Else only want of memory is an error.
pub fn read_typed_names(alloc: Global, tokens: &[&str]) -> Result<Items<TypedName>, LineFault>
    ensures { IsRead (each_of typed_name_of (map (λ t. t.now) tokens.now)) result }
{
    let mut found = Items::new(alloc);
    for token in tokens {
        match typed_name(alloc, token) {
            Ok(typed) => found.push(typed)?,
            Err(fault) => return Err(fault),
        }
    }
    Ok(found)
}

/// `NAME:TYPE`
fn typed_name(alloc: Global, token: &str) -> Result<TypedName, LineFault>
    ensures { IsRead (typed_name_of token.now) result }
{
    match token.split_once(':') {
        Some((name, ty)) => {
            let name = read_part(alloc, name)?;
            let ty = read_type_text(alloc, ty)?;
            Ok(TypedName { name, ty })
        }
        None => Err(LineFault::NotUnderstood),
    }
}
