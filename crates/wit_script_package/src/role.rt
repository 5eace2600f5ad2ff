//! What the groups that lead a function's name make of it.
ghost use Rattle.std.specs.Prelude.{◌≡◌};
ghost use Rattle.wit_script_package.specs.Role.{freestanding, freestanding_kind, function_kind_of, is_plain, member_of};
ghost use Rattle.wit_script_lines.specs.steps.ReadResult.{IsRead};
ghost use Rattle.wit_script_package.specs.steps.Parts.{constructor_resource, method_role, static_role};

use crate::draft::Draft;
use std::alloc::Global;
use wit_data::{FunctionKind, TypeId};
use wit_script_lines::{LineFault, after_prefix};

/// Whether this may follow the groups: it has a byte, and doesn't begin with a `[` once more.
fn is_plain(rest: &str) -> bool
    ensures { result ≡ is_plain rest.now }
{
    match rest.as_bytes().first() {
        Some(byte) => *byte != b'[',
        None => false,
    }
}

/// A function that belongs to no resource.
fn freestanding(kind: FunctionKind, rest: &str) -> Result<FunctionKind, LineFault>
    ensures { IsRead (freestanding kind rest.now) result }
{
    if !is_plain(rest) {
        return Err(LineFault::NotUnderstood);
    }
    Ok(kind)
}

/// What a name without the groups of a resource makes of a function.
fn freestanding_kind(name: &str) -> Result<FunctionKind, LineFault>
    ensures { IsRead (freestanding_kind name.now) result }
{
    if let Some(rest) = after_prefix("[get]", name) {
        return freestanding(FunctionKind::Getter, rest);
    }
    match after_prefix("[set]", name) {
        Some(rest) => freestanding(FunctionKind::Setter, rest),
        None => freestanding(FunctionKind::Freestanding, name),
    }
}

impl Draft {
    /// The resource of a constructor.
    fn constructor_resource(&self, alloc: Global, rest: &str) -> Result<TypeId, LineFault>
        ensures { IsRead (constructor_resource self.now rest.now) result }
    {
        if !is_plain(rest) {
            return Err(LineFault::NotUnderstood);
        }
        match self.earlier(alloc, rest)? {
            Some(id) => Ok(id),
            None => Err(LineFault::NotUnderstood),
        }
    }

    /// The resource of a member: the part before the first dot.
    fn member_of(&self, alloc: Global, rest: &str) -> Result<TypeId, LineFault>
        ensures { IsRead (member_of self.now rest.now) result }
    {
        if !is_plain(rest) {
            return Err(LineFault::NotUnderstood);
        }
        let Some((resource, _)) = rest.split_once('.') else {
            return Err(LineFault::NotUnderstood);
        };
        match self.earlier(alloc, resource)? {
            Some(id) => Ok(id),
            None => Err(LineFault::NotUnderstood),
        }
    }

    /// What follows `[method]`.
    fn method_role(&self, alloc: Global, rest: &str) -> Result<FunctionKind, LineFault>
        ensures { IsRead (method_role self.now rest.now) result }
    {
        if let Some(more) = after_prefix("[get]", rest) {
            return Ok(FunctionKind::MethodGetter(self.member_of(alloc, more)?));
        }
        match after_prefix("[set]", rest) {
            Some(more) => Ok(FunctionKind::MethodSetter(self.member_of(alloc, more)?)),
            None => Ok(FunctionKind::Method(self.member_of(alloc, rest)?)),
        }
    }

    /// What follows `[static]`.
    fn static_role(&self, alloc: Global, rest: &str) -> Result<FunctionKind, LineFault>
        ensures { IsRead (static_role self.now rest.now) result }
    {
        if let Some(more) = after_prefix("[get]", rest) {
            return Ok(FunctionKind::StaticGetter(self.member_of(alloc, more)?));
        }
        match after_prefix("[set]", rest) {
            Some(more) => Ok(FunctionKind::StaticSetter(self.member_of(alloc, more)?)),
            None => Ok(FunctionKind::Static(self.member_of(alloc, rest)?)),
        }
    }

    /// What the groups that lead a function's name make of it. Not understood where what follows them
    /// is empty or begins with `[`, and where a constructor, method or static names no earlier type.
    /// Else only want of memory is an error.
    pub fn function_kind_of(&self, alloc: Global, name: &str) -> Result<FunctionKind, LineFault>
        ensures { IsRead (function_kind_of self.now name.now) result }
    {
        if let Some(rest) = after_prefix("[constructor]", name) {
            return Ok(FunctionKind::Constructor(self.constructor_resource(alloc, rest)?));
        }
        if let Some(rest) = after_prefix("[method]", name) {
            return self.method_role(alloc, rest);
        }
        match after_prefix("[static]", name) {
            Some(rest) => self.static_role(alloc, rest),
            None => freestanding_kind(name),
        }
    }
}
