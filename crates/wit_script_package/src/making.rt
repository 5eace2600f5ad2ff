//! What the texts of types make, and functions with them.
ghost use Rattle.std.specs.Prelude.{◌≡◌, Some, IfOk};
ghost use Rattle.wit_script_package.specs.steps.DraftResult.{DraftResult, Makes};
ghost use Rattle.wit_script_package.specs.Making.{answer_made, around, each_made, field_made, forms_made, function_by, function_made, handle_argument, kind_made, param_made, type_made, type_of, with_resource, written_made};
ghost use Rattle.wit_script_package.specs.steps.Parts.{with_root_at, function_with};

use crate::adding::new_type;
use crate::draft::{Draft, LineContext};
use std::alloc::{AllocError, Global};
use wit_data::{
    Docs, Field, Function, FunctionKind, Handle, Items, Param, Span, Text, TryClone, Type_,
    TypeDefKind, TypeId, TypeOwner,
};
use wit_script_lines::{LineFault, Signature, TypeText, TypedName, Wrap, Written};

/// The kind of a form around a type.
fn around(form: Wrap, ty: Type_) -> TypeDefKind
    ensures { result ≡ around form ty }
{
    match form {
        Wrap::List => TypeDefKind::List(ty),
        Wrap::Option => TypeDefKind::Option(ty),
        Wrap::Future => TypeDefKind::Future(Some(ty)),
        Wrap::Stream => TypeDefKind::Stream(Some(ty)),
    }
}

/// The function of a line, of these parts.
fn function_with(
    name: Text,
    kind: FunctionKind,
    params: Items<Param>,
    result_: Option<Type_>,
    here: &LineContext,
) -> Result<Function, AllocError>
    ensures { IfOk result (λ function. function ≡ function_with name kind params result_ here.now) }
{
    let stability = here.gate.try_clone()?;
    let mut function = Function::new(name, kind, params, result_);
    function.stability = stability;
    function.span = here.span;
    Ok(function)
}

impl Draft {
    /// Has the type of an id, which is no alias, be a resource, where that can be.
    fn require_root(&mut self, span: Span, root: TypeId) -> Result<(), LineFault>
        ensures { DraftResult (with_root_at self.old span root) result self.new }
    {
        let Some(def) = self.types.get(root.index()) else {
            return Err(LineFault::NotUnderstood);
        };
        match &def.kind {
            TypeDefKind::Resource => Ok(()),
            TypeDefKind::Unknown => {
                self.required.push((root, span))?;
                Ok(())
            }
            _ => Err(LineFault::NotUnderstood),
        }
    }

    /// Has a type lead to a resource, where that can be.
    fn require_resource(&mut self, id: TypeId, span: Span) -> Result<(), LineFault>
        ensures { DraftResult (with_resource self.old id span) result self.new }
    {
        match self.roots.get(id.index()) {
            Some(root) => {
                let root = *root;
                self.require_root(span, root)
            }
            None => Err(LineFault::NotUnderstood),
        }
    }

    /// The earlier type that a handle names.
    fn make_handled(&mut self, alloc: Global, name: &str, span: Span) -> Result<TypeId, LineFault>
        ensures { Makes (handle_argument self.old name.now span) result self.new }
    {
        match self.earlier(alloc, name)? {
            Some(id) => {
                self.require_resource(id, span)?;
                Ok(id)
            }
            None => Err(LineFault::NotUnderstood),
        }
    }

    /// The kind of what stands innermost in the text of a type.
    fn make_written(
        &mut self,
        alloc: Global,
        text: &Written,
        span: Span,
    ) -> Result<TypeDefKind, LineFault>
        ensures { Makes (written_made self.old text.now span) result self.new }
    {
        match text {
            Written::Named(name) => Ok(TypeDefKind::Type_(self.type_named(alloc, name.as_str())?)),
            Written::Future => Ok(TypeDefKind::Future(None)),
            Written::Stream => Ok(TypeDefKind::Stream(None)),
            Written::Own(name) => {
                let id = self.make_handled(alloc, name.as_str(), span)?;
                Ok(TypeDefKind::Handle(Handle::Own(id)))
            }
            Written::Borrow(name) => {
                let id = self.make_handled(alloc, name.as_str(), span)?;
                Ok(TypeDefKind::Handle(Handle::Borrow(id)))
            }
        }
    }

    /// A type of this kind: of an alias what it is an alias of, of another kind a type without a name.
    fn make_of(&mut self, kind: TypeDefKind, here: &LineContext) -> Result<Type_, LineFault>
        ensures { Makes (Some (type_of self.old kind here.now)) result self.new }
    {
        match kind {
            TypeDefKind::Type_(ty) => Ok(ty),
            kind => {
                let id = TypeId::from_index(self.types.len());
                let def = new_type(None, kind, TypeOwner::None, here)?;
                self.push_type(def)?;
                Ok(Type_::Id(id))
            }
        }
    }

    /// Forms around a type of this kind, the innermost last.
    fn make_forms(
        &mut self,
        forms: &[Wrap],
        mut kind: TypeDefKind,
        here: &LineContext,
    ) -> Result<TypeDefKind, LineFault>
        ensures { Makes (Some (forms_made self.old forms.now kind here.now)) result self.new }
    {
        let mut at = forms.len();
        while at > 0 {
            at -= 1;
            let inner = self.make_of(kind, here)?;
            kind = around(forms[at], inner);
        }
        Ok(kind)
    }

    /// The kind of a type that is named by a line which stands here: of a name an alias of what it
    /// names, and else what the text says. Types without a name of their own that stand inside it are
    /// added. Not understood where a name names nothing, or a handle leads to no resource and to no
    /// foreign type. Else only want of memory is an error. After a fault nothing is told of the
    /// package.
    pub fn make_kind(
        &mut self,
        alloc: Global,
        text: &TypeText,
        here: &LineContext,
    ) -> Result<TypeDefKind, LineFault>
        ensures { Makes (kind_made self.old text.now here.now) result self.new }
    {
        let kind = self.make_written(alloc, &text.core, here.span)?;
        self.make_forms(text.wraps.as_slice(), kind, here)
    }

    /// The type that a text says.
    fn make_type(
        &mut self,
        alloc: Global,
        text: &TypeText,
        here: &LineContext,
    ) -> Result<Type_, LineFault>
        ensures { Makes (type_made self.old text.now here.now) result self.new }
    {
        let kind = self.make_kind(alloc, text, here)?;
        self.make_of(kind, here)
    }

    /// `F:TYPE`
    fn make_field(
        &mut self,
        alloc: Global,
        field: TypedName,
        here: &LineContext,
    ) -> Result<Field, LineFault>
        ensures { Makes (field_made here.now field self.old) result self.new }
    {
        let TypedName { name, ty } = field;
        let ty = self.make_type(alloc, &ty, here)?;
        Ok(Field {
            name,
            ty,
            docs: Docs::none(),
            span: here.span,
        })
    }

    /// The fields of a record, in order. Types without a name of their own are added, as by
    /// `make_kind`. Not understood where the type of one isn't. Else only want of memory is an error.
    /// After a fault nothing is told of the package.
    pub fn make_fields(
        &mut self,
        alloc: Global,
        fields: Items<TypedName>,
        here: &LineContext,
    ) -> Result<Items<Field>, LineFault>
        ensures { Makes (each_made (field_made here.now) fields self.old) result self.new }
    {
        let mut made = Items::new(alloc);
        made.reserve(fields.len())?;
        for field in fields.into_vec() {
            match self.make_field(alloc, field, here) {
                Ok(field) => made.push(field)?,
                Err(fault) => return Err(fault),
            }
        }
        Ok(made)
    }

    /// `P:TYPE`
    fn make_param(
        &mut self,
        alloc: Global,
        param: TypedName,
        here: &LineContext,
    ) -> Result<Param, LineFault>
        ensures { Makes (param_made here.now param self.old) result self.new }
    {
        let TypedName { name, ty } = param;
        let ty = self.make_type(alloc, &ty, here)?;
        Ok(Param {
            name,
            ty,
            span: here.span,
        })
    }

    /// The parameters of a function.
    fn make_params(
        &mut self,
        alloc: Global,
        params: Items<TypedName>,
        here: &LineContext,
    ) -> Result<Items<Param>, LineFault>
        ensures { Makes (each_made (param_made here.now) params self.old) result self.new }
    {
        let mut made = Items::new(alloc);
        made.reserve(params.len())?;
        for param in params.into_vec() {
            match self.make_param(alloc, param, here) {
                Ok(param) => made.push(param)?,
                Err(fault) => return Err(fault),
            }
        }
        Ok(made)
    }

    /// The type after `->`, where there is one.
    fn make_answer(
        &mut self,
        alloc: Global,
        text: &Option<TypeText>,
        here: &LineContext,
    ) -> Result<Option<Type_>, LineFault>
        ensures { Makes (answer_made self.old text.now here.now) result self.new }
    {
        match text {
            Some(text) => Ok(Some(self.make_type(alloc, text, here)?)),
            None => Ok(None),
        }
    }

    /// The parameters and the result of a function, which is what its name says.
    fn make_by(
        &mut self,
        alloc: Global,
        said: Signature,
        here: &LineContext,
        kind: FunctionKind,
    ) -> Result<Function, LineFault>
        ensures { Makes (function_by self.old said here.now kind) result self.new }
    {
        let (name, params, answer) = said.into_parts();
        let params = self.make_params(alloc, params, here)?;
        let result_ = self.make_answer(alloc, &answer, here)?;
        Ok(function_with(name, kind, params, result_, here)?)
    }

    /// The function that a line says which stands here: what its name makes of it, as `function_kind_of` says,
    /// and its types, as by `make_kind`. Not understood where one of these isn't. Else only want of
    /// memory is an error. After a fault nothing is told of the package.
    pub fn make_function(
        &mut self,
        alloc: Global,
        said: Signature,
        here: &LineContext,
    ) -> Result<Function, LineFault>
        ensures { Makes (function_made self.old said here.now) result self.new }
    {
        let kind = self.function_kind_of(alloc, said.name.as_str())?;
        self.make_by(alloc, said, here, kind)
    }
}
