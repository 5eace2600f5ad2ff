//! Interfaces.

use crate::draft::{Draft, Named};
use crate::fault::{Fault, NameFault};
use crate::gates::{check_attributes, docs_of, stability_of};
use crate::scope::{Context, ScopeDraft};
use crate::tables::add_new;
use crate::written::interface_types;
use std::alloc::{AllocError, Global};
use wit_data::{Docs, Function, Interface, InterfaceId, Names, Stability, Text, TypeId, TypeOwner};
use wit_text::syntax::{
    DefinitionKind, Gate, InterfaceStatement, InterfaceStatementKind, Piece, ResourceFunction,
};

/// An interface as a file has it.
#[derive(Clone, Copy)]
pub(crate) struct WrittenInterface<'a> {
    pub gate: &'a Gate,
    /// Its name, or the label under which a world writes it in place.
    pub name: Piece,
    /// Whether a world writes it in place.
    pub is_in_place: bool,
    pub statements: &'a [InterfaceStatement],
}

impl<'a> Context<'a> {
    /// Makes the interface of an id, of which the name alone is known.
    pub fn make_interface(
        self,
        draft: &mut Draft,
        id: InterfaceId,
        written: &WrittenInterface<'a>,
    ) -> Result<(), Fault> {
        let (docs, stability) = self.head(written.gate, written.is_in_place)?;
        let mut scope = ScopeDraft::new(self, TypeOwner::Interface(id));
        let statements = interface_types(self.alloc, written.statements)?;
        scope.define_types(draft, statements.as_slice())?;
        let functions = scope.interface_functions(draft, written.statements)?;
        let interface = Interface {
            name: self.interface_name(written)?,
            types: types_of(self.alloc, &scope.names)?,
            functions,
            docs,
            stability,
            package: None,
            span: written.name.span,
        };
        draft.set_interface(id, interface, scope.into_names());
        Ok(())
    }

    /// The documentation and the gate of an interface or a world.
    pub fn head(self, gate: &Gate, may_have_id: bool) -> Result<(Docs, Stability), Fault> {
        check_attributes(gate, may_have_id)?;
        let source = self.part.source;
        let stability = stability_of(self.alloc, source, gate)?;
        Ok((docs_of(self.alloc, source, &gate.docs)?, stability))
    }

    /// The name of an interface, None of one that a world writes in place.
    fn interface_name(self, written: &WrittenInterface<'a>) -> Result<Option<Text>, AllocError> {
        if written.is_in_place {
            return Ok(None);
        }
        Ok(Some(self.copy(&written.name)?))
    }
}

impl<'a> ScopeDraft<'a> {
    /// The functions of an interface, whose types are made.
    fn interface_functions(
        &mut self,
        draft: &mut Draft,
        statements: &[InterfaceStatement],
    ) -> Result<Names<Function>, Fault> {
        let mut functions = Names::new(self.context.alloc);
        for statement in statements {
            match &statement.kind {
                InterfaceStatementKind::Function(name, signature) => {
                    self.define(name, Named::Function)?;
                    let made = self.free_function(draft, &statement.gate, name, signature)?;
                    self.add_function(&mut functions, name, made)?;
                }
                InterfaceStatementKind::Define(definition) => {
                    if let DefinitionKind::Resource(written) = &definition.kind {
                        let written = written.as_slice();
                        self.add_methods(draft, &mut functions, &definition.name, written)?;
                    }
                }
                InterfaceStatementKind::Use(_) => {}
            }
        }
        Ok(functions)
    }

    /// Adds the functions of a resource of an interface.
    fn add_methods(
        &self,
        draft: &mut Draft,
        functions: &mut Names<Function>,
        resource: &Piece,
        written: &[ResourceFunction],
    ) -> Result<(), Fault> {
        for function in written {
            let made = self.resource_function(draft, resource, function)?;
            self.add_function(functions, resource, made)?;
        }
        Ok(())
    }

    /// Adds a function under its name, which isn't there yet.
    fn add_function(
        &self,
        functions: &mut Names<Function>,
        written: &Piece,
        function: Function,
    ) -> Result<(), Fault> {
        let key = String::from_str(self.context.alloc, function.name.as_str())?;
        if functions.contains_key(key.as_str()) {
            return Err(self.context.name_fault(written, NameFault::FunctionTwice));
        }
        functions.push(key, function)?;
        Ok(())
    }
}

/// The types among the things that have names. The only error is want of memory.
fn types_of(alloc: Global, names: &Names<Named>) -> Result<Names<TypeId>, AllocError> {
    let mut types = Names::new(alloc);
    for (name, named) in names.iter() {
        if let Named::Type_(id) = named {
            add_new(&mut types, String::from_str(alloc, name)?, *id)?;
        }
    }
    Ok(types)
}
