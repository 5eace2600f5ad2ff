//! The types that an interface or a world defines, each behind those that it names.

use crate::draft::{Draft, Named};
use crate::fault::{Fault, NameFault, RuleFault};
use crate::gates::common_of;
use crate::order::{Need, Sorted, in_order};
use crate::scope::{Context, ScopeDraft};
use crate::written::TypeStatement;
use std::alloc::AllocError;
use wit_data::{Items, Names, Stability, TypeDef, TypeDefKind};
use wit_text::syntax::{
    Definition, DefinitionKind, Gate, Member, Piece, ResourceFunction, ResourceFunctionName,
    TypeNodeKind, TypeRange, UseNames,
};
use wit_values::NameSet;

/// The names of types of an interface or a world, each with a number.
#[derive(Drop)]
struct TypeNames {
    numbers: Names<usize>,
    /// Of each number the statement that defines the type, None where a `use` takes it over.
    definitions: Items<Option<usize>>,
    /// Of each number where the name stands.
    pieces: Items<Piece>,
}

impl<'a> ScopeDraft<'a> {
    /// Makes the types of statements: first what is used, then what is defined.
    pub fn define_types(
        &mut self,
        draft: &mut Draft,
        statements: &[TypeStatement<'a>],
    ) -> Result<(), Fault> {
        for statement in statements {
            if let TypeStatement::Use(gate, used) = statement {
                self.use_names(draft, gate, used)?;
            }
        }
        for place in definition_order(&self.context, statements)?.iter() {
            if let Some(TypeStatement::Define(gate, definition)) = statements.get(*place) {
                self.define_type(draft, gate, definition)?;
            }
        }
        Ok(())
    }

    /// Makes a type that is defined.
    fn define_type(
        &mut self,
        draft: &mut Draft,
        gate: &Gate,
        definition: &Definition,
    ) -> Result<(), Fault> {
        let common = common_of(self.context.alloc, self.context.part.source, gate, true)?;
        let kind = self.definition_kind(draft, definition, &common.stability)?;
        let name = self.context.copy(&definition.name)?;
        let mut def = TypeDef::new(Some(name), kind, self.owner);
        def.docs = common.docs;
        def.stability = common.stability;
        def.external_id = common.external_id;
        def.span = definition.name.span;
        let made = draft.add_type(def)?;
        self.define(&definition.name, Named::Type_(made))
    }

    /// What a definition is. Types without a name that it is the first to write have its gate.
    fn definition_kind(
        &self,
        draft: &mut Draft,
        definition: &Definition,
        gate: &Stability,
    ) -> Result<TypeDefKind, Fault> {
        let span = definition.name.span;
        match &definition.kind {
            DefinitionKind::Resource(functions) => {
                check_functions(&self.context, functions.as_slice())?;
                Ok(TypeDefKind::Resource)
            }
            DefinitionKind::Alias(range) => self.kind_of_type(draft, *range, gate),
            DefinitionKind::Record(members) => self.record(draft, members.as_slice(), gate),
            DefinitionKind::Variant(members) if members.is_empty() => {
                Err(Fault::rule(span, RuleFault::EmptyVariant))
            }
            DefinitionKind::Variant(members) => self.variant(draft, members.as_slice(), gate),
            DefinitionKind::Enum(members) if members.is_empty() => {
                Err(Fault::rule(span, RuleFault::EmptyEnum))
            }
            DefinitionKind::Enum(members) => Ok(self.enumeration(members.as_slice())?),
            DefinitionKind::Flags(members) if members.is_empty() => {
                Err(Fault::rule(span, RuleFault::EmptyFlags))
            }
            DefinitionKind::Flags(members) => Ok(self.flags(members.as_slice())?),
        }
    }
}

/// The places of the statements that define types, each behind those whose types it names.
fn definition_order(
    context: &Context<'_>,
    statements: &[TypeStatement<'_>],
) -> Result<Items<usize>, Fault> {
    let names = type_names(context, statements)?;
    let mut needs = Items::new(context.alloc);
    for place in names.definitions.iter() {
        needs.push(needs_of(context, &names, statements, *place)?)?;
    }
    match in_order(context.alloc, needs.as_slice())? {
        Sorted::Order(order) => Ok(places_of(context, &names, order.as_slice())?),
        Sorted::Cycle(need) => Err(cycle(context, &names, need)),
    }
}

/// The places of the statements that define the types of some numbers.
fn places_of(
    context: &Context<'_>,
    names: &TypeNames,
    order: &[usize],
) -> Result<Items<usize>, AllocError> {
    let mut places = Items::new(context.alloc);
    for number in order {
        if let Some(Some(place)) = names.definitions.get(*number) {
            places.push(*place)?;
        }
    }
    Ok(places)
}

/// The fault of a type that needs itself.
fn cycle(context: &Context<'_>, names: &TypeNames, need: Need) -> Fault {
    let name = match names.pieces.get(need.target) {
        Some(piece) => context.text(piece),
        None => "",
    };
    Fault::name(
        context.alloc,
        need.span,
        NameFault::TypeDependsOnItself,
        name,
    )
}

/// The names of types in statements.
fn type_names(context: &Context<'_>, statements: &[TypeStatement<'_>]) -> Result<TypeNames, Fault> {
    let mut names = TypeNames {
        numbers: Names::new(context.alloc),
        definitions: Items::new(context.alloc),
        pieces: Items::new(context.alloc),
    };
    for (place, statement) in statements.iter().enumerate() {
        match statement {
            TypeStatement::Use(_, used) => add_used(context, &mut names, used)?,
            TypeStatement::Define(_, definition) => {
                add_defined(context, &mut names, &definition.name, place)?;
            }
        }
    }
    Ok(names)
}

/// Adds the names that a `use` gives. None of them is that of a type above.
fn add_used(context: &Context<'_>, names: &mut TypeNames, used: &UseNames) -> Result<(), Fault> {
    for renaming in used.names.iter() {
        let text = context.text(&renaming.new);
        let known = match names.numbers.get(text) {
            Some(number) => names.definitions.get(*number).copied(),
            None => None,
        };
        match known {
            Some(Some(_)) => {
                return Err(context.name_fault(&renaming.new, NameFault::DefinedAbove));
            }
            Some(None) => {}
            None => add_name(context, names, &renaming.new, None)?,
        }
    }
    Ok(())
}

/// Adds the name that a statement defines.
fn add_defined(
    context: &Context<'_>,
    names: &mut TypeNames,
    name: &Piece,
    place: usize,
) -> Result<(), Fault> {
    if names.numbers.contains_key(context.text(name)) {
        return Err(context.name_fault(name, NameFault::DefinedTwice));
    }
    add_name(context, names, name, Some(place))?;
    Ok(())
}

/// Adds a name that isn't there.
fn add_name(
    context: &Context<'_>,
    names: &mut TypeNames,
    name: &Piece,
    definition: Option<usize>,
) -> Result<(), AllocError> {
    let key = String::from_str(context.alloc, context.text(name))?;
    let number = names.definitions.len();
    if !names.numbers.contains_key(key.as_str()) {
        names.numbers.push(key, number)?;
        names.definitions.push(definition)?;
        names.pieces.push(*name)?;
    }
    Ok(())
}

/// What a type needs that is defined by the statement at a place: the types that it names.
fn needs_of(
    context: &Context<'_>,
    names: &TypeNames,
    statements: &[TypeStatement<'_>],
    place: Option<usize>,
) -> Result<Items<Need>, Fault> {
    let mut needs = Items::new(context.alloc);
    let Some(place) = place else {
        return Ok(needs);
    };
    if let Some(TypeStatement::Define(_, definition)) = statements.get(place) {
        match &definition.kind {
            DefinitionKind::Alias(range) => add_needs(context, names, *range, &mut needs)?,
            DefinitionKind::Record(members) | DefinitionKind::Variant(members) => {
                add_member_needs(context, names, members.as_slice(), &mut needs)?;
            }
            DefinitionKind::Enum(_) | DefinitionKind::Flags(_) | DefinitionKind::Resource(_) => {}
        }
    }
    Ok(needs)
}

fn add_member_needs(
    context: &Context<'_>,
    names: &TypeNames,
    members: &[Member],
    needs: &mut Items<Need>,
) -> Result<(), Fault> {
    for member in members {
        if let Some(range) = member.ty {
            add_needs(context, names, range, needs)?;
        }
    }
    Ok(())
}

/// Adds the types that a type names.
fn add_needs(
    context: &Context<'_>,
    names: &TypeNames,
    range: TypeRange,
    needs: &mut Items<Need>,
) -> Result<(), Fault> {
    for node in context.nodes(range) {
        match &node.kind {
            TypeNodeKind::Named(name) | TypeNodeKind::Own(name) | TypeNodeKind::Borrow(name) => {
                let need = need_of(context, names, name)?;
                needs.push(need)?;
            }
            _ => {}
        }
    }
    Ok(())
}

/// The need for the type of a name.
fn need_of(context: &Context<'_>, names: &TypeNames, name: &Piece) -> Result<Need, Fault> {
    let text = context.text(name);
    match names.numbers.get(text) {
        Some(number) => Ok(Need {
            target: *number,
            span: name.span,
        }),
        None => Err(context.name_fault(name, no_type(text))),
    }
}

/// The fault of a name that no type has.
fn no_type(name: &str) -> NameFault {
    match name {
        "float32" => NameFault::Float32,
        "float64" => NameFault::Float64,
        _ => NameFault::NoType,
    }
}

/// Whether a resource has one constructor at most, and each other function under a name of its own.
fn check_functions(context: &Context<'_>, functions: &[ResourceFunction]) -> Result<(), Fault> {
    let mut names = NameSet::new(context.alloc);
    let mut has_constructor = false;
    for function in functions {
        match &function.name {
            ResourceFunctionName::Constructor(span) => {
                if has_constructor {
                    return Err(Fault::rule(*span, RuleFault::SecondConstructor));
                }
                has_constructor = true;
            }
            ResourceFunctionName::Method(name) | ResourceFunctionName::Static(name) => {
                add_function(context, &mut names, name)?;
            }
        }
    }
    Ok(())
}

/// Adds the name of a function of a resource, which isn't there yet.
fn add_function(context: &Context<'_>, names: &mut NameSet, name: &Piece) -> Result<(), Fault> {
    let text = context.text(name);
    if names.contains(text) {
        return Err(context.name_fault(name, NameFault::FunctionTwice));
    }
    names.insert(context.alloc, text)?;
    Ok(())
}
