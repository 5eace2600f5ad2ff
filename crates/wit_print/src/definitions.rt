//! Definitions of types.
ghost use Rattle.std.specs.Prelude.{◌≡◌, ◌==◌, ◌++◌, [], IfOk, OnOk, codes, flat_map, length, string_bytes, if◌then◌else◌};
ghost use Rattle.std.specs.Option.{option_map_or};
ghost use Rattle.wit_data.specs.declared.types.EnumCase.{EnumCase};
ghost use Rattle.wit_data.specs.declared.types.Flag.{Flag};
ghost use Rattle.wit_data.specs.declared.types.Type_.{Type_};
ghost use Rattle.wit_print.specs.Definitions.{aliased_name, case_wit, definition_wit, field_wit, kind_definition, part_wit, renamed_wit, use_wit};
ghost use Rattle.wit_print.specs.Headings.{block_wit};
ghost use Rattle.wit_print.specs.Names.{name_wit};
ghost use Rattle.wit_print.specs.Types.{defined_wit, type_wit};
ghost use Rattle.wit_print.specs.steps.Methods.{text_under};

use crate::headings::{write_block, write_docs, write_heading};
use crate::names::{Name, text_or_empty};
use crate::printer::Printer;
use crate::types::{write_defined, write_type};
use std::alloc::{AllocError, Global};
use std::fmt::Write;
use wit_data::{
    Case, Docs, EnumCase, Field, Flag, InterfaceId, Type_, TypeDef, TypeDefKind, TypeId,
    alias_target, type_interface_dep,
};

impl Printer<'_> {
    /// Writes the definition of a type, or its use if it is another interface's. Nothing if it isn't there.
    #[tactic(auto, unfolding(crate::specs::Definitions::definition_wit))]
    pub fn write_definition(&self, id: TypeId, text: &mut String) -> Result<(), AllocError>
        ensures { OnOk result (string_bytes text.new
            ≡ string_bytes text.old
            ++ definition_wit self.now.graph.now self.now.home self.now.indent.now id
            (text_under self.now.methods.now id)) }
    {
        let Some(def) = self.graph.types.get(id.index()) else {
            return Ok(());
        };
        write_heading(
            self.indent,
            &def.docs,
            &def.stability,
            &def.external_id,
            text,
        )?;
        let name = text_or_empty(&def.name);
        match type_interface_dep(self.types(), id) {
            Some(owner) => self.write_use(def, owner, text),
            None => self.write_kind(name, self.methods.of(id), &def.kind, text),
        }
    }

    /// Writes the use of a type of another interface.
    #[tactic(auto, unfolding(crate::specs::Definitions::use_wit))]
    fn write_use(
        &self,
        def: &TypeDef,
        owner: InterfaceId,
        text: &mut String,
    ) -> Result<(), AllocError>
        ensures { OnOk result (string_bytes text.new
            ≡ string_bytes text.old
            ++ use_wit self.now.graph.now self.now.home self.now.indent.now def.now owner) }
    {
        let indent = self.indent;
        let path = self.path(owner)?;
        let used = aliased_name(self.types(), &def.kind);
        let renamed = renamed(self.alloc, used, text_or_empty(&def.name))?;
        write!(text, "{indent}use {path}.{{{renamed}}};\n")
    }

    /// Writes a definition that is no use.
    #[tactic(auto, unfolding(crate::specs::Definitions::kind_definition))]
    fn write_kind(
        &self,
        name: &str,
        methods: &str,
        kind: &TypeDefKind,
        text: &mut String,
    ) -> Result<(), AllocError>
        ensures { OnOk result (string_bytes text.new
            ≡ string_bytes text.old
            ++ kind_definition self.now.graph.now.types self.now.indent.now name.now methods.now
            kind.now) }
    {
        match kind {
            TypeDefKind::Resource => write_resource(self.indent, name, methods, text),
            TypeDefKind::Record { fields } => {
                let body = self.fields_text(fields.as_slice())?;
                write_block(self.indent, "record ", name, body.as_str(), text)
            }
            TypeDefKind::Variant { cases } => {
                let body = self.cases_text(cases.as_slice())?;
                write_block(self.indent, "variant ", name, body.as_str(), text)
            }
            TypeDefKind::Flags { flags } => {
                let body = self.flags_text(flags.as_slice())?;
                write_block(self.indent, "flags ", name, body.as_str(), text)
            }
            TypeDefKind::Enum { cases } => {
                let body = self.enum_cases_text(cases.as_slice())?;
                write_block(self.indent, "enum ", name, body.as_str(), text)
            }
            _ => self.write_alias(name, kind, text),
        }
    }

    /// Writes a definition that has no braces.
    fn write_alias(
        &self,
        name: &str,
        kind: &TypeDefKind,
        text: &mut String,
    ) -> Result<(), AllocError>
        ensures { OnOk result (string_bytes text.new
            ≡ string_bytes text.old
            ++ (self.now.indent.now ++ (codes "type " ++ (name_wit name.now ++ (codes " = "
            ++ (defined_wit self.now.graph.now.types kind.now ++ codes ";\n")))))) }
    {
        let indent = self.indent;
        let name = Name(name);
        write!(text, "{indent}type {name} = ")?;
        write_defined(self.alloc, self.types(), kind, text)?;
        text.push_str(";\n")
    }

    /// The fields of a record, two spaces further in.
    fn fields_text(&self, fields: &[Field]) -> Result<String, AllocError>
        ensures { IfOk result (λ text. string_bytes text
            ≡ flat_map (field_wit self.now.graph.now.types (self.now.indent.now ++ codes "  "))
            fields.now) }
    {
        let (alloc, types) = (self.alloc, self.types());
        let indent = self.further_in()?;
        let mut text = String::new(alloc);
        for field in fields {
            write_field(alloc, types, indent.as_str(), field, &mut text)?;
        }
        Ok(text)
    }

    /// The cases of a variant, two spaces further in.
    fn cases_text(&self, cases: &[Case]) -> Result<String, AllocError>
        ensures { IfOk result (λ text. string_bytes text
            ≡ flat_map (case_wit self.now.graph.now.types (self.now.indent.now ++ codes "  "))
            cases.now) }
    {
        let (alloc, types) = (self.alloc, self.types());
        let indent = self.further_in()?;
        let mut text = String::new(alloc);
        for case in cases {
            write_case(alloc, types, indent.as_str(), case, &mut text)?;
        }
        Ok(text)
    }

    /// The flags of a type, two spaces further in.
    fn flags_text(&self, flags: &[Flag]) -> Result<String, AllocError>
        ensures { IfOk result (λ text. string_bytes text
            ≡ flat_map
            (λ (f : Flag). part_wit (self.now.indent.now ++ codes "  ") f.docs f.name [])
            flags.now) }
    {
        let indent = self.further_in()?;
        let mut text = String::new(self.alloc);
        for flag in flags {
            write_part(indent.as_str(), &flag.docs, flag.name.as_str(), &mut text)?;
        }
        Ok(text)
    }

    /// The cases of an enum, two spaces further in.
    fn enum_cases_text(&self, cases: &[EnumCase]) -> Result<String, AllocError>
        ensures { IfOk result (λ text. string_bytes text
            ≡ flat_map
            (λ (c : EnumCase). part_wit (self.now.indent.now ++ codes "  ") c.docs c.name [])
            cases.now) }
    {
        let indent = self.further_in()?;
        let mut text = String::new(self.alloc);
        for case in cases {
            write_part(indent.as_str(), &case.docs, case.name.as_str(), &mut text)?;
        }
        Ok(text)
    }
}

/// A name, and the one that it gets if that is another.
fn renamed(alloc: Global, used: &str, name: &str) -> Result<String, AllocError>
    ensures { IfOk result (λ text. string_bytes text ≡ renamed_wit used.now name.now) }
{
    let is_same = used == name;
    let used = Name(used);
    let name = Name(name);
    if is_same {
        format!(in alloc; "{name}")
    } else {
        format!(in alloc; "{used} as {name}")
    }
}

/// The name of the type that an alias names, or no text.
fn aliased_name<'a>(types: &'a [TypeDef], kind: &TypeDefKind) -> &'a str
    ensures { result.now ≡ aliased_name types.now kind.now }
{
    let Some(target) = alias_target(kind) else {
        return "";
    };
    match types.get(target.index()) {
        Some(used) => text_or_empty(&used.name),
        None => "",
    }
}

/// Writes a resource, in braces if it has functions.
fn write_resource(
    indent: &str,
    name: &str,
    methods: &str,
    text: &mut String,
) -> Result<(), AllocError>
    ensures { OnOk result (string_bytes text.new
        ≡ string_bytes text.old
        ++ (if length methods.now == 0
        then indent.now ++ (codes "resource " ++ (name_wit name.now ++ codes ";\n"))
        else block_wit indent.now (codes "resource ") name.now methods.now)) }
{
    if methods.len() != 0 {
        return write_block(indent, "resource ", name, methods, text);
    }
    let name = Name(name);
    write!(text, "{indent}resource {name};\n")
}

fn write_field(
    alloc: Global,
    types: &[TypeDef],
    indent: &str,
    field: &Field,
    text: &mut String,
) -> Result<(), AllocError>
    ensures { OnOk result (string_bytes text.new
        ≡ string_bytes text.old ++ field_wit types.now indent.now field.now) }
{
    write_docs(indent, &field.docs, text)?;
    let name = Name(field.name.as_str());
    write!(text, "{indent}{name}: ")?;
    write_type(alloc, types, field.ty, text)?;
    text.push_str(",\n")
}

fn write_case(
    alloc: Global,
    types: &[TypeDef],
    indent: &str,
    case: &Case,
    text: &mut String,
) -> Result<(), AllocError>
    ensures { OnOk result (string_bytes text.new
        ≡ string_bytes text.old ++ case_wit types.now indent.now case.now) }
{
    write_docs(indent, &case.docs, text)?;
    let name = Name(case.name.as_str());
    write!(text, "{indent}{name}")?;
    write_payload(alloc, types, case.ty, text)?;
    text.push_str(",\n")
}

/// Writes the type of a case, in parentheses.
fn write_payload(
    alloc: Global,
    types: &[TypeDef],
    ty: Option<Type_>,
    text: &mut String,
) -> Result<(), AllocError>
    ensures { OnOk result (string_bytes text.new
        ≡ string_bytes text.old
        ++ option_map_or (λ (t : Type_). codes "(" ++ (type_wit types.now t ++ codes ")")) ty []) }
{
    let Some(ty) = ty else {
        return Ok(());
    };
    text.push_str("(")?;
    write_type(alloc, types, ty, text)?;
    text.push_str(")")
}

/// Writes a part of a definition that is a name alone.
fn write_part(indent: &str, docs: &Docs, name: &str, text: &mut String) -> Result<(), AllocError>
    ensures { OnOk result (string_bytes text.new
        ≡ string_bytes text.old ++ part_wit indent.now docs.now name.now []) }
{
    write_docs(indent, docs, text)?;
    let name = Name(name);
    write!(text, "{indent}{name},\n")
}
