//! Questions about a graph.
ghost use Rattle.std.specs.Prelude.{◌≡◌};
ghost use Rattle.json.specs.Json as json;
ghost use Rattle.json.specs.Value.{value_view};
ghost use Rattle.wit_json_reading.specs.Objects.{read_variant};
ghost use Rattle.wit_json_reading.specs.declared.fault.Expected.TheVariants as expected;
ghost use Rattle.wit_json_commands.specs.Asked.{question_word};
ghost use Rattle.wit_json_commands.specs.Questions.{read_canonical_id, read_core_names, read_function_place_by, read_interface_question, read_mangling, read_place_in, read_question_by, read_select};
ghost use Rattle.wit_json_reading.specs.Reading.{Reads};

use json::Value;
use std::alloc::Global;
use wit_data::{Items, PackageName, Text};
use wit_json_reading::{
    Expected, ReadError, ReadJson, alone, in_member, instead_of, one_member, only, optional,
    required,
};

/// Where a function stands.
#[derive(Clone, Copy)]
pub enum FunctionSite {
    /// Among the functions of an interface.
    Interface,
    /// Among the imports of a world.
    Import,
    /// Among the exports of a world.
    Export,
}

/// A function by its name, in an interface or a world by its name, in a package by its name.
#[derive(Drop)]
pub struct FunctionPlace {
    pub site: FunctionSite,
    pub package: PackageName,
    pub name: Text,
    pub function: Text,
}

/// Which names core wasm has, as `ManglingAndAbi` of `wit_data`.
#[derive(Clone, Copy)]
pub enum Mangling {
    Standard32,
    LegacySync,
    LegacyAsyncCallback,
    LegacyAsyncStackful,
}

/// A question about a graph.
#[derive(Drop)]
pub enum Question {
    /// Which world a text names, among main packages.
    Select {
        packages: Items<PackageName>,
        world: Option<Text>,
    },
    /// On which packages a package depends directly.
    PackageDependencies(PackageName),
    /// Which interfaces an interface uses directly.
    InterfaceDependencies {
        package: PackageName,
        interface: Text,
    },
    /// All packages, each after those that it depends on.
    PackageOrder,
    /// The id text of an interface or a world, with its track in the place of a version.
    CanonicalId {
        package: PackageName,
        name: Text,
    },
    /// Under which names core wasm imports and exports the functions of a world.
    CoreNames {
        package: PackageName,
        world: Text,
        mangling: Mangling,
    },
    /// Which futures and streams the values of a function hold.
    FuturesAndStreams(FunctionPlace),
}

impl Question {
    /// The word of the question.
    pub fn word(&self) -> &'static str
        ensures { result.now ≡ question_word self.now }
    {
        match self {
            Question::Select { .. } => "select",
            Question::PackageDependencies(_) => "package-dependencies",
            Question::InterfaceDependencies { .. } => "interface-dependencies",
            Question::PackageOrder => "package-order",
            Question::CanonicalId { .. } => "canonical-id",
            Question::CoreNames { .. } => "core-names",
            Question::FuturesAndStreams(_) => "futures-and-streams",
        }
    }
}

#[tactic(auto, unfolding(crate::specs::Questions::read_select))]
fn select(alloc: Global, value: &Value<'_>) -> Result<Question, ReadError>
    ensures { Reads result (read_select (value_view value.now)) }
{
    only(alloc, value, &["packages", "world"])?;
    let packages = required(alloc, value, "packages")?;
    let world = optional(alloc, value, "world")?;
    Ok(Question::Select { packages, world })
}

#[tactic(auto, unfolding(crate::specs::Questions::read_interface_question))]
fn interface(alloc: Global, value: &Value<'_>) -> Result<Question, ReadError>
    ensures { Reads result (read_interface_question (value_view value.now)) }
{
    only(alloc, value, &["package", "interface"])?;
    let package = required(alloc, value, "package")?;
    let interface = required(alloc, value, "interface")?;
    Ok(Question::InterfaceDependencies { package, interface })
}

#[tactic(auto, unfolding(crate::specs::Questions::read_canonical_id))]
fn canonical_id(alloc: Global, value: &Value<'_>) -> Result<Question, ReadError>
    ensures { Reads result (read_canonical_id (value_view value.now)) }
{
    only(alloc, value, &["package", "name"])?;
    let package = required(alloc, value, "package")?;
    let name = required(alloc, value, "name")?;
    Ok(Question::CanonicalId { package, name })
}

impl ReadJson for Mangling {
    ghost reading = { read_mangling };

    #[tactic(auto, unfolding(crate::specs::Questions::read_mangling))]
    fn read_json(alloc: Global, value: &Value<'_>) -> Result<Mangling, ReadError> {
        match value.as_str() {
            Some(word) => mangling_in(alloc, word),
            None => instead_of(alloc, Expected::Text),
        }
    }
}

/// The names that a word says.
#[tactic(auto, unfolding(crate::specs::Questions::read_mangling))]
fn mangling_in(alloc: Global, word: &str) -> Result<Mangling, ReadError>
    ensures { Reads result (read_mangling (json.string word.now)) }
{
    match word {
        "standard32" => Ok(Mangling::Standard32),
        "legacy-sync" => Ok(Mangling::LegacySync),
        "legacy-async-callback" => Ok(Mangling::LegacyAsyncCallback),
        "legacy-async-stackful" => Ok(Mangling::LegacyAsyncStackful),
        _ => instead_of(alloc, Expected::Mangling),
    }
}

#[tactic(auto, unfolding(crate::specs::Questions::read_core_names))]
fn core_names(alloc: Global, value: &Value<'_>) -> Result<Question, ReadError>
    ensures { Reads result (read_core_names (value_view value.now)) }
{
    only(alloc, value, &["package", "world", "mangling"])?;
    let package = required(alloc, value, "package")?;
    let world = required(alloc, value, "world")?;
    let mangling = required(alloc, value, "mangling")?;
    Ok(Question::CoreNames {
        package,
        world,
        mangling,
    })
}

#[tactic(auto, unfolding(crate::specs::Questions::read_place_in))]
fn place(alloc: Global, site: FunctionSite, value: &Value<'_>) -> Result<FunctionPlace, ReadError>
    ensures { Reads result (read_place_in site (value_view value.now)) }
{
    only(alloc, value, &["package", "name", "function"])?;
    let package = required(alloc, value, "package")?;
    let name = required(alloc, value, "name")?;
    let function = required(alloc, value, "function")?;
    Ok(FunctionPlace {
        site,
        package,
        name,
        function,
    })
}

/// The place of a function, in what this name says.
fn function_in(alloc: Global, name: &str, value: &Value<'_>) -> Result<FunctionPlace, ReadError>
    ensures { Reads result (read_function_place_by name.now (value_view value.now)) }
{
    match name {
        "interface" => place(alloc, FunctionSite::Interface, value),
        "import" => place(alloc, FunctionSite::Import, value),
        "export" => place(alloc, FunctionSite::Export, value),
        _ => instead_of(alloc, Expected::FunctionPlace),
    }
}

fn function(alloc: Global, value: &Value<'_>) -> Result<FunctionPlace, ReadError>
    ensures { Reads result
        (read_variant read_function_place_by expected.FunctionPlace (value_view value.now)) }
{
    match one_member(value) {
        Some((name, place)) => in_member(alloc, function_in(alloc, name, place), name),
        None => instead_of(alloc, Expected::FunctionPlace),
    }
}

/// The question of this name.
#[tactic(auto, unfolding(crate::specs::Questions::read_question_by))]
pub fn question_by(alloc: Global, name: &str, value: &Value<'_>) -> Result<Question, ReadError>
    ensures { Reads result (read_question_by name.now (value_view value.now)) }
{
    match name {
        "select" => select(alloc, value),
        "package-dependencies" => {
            Ok(Question::PackageDependencies(alone(alloc, value, "package")?))
        }
        "interface-dependencies" => interface(alloc, value),
        "canonical-id" => canonical_id(alloc, value),
        "core-names" => core_names(alloc, value),
        "futures-and-streams" => Ok(Question::FuturesAndStreams(function(alloc, value)?)),
        _ => instead_of(alloc, Expected::Command),
    }
}
