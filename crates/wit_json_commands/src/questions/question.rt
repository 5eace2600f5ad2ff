//! Questions and their answers.
ghost use Rattle.std.specs.Prelude.{◌≡◌, IfOk};
ghost use Rattle.wit_elaboration.specs.Valid.{IsValid};
ghost use Rattle.wit_json_commands.specs.Tells.{AnswersQuestion, TellsAnswer, found};
ghost use Rattle.wit_json_commands.specs.declared.replies.answers.Answer.TheVariants as answers;
ghost use Rattle.wit_graph_data.specs.Named.{package_named};
ghost use Rattle.wit_graph_data.specs.Queries.{canonical_id_text};

use super::core_names::core_names;
use super::dependencies::{interface_dependencies, package_dependencies, package_order};
use super::functions::futures_and_streams;
use super::selection::select;
use crate::commands::Question;
use crate::replies::{Answer, refused};
use std::alloc::{AllocError, Global};
use wit_data::{PackageName, SourceMap, Text};
use wit_graph_data::{Graph, ResolveError, ResolveResult};
use wit_queries::canonical::canonicalized_id_of_name;

/// Answers a question about a valid graph, whose spans stand in these files. Where memory is refused for it, the answer is
/// that refusal (28); the only error is that there is no memory for that answer either.
pub fn answer_question(
    alloc: Global,
    graph: &Graph,
    files: &SourceMap,
    question: &Question,
) -> Result<Answer, AllocError>
    requires { IsValid graph.now }
    ensures { IfOk result (λ answer. AnswersQuestion graph.now files.now question.now answer) }
{
    match tell(alloc, graph, files, question) {
        Ok(answer) => Ok(answer),
        Err(_) => {
            let error = ResolveError::from(AllocError);
            refused(alloc, graph, files, question.word(), &[], error)
        }
    }
}

/// What a question asks. A choice of a world may be refused, and that is its answer; else the only refusal is want of
/// memory (28).
fn tell(
    alloc: Global,
    graph: &Graph,
    files: &SourceMap,
    question: &Question,
) -> ResolveResult<Answer>
    requires { IsValid graph.now }
    ensures { IfOk result (λ answer. TellsAnswer graph.now files.now question.now answer) }
{
    match question {
        Question::Select { packages, world } => select(alloc, graph, files, packages, world),
        Question::PackageDependencies(package) => package_dependencies(alloc, graph, package),
        Question::InterfaceDependencies { package, interface } => {
            interface_dependencies(alloc, graph, package, interface)
        }
        Question::PackageOrder => package_order(alloc, graph),
        Question::CanonicalId { package, name } => canonical_id(alloc, graph, package, name),
        Question::CoreNames {
            package,
            world,
            mangling,
        } => core_names(alloc, graph, package, world, *mangling),
        Question::FuturesAndStreams(place) => futures_and_streams(alloc, graph, place),
    }
}

/// The canonical id text of this name in a package.
fn canonical_id(
    alloc: Global,
    graph: &Graph,
    package: &PackageName,
    name: &Text,
) -> ResolveResult<Answer>
    ensures { IfOk result (λ it.
        it
        ≡ found (λ p. answers.Text (canonical_id_text graph.now.packages p name.now))
        (package_named graph.now «package».now)) }
{
    let Some(id) = graph.package_names.get(package) else {
        return Ok(Answer::NotFound);
    };
    let text = canonicalized_id_of_name(alloc, graph, *id, name.as_str())?;
    Ok(Answer::Text(Text::from_string(text)))
}
