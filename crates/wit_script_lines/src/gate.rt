//! Feature gates, one of which may end a line of a package.
ghost use Rattle.std.specs.Prelude.{◌≡◌, map};
ghost use Rattle.wit_script_lines.specs.PackageLine.{gate_of, gate_of_line, is_gate, ungated_of};
ghost use Rattle.wit_script_lines.specs.steps.ReadResult.{IsRead};

use crate::fault::LineFault;
use crate::token::{after_prefix, read_part, read_version};
use std::alloc::Global;
use wit_data::Stability;

/// The gate of a line of these arguments: of the last one, where it begins with `@since=` or
/// `@unstable=`, and else none, which is unknown. Not understood where no version or no feature
/// follows. Else only want of memory is an error.
pub fn read_gate(alloc: Global, arguments: &[&str]) -> Result<Stability, LineFault>
    ensures { IsRead (gate_of_line (map (λ t. t.now) arguments.now)) result }
{
    match arguments.last() {
        Some(last) => read_last(alloc, last),
        None => Ok(Stability::Unknown),
    }
}

/// The arguments of a line without its gate: without the last one, where it begins with `@since=` or
/// `@unstable=`.
pub fn ungated<'a, 'b>(arguments: &'a [&'b str]) -> &'a [&'b str]
    ensures { map (λ t. t.now) result.now ≡ ungated_of (map (λ t. t.now) arguments.now) }
{
    match arguments.split_last() {
        Some((last, before)) => {
            if is_gate(last) {
                return before;
            }
            arguments
        }
        None => arguments,
    }
}

/// The gate of a line whose last argument this is.
fn read_last(alloc: Global, last: &str) -> Result<Stability, LineFault>
    ensures { IsRead (gate_of last.now) result }
{
    if let Some(version) = after_prefix("@since=", last) {
        return Ok(Stability::Stable {
            since: read_version(alloc, version)?,
            deprecated: None,
        });
    }
    match after_prefix("@unstable=", last) {
        Some(feature) => Ok(Stability::Unstable {
            feature: read_part(alloc, feature)?,
            deprecated: None,
        }),
        None => Ok(Stability::Unknown),
    }
}

/// Whether an argument is a feature gate.
fn is_gate(argument: &str) -> bool
    ensures { result ≡ is_gate argument.now }
{
    after_prefix("@since=", argument).is_some() || after_prefix("@unstable=", argument).is_some()
}
