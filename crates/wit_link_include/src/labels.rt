//! Labels of a world: whether some are not strongly unique, and whether each setter has its getter.
ghost use Rattle.std.specs.Prelude.{◌≡◌, ◌⊎◌, IfErr, IfOk, OnOk, None};
ghost use Rattle.wit_link_spec.specs.CauseText.{clash_text};
ghost use Rattle.wit_link_spec.specs.WorldReasons.{IsLabelCause, IsListCause};
ghost use Rattle.wit_link_include.specs.steps.Included.{LabelsAreAccepted, ListIsAccepted};
ghost use Rattle.wit_graph_data.specs.declared.cause.Cause.TheVariants as cause;
ghost use Rattle.wit_graph_data.specs.declared.error_kind.ResolveErrorKind.TheVariants.{OutOfMemory, Semantic};
ghost use Rattle.wit_labels.specs.steps.Setters.{LacksGetterAt};

use std::alloc::{AllocError, Global};
use wit_data::{Span, Table, Text, World, WorldItem, WorldKey};
use wit_graph_data::{Cause, ResolveError, ResolveErrorKind, ResolveResult};
use wit_labels::{Clash, find_clash, find_setter_without_getter, getter_label};

/// Refuses labels that are not strongly unique (17) and setters without getters (18).
pub(crate) fn check_labels(alloc: Global, world: &World) -> ResolveResult<()>
    ensures fine { OnOk result (LabelsAreAccepted world.now) }
    ensures cause { IfErr result (λ kind. (kind ≡ OutOfMemory) ⊎ IsLabelCause world.now kind) }
{
    check_list(alloc, "import", &world.imports, &world.name)?;
    check_list(alloc, "export", &world.exports, &world.name)
}

/// The same of one list, which is called by this word.
fn check_list(
    alloc: Global,
    word: &str,
    entries: &Table<WorldKey, WorldItem>,
    world: &Text,
) -> ResolveResult<()>
    ensures fine { OnOk result (ListIsAccepted world.now word.now entries.now) }
    ensures cause { IfErr result
        (λ kind. (kind ≡ OutOfMemory) ⊎ IsListCause world.now word.now entries.now kind) }
{
    if let Some(clash) = find_clash(alloc, entries)? {
        return Err(not_strongly_unique(alloc, word, clash, world)?);
    }
    if let Some(index) = find_setter_without_getter(alloc, entries)? {
        return Err(no_getter(alloc, word, entries, index, world)?);
    }
    Ok(())
}

/// 17: two labels are not strongly unique.
fn not_strongly_unique(
    alloc: Global,
    word: &str,
    clash: Clash<'_>,
    world: &Text,
) -> Result<ResolveError, AllocError>
    ensures { IfOk result (λ e.
        e
        ≡ Semantic None
        (clash_text word.now clash.entry.label.now world.now clash.entry.earlier.now)
        cause.NotStronglyUnique) }
{
    let (label, earlier) = (clash.label, clash.earlier);
    let message = format!(in alloc;
        "{word} `{label}` in world `{world}` conflicts with {word} `{earlier}` (names must be strongly unique)"
    )?;
    Ok(ResolveErrorKind::Semantic {
        span: Span::unknown(),
        message: Text::from_string(message),
        cause: Cause::NotStronglyUnique,
    }
    .into())
}

/// 18: the entry at this index is a setter without a getter.
fn no_getter(
    alloc: Global,
    word: &str,
    entries: &Table<WorldKey, WorldItem>,
    index: usize,
    world: &Text,
) -> Result<ResolveError, AllocError>
    requires { LacksGetterAt entries.now index }
    ensures { IfOk result (IsListCause world.now word.now entries.now) }
{
    match entries.entry_at(index) {
        (WorldKey::Name(label), WorldItem::Function(function)) => {
            let getter = getter_label(alloc, label.as_str())?;
            let message = format!(in alloc;
                "{word} `{label}` in world `{world}` has no corresponding getter `{getter}`"
            )?;
            Ok(ResolveErrorKind::Semantic {
                span: function.span,
                message: Text::from_string(message),
                cause: Cause::NoGetter,
            }
            .into())
        }
        _ => Err(AllocError),
    }
}
