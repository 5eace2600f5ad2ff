//! Whether entries of worlds are the same, with all their data.
ghost use Rattle.std.specs.Prelude.{◌≡◌, ◌↔◌, IsTrue};

use wit_data::{Function, Param, Table, WorldItem, WorldKey};

/// Whether two tables have the same entries in the same order.
pub(crate) fn same_entries(a: &Table<WorldKey, WorldItem>, b: &Table<WorldKey, WorldItem>) -> bool
    ensures { IsTrue result ↔ (a.now ≡ b.now) }
{
    if a.len() != b.len() {
        return false;
    }
    for index in 0..a.len() {
        let (key, item) = a.entry_at(index);
        let (other_key, other_item) = b.entry_at(index);
        if !same_entry(key, item, other_key, other_item) {
            return false;
        }
    }
    true
}

fn same_entry(
    key: &WorldKey,
    item: &WorldItem,
    other_key: &WorldKey,
    other_item: &WorldItem,
) -> bool
    ensures { IsTrue result ↔ ((key.now ≡ other_key.now) × (item.now ≡ other_item.now)) }
{
    same_key(key, other_key) && same_item(item, other_item)
}

fn same_key(a: &WorldKey, b: &WorldKey) -> bool
    ensures { IsTrue result ↔ (a.now ≡ b.now) }
{
    a == b
}

fn same_item(a: &WorldItem, b: &WorldItem) -> bool
    ensures { IsTrue result ↔ (a.now ≡ b.now) }
{
    match (a, b) {
        (
            WorldItem::Interface {
                id,
                stability,
                docs,
                span,
                external_id,
            },
            WorldItem::Interface {
                id: other_id,
                stability: other_stability,
                docs: other_docs,
                span: other_span,
                external_id: other_external_id,
            },
        ) => {
            *id == *other_id
                && *span == *other_span
                && docs == other_docs
                && stability == other_stability
                && external_id == other_external_id
        }
        (WorldItem::Function(function), WorldItem::Function(other)) => same_function(
            function, other,
        ),
        (
            WorldItem::Type_ { id, span },
            WorldItem::Type_ {
                id: other_id,
                span: other_span,
            },
        ) => *id == *other_id && *span == *other_span,
        _ => false,
    }
}

fn same_function(a: &Function, b: &Function) -> bool
    ensures { IsTrue result ↔ (a.now ≡ b.now) }
{
    same_signature(a, b) && same_gates(a, b)
}

/// Whether functions have the same name, kind, parameters and result.
fn same_signature(a: &Function, b: &Function) -> bool
    ensures { IsTrue result
        ↔ ((a.now.name ≡ b.now.name) × (a.now.kind ≡ b.now.kind) × (a.now.params ≡ b.now.params)
        × (a.now.result_ ≡ b.now.result_)) }
{
    a.name == b.name
        && a.kind == b.kind
        && same_params(a.params.as_slice(), b.params.as_slice())
        && a.result_ == b.result_
}

/// Whether functions have the same of what is noted of them.
fn same_gates(a: &Function, b: &Function) -> bool
    ensures { IsTrue result
        ↔ ((a.now.docs ≡ b.now.docs) × (a.now.stability ≡ b.now.stability)
        × (a.now.span ≡ b.now.span) × (a.now.external_id ≡ b.now.external_id)) }
{
    a.docs == b.docs
        && a.stability == b.stability
        && a.span == b.span
        && a.external_id == b.external_id
}

fn same_params(a: &[Param], b: &[Param]) -> bool
    ensures { IsTrue result ↔ (a.now ≡ b.now) }
{
    if a.len() != b.len() {
        return false;
    }
    for index in 0..a.len() {
        if !same_param(&a[index], &b[index]) {
            return false;
        }
    }
    true
}

fn same_param(a: &Param, b: &Param) -> bool
    ensures { IsTrue result ↔ (a.now ≡ b.now) }
{
    a.name == b.name && a.ty == b.ty && a.span == b.span
}
