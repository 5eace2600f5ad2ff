//! The groups in brackets with which a label may begin, as `[method]` and `[get]` of `[method][get]r.p`.
ghost use Rattle.std.specs.Prelude.{◌≡◌, ◌∷◌, ◌++◌, [], IfNone, IfSome, ◌<◌, length};
ghost use Rattle.std.specs.List.{concat, list_any};
ghost use Rattle.std.specs.Str.{bytes_eq};
ghost use Rattle.wit_labels.specs.Groups.{begins_group, groups_of, rest_of};

/// The group with which a text begins, in its brackets, and what follows it, or None where it
/// begins with none.
pub fn split_group(text: &str) -> Option<(&str, &str)>
    ensures none { IfNone result (groups_of text.now ≡ []) }
    ensures groups { IfSome result (λ r. groups_of text.now ≡ r.0.now ∷ groups_of r.1.now) }
    ensures whole { IfSome result (λ r. text.now ≡ r.0.now ++ r.1.now) }
    ensures shorter { IfSome result (λ r. length r.1.now < length text.now) }
{
    if !begins_group(text) {
        return None;
    }
    match text.split_once(']') {
        Some((inside, rest)) => Some((&text[..inside.len() + 1], rest)),
        None => None,
    }
}

/// Whether a text begins with an opening bracket.
pub fn begins_group(text: &str) -> bool
    ensures { result ≡ begins_group text.now }
{
    match text.as_bytes().first() {
        Some(b) => *b == b'[',
        None => false,
    }
}

/// What follows the groups with which a label begins.
pub fn rest_of(label: &str) -> &str
    ensures { result.now ≡ rest_of label.now }
{
    let mut rest = label;
    while let Some((_, after)) = split_group(rest) {
        rest = after;
    }
    rest
}

/// The groups with which a label begins, and what follows them.
pub fn split_groups(label: &str) -> (&str, &str)
    ensures groups { result.0.now ≡ concat (groups_of label.now) }
    ensures rest { result.1.now ≡ rest_of label.now }
{
    let rest = rest_of(label);
    (&label[..label.len() - rest.len()], rest)
}

/// Whether a group, given in its brackets, is among those with which a label begins.
pub fn has_group(label: &str, group: &str) -> bool
    ensures { result ≡ list_any (bytes_eq group.now) (groups_of label.now) }
{
    let mut rest = label;
    while let Some((first, after)) = split_group(rest) {
        if group == first {
            return true;
        }
        rest = after;
    }
    false
}
