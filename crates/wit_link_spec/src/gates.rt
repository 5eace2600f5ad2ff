//! Whether an item is active under the features that are on.
ghost use Rattle.std.specs.Prelude.{◌≡◌};
ghost use Rattle.wit_link_spec.specs.Gates.{is_active};

use wit_data::Stability;
use wit_graph_data::Features;

/// Whether a gate lets its item be active: no gate and `@since` do, `@unstable` does where its
/// feature is on.
///
/// Source: `include_stability` of wit-parser 0.263.0; WIT.md of the component model.
pub fn is_active(features: &Features, note: &Stability) -> bool
    ensures { result ≡ is_active features.now note.now }
{
    match note {
        Stability::Unknown | Stability::Stable { .. } => true,
        Stability::Unstable { feature, .. } => {
            features.all || features.names.contains(feature.as_str())
        }
    }
}
