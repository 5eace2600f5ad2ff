//! Things that come to a graph: each takes its new ids and moves its spans, and keeps all else.
ghost use Rattle.std.specs.Prelude.{◌≡◌, ℕ, Option};
ghost use Rattle.wit_remap_spec.specs.Image.{Maps};

use crate::moves::Moves;
use wit_data::{Items, Names, TypeId};

/// What comes to a graph, with ids and spans that are rewritten there, which takes no memory and refuses nothing.
///
/// Source: `update_typedef`, `update_ty`, `update_interface` and `update_function` of wit-parser 0.263.0.
pub trait Update {
    /// Its spans meet a condition.
    ghost fits: { (Option (ℕ × ℕ) → Type 0) → Self → Type 0 };

    /// Its image.
    ghost image: { Maps → Self → Self };

    /// Makes it its image: ids go and spans move as the mover says, and all else stays. The mover can move its spans.
    fn update<M: Moves>(&mut self, mover: &M)
        requires { fits (M.fits mover.now) self.old }
        ensures { self.new ≡ image (M.maps mover.now) self.old };
}

impl Update for TypeId {
    ghost fits = { λ _ _. Unit {0} };

    ghost image = { λ m id. m.types id };

    fn update<M: Moves>(&mut self, mover: &M) {
        *self = mover.type_id(*self);
    }
}

impl<T: Update> Update for Option<T> {
    ghost use Rattle.std.specs.Option.{option_map, ForSome};

    ghost fits = { λ P x. ForSome x (T.fits P) };

    ghost image = { λ m. option_map (T.image m) };

    fn update<M: Moves>(&mut self, mover: &M) {
        if let Some(value) = self {
            value.update(mover);
        }
    }
}

impl<T: Update> Update for Items<T> {
    ghost use Rattle.std.specs.Prelude.{map};
    ghost use Rattle.wit_data.specs.Each.{Each};

    ghost fits = { λ P xs. Each (T.fits P) xs };

    ghost image = { λ m. map (T.image m) };

    fn update<M: Moves>(&mut self, mover: &M) {
        for index in 0..self.len() {
            self.at_mut(index).update(mover);
        }
    }
}

impl<V: Update + Drop> Update for Names<V> {
    ghost use Rattle.std.specs.Prelude.{List, ℕ, map};
    ghost use Rattle.wit_data.specs.Each.{Each};

    ghost fits = { λ P es. Each (λ (e : List ℕ × V). V.fits P e.1) es };

    ghost image = { λ m. map (λ (e : List ℕ × V). (e.0, V.image m e.1)) };

    fn update<M: Moves>(&mut self, mover: &M) {
        for index in 0..self.len() {
            self.value_at_mut(index).update(mover);
        }
    }
}
