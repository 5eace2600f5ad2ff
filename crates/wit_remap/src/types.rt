//! Types, with new ids and spans.
ghost use Rattle.std.specs.Prelude.{◌≡◌};
ghost use Rattle.wit_remap_spec.specs.Image.{owner_image, type_image};
ghost use Rattle.wit_remap_spec.specs.steps.Parts.{value_image, target_image, field_image, case_image, flag_image, enum_case_image, handle_image, kind_image};

use crate::moves::Moves;
use crate::update::Update;
use wit_data::{Case, EnumCase, Field, Flag, Handle, Type_, TypeDef, TypeDefKind, TypeOwner};

/// A type at a value position.
impl Update for Type_ {
    ghost fits = { λ _ _. Unit {0} };

    ghost image = { value_image };

    fn update<M: Moves>(&mut self, mover: &M) {
        if let Type_::Id(id) = self {
            *id = mover.value_id(*id);
        }
    }
}

/// A type that an alias names.
fn update_target<M: Moves>(ty: &mut Type_, mover: &M)
    ensures { ty.new ≡ target_image (M.maps mover.now) ty.old }
{
    if let Type_::Id(id) = ty {
        id.update(mover);
    }
}

impl Update for Field {
    ghost fits = { λ P f. P f.span };

    ghost image = { field_image };

    fn update<M: Moves>(&mut self, mover: &M) {
        self.ty.update(mover);
        self.span = mover.span(self.span);
    }
}

impl Update for Case {
    ghost fits = { λ P c. P c.span };

    ghost image = { case_image };

    fn update<M: Moves>(&mut self, mover: &M) {
        self.ty.update(mover);
        self.span = mover.span(self.span);
    }
}

impl Update for Flag {
    ghost fits = { λ P f. P f.span };

    ghost image = { flag_image };

    fn update<M: Moves>(&mut self, mover: &M) {
        self.span = mover.span(self.span);
    }
}

impl Update for EnumCase {
    ghost fits = { λ P c. P c.span };

    ghost image = { enum_case_image };

    fn update<M: Moves>(&mut self, mover: &M) {
        self.span = mover.span(self.span);
    }
}

impl Update for Handle {
    ghost fits = { λ _ _. Unit {0} };

    ghost image = { handle_image };

    fn update<M: Moves>(&mut self, mover: &M) {
        match self {
            Handle::Own(id) => id.update(mover),
            Handle::Borrow(id) => id.update(mover),
        }
    }
}

impl Update for TypeOwner {
    ghost fits = { λ _ _. Unit {0} };

    ghost image = { owner_image };

    fn update<M: Moves>(&mut self, mover: &M) {
        match self {
            TypeOwner::World(id) => *id = mover.world_id(*id),
            TypeOwner::Interface(id) => *id = mover.interface_id(*id),
            TypeOwner::None => {}
        }
    }
}

impl Update for TypeDefKind {
    ghost use Rattle.wit_remap.specs.steps.Fits.{KindFits};

    ghost fits = { KindFits };

    ghost image = { kind_image };

    fn update<M: Moves>(&mut self, mover: &M) {
        match self {
            TypeDefKind::Record { fields } => fields.update(mover),
            TypeDefKind::Flags { flags } => flags.update(mover),
            TypeDefKind::Tuple { types } => types.update(mover),
            TypeDefKind::Variant { cases } => cases.update(mover),
            TypeDefKind::Enum { cases } => cases.update(mover),
            TypeDefKind::Handle(handle) => handle.update(mover),
            TypeDefKind::Result_ { ok, err } => {
                ok.update(mover);
                err.update(mover);
            }
            TypeDefKind::Map(key, value) => {
                key.update(mover);
                value.update(mover);
            }
            TypeDefKind::Option(ty) => ty.update(mover),
            TypeDefKind::List(ty) => ty.update(mover),
            TypeDefKind::FixedLengthList(ty, _) => ty.update(mover),
            TypeDefKind::Future(ty) => ty.update(mover),
            TypeDefKind::Stream(ty) => ty.update(mover),
            TypeDefKind::Type_(ty) => update_target(ty, mover),
            TypeDefKind::Resource | TypeDefKind::Unknown => {}
        }
    }
}

/// Its name stays, whatever a label becomes.
impl Update for TypeDef {
    ghost use Rattle.wit_remap.specs.steps.Fits.{TypeFits};

    ghost fits = { TypeFits };

    ghost image = { λ m def. record (type_image m def) { name = def.name } };

    fn update<M: Moves>(&mut self, mover: &M) {
        self.kind.update(mover);
        self.owner.update(mover);
        self.span = mover.span(self.span);
    }
}
