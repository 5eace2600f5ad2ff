//! Functions and interfaces, with new ids and spans.
ghost use Rattle.wit_remap_spec.specs.Image.{function_image, interface_image};
ghost use Rattle.wit_remap_spec.specs.steps.Parts.{param_image, function_kind_image};

use crate::moves::Moves;
use crate::update::Update;
use wit_data::{Function, FunctionKind, Interface, Param};

impl Update for Param {
    ghost fits = { λ P param. P param.span };

    ghost image = { param_image };

    fn update<M: Moves>(&mut self, mover: &M) {
        self.ty.update(mover);
        self.span = mover.span(self.span);
    }
}

impl Update for FunctionKind {
    ghost fits = { λ _ _. Unit {0} };

    ghost image = { function_kind_image };

    fn update<M: Moves>(&mut self, mover: &M) {
        match self {
            FunctionKind::Method(id) => id.update(mover),
            FunctionKind::AsyncMethod(id) => id.update(mover),
            FunctionKind::Static(id) => id.update(mover),
            FunctionKind::AsyncStatic(id) => id.update(mover),
            FunctionKind::Constructor(id) => id.update(mover),
            FunctionKind::MethodGetter(id) => id.update(mover),
            FunctionKind::MethodSetter(id) => id.update(mover),
            FunctionKind::StaticGetter(id) => id.update(mover),
            FunctionKind::StaticSetter(id) => id.update(mover),
            FunctionKind::Freestanding
            | FunctionKind::AsyncFreestanding
            | FunctionKind::Getter
            | FunctionKind::Setter => {}
        }
    }
}

impl Update for Function {
    ghost use Rattle.wit_remap.specs.steps.Fits.{FunctionFits};

    ghost fits = { FunctionFits };

    ghost image = { function_image };

    fn update<M: Moves>(&mut self, mover: &M) {
        self.kind.update(mover);
        self.params.update(mover);
        self.result_.update(mover);
        self.span = mover.span(self.span);
    }
}

impl Update for Interface {
    ghost use Rattle.wit_remap.specs.steps.Fits.{InterfaceFits};

    ghost fits = { InterfaceFits };

    ghost image = { interface_image };

    fn update<M: Moves>(&mut self, mover: &M) {
        self.types.update(mover);
        self.functions.update(mover);
        self.package = Some(mover.home());
        self.span = mover.span(self.span);
    }
}
