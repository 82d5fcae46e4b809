//! Gates as one user meets them: what was passed is told, if the gate tells it.
ghost use Rattle.std.specs.Prelude.{ℕ, ◌≡◌, List, [], ◌∷◌, Option, None};
ghost use Rattle.nm_io.specs.declared.gate.Stage.{Stage};
ghost use Rattle.vale_fabric.specs.Passing.{passed_with};

use nm_io::{Gate, Stage};

/// A gate that a user has for itself.
pub trait OwnGate {
    /// Which users have passed which stages so far, in their order, if it tells.
    ghost passed: { Self → Option (List (ℕ × Stage)) };

    /// Returns once `user` may go on past `stage`.
    fn pass(&mut self, user: u64, stage: Stage)
        ensures { passed self.new ≡ passed_with ((user, stage) ∷ []) (passed self.old) };
}

/// A gate that threads share, as one of them meets it. It does not tell what was passed.
#[derive(Drop)]
pub struct SharedGate<'g, G: Gate> {
    gate: &'g G,
}

impl<'g, G: Gate> SharedGate<'g, G> {
    /// This gate.
    pub fn new(gate: &'g G) -> SharedGate<'g, G> {
        SharedGate { gate }
    }
}

impl<'g, G: Gate> OwnGate for SharedGate<'g, G> {
    ghost passed = { λ _. None };

    fn pass(&mut self, user: u64, stage: Stage) {
        self.gate.pass(user, stage);
    }
}
