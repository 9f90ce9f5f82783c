//! What a map work or a reduce work has to pass before it begins: for callers who hold works back or refuse them. `OpenGate` is for all others.
ghost use Rattle.std.specs.Prelude.{◌≡◌, Ok, IfErr, ⊤};
ghost use Rattle.mr_ids.specs.declared.id.TaskKind.{TaskKind};

use crate::fault::GateFault;
use mr_ids::TaskKind;

/// What each map work and each reduce work enters once before it begins.
/// What the gate answers has no effect on what the work gives.
pub trait Gate {
    /// Where the gate may refuse work of a kind: anywhere, for a gate that does not say it.
    ghost refuses: { Self → TaskKind → Type 0 } = { λ _ _. ⊤ };

    /// Answers once the work may begin. A gate may hold the caller here; it answers `Spent` where it gives up.
    fn enter(&self, kind: TaskKind) -> Result<(), GateFault>
        ensures { IfErr result (λ _. refuses self.now kind) };
}

/// The gate that is always open: it refuses nothing.
#[derive(Clone, Copy, Debug)]
pub struct OpenGate;

impl Gate for OpenGate {
    ghost refuses = { λ _ _. ⊥ };

    fn enter(&self, _kind: TaskKind) -> Result<(), GateFault>
        ensures { result ≡ Ok tt }
    {
        Ok(())
    }
}
