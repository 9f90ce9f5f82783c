//! Whether two machines of containers hold the same.
ghost use Rattle.std.specs.Prelude.{◌≡◌, ◌↔◌, IsTrue};

use crate::machine::ContainerMachine;

impl ContainerMachine {
    /// Whether both hold the same: what they were launched as, how far they came, and what they fetched and computed.
    #[tactic(auto, using(crate::proofs::Equality::machines_decide))]
    pub fn is_same(&self, other: &ContainerMachine) -> bool
        ensures { IsTrue result ↔ (self.now ≡ other.now) }
    {
        self == other
    }
}
