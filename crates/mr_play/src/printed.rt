//! What a play gives.
ghost use Rattle.std.specs.Prelude.{◌≡◌};

use crate::player::Player;
use mr_sim_commands::Printed;

impl Player {
    /// What a play gives, with this text as its output.
    pub fn printed(self, text: Vec<u8>) -> Printed
        ensures text { result.text ≡ text }
        ensures met { result.met ≡ self.met }
        ensures idle { result.idle_keys ≡ self.idle_keys }
    {
        Printed {
            text,
            met: self.met,
            notes: self.notes,
            idle_keys: self.idle_keys,
        }
    }
}
