//! What a subcommand gives.
ghost use Rattle.std.specs.Prelude.{◌≡◌, true};

use crate::job::IdleKeys;
use std::alloc::Global;

/// What a subcommand gives: its output, and what is told beside it.
#[derive(Drop)]
pub struct Printed {
    /// What goes to standard output.
    pub text: Vec<u8>,
    /// Whether all is as the input expects. Only a script of `play` expects anything: of all else it is true.
    pub met: bool,
    /// Lines for standard error: which calms ended otherwise than the script asks.
    pub notes: Vec<u8>,
    /// The keys of its job text that say nothing.
    pub idle_keys: IdleKeys,
}

impl Printed {
    /// This output of an input that expects nothing, and has these idle keys.
    pub fn plain(alloc: Global, text: Vec<u8>, idle_keys: IdleKeys) -> Printed
        ensures text { result.text ≡ text }
        ensures met { result.met ≡ true }
        ensures idle { result.idle_keys ≡ idle_keys }
    {
        Printed {
            text,
            met: true,
            notes: Vec::new(alloc),
            idle_keys,
        }
    }
}
