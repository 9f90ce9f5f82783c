//! Inputs by their names: files, and standard input, whose name is `-`.
ghost use Rattle.std.specs.Prelude.{◌≡◌, ℕ, List, Option, None, IfOk, IfSome, IfNone};
ghost use Rattle.mr_pipe_commands.specs.Named.{IsTooLong};

use crate::unread::why_unread;
use mr_pipe::{PipeFault, read_all};
use std::alloc::Global;
use std::fs::File;

/// What has inputs by their names.
pub(crate) trait Inputs {
    /// The bytes of an input by its name, where they are known.
    ghost bytes: { Self → List ℕ → Option (List ℕ) };

    /// All bytes of an input; none where these are more than 16,777,216.
    ///
    /// `Read`: it can't be opened, or a read failed. `NoMemory`: memory was refused.
    fn read(&self, alloc: Global, name: &str) -> Result<Option<Vec<u8>>, PipeFault>
        ensures all { IfOk result (λ read. IfSome read (λ found. IfSome (bytes self.now name.now) (λ all. found.items ≡ all))) }
        ensures long { IfOk result (λ read. IfNone read (IsTooLong (bytes self.now) name.now)) };

    /// Why an input is not read, where that can be seen of it.
    fn why_unread(&self, name: &str) -> Option<&'static str>;
}

impl Inputs for HostRuntime {
    // No contract can say what a file or a pipe gives.
    ghost bytes = { λ _ _. None };

    fn read(&self, alloc: Global, name: &str) -> Result<Option<Vec<u8>>, PipeFault> {
        if name == "-" {
            return read_all(alloc, &mut self.stdin());
        }
        match File::open(self, name) {
            Ok(mut file) => read_all(alloc, &mut file),
            Err(_) => Err(PipeFault::Read),
        }
    }

    fn why_unread(&self, name: &str) -> Option<&'static str> {
        why_unread(self, name)
    }
}
