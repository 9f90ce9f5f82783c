//! How the program ends.
use mr_out_check::Answer;

/// How the program ends.
#[derive(Clone, Copy, Debug)]
pub enum Ending {
    /// It has answered.
    Answered(Answer),
    /// A command of a directory ended with this status.
    Carried(u8),
    /// Help, or the version, was asked for.
    Helped,
    /// The command line was refused.
    RefusedWords,
    /// The input was refused.
    RefusedInput,
    /// A call of the system failed.
    CallFailed,
    /// There was no memory.
    NoMemory,
}

impl Ending {
    /// The exit status.
    pub fn status(self) -> u8 {
        match self {
            Ending::Answered(answer) => answer.status(),
            Ending::Carried(status) => status,
            Ending::Helped => 0,
            Ending::RefusedWords => 2,
            Ending::RefusedInput => 3,
            Ending::CallFailed => 4,
            Ending::NoMemory => 5,
        }
    }
}
