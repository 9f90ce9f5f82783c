//! What may not agree in a directory.
ghost use Rattle.std.specs.Prelude.{◌≡◌};
ghost use Rattle.mr_out_winners.specs.Printed.{place_of, trouble_reason, trouble_word};

/// What does not agree.
#[derive(Clone, Copy, Debug)]
pub enum Trouble {
    /// The empty file `_SUCCESS` was not there before the directory was listed.
    Unmarked,
    /// The job has another number of tasks than is told.
    OtherTasks,
    /// The job was ended as failed.
    Over,
    /// A task has no recorded winner.
    Unwon,
    /// The winner's file is missing.
    Missing,
    /// What stands at its name is no regular file.
    NoFile,
    /// No length was noted of it.
    Unmeasured,
    /// It has another length than was noted.
    OtherLength,
    /// A visible name is no task's part file.
    Foreign,
}

/// All of them, in the order in which they are told.
pub const TROUBLES: [Trouble; 9] = [
    Trouble::Unmarked,
    Trouble::OtherTasks,
    Trouble::Over,
    Trouble::Unwon,
    Trouble::Missing,
    Trouble::NoFile,
    Trouble::Unmeasured,
    Trouble::OtherLength,
    Trouble::Foreign,
];

impl Trouble {
    // Its place among them.
    pub(crate) fn place(self) -> u8
        ensures { result ≡ place_of self }
    {
        match self {
            Trouble::Unmarked => 0,
            Trouble::OtherTasks => 1,
            Trouble::Over => 2,
            Trouble::Unwon => 3,
            Trouble::Missing => 4,
            Trouble::NoFile => 5,
            Trouble::Unmeasured => 6,
            Trouble::OtherLength => 7,
            Trouble::Foreign => 8,
        }
    }

    /// A word for it.
    pub fn word(self) -> &'static str
        ensures { result.now ≡ trouble_word self }
    {
        match self {
            Trouble::Unmarked => "marker",
            Trouble::OtherTasks => "tasks",
            Trouble::Over => "over",
            Trouble::Unwon => "winners",
            Trouble::Missing => "missing",
            Trouble::NoFile => "files",
            Trouble::Unmeasured => "unmeasured",
            Trouble::OtherLength => "lengths",
            Trouble::Foreign => "foreign",
        }
    }

    // What it says of a name.
    pub(crate) fn reason(self) -> &'static str
        ensures { result.now ≡ trouble_reason self }
    {
        match self {
            Trouble::Unmarked => "there was no such empty file before the directory was listed",
            Trouble::OtherTasks => "the job has another number of tasks than is told",
            Trouble::Over => "the job was ended as failed",
            Trouble::Unwon => "its task has no recorded winner",
            Trouble::Missing => "the winner's file is missing",
            Trouble::NoFile => "it is no regular file",
            Trouble::Unmeasured =>
                "no length was noted of the winner's file (mrout resume notes it, if the file is still kept)",
            Trouble::OtherLength => "it has another length than the winner's file",
            Trouble::Foreign => "mrout did not make it",
        }
    }
}
