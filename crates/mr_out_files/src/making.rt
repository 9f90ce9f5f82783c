//! The steps by which a directory is made, in their order.
ghost use Rattle.std.specs.Prelude.{◌≡◌};
ghost use Rattle.mr_out_files.specs.Begins.{steps};

/// A step by which a directory is made, beside its place.
#[derive(Clone, Copy, Debug, PartialEq, Eq)]
pub enum Step {
    /// Its folder is made under another name, and in it the folder of what the commands keep for themselves.
    MakeFolders,
    /// The file that tells the job is written, and synced.
    WriteJob,
    /// The history, which is empty, is made, and synced.
    WriteHistory,
    /// That both stand there is made durable.
    SyncHome,
    /// That their folder stands in the new one is made durable.
    SyncFolder,
    /// The new folder gets the directory's name.
    Rename,
    /// That is made durable.
    SyncParent,
}

const STEPS: [Step; 7] = [
    Step::MakeFolders,
    Step::WriteJob,
    Step::WriteHistory,
    Step::SyncHome,
    Step::SyncFolder,
    Step::Rename,
    Step::SyncParent,
];

/// All steps, in the order in which they are made.
pub fn steps() -> &'static [Step]
    ensures { result.now ≡ steps }
{
    &STEPS
}
