//! How attempts end.
//! An attempt says that it failed, or its container ended. Whether that counts as a failure is told here.
ghost use Rattle.std.specs.Prelude.{◌≡◌};
ghost use Rattle.mr_master_tasks.specs.Told.{is_failure};

/// How an attempt ended.
#[derive(Clone, Copy, Debug)]
pub enum Ending {
    /// It said that it failed.
    Failure,
    /// Its container ended. Whether a Kill was sent to it.
    Exit(bool),
}

impl Ending {
    /// An exit that was not asked for is a failure.
    pub fn is_failure(&self) -> bool
        ensures { result ≡ is_failure self.now }
    {
        match *self {
            Ending::Failure => true,
            Ending::Exit(was_killed) => !was_killed,
        }
    }
}
