//! What the words of a command line ask for.

/// What is asked of an output directory.
#[derive(Clone, Copy, Debug)]
pub struct Asked<'w> {
    /// The directory.
    pub dir: &'w str,
    /// After how many seconds the wait for the lock ends; never where it is `None`.
    pub wait: Option<u64>,
    /// What is to be done.
    pub command: Command<'w>,
}

/// What is to be done with an output directory.
#[derive(Clone, Copy, Debug)]
pub enum Command<'w> {
    /// It is made, for a job of so many tasks.
    Begin {
        tasks: u32,
        limit: Option<u32>,
        suffix: &'w str,
        /// It is published only by the command to publish.
        hold: bool,
        /// All is well where it is there, with a job of the same words.
        again: bool,
    },
    /// An attempt is begun: at this task, or at the first that waits for one.
    Attempt {
        task: Option<u32>,
        /// What is under way at the task is given up first.
        over: bool,
    },
    /// An attempt is begun at each task that waits for one.
    AttemptAll,
    /// The attempt with this text has written its file.
    Done {
        attempt: &'w str,
    },
    /// Attempts have failed, or are given up.
    Fail(Failing<'w>),
    /// A held job is published, if each task is won.
    Publish,
    /// The job is ended as failed.
    Abort,
    /// What a killed command left is finished.
    Resume {
        /// The directory was moved to this host.
        here: bool,
    },
    /// The history of a published directory is removed.
    Forget,
    /// How the job stands.
    Status {
        json: bool,
    },
}

/// Which attempts failed.
#[derive(Clone, Copy, Debug)]
pub enum Failing<'w> {
    /// The attempt with this text.
    One(&'w str),
    /// All that are under way at this task.
    Task(u32),
    /// All that are under way.
    All,
}
