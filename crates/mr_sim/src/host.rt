//! What a subcommand has beside its input and its memory: what runs a job by threads.

/// What runs the job of the input by threads. Whoever has no handle makes no thread.
#[derive(Drop)]
pub(crate) struct Host<T, S> {
    /// What `threads` prints of the input: by its most turns a thread, and whether the first map work is held.
    pub(crate) threads: T,
    /// What `threads` shows of the run of the input: by the same, and what is to be shown.
    pub(crate) threads_seen: S,
}
