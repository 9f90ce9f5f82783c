//! What happened in a run, event by event, and the trace that tells it.
//!
//! # What is proved
//!
//! For every input:
//!
//! - **`trace_of`**: the trace of a world's run, with who made its events, is exactly the text of what happened in it
//!   (`trace_text` of `specs/Trace`). For each event of the journal it has its place, the event in the words of its
//!   command, what the duty or the wish was, and who made it. Then come its store call with what the caller heard,
//!   and the packets that it added (`Happened` of `specs/Happened`). It fails by nothing but an allocation failure.
//! - **`play_shown`**: the text has what `play` prints (`Shows`). Where a trace is asked for, it stands before that,
//!   each event with the line of the script that made it. Where the history is asked for, it stands behind. Both are
//!   exactly those of the run of which the text is printed. Its faults are those of `play` (`PlayFails`).
//!
//! Whoever shows a run in another way finds here what tells one event, each call with its clause. `maker_of` and
//! `left_at` tell who made it, and `name_of` its duty or wish. `opened` and `happen` give a world in which the events
//! happen once more: each can happen there in turn, as `World::repeats` tells. `specs/Words` has the words.
#![tactic(auto)]

mod asked;
mod call_words;
mod makers;
mod packet_words;
mod seats;
mod shown;
mod trace;
mod trace_words;

pub use asked::{put_call, put_call_of, put_heard};
pub use makers::{Maker, Makers, left_at, maker_of, put_maker};
pub use mr_play;
pub use mr_play::mr_world;
pub use packet_words::put_packet;
pub use seats::{Seat, put_thread, thread_of};
pub use shown::play_shown;
pub use trace::{happen, name_of, opened, trace_of};
pub use trace_words::{put_address, put_container, put_event, put_number, put_small};
