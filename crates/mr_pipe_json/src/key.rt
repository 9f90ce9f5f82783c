//! The keys of an object.
ghost use Rattle.std.specs.Prelude.{◌≡◌};
ghost use Rattle.mr_pipe_json.specs.Form.{key_text};

/// The key of a line's first word.
#[derive(Clone, Copy, Debug, PartialEq, Eq)]
pub enum Key {
    /// Of a store call.
    Call,
    /// Of an answer.
    Answer,
    /// Of how an operation ended.
    End,
    /// Of what was no line.
    Error,
    /// Of what happened to an attempt.
    Event,
}

/// The text of a key.
pub fn key_text(key: Key) -> &'static str
    ensures { result.now ≡ key_text key }
{
    match key {
        Key::Call => "call",
        Key::Answer => "answer",
        Key::End => "end",
        Key::Error => "error",
        Key::Event => "event",
    }
}
