//! The names of events that a script's `calm` can stop before: a master's duties, a container's wishes, `launch` and `step`.
ghost use Rattle.std.specs.Prelude.{◌≡◌, IfSome, IfNone};
ghost use Rattle.mr_script.specs.Names.{name_text};

/// What a calm can stop before: the duty of a master, the wish of a container, a launch, or any step of a container.
#[derive(Clone, Copy, Debug, PartialEq, Eq)]
pub enum EventName {
    Marks,
    Read,
    Setup,
    Recover,
    Bar,
    Append,
    Flush,
    Started,
    Merge,
    Cleanup,
    Marker,
    Success,
    Fail,
    /// The abort of a job, or of a task.
    Abort,
    Compute,
    Where,
    Fetch,
    Lost,
    Mkdirs,
    Create,
    Write,
    Close,
    Needs,
    Pending,
    Poll,
    Look,
    Clear,
    Rename,
    Report,
    Failed,
    Launch,
    /// Any step of a container.
    Step,
}

/// All names.
const NAMES: [EventName; 32] = [
    EventName::Marks,
    EventName::Read,
    EventName::Setup,
    EventName::Recover,
    EventName::Bar,
    EventName::Append,
    EventName::Flush,
    EventName::Started,
    EventName::Merge,
    EventName::Cleanup,
    EventName::Marker,
    EventName::Success,
    EventName::Fail,
    EventName::Abort,
    EventName::Compute,
    EventName::Where,
    EventName::Fetch,
    EventName::Lost,
    EventName::Mkdirs,
    EventName::Create,
    EventName::Write,
    EventName::Close,
    EventName::Needs,
    EventName::Pending,
    EventName::Poll,
    EventName::Look,
    EventName::Clear,
    EventName::Rename,
    EventName::Report,
    EventName::Failed,
    EventName::Launch,
    EventName::Step,
];

/// The name as scripts write it.
pub fn event_word(name: EventName) -> &'static [u8]
    ensures { result.now ≡ name_text name }
{
    match name {
        EventName::Marks => b"marks",
        EventName::Read => b"read",
        EventName::Setup => b"setup",
        EventName::Recover => b"recover",
        EventName::Bar => b"bar",
        EventName::Append => b"append",
        EventName::Flush => b"flush",
        EventName::Started => b"started",
        EventName::Merge => b"merge",
        EventName::Cleanup => b"cleanup",
        EventName::Marker => b"marker",
        EventName::Success => b"success",
        EventName::Fail => b"fail",
        EventName::Abort => b"abort",
        EventName::Compute => b"compute",
        EventName::Where => b"where",
        EventName::Fetch => b"fetch",
        EventName::Lost => b"lost",
        EventName::Mkdirs => b"mkdirs",
        EventName::Create => b"create",
        EventName::Write => b"write",
        EventName::Close => b"close",
        EventName::Needs => b"needs",
        EventName::Pending => b"pending",
        EventName::Poll => b"poll",
        EventName::Look => b"look",
        EventName::Clear => b"clear",
        EventName::Rename => b"rename",
        EventName::Report => b"report",
        EventName::Failed => b"failed",
        EventName::Launch => b"launch",
        EventName::Step => b"step",
    }
}

/// The name that the word is.
pub fn event_named(word: &[u8]) -> Option<EventName>
    ensures found { IfSome result (λ n. word.now ≡ name_text n) }
    ensures none { IfNone result ((n : EventName) → word.now ≡ name_text n → ⊥) }
{
    for name in &NAMES {
        if word == event_word(*name) {
            return Some(*name);
        }
    }
    None
}
