//! The names of events that a calm can stop before.
ghost use Rattle.std.specs.Prelude.{◌≡◌, [], ◌∷◌, true};
ghost use Rattle.std.specs.Option.{option_to_list};
ghost use Rattle.mr_script.specs.declared.event_name.EventName.TheVariants as name;
ghost use Rattle.mr_play.specs.EventNames.{duty_event, wish_event, stops_at};

use mr_container::Wish;
use mr_master_model::DutyName;
use mr_script::EventName;

/// The name of a master's duty.
pub fn duty_event(duty: DutyName) -> EventName
    ensures { result ≡ duty_event duty }
{
    match duty {
        DutyName::Marks => EventName::Marks,
        DutyName::Read => EventName::Read,
        DutyName::Setup => EventName::Setup,
        DutyName::Recover => EventName::Recover,
        DutyName::Bar => EventName::Bar,
        DutyName::Append => EventName::Append,
        DutyName::Flush => EventName::Flush,
        DutyName::Started => EventName::Started,
        DutyName::Merge => EventName::Merge,
        DutyName::Cleanup => EventName::Cleanup,
        DutyName::Marker => EventName::Marker,
        DutyName::Success => EventName::Success,
        DutyName::Fail => EventName::Fail,
        DutyName::Abort => EventName::Abort,
    }
}

/// The name of a container's wish; none where it came to its end.
pub fn wish_event(wish: &Wish) -> Option<EventName>
    ensures { result ≡ wish_event wish.now }
{
    match wish {
        Wish::Where { .. } => Some(EventName::Where),
        Wish::Fetch { .. } => Some(EventName::Fetch),
        Wish::Lost { .. } => Some(EventName::Lost),
        Wish::Compute => Some(EventName::Compute),
        Wish::Mkdirs => Some(EventName::Mkdirs),
        Wish::Create => Some(EventName::Create),
        Wish::Write => Some(EventName::Write),
        Wish::Close => Some(EventName::Close),
        Wish::Needs => Some(EventName::Needs),
        Wish::Pending => Some(EventName::Pending),
        Wish::Poll => Some(EventName::Poll),
        Wish::Look => Some(EventName::Look),
        Wish::Clear => Some(EventName::Clear),
        Wish::Rename => Some(EventName::Rename),
        Wish::Report => Some(EventName::Report),
        Wish::Abort => Some(EventName::Abort),
        Wish::Failed => Some(EventName::Failed),
        Wish::Over => None,
    }
}
