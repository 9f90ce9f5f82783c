//! What the weather makes of a call.
ghost use Rattle.std.specs.Prelude.{◌≡◌};
ghost use Rattle.mr_world_stores.specs.Calls.{is_made};

use mr_world_events::Weather;

/// Whether a call is made in this weather.
pub fn is_made(weather: Weather) -> bool
    ensures { result ≡ is_made weather }
{
    match weather {
        Weather::Calm | Weather::Unanswered => true,
        Weather::Unavailable => false,
    }
}
