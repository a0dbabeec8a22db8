// What a station holds, lent to be read: itself, its page, and the places of its two shares.
ghost use Rattle.std.specs.Prelude.{◌≡◌, length};

use crate::event::Event;
use crate::half_hour::HalfHour;
use crate::settings::Page;
use crate::station::Station;

// Kept: the places and not `Records`, since what a request leaves is defined of the places.
#[derive(Drop)]
pub(crate) struct Holding<'a> {
    pub(crate) station: &'a Station,
    pub(crate) page: &'a Page,
    pub(crate) events: &'a [Event],
    pub(crate) half_hours: &'a [HalfHour],
    ghost events_fit: { length events.now ≡ station.now.events.capacity },
    ghost half_hours_fit: { length half_hours.now ≡ station.now.half_hours.capacity },
}
