// The line: what it holds.
ghost use Rattle.std.specs.Prelude.{◌≡◌, ◌≤◌, length};
ghost use Rattle.line.specs.Shares.{event_shares, half_hour_shares, alike};

use arrayvec::ArrayVec;
use command::station::Station;
use frame::receiver::Receiver;

// The most stations of a line.
pub const MOST_STATIONS: usize = 32;

// The stations stand in the order of enrolling; the one at place k has page k and share k.
// The shares of a book have one size, that of the rings of all stations.
#[derive(Drop)]
pub struct Line {
    pub(crate) receiver: Receiver,
    pub(crate) stations: ArrayVec<Station, MOST_STATIONS>,
    pub(crate) event_share: usize,
    pub(crate) half_hour_share: usize,
    ghost events_small: { event_share ≤ 5000 },
    ghost half_hours_small: { half_hour_share ≤ 3000 },
    ghost events_alike: { event_shares stations.items ≡ alike (length stations.items) event_share },
    ghost half_hours_alike: { half_hour_shares stations.items ≡ alike (length stations.items) half_hour_share },
}
