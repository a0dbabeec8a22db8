// Command 54: settings, events or half hours made as at first.
ghost use Rattle.std.specs.Prelude.{◌≡◌};
ghost use Rattle.command.specs.Stations.{station_view};
ghost use Rattle.command.specs.Resets.{effects_of, reset_of, station_after, pages_after};

use crate::fault::Fault;
use crate::field::number_at;
use crate::settings::initial_page;
use crate::station::Station;
use memory::{SettingsMemory, restore};

// Where the point and the four digits stand in the frame.
const POINT_POSITION: u8 = 8;

const DIGITS_POSITION: u8 = 10;

// The only point.
const POINT: u8 = 1;

// What is made as at first: the settings; the events emptied; the half hours emptied and the present values 0.
#[derive(Clone, Copy)]
pub(crate) struct Reset {
    pub(crate) settings: bool,
    pub(crate) events: bool,
    pub(crate) half_hours: bool,
}

// The first of the four digits is the sum of 8 (settings), 2 (events) and 1 (half hours); the others are 0.
fn effects_of(first: u8, last: u8) -> Result<Reset, Fault>
    ensures { result ≡ effects_of first last }
{
    let digit = first / 16;
    if last != 0 || first % 16 != 0 || digit % 8 > 3 {
        return Err(Fault::WrongValue {
            position: DIGITS_POSITION,
        });
    }
    Ok(Reset {
        settings: digit >= 8,
        events: digit % 4 >= 2,
        half_hours: digit % 2 == 1,
    })
}

// What the data ask to reset: a point and four digits. The point is asked last, though it stands first.
pub(crate) fn read_reset(content: &[u8]) -> Result<Reset, Fault>
    ensures { result ≡ reset_of content.now }
{
    let [
        point_high,
        point_low,
        first_high,
        first_low,
        last_high,
        last_low,
    ] = content
    else {
        return Err(Fault::WrongLength);
    };
    let point = number_at(POINT_POSITION, *point_high, *point_low)?;
    let first = number_at(DIGITS_POSITION, *first_high, *first_low)?;
    let last = number_at(DIGITS_POSITION, *last_high, *last_low)?;
    let reset = effects_of(first, last)?;
    if point != POINT {
        return Err(Fault::WrongPoints);
    }
    Ok(reset)
}

impl Reset {
    // What becomes of the station itself.
    pub(crate) fn reset_station(self, station: &mut Station)
        ensures { station_view station.new ≡ station_after self (station_view station.old) }
    {
        if self.events {
            station.events.clear();
        }
        if self.half_hours {
            station.half_hours.clear();
            station.demand = 0;
            station.predicted = 0;
        }
    }

    // What becomes of its page.
    pub(crate) fn reset_page<M: SettingsMemory>(self, memory: &mut M, page: u16)
        ensures { M.pages memory.new ≡ pages_after self (M.pages memory.old) page }
    {
        if self.settings {
            let _ = restore(memory, page, &initial_page());
        }
    }
}
