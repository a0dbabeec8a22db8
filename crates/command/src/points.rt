// The points that a reading asks for, and those that a page shows.
ghost use Rattle.std.specs.Prelude.{◌≡◌, ◌+◌, ◌≤◌, IfOk};
ghost use Rattle.command.specs.Readings.{chosen_of, picked, limit, limits, timers, present};

use crate::fault::Fault;
use crate::field::read_start_count;
use crate::point::Point;
use crate::settings::{
    CAUTION_2, CAUTION_3, COMBINED_RATIO, CT_RATIO, DEMAND_MODE, LIMIT_2, LIMIT_3, MASK_2, MASK_3,
    MAXIMUM_RESET, METER_DAY, NO_PULSE_WAIT, OFF_HOLD, ON_HOLD, Page, SYNC_TYPE,
};
use crate::station::Station;

// Which points of a list are asked for: so many, from the first on, counted from 0.
// Kept: a `Range` has an end, and what is asked for has a count.
#[derive(Clone, Copy)]
pub(crate) struct Chosen {
    pub(crate) first: usize,
    pub(crate) count: usize,
}

// The points from start on, so many of those listed; points count from 1.
fn pick(start: u8, count: u8, listed: usize) -> Result<Chosen, Fault>
    ensures same { result ≡ picked start count listed }
    ensures within { IfOk result (λ x. x.first + x.count ≤ listed) }
{
    if start == 0 || count == 0 || start as usize - 1 + count as usize > listed {
        return Err(Fault::WrongPoints);
    }
    Ok(Chosen {
        first: start as usize - 1,
        count: count as usize,
    })
}

// The points that the data of a reading ask for.
pub(crate) fn read_points(content: &[u8], listed: usize) -> Result<Chosen, Fault>
    ensures same { result ≡ chosen_of content.now listed }
    ensures within { IfOk result (λ x. x.first + x.count ≤ listed) }
{
    let asked = read_start_count(content)?;
    pick(asked.start, asked.count, listed)
}

// The limit that the demand mode chooses: that of two stages or that of three.
// Kept: no enum of demand modes, since a page may hold any number, and any but 1 chooses three stages.
fn limit_of(page: &Page) -> u16
    ensures { result ≡ limit page.now }
{
    if page[DEMAND_MODE.cell] == 1 {
        page[LIMIT_2.cell]
    } else {
        page[LIMIT_3.cell]
    }
}

// The eight points of 0C. The demand mode chooses between the limits of two stages and those of three.
pub(crate) fn limits_of(page: &Page) -> [Point; 8]
    ensures { result ≡ limits page.now }
{
    let two_stages = page[DEMAND_MODE.cell] == 1;
    let caution = if two_stages {
        page[CAUTION_2.cell]
    } else {
        page[CAUTION_3.cell]
    };
    let mask = if two_stages {
        page[MASK_2.cell]
    } else {
        page[MASK_3.cell]
    };
    [
        Some(page[CT_RATIO.cell]),
        Some(caution),
        Some(limit_of(page)),
        Some(mask),
        Some(page[METER_DAY.cell]),
        Some(0),
        Some(page[SYNC_TYPE.cell]),
        Some(page[MAXIMUM_RESET.cell]),
    ]
}

// The ten points of 0F.
pub(crate) fn timers_of(page: &Page) -> [Point; 10]
    ensures { result ≡ timers page.now }
{
    [
        Some(page[ON_HOLD.cell]),
        Some(page[OFF_HOLD.cell]),
        Some(page[NO_PULSE_WAIT.cell]),
        Some(page[COMBINED_RATIO.cell]),
        None,
        None,
        None,
        None,
        None,
        None,
    ]
}

// The three points of 16.
pub(crate) fn present_of(station: &Station, page: &Page) -> [Point; 3]
    ensures { result ≡ present station.now.demand station.now.predicted page.now }
{
    [
        Some(station.demand),
        Some(station.predicted),
        Some(limit_of(page)),
    ]
}
