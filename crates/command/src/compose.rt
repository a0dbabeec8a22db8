// What a station answers: the data of each command.
ghost use Rattle.std.specs.Prelude.{◌≡◌, ◌*◌, ◌≤◌, length};
ghost use Rattle.book.specs.Lent.{held_in};
ghost use Rattle.book.specs.Ranked.{view_of, ranked};
ghost use Rattle.command.specs.Held.{values_of};
ghost use Rattle.command.specs.Gathered.{gathered_in};
ghost use Rattle.command.specs.Readings.{reading, contract_reading, content_for};

use crate::content::Content;
use crate::fault::Fault;
use crate::gather::{show_points, show_text};
use crate::half_hours::read_half_hours;
use crate::history::read_events;
use crate::holding::Holding;
use crate::known::Command;
use crate::point::Point;
use crate::points::{limits_of, present_of, read_points, timers_of};
use crate::reset::read_reset;
use crate::settings::{CONTRACT_NUMBER, Page};
use book::records::Records;
use book::ring::Ring;

// The points that the data of a reading ask for, of those listed.
fn read_listed(content: &[u8], points: &[Point]) -> Result<Content, Fault>
    requires { 4 * length points.now ≤ 556 }
    ensures { gathered_in result ≡ reading content.now points.now }
{
    let chosen = read_points(content, points.len())?;
    let first = chosen.first;
    let end = first + chosen.count;
    Ok(show_points(&points[first..end]))
}

// The contract number, which is the one point of its list.
fn contract_asked(content: &[u8], page: &Page) -> Result<Content, Fault>
    ensures { gathered_in result ≡ contract_reading content.now page.now }
{
    read_points(content, 1)?;
    let first = CONTRACT_NUMBER.cell;
    let end = first + CONTRACT_NUMBER.width;
    Ok(show_text(&page[first..end]))
}

// The records of a share that has as many places as its ring.
fn lent<R>(ring: Ring, places: &[R]) -> Records<'_, R>
    requires { length places.now ≡ (view_of ring).capacity }
    ensures { held_in result ≡ ranked (view_of ring) places.now }
{
    Records::new(ring, places).unwrap()
}

// The data of the answer to a command with its data, by what the station holds.
pub(crate) fn content_for(
    command: Command,
    content: &[u8],
    holding: &Holding<'_>,
) -> Result<Content, Fault>
    ensures { gathered_in result ≡ content_for command content.now (values_of holding.now) }
{
    let Holding {
        station,
        page,
        events,
        half_hours,
    } = *holding;
    match command {
        Command::ReadLimits => read_listed(content, &limits_of(page)),
        Command::ReadTimers => read_listed(content, &timers_of(page)),
        Command::ReadPresent => read_listed(content, &present_of(station, page)),
        Command::ReadEvents => read_events(content, &lent(station.events, events)),
        Command::ReadContract => contract_asked(content, page),
        Command::ReadHalfHours => read_half_hours(content, &lent(station.half_hours, half_hours)),
        Command::Reset => {
            read_reset(content)?;
            Ok(Content::new())
        }
        Command::WriteSettings => Err(Fault::NotYetBuilt),
    }
}
