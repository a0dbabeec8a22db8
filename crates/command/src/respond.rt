// A station's answer to a request, written to the front of a lent buffer.
ghost use Rattle.std.specs.Prelude.{◌≡◌, ◌<◌, ◌≤◌, true, ◌&&◌, [], length, is_ok, Ok, slice_set, ◌==◌, nat_eq, nat_le};
ghost use Rattle.frame.specs.Answers.{counted, fronted};
ghost use Rattle.frame.specs.Requests.{asking};
ghost use Rattle.memory.specs.Model.{loaded};
ghost use Rattle.command.specs.Replies.{composed_of, saying, replied_as, replied, left_of, pages_of, said, told_with, told, shares_fit, held_by, responded, answer_left, station_left, pages_left};
ghost use Rattle.command.specs.Commands.{answer_code};
ghost use Rattle.command.specs.Held.{values_of};
ghost use Rattle.command.specs.Questions.{then};
ghost use Rattle.command.specs.Resets.{reset_of, station_reset, pages_reset};
ghost use Rattle.command.specs.Stations.{station_view, holding};

use crate::compose::content_for;
use crate::content::Content;
use crate::event::Event;
use crate::fault::Fault;
use crate::half_hour::HalfHour;
use crate::holding::Holding;
use crate::known::Command;
use crate::reset::read_reset;
use crate::settings::Page;
use crate::station::Station;
use frame::answer::Answer;
use frame::request::Request;
use memory::{SettingsMemory, load};

// What was answered: the answer's length, and the fault of an abnormal answer.
// Kept: a length, and no slice, since this is told on after the loan of the buffer.
#[derive(Clone, Copy)]
pub struct Reply {
    pub length: usize,
    pub fault: Option<Fault>,
}

// Why nothing is answered: the station has no page, a share does not fit its ring, or the answer has no room.
#[derive(Clone, Copy, Debug, PartialEq, Eq)]
pub enum Unanswered {
    NoPage,
    WrongShare,
    NoRoom,
}

// A normal answer's command octets and data.
#[derive(Drop)]
pub(crate) struct Composed {
    pub(crate) code: [u8; 2],
    pub(crate) content: Content,
}

// Makes things as at first, as the data ask; the answer has no data.
fn obey_reset<M: SettingsMemory>(
    content: &[u8],
    station: &mut Station,
    memory: &mut M,
    page: u16,
) -> Result<Composed, Fault>
    ensures said { composed_of result ≡ then (then (reset_of content.now) (λ _. Ok [])) (λ shown. Ok (saying (answer_code Command.Reset) shown)) }
    ensures station { station_view station.new ≡ station_reset (reset_of content.now) (station_view station.old) }
    ensures pages { M.pages memory.new ≡ pages_reset (reset_of content.now) (M.pages memory.old) page }
{
    let reset = read_reset(content)?;
    reset.reset_station(station);
    reset.reset_page(memory, page);
    Ok(Composed {
        code: Command::Reset.answer_code(),
        content: Content::new(),
    })
}

// Carries out a command other than a reset: it leaves all as it is.
fn obey_reading(command: Command, content: &[u8], holding: &Holding<'_>) -> Result<Composed, Fault>
    ensures { composed_of result ≡ replied_as command content.now (values_of holding.now) }
{
    let content = content_for(command, content, holding)?;
    Ok(Composed {
        code: command.answer_code(),
        content,
    })
}

// Carries out the command of a request, if it is known, and composes its normal answer, or tells the fault of the
// abnormal one.
// Kept: lent part by part, as to `respond`: station and memory are changed and the rest is only read, and a struct of all
// would owe in each clause what stays.
fn obey<M: SettingsMemory>(
    request: &Request<'_>,
    station: &mut Station,
    memory: &mut M,
    page: u16,
    cells: &Page,
    events: &[Event],
    half_hours: &[HalfHour],
) -> Result<Composed, Fault>
    requires events { length events.now ≡ (station_view station.old).events.capacity }
    requires half_hours { length half_hours.now ≡ (station_view station.old).half_hours.capacity }
    ensures said { composed_of result ≡ replied (asking request.now) (holding (station_view station.old) cells.now events.now half_hours.now) }
    ensures station { station_view station.new ≡ (left_of (asking request.now) (holding (station_view station.old) cells.now events.now half_hours.now)).station }
    ensures pages { M.pages memory.new ≡ pages_of (asking request.now) (M.pages memory.old) page }
{
    let command = Command::try_from(request.command)?;
    match command {
        Command::Reset => obey_reset(request.content, station, memory, page),
        Command::ReadLimits
        | Command::ReadTimers
        | Command::ReadPresent
        | Command::ReadEvents
        | Command::ReadContract
        | Command::ReadHalfHours
        | Command::WriteSettings => obey_reading(
            command,
            request.content,
            &Holding {
                station,
                page: cells,
                events,
                half_hours,
            },
        ),
    }
}

// The same on a page as it was loaded: what is left is told of that page, and rings keep their sizes.
fn compose<M: SettingsMemory>(
    request: &Request<'_>,
    station: &mut Station,
    memory: &mut M,
    page: u16,
    cells: &Page,
    events: &[Event],
    half_hours: &[HalfHour],
) -> Result<Composed, Fault>
    requires page { Ok cells.now ≡ loaded (M.pages memory.old) page }
    requires events { length events.now ≡ (station_view station.old).events.capacity }
    requires half_hours { length half_hours.now ≡ (station_view station.old).half_hours.capacity }
    ensures said { composed_of result ≡ replied (asking request.now) (holding (station_view station.old) cells.now events.now half_hours.now) }
    ensures station { station_view station.new ≡ (left_of (asking request.now) (holding (station_view station.old) cells.now events.now half_hours.now)).station }
    ensures pages { M.pages memory.new ≡ slice_set (M.pages memory.old) page (left_of (asking request.now) (holding (station_view station.old) cells.now events.now half_hours.now)).page }
    ensures sizes { ((station_view station.new).events.capacity ≡ (station_view station.old).events.capacity) × ((station_view station.new).half_hours.capacity ≡ (station_view station.old).half_hours.capacity) }
{
    obey(request, station, memory, page, cells, events, half_hours)
}

// The longest answer.
const LONGEST_ANSWER: usize = 567;

// The abnormal answer has this command and no data.
const ABNORMAL: [u8; 2] = *b"FF";

// Writes an answer, and tells its length and its fault.
fn write_saying(
    saying: &Answer<'_>,
    fault: Option<Fault>,
    answer: &mut [u8],
) -> Result<Reply, Unanswered>
    requires { length saying.now.content.now ≤ 556 }
    ensures told { result ≡ told_with fault (counted (length answer.old) saying.now.content.now) }
    ensures wrote { answer.new ≡ fronted saying.now.address saying.now.command saying.now.content.now answer.old }
    ensures answers { 567 ≤ length answer.old → is_ok result ≡ true }
{
    let length = saying.write(answer).map_err(|_| Unanswered::NoRoom)?;
    Ok(Reply { length, fault })
}

// Writes what was composed, or the abnormal answer.
fn write_reply(
    composed: &Result<Composed, Fault>,
    address: [u8; 4],
    answer: &mut [u8],
) -> Result<Reply, Unanswered>
    ensures told { result ≡ told (length answer.old) (composed_of composed.now) }
    ensures wrote { answer.new ≡ fronted address (said (composed_of composed.now)).code (said (composed_of composed.now)).content answer.old }
    ensures answers { 567 ≤ length answer.old → is_ok result ≡ true }
{
    match composed {
        Ok(normal) => {
            let saying = Answer {
                address,
                command: normal.code,
                content: normal.content.as_slice(),
            };
            write_saying(&saying, None, answer)
        }
        Err(fault) => {
            let saying = Answer {
                address,
                command: ABNORMAL,
                content: &[],
            };
            write_saying(&saying, Some(*fault), answer)
        }
    }
}

// Whether a station's shares have as many places as their rings.
fn shares_fit(station: &Station, events: usize, half_hours: usize) -> bool
    ensures { result ≡ (events == (station_view station.now).events.capacity && nat_eq half_hours (station_view station.now).half_hours.capacity) }
{
    events == station.events.capacity() && half_hours == station.half_hours.capacity()
}

// Whether a buffer has room for the longest answer.
fn roomy(room: usize) -> bool
    ensures { result ≡ nat_le 567 room }
{
    room >= LONGEST_ANSWER
}

// The answer of a station, with its page of a memory and its shares, to a request, and what it leaves. Where there is
// no page, a share does not fit or the buffer has no room for the longest answer, nothing is done and nothing written.
#[tactic(auto, using(crate::proofs::Leaving::held_ok))]
pub fn respond<M: SettingsMemory>(
    request: &Request<'_>,
    station: &mut Station,
    memory: &mut M,
    page: u16,
    events: &[Event],
    half_hours: &[HalfHour],
    answer: &mut [u8],
) -> Result<Reply, Unanswered>
    ensures told { result ≡ responded (asking request.now) (held_by (station_view station.old) events.now half_hours.now (loaded (M.pages memory.old) page) (length answer.old)) (length answer.old) }
    ensures wrote { answer.new ≡ answer_left (asking request.now) (held_by (station_view station.old) events.now half_hours.now (loaded (M.pages memory.old) page) (length answer.old)) answer.old }
    ensures station { station_view station.new ≡ station_left (asking request.now) (held_by (station_view station.old) events.now half_hours.now (loaded (M.pages memory.old) page) (length answer.old)) (station_view station.old) }
    ensures pages { M.pages memory.new ≡ pages_left (asking request.now) (held_by (station_view station.old) events.now half_hours.now (loaded (M.pages memory.old) page) (length answer.old)) (M.pages memory.old) page }
    ensures sizes { ((station_view station.new).events.capacity ≡ (station_view station.old).events.capacity) × ((station_view station.new).half_hours.capacity ≡ (station_view station.old).half_hours.capacity) }
    ensures answers { page < length (M.pages memory.old) → shares_fit (station_view station.old) events.now half_hours.now ≡ true → 567 ≤ length answer.old → is_ok result ≡ true }
{
    let Ok(cells) = load(memory, page) else {
        return Err(Unanswered::NoPage);
    };
    if !shares_fit(station, events.len(), half_hours.len()) {
        return Err(Unanswered::WrongShare);
    }
    if !roomy(answer.len()) {
        return Err(Unanswered::NoRoom);
    }
    let composed = compose(request, station, memory, page, &cells, events, half_hours);
    write_reply(&composed, request.address, answer)
}
