// Half hours read: the demands of half a day, from an hour on.
ghost use Rattle.std.specs.Prelude.{◌≡◌, ◌+◌, ◌≤◌, ◌++◌, map};
ghost use Rattle.arrayvec.specs.ArrayVec.{array_vec_len};
ghost use Rattle.std.specs.List.{range_with_len, flat_map};
ghost use Rattle.std.specs.Option.{option_map};
ghost use Rattle.std.specs.Result.{result_map_both as mapped_both};
ghost use Rattle.book.specs.Lent.{held_in};
ghost use Rattle.calendar.specs.Moment.{moment_of};
ghost use Rattle.calendar.specs.HalfHours.{then_next};
ghost use Rattle.command.specs.Gathered.{gathered, gathered_in};
ghost use Rattle.command.specs.HalfHours.{hour_fault, half_hours_asked, half_hours_shown, half_hours_reading};
ghost use Rattle.command.specs.Slots.{slot_view, slot_on, noted, slots_after, slot_octets};

use crate::content::{Content, push_octets};
use crate::fault::Fault;
use crate::half_hour::HalfHour;
use crate::point::{Point, point_octets};
use book::records::Records;
use calendar::date_time::DateTime;
use calendar::time_fault::TimeFault;

// Where the time, and its minutes, stand in the frame.
const TIME_POSITION: u8 = 8;

const MINUTES_POSITION: u8 = 16;

// How many octets the time has.
const TIME_WIDTH: usize = 12;

// What is wrong with twelve octets that are no time. Minutes and seconds other than zero are told before a time that
// there is not, so that minute 60 is a wrong value.
// Kept: no `From`, since in a bulk write the same refusal is another fault.
fn judge_fault(fault: TimeFault, on_the_hour: bool) -> Fault
    ensures { result ≡ hour_fault on_the_hour fault }
{
    match fault {
        TimeFault::NotDigits => Fault::WrongOctets {
            position: TIME_POSITION,
        },
        TimeFault::NoSuchTime => {
            if on_the_hour {
                Fault::NoSuchTime
            } else {
                Fault::WrongValue {
                    position: MINUTES_POSITION,
                }
            }
        }
    }
}

// The time from which half hours are asked for: the data are YYMMDDhh0000.
fn read_hour(content: &[u8; TIME_WIDTH]) -> Result<DateTime, Fault>
    ensures { mapped_both moment_of (λ e. e) result ≡ half_hours_asked content.now }
{
    let on_the_hour = content.ends_with(b"0000");
    let time = DateTime::read(content).map_err(|fault| judge_fault(fault, on_the_hour))?;
    if on_the_hour {
        Ok(time)
    } else {
        Err(Fault::WrongValue {
            position: MINUTES_POSITION,
        })
    }
}

// A half hour of the answer: when it begins, if it is before 2100, and the newest demand found so far.
#[derive(Clone, Copy)]
pub(crate) struct Slot {
    pub(crate) start: Option<DateTime>,
    pub(crate) demand: Point,
}

// How many half hours an answer shows.
const SHOWN: usize = 24;

impl Slot {
    // A record of the slot's half hour takes the place of older ones.
    fn note(&mut self, held: HalfHour)
        ensures { self.new ≡ noted held self.old }
    {
        if let Some(start) = self.start
            && start.same(held.start)
        {
            self.demand = Some(held.demand);
        }
    }
}

// The half hour after one; none comes after 2099.
fn following(start: Option<DateTime>) -> Option<DateTime>
    ensures { option_map moment_of result ≡ then_next (option_map moment_of start) }
{
    start?.next_half_hour()
}

// The slots of successive half hours, from that of a time on.
fn slots_from(start: DateTime) -> [Slot; SHOWN]
    ensures { map slot_view result ≡ map (slot_on (moment_of start)) (range_with_len 0 24) }
{
    let mut slots = [Slot {
        start: None,
        demand: None,
    }; SHOWN];
    let mut next = Some(start.half_hour());
    for slot in slots.iter_mut() {
        *slot = Slot {
            start: next,
            demand: None,
        };
        next = following(next);
    }
    slots
}

// Notes a record in the slots.
fn note_in(slots: &mut [Slot; SHOWN], held: HalfHour)
    ensures { slots.new ≡ map (noted held) slots.old }
{
    for slot in slots.iter_mut() {
        slot.note(held);
    }
}

// Walks the held half hours once, oldest first, so that of several records of a half hour the newest stays.
fn note_held(slots: &mut [Slot; SHOWN], records: &Records<'_, HalfHour>)
    ensures { slots.new ≡ slots_after slots.old (held_in records.now) }
{
    for held in records.iter() {
        note_in(slots, *held);
    }
}

// Puts the demands of slots behind what is gathered.
fn push_slots(content: &mut Content, slots: &[Slot; SHOWN])
    requires { array_vec_len content.old + 96 ≤ 556 }
    ensures { gathered content.new ≡ gathered content.old ++ flat_map slot_octets slots.now }
{
    for slot in slots {
        push_octets(content, &point_octets(slot.demand));
    }
}

// What is shown of half hours: the time as received, and the demands from it on.
fn show_half_hours(
    received: &[u8; TIME_WIDTH],
    start: DateTime,
    records: &Records<'_, HalfHour>,
) -> Content
    ensures { gathered result ≡ half_hours_shown received.now (moment_of start) (held_in records.now) }
{
    let mut slots = slots_from(start);
    note_held(&mut slots, records);
    let mut content = Content::new();
    push_octets(&mut content, received);
    push_slots(&mut content, &slots);
    content
}

// The half hours that the data of a reading ask for, of those that a share holds.
pub(crate) fn read_half_hours(
    content: &[u8],
    records: &Records<'_, HalfHour>,
) -> Result<Content, Fault>
    ensures { gathered_in result ≡ half_hours_reading content.now (held_in records.now) }
{
    let content = <&[u8; TIME_WIDTH]>::try_from(content).map_err(|_| Fault::WrongLength)?;
    let start = read_hour(content)?;
    Ok(show_half_hours(content, start, records))
}
