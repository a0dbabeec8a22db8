// Enrolling the stations of a line.
ghost use Rattle.std.specs.Prelude.{◌≡◌, ◌<◌, ◌≤◌, map, length, OnOk};
ghost use Rattle.book.specs.Ranked.{view_of, empty};
ghost use Rattle.line.specs.Shares.{event_shares, half_hour_shares, alike};
ghost use Rattle.line.specs.Lines.{views_of, line_view, new_line};
ghost use Rattle.line.specs.Enrolling.{new_asked, count_asked, numbered, all_numbered, numbers_asked, different_asked, pages_asked, fit_asked, book, enrolling_asked, enrolled_with, enrolled_line, initial_pages, line_after_enrolling, pages_after_enrolling};

use crate::line::{Line, MOST_STATIONS};
use crate::records::Record;
use crate::refusal::Refusal;
use arrayvec::ArrayVec;
use book::ring::Ring;
use command::event::Event;
use command::half_hour::HalfHour;
use command::settings::initial_page;
use command::station::Station;
use frame::receiver::Receiver;
use frame::station_number::StationNumber;
use memory::{SettingsMemory, restore};

// The highest number of a station.
const HIGHEST_NUMBER: u16 = 4095;

// A book as it is lent: how many places, and how many of them for each station.
#[derive(Clone, Copy)]
struct BookSize {
    places: usize,
    share: usize,
}

// Kept: `count ≤ 32` is said in clauses, since a caller's list may be longer, and the vector that says it by its type is
// made afterwards.
fn count_asked(count: usize) -> Result<(), Refusal>
    ensures asked { result ≡ count_asked count }
    ensures few { OnOk result (count ≤ 32) }
{
    if count == 0 || count > MOST_STATIONS {
        return Err(Refusal::WrongStationCount);
    }
    Ok(())
}

fn numbered(number: u16) -> bool
    ensures { result ≡ numbered number }
{
    0 < number && number <= HIGHEST_NUMBER
}

fn all_numbered(numbers: &[StationNumber]) -> bool
    ensures { result ≡ all_numbered numbers.now }
{
    numbers.iter().all(|number| numbered(number.value))
}

fn numbers_asked(numbers: &[StationNumber]) -> Result<(), Refusal>
    ensures { result ≡ numbers_asked numbers.now }
{
    if all_numbered(numbers) {
        Ok(())
    } else {
        Err(Refusal::WrongStationNumber)
    }
}

// Kept: an `any` would cut the rest by an index; this takes the list apart as its definition does.
fn different_asked(numbers: &[StationNumber]) -> Result<(), Refusal>
    ensures { result ≡ different_asked numbers.now }
{
    let mut left = numbers;
    while let Some((number, others)) = left.split_first() {
        if others.contains(number) {
            return Err(Refusal::RepeatedNumber);
        }
        left = others;
    }
    Ok(())
}

fn pages_asked(count: usize, pages: u16) -> Result<(), Refusal>
    ensures asked { result ≡ pages_asked count pages }
    ensures enough { OnOk result (count ≤ pages) }
{
    if usize::from(pages) < count {
        return Err(Refusal::TooFewPages);
    }
    Ok(())
}

// Whether a book has so many places for each station, and they are not too few and not too many.
// Kept: the bounds of a share are asked here, and are in the type of a line once it is enrolled.
fn fit_asked<R: Record>(count: usize, book: BookSize) -> Result<(), Refusal>
    requires { count ≤ 32 }
    ensures asked { result ≡ fit_asked R.LEAST_SHARE R.MOST_SHARE R.WRONG_BOOK count book.places book.share }
    ensures share { OnOk result ((0 < book.share) × (book.share ≤ R.MOST_SHARE)) }
{
    let BookSize { places, share } = book;
    if R::LEAST_SHARE <= share && share <= R::MOST_SHARE && places == count * share {
        Ok(())
    } else {
        Err(R::WRONG_BOOK)
    }
}

// A ring of so many places that holds nothing.
fn empty_ring(share: usize) -> Ring
    requires { 0 < share }
    ensures { view_of result ≡ empty share }
{
    Ring::new(share).unwrap()
}

// A station for each number, in their order.
fn stations_of(
    numbers: &[StationNumber],
    events: Ring,
    half_hours: Ring,
) -> ArrayVec<Station, MOST_STATIONS>
    requires { length numbers.now ≤ 32 }
    ensures stations { views_of result.items ≡ map (enrolled_with (view_of events) (view_of half_hours)) numbers.now }
    ensures event_shares { event_shares result.items ≡ alike (length numbers.now) (view_of events).capacity }
    ensures half_hour_shares { half_hour_shares result.items ≡ alike (length numbers.now) (view_of half_hours).capacity }
{
    let mut stations = ArrayVec::new();
    for number in numbers {
        stations.push(Station::new(*number, events, half_hours));
    }
    stations
}

// The first pages as they are at first.
fn restore_pages<M: SettingsMemory>(memory: &mut M, count: u16)
    requires { count ≤ length (M.pages memory.old) }
    ensures { M.pages memory.new ≡ initial_pages count (M.pages memory.old) }
{
    let cells = initial_page();
    for page in 0..count {
        restore(memory, page, &cells).unwrap();
    }
}

impl Line {
    // A line before stations are enrolled.
    pub fn new() -> Line
        ensures { line_view result ≡ new_line }
    {
        Line {
            receiver: Receiver::new(),
            stations: ArrayVec::new(),
            event_share: 1,
            half_hour_share: 1,
        }
    }

    fn new_asked(&self) -> Result<(), Refusal>
        ensures { result ≡ new_asked (line_view self.now) }
    {
        if self.station_count() > 0 {
            return Err(Refusal::NotNew);
        }
        Ok(())
    }

    // The questions of enrolling, in their order.
    fn enrolling_asked(
        &self,
        numbers: &[StationNumber],
        pages: u16,
        events: BookSize,
        half_hours: BookSize,
    ) -> Result<(), Refusal>
        ensures few { OnOk result ((length numbers.now ≤ 32) × (length numbers.now ≤ pages)) }
        ensures events { OnOk result ((0 < events.share) × (events.share ≤ 5000)) }
        ensures half_hours { OnOk result ((0 < half_hours.share) × (half_hours.share ≤ 3000)) }
        ensures asked { result ≡ enrolling_asked (line_view self.now) numbers.now pages (book events.places events.share) (book half_hours.places half_hours.share) }
    {
        self.new_asked()?;
        count_asked(numbers.len())?;
        numbers_asked(numbers)?;
        different_asked(numbers)?;
        pages_asked(numbers.len(), pages)?;
        fit_asked::<Event>(numbers.len(), events)?;
        fit_asked::<HalfHour>(numbers.len(), half_hours)
    }

    // The line with its stations.
    fn take_in(&mut self, numbers: &[StationNumber], event_share: usize, half_hour_share: usize)
        requires few { length numbers.now ≤ 32 }
        requires events { (0 < event_share) × (event_share ≤ 5000) }
        requires half_hours { (0 < half_hour_share) × (half_hour_share ≤ 3000) }
        ensures { line_view self.new ≡ enrolled_line numbers.now event_share half_hour_share }
    {
        *self = Line {
            receiver: Receiver::new(),
            stations: stations_of(
                numbers,
                empty_ring(event_share),
                empty_ring(half_hour_share),
            ),
            event_share,
            half_hour_share,
        };
    }

    // Gives the stations pages and shares from 0 on in the order of their numbers, and stores the initial settings.
    pub fn enroll<M: SettingsMemory>(
        &mut self,
        numbers: &[StationNumber],
        memory: &mut M,
        events: &[Event],
        event_share: usize,
        half_hours: &[HalfHour],
        half_hour_share: usize,
    ) -> Result<(), Refusal>
        ensures result { result ≡ enrolling_asked (line_view self.old) numbers.now (length (M.pages memory.old)) (book (length events.now) event_share) (book (length half_hours.now) half_hour_share) }
        ensures line { line_view self.new ≡ line_after_enrolling (line_view self.old) numbers.now (length (M.pages memory.old)) (book (length events.now) event_share) (book (length half_hours.now) half_hour_share) }
        ensures pages { M.pages memory.new ≡ pages_after_enrolling (line_view self.old) numbers.now (M.pages memory.old) (book (length events.now) event_share) (book (length half_hours.now) half_hour_share) }
    {
        self.enrolling_asked(
            numbers,
            memory.page_count(),
            BookSize {
                places: events.len(),
                share: event_share,
            },
            BookSize {
                places: half_hours.len(),
                share: half_hour_share,
            },
        )?;
        restore_pages(memory, numbers.len() as u16);
        self.take_in(numbers, event_share, half_hour_share);
        Ok(())
    }
}
