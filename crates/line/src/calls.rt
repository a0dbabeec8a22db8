// The calls of a line after enrolling.
ghost use Rattle.std.specs.Prelude.{◌≡◌, ◌*◌, ◌<◌, ◌≤◌, length, IfOk, OnOk};
ghost use Rattle.line.specs.Lines.{line_view};
ghost use Rattle.line.specs.Calling.{book_asked, share_asked};
ghost use Rattle.line.specs.Receiving.{enrolled_asked, pages_present_asked, books_asked, room_asked, receiving_asked, loan, heard, reception_of, line_heard, reception_after, line_after, answer_after, pages_after};

use crate::line::Line;
use crate::reception::Reception;
use crate::records::Record;
use crate::refusal::Refusal;
use crate::respond::follow;
use crate::shares::Shares;
use command::event::Event;
use command::half_hour::HalfHour;
use frame::signal::Signal;
use frame::station_number::StationNumber;
use memory::SettingsMemory;

// The longest answer.
const LONGEST_ANSWER: usize = 567;

fn room_asked(room: usize) -> Result<(), Refusal>
    ensures asked { result ≡ room_asked room }
    ensures enough { OnOk result (567 ≤ room) }
{
    if room < LONGEST_ANSWER {
        return Err(Refusal::ShortAnswerBuffer);
    }
    Ok(())
}

impl Line {
    // How many stations are enrolled.
    pub(crate) fn station_count(&self) -> usize
        ensures stations { result ≡ length (line_view self.now).stations }
        ensures count { result ≡ length self.now.stations.items }
        ensures few { result ≤ 32 }
    {
        self.stations.len()
    }

    pub(crate) fn enrolled_asked(&self) -> Result<(), Refusal>
        ensures { result ≡ enrolled_asked (line_view self.now) }
    {
        if self.stations.is_empty() {
            return Err(Refusal::NotEnrolled);
        }
        Ok(())
    }

    // Kept: enrolling asks the same by `pages_asked`, of a count that is none of the line's yet, and refuses otherwise.
    fn pages_present_asked(&self, pages: u16) -> Result<(), Refusal>
        ensures asked { result ≡ pages_present_asked (line_view self.now) pages }
        ensures enough { OnOk result (length self.now.stations.items ≤ pages) }
    {
        if usize::from(pages) < self.station_count() {
            return Err(Refusal::PagesMissing);
        }
        Ok(())
    }

    // Whether the book of a kind of record has its enrolled length.
    // Kept: the questions are put before anything is lent, and so tell of lengths and not of `Shares`.
    fn book_asked<R: Record>(&self, places: usize) -> Result<(), Refusal>
        ensures asked { result ≡ book_asked (line_view self.now) (R.share_in (line_view self.now)) places }
        ensures fit { OnOk result (places ≡ length self.now.stations.items * R.share_in (line_view self.now)) }
    {
        if places == self.station_count() * R::share(self) {
            Ok(())
        } else {
            Err(Refusal::WrongBookLength)
        }
    }

    // The questions of a call that names a station and is lent the book of a kind of record, in their order.
    pub(crate) fn share_asked<R: Record>(
        &self,
        places: usize,
        number: StationNumber,
    ) -> Result<usize, Refusal>
        ensures asked { result ≡ share_asked (line_view self.now) (R.share_in (line_view self.now)) places number.value }
        ensures within { IfOk result (λ k. k < length self.now.stations.items) }
        ensures fit { OnOk result (places ≡ length self.now.stations.items * R.share_in (line_view self.now)) }
    {
        self.enrolled_asked()?;
        self.book_asked::<R>(places)?;
        self.station_asked(number)
    }

    fn books_asked(&self, events: usize, half_hours: usize) -> Result<(), Refusal>
        ensures asked { result ≡ books_asked (line_view self.now) events half_hours }
        ensures fit { OnOk result ((events ≡ length self.now.stations.items * self.now.event_share) × (half_hours ≡ length self.now.stations.items * self.now.half_hour_share)) }
    {
        self.book_asked::<Event>(events)?;
        self.book_asked::<HalfHour>(half_hours)
    }

    // The questions of receiving, in their order.
    fn receiving_asked(
        &self,
        pages: u16,
        events: usize,
        half_hours: usize,
        room: usize,
    ) -> Result<(), Refusal>
        ensures asked { result ≡ receiving_asked (line_view self.now) pages events half_hours room }
        ensures enough { OnOk result ((length self.now.stations.items ≤ pages) × (567 ≤ room)) }
        ensures fit { OnOk result ((events ≡ length self.now.stations.items * self.now.event_share) × (half_hours ≡ length self.now.stations.items * self.now.half_hour_share)) }
    {
        self.enrolled_asked()?;
        self.pages_present_asked(pages)?;
        self.books_asked(events, half_hours)?;
        room_asked(room)
    }

    // The shares of a book of its enrolled length.
    fn shares<'a, R: Record>(&self, book: &'a [R]) -> Shares<'a, R>
        requires { length book.now ≡ length self.now.stations.items * R.share_in (line_view self.now) }
        ensures book { result.book.now ≡ book.now }
        ensures size { result.size ≡ R.share_in (line_view self.now) }
        ensures count { result.count ≡ length self.now.stations.items }
    {
        Shares {
            book,
            size: R::share(self),
            count: self.stations.len(),
        }
    }

    // What an admitted signal comes to.
    // Kept: signal, memory, books and buffer are lent by the caller, each by itself, as `receive` is given them.
    fn hear<M: SettingsMemory>(
        &mut self,
        signal: Signal,
        memory: &mut M,
        events: &[Event],
        half_hours: &[HalfHour],
        answer: &mut [u8],
    ) -> Reception
        requires paged { length self.old.stations.items ≤ length (M.pages memory.old) }
        requires events_fit { length events.now ≡ length self.old.stations.items * self.old.event_share }
        requires half_hours_fit { length half_hours.now ≡ length self.old.stations.items * self.old.half_hour_share }
        requires room { 567 ≤ length answer.old }
        ensures told { result ≡ reception_of (heard (line_view self.old) signal (loan (M.pages memory.old) events.now half_hours.now) answer.old).told }
        ensures line { line_view self.new ≡ line_heard (line_view self.old) signal (loan (M.pages memory.old) events.now half_hours.now) answer.old }
        ensures pages { M.pages memory.new ≡ (heard (line_view self.old) signal (loan (M.pages memory.old) events.now half_hours.now) answer.old).pages }
        ensures answer { answer.new ≡ (heard (line_view self.old) signal (loan (M.pages memory.old) events.now half_hours.now) answer.old).answer }
    {
        let events = self.shares(events);
        let half_hours = self.shares(half_hours);
        Reception::from(follow(
            &mut self.receiver,
            signal,
            self.stations.as_mut_slice(),
            memory,
            &events,
            &half_hours,
            answer,
        ))
    }

    // Receives one octet, or the report of a damaged one. An answer is written to the front of the buffer.
    pub fn receive<M: SettingsMemory>(
        &mut self,
        signal: Signal,
        memory: &mut M,
        events: &mut [Event],
        half_hours: &mut [HalfHour],
        answer: &mut [u8],
    ) -> Result<Reception, Refusal>
        ensures result { result ≡ reception_after (line_view self.old) signal (loan (M.pages memory.old) events.old half_hours.old) answer.old }
        ensures line { line_view self.new ≡ line_after (line_view self.old) signal (loan (M.pages memory.old) events.old half_hours.old) answer.old }
        ensures answer { answer.new ≡ answer_after (line_view self.old) signal (loan (M.pages memory.old) events.old half_hours.old) answer.old }
        ensures pages { M.pages memory.new ≡ pages_after (line_view self.old) signal (loan (M.pages memory.old) events.old half_hours.old) answer.old }
        ensures events { events.new ≡ events.old }
        ensures half_hours { half_hours.new ≡ half_hours.old }
    {
        self.receiving_asked(
            memory.page_count(),
            events.len(),
            half_hours.len(),
            answer.len(),
        )?;
        Ok(self.hear(signal, memory, events, half_hours, answer))
    }
}
