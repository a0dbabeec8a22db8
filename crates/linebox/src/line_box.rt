// Two stations, with their books and a buffer for answers. Their memory is lent to each call.
ghost use Rattle.std.specs.Prelude.{◌≡◌, length, IfOk};
ghost use Rattle.line.specs.Lines.{line_view};
ghost use Rattle.line.specs.Enrolling.{pages_asked};
ghost use Rattle.line.specs.Receiving.{loan, reception_after, line_after, answer_after, pages_after};
ghost use Rattle.memory.specs.Working.{by_page};
ghost use Rattle.linebox.specs.Enrolled.{two_stations, verdict_of};

use calendar::date_time::DateTime;
use command::event::Event;
use command::event_kind::EventKind;
use command::half_hour::HalfHour;
use frame::signal::Signal;
use frame::station_number::StationNumber;
use line::line::Line;
use line::reception::Reception;
use line::refusal::Refusal;
use memory::WorkingMemory;

// Places of a share.
const EVENTS: usize = 50;

const HALF_HOURS: usize = 48;

const NUMBERS: [StationNumber; 2] = [
    StationNumber { value: 0x001 },
    StationNumber { value: 0x1A0 },
];

#[derive(Drop)]
pub(crate) struct LineBox {
    line: Line,
    events: [Event; 100],
    half_hours: [HalfHour; 96],
    // Kept: no `ArrayVec`, since `Line::receive` is lent a slice that has the room already, and writes at its front.
    answer: [u8; 567],
}

impl LineBox {
    // The line with its two stations enrolled, unless the memory has too few pages.
    pub(crate) fn new(memory: &mut WorkingMemory<'_>) -> Result<LineBox, Refusal>
        ensures told { verdict_of result ≡ pages_asked 2 (length (by_page memory.old.cells.now)) }
        ensures line { IfOk result (λ b. line_view b.line ≡ two_stations) }
    {
        let mut line = Line::new();
        let time = DateTime::first();
        let event = Event {
            time,
            kind: EventKind::PowerRestored,
            demand: 0,
            predicted: 0,
        };
        let events = [event; 100];
        let half_hours = [HalfHour {
            start: time,
            demand: 0,
        }; 96];
        line.enroll(&NUMBERS, memory, &events, EVENTS, &half_hours, HALF_HOURS)?;
        Ok(LineBox {
            line,
            events,
            half_hours,
            answer: [0; 567],
        })
    }

    // Hears one octet. An answer is written to the front of the buffer.
    pub(crate) fn receive(
        &mut self,
        octet: u8,
        memory: &mut WorkingMemory<'_>,
    ) -> Result<Reception, Refusal>
        ensures told { result ≡ reception_after (line_view self.old.line) (Signal.Octet octet) (loan (by_page memory.old.cells.now) self.old.events self.old.half_hours) self.old.answer }
        ensures line { line_view self.new.line ≡ line_after (line_view self.old.line) (Signal.Octet octet) (loan (by_page memory.old.cells.now) self.old.events self.old.half_hours) self.old.answer }
        ensures answer { self.new.answer ≡ answer_after (line_view self.old.line) (Signal.Octet octet) (loan (by_page memory.old.cells.now) self.old.events self.old.half_hours) self.old.answer }
        ensures pages { by_page memory.new.cells.now ≡ pages_after (line_view self.old.line) (Signal.Octet octet) (loan (by_page memory.old.cells.now) self.old.events self.old.half_hours) self.old.answer }
        ensures events { self.new.events ≡ self.old.events }
        ensures half_hours { self.new.half_hours ≡ self.old.half_hours }
    {
        self.line.receive(
            Signal::Octet(octet),
            memory,
            &mut self.events,
            &mut self.half_hours,
            &mut self.answer,
        )
    }

    // The buffer, with the last answer at its front.
    pub(crate) fn answer(&self) -> &[u8]
        ensures { result.now ≡ self.now.answer }
    {
        &self.answer
    }
}
