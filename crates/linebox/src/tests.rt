// What is refused: arguments that are none, and enrollings.
use crate::options::Word;
use calendar::date_time::DateTime;
use command::event::Event;
use command::event_kind::EventKind;
use command::half_hour::HalfHour;
use frame::signal::Signal;
use frame::station_number::StationNumber;
use line::line::Line;
use line::readers::PresentValues;
use line::refusal::Refusal;
use memory::WorkingMemory;

fn event() -> Event {
    Event {
        time: DateTime::first(),
        kind: EventKind::PowerFailed,
        demand: 0,
        predicted: 0,
    }
}

fn half_hour() -> HalfHour {
    HalfHour {
        start: DateTime::first(),
        demand: 0,
    }
}

// The number of the refusal, if the call is refused.
fn refusal_of(outcome: Result<(), Refusal>) -> Option<u8> {
    outcome.err().map(|refusal| refusal.number())
}

// Enrols stations on a new line, over two pages and books of six events and four half hours.
fn enrolled(numbers: &[StationNumber], event_share: usize, half_hour_share: usize) -> Option<u8> {
    let mut cells = [0u16; 56];
    let mut memory = WorkingMemory { cells: &mut cells };
    let mut line = Line::new();
    refusal_of(line.enroll(
        numbers,
        &mut memory,
        &[event(); 6],
        event_share,
        &[half_hour(); 4],
        half_hour_share,
    ))
}

fn number(value: u16) -> StationNumber {
    StationNumber { value }
}

#[test]
fn words_that_are_none_are_refused(rt: HostRuntime) {
    assert_eq!(rt; Word::read(b"--hex"), Some(Word::Hex));
    assert_eq!(rt; Word::read(b"--help"), Some(Word::Help));
    assert_eq!(rt; Word::read(b"--hexx"), None);
    assert_eq!(rt; Word::read(b"-h"), None);
    assert_eq!(rt; Word::read(b""), None);
}

#[test]
fn enrolling_asks_in_order(rt: HostRuntime) {
    let two = [number(1), number(0x1a0)];
    assert_eq!(rt; enrolled(&two, 3, 2), None);
    assert_eq!(rt; enrolled(&[], 3, 2), Some(2));
    assert_eq!(rt; enrolled(&[number(0); 33], 3, 2), Some(2));
    assert_eq!(rt; enrolled(&[number(0), number(0)], 9, 9), Some(3));
    assert_eq!(rt; enrolled(&[number(4096), number(1)], 3, 2), Some(3));
    assert_eq!(rt; enrolled(&[number(4095), number(4095)], 9, 9), Some(4));
    assert_eq!(rt; enrolled(&[number(1), number(2), number(3)], 9, 9), Some(5));
    assert_eq!(rt; enrolled(&two, 2, 9), Some(6));
    assert_eq!(rt; enrolled(&two, 3, 1), Some(7));
}

#[test]
fn a_line_is_enrolled_once(rt: HostRuntime) {
    let mut cells = [0u16; 28];
    let mut memory = WorkingMemory { cells: &mut cells };
    let mut events = [event(); 2];
    let mut half_hours = [half_hour(); 1];
    let mut answer = [0u8; 567];
    let mut line = Line::new();
    let early = line.receive(
        Signal::Octet(5),
        &mut memory,
        &mut events,
        &mut half_hours,
        &mut answer,
    );
    assert!(rt; early.is_err());
    assert_eq!(rt;
        refusal_of(line.enroll(&[number(0)], &mut memory, &events, 2, &half_hours, 1)),
        Some(3)
    );
    assert_eq!(rt;
        refusal_of(line.enroll(&[number(7)], &mut memory, &events, 2, &half_hours, 1)),
        None
    );
    assert_eq!(rt;
        refusal_of(line.enroll(&[number(7)], &mut memory, &events, 2, &half_hours, 1)),
        Some(1)
    );
}

#[test]
fn a_station_is_measured_recorded_and_ticked(rt: HostRuntime) {
    let mut cells = [0u16; 56];
    let mut memory = WorkingMemory { cells: &mut cells };
    let mut events = [event(); 6];
    let half_hours = [half_hour(); 4];
    let mut line = Line::new();
    let numbers = [number(1), number(2)];
    assert_eq!(rt;
        refusal_of(line.enroll(&numbers, &mut memory, &events, 3, &half_hours, 2)),
        None
    );
    assert_eq!(rt; refusal_of(line.measure(number(2), 10000, 120)), None);
    assert_eq!(rt; refusal_of(line.measure(number(3), 1, 1)), Some(14));
    assert_eq!(rt;
        refusal_of(line.record_event(number(2), 90, &mut events)),
        None
    );
    assert_eq!(rt;
        refusal_of(line.record_event(number(2), 92, &mut events)),
        Some(15)
    );
    assert_eq!(rt; refusal_of(line.tick()), None);
    assert_eq!(rt;
        line.present_values(number(2)),
        Ok(PresentValues {
            demand: 9999,
            predicted: 120,
        })
    );
    assert_eq!(rt; line.held::<Event>(number(2)), Ok(1));
    assert_eq!(rt; line.held::<Event>(number(1)), Ok(0));
    assert_eq!(rt; line.held::<HalfHour>(number(2)), Ok(0));
    assert_eq!(rt;
        line.clock(number(1)),
        Ok(DateTime::first().one_second_on())
    );
    let newest = line.record_at_rank(number(2), &events, 0).ok().flatten();
    assert_eq!(rt;
        newest.map(|event| (event.kind.number(), event.demand)),
        Some((90, 9999))
    );
    assert!(rt; matches!(line.record_at_rank(number(2), &half_hours, 0), Ok(None)));
}
