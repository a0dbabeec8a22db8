// Fields of a command's data.
ghost use Rattle.std.specs.Prelude.{◌≡◌, length, OnOk};
ghost use Rattle.command.specs.Questions.{number_at, start_count_of};

use crate::fault::Fault;
use frame::digits;

// Where the start point and the count stand in the frame.
const START_POSITION: u8 = 8;

const COUNT_POSITION: u8 = 10;

// The number of two digits in a field.
pub(crate) fn number_at(position: u8, high: u8, low: u8) -> Result<u8, Fault>
    ensures { result ≡ number_at position high low }
{
    digits::octet(high, low).ok_or(Fault::WrongOctets { position })
}

// A start point and a count.
#[derive(Clone, Copy)]
pub(crate) struct StartCount {
    pub(crate) start: u8,
    pub(crate) count: u8,
}

// The data of a reading: a start point and a count, two digits each.
pub(crate) fn read_start_count(content: &[u8]) -> Result<StartCount, Fault>
    ensures same { result ≡ start_count_of content.now }
    ensures long { OnOk result (length content.now ≡ 4) }
{
    let [start_high, start_low, count_high, count_low] = content else {
        return Err(Fault::WrongLength);
    };
    let start = number_at(START_POSITION, *start_high, *start_low)?;
    let count = number_at(COUNT_POSITION, *count_high, *count_low)?;
    Ok(StartCount { start, count })
}
