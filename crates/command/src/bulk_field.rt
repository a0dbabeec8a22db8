// The fields of a bulk write that are numbers, and the clock. A field that holds F everywhere leaves what it stands
// for as it is.
ghost use Rattle.std.specs.Prelude.{◌≡◌, ◌+◌, ◌^◌, ◌<◌, ◌≤◌, true, length};
ghost use Rattle.std.specs.Result.{result_map_both};
ghost use Rattle.command.specs.Table.{allows};
ghost use Rattle.command.specs.Parts.{LawfulNumber};
ghost use Rattle.command.specs.Fields.{field_at, all_f, hex_number, number_field, clock_fault, clock_view, clock_field};

use crate::contract::is_contract_value;
use crate::fault::Fault;
use crate::ratio::is_ratio;
use crate::setting::{Allowed, Setting};
use calendar::date_time::DateTime;
use calendar::time_fault::TimeFault;
use frame::digits;

// Where the data begin in a frame, counted from 1 at ENQ; the clock stands first.
pub(crate) const DATA_POSITION: usize = 8;

// How many octets the data have, positions 8 to 250.
pub(crate) const LENGTH: usize = 243;

const CLOCK_POSITION: u8 = 8;

// What a field holds everywhere that leaves things as they are.
const LEFT: u8 = b'F';

// The octets of a field.
pub(crate) fn field_at(content: &[u8; LENGTH], position: usize, width: usize) -> &[u8]
    requires after { 8 ≤ position }
    requires within { position + width ≤ 251 }
    ensures value { result.now ≡ field_at position width content.now }
    ensures long { length result.now ≡ width }
{
    let start = position - DATA_POSITION;
    &content[start..start + width]
}

// Whether a field holds F everywhere.
pub(crate) fn all_f(field: &[u8]) -> bool
    ensures { result ≡ all_f field.now }
{
    field.iter().all(|octet| *octet == LEFT)
}

// The number that up to five digits write, the highest first.
fn hex_number(field: &[u8]) -> Option<u32>
    requires { length field.now ≤ 5 }
    ensures { result ≡ hex_number 0 field.now }
{
    // Kept: in a `try_fold` the closure would have to rule out overflow by itself, without the count of digits so far.
    let mut number = 0;
    for octet in field {
        let digit = digits::value(*octet)?;
        number = number * 16 + digit as u32;
    }
    Some(number)
}

impl Allowed {
    // Whether a setting takes a value. What it takes fits a cell.
    fn takes(self, value: u32) -> bool
        ensures same { result ≡ allows self value }
        ensures small { result ≡ true → value < 2 ^ 16 }
    {
        match self {
            Allowed::Span(low, high) => (u32::from(low)..=u32::from(high)).contains(&value),
            Allowed::CtRatio => is_ratio(value),
            Allowed::ContractText => is_contract_value(value),
        }
    }
}

// What the field of a number sets, if anything. The whole value has to be allowed.
pub(crate) fn read_number(content: &[u8; LENGTH], setting: Setting) -> Result<Option<u16>, Fault>
    requires { LawfulNumber setting }
    ensures { result ≡ number_field content.now setting }
{
    let field = field_at(content, setting.position, setting.width);
    let position = setting.position as u8;
    if all_f(field) {
        return Ok(None);
    }
    let value = hex_number(field).ok_or(Fault::WrongOctets { position })?;
    if !setting.allowed.takes(value) {
        return Err(Fault::WrongValue { position });
    }
    Ok(Some(value as u16))
}

// The fault of a clock that is not read as a time.
// Kept: no `From`, since the same refusal is another fault where half hours are read.
fn clock_fault(fault: TimeFault) -> Fault
    ensures { result ≡ clock_fault fault }
{
    match fault {
        TimeFault::NotDigits => Fault::WrongOctets {
            position: CLOCK_POSITION,
        },
        TimeFault::NoSuchTime => Fault::NoSuchTime,
    }
}

// The time that the clock is set to, if any. Whether all are digits is asked before whether there is such a time.
pub(crate) fn read_clock(field: &[u8]) -> Result<Option<DateTime>, Fault>
    ensures { result_map_both clock_view (λ e. e) result ≡ clock_field field.now }
{
    if all_f(field) {
        return Ok(None);
    }
    let time = DateTime::read(field).map_err(clock_fault)?;
    Ok(Some(time))
}
