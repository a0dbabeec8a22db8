// The number of a station. It may hold any value: who enrols stations says which ones are in use.
ghost use Rattle.std.specs.Prelude.{◌≡◌, slice_index};
ghost use Rattle.frame.specs.Requests.{named_by};

use crate::digits;

#[derive(Clone, Copy, Debug, PartialEq, Eq)]
pub struct StationNumber {
    pub value: u16,
}

impl StationNumber {
    // The number that an address names: 'S' and three digits, if it is such.
    // Kept: a `TryFrom` would need an error type, and an address is wrong in one way only.
    pub(crate) fn named_by(address: [u8; 4]) -> Option<StationNumber>
        ensures { result ≡ named_by (slice_index address 0) (slice_index address 1) (slice_index address 2) (slice_index address 3) }
    {
        let [b'S', hundreds, tens, ones] = address else {
            return None;
        };
        let high = digits::value(hundreds)?;
        let low = digits::octet(tens, ones)?;
        Some(StationNumber {
            value: u16::from_be_bytes([high, low]),
        })
    }
}
