// What comes from the line: one octet, or the report of a damaged one.
// Kept: a `Result<u8, Damaged>` is no plainer, since damage is received like an octet and never passed on by `?`.
#[derive(Clone, Copy, Debug, PartialEq, Eq)]
pub enum Signal {
    Octet(u8),
    Damaged,
}

// ENQ begins a frame, CR ends it; STX begins an answer, ETX ends its data.
pub const ENQ: u8 = 0x05;

pub const CR: u8 = 0x0d;

pub const STX: u8 = 0x02;

pub const ETX: u8 = 0x03;

// The highest undamaged octet.
pub const HIGHEST: u8 = 0x7f;
