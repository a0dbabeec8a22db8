// The reader of hexadecimal text: what it holds. `read` has what it does.

use crate::digit::Digit;
use crate::position::Position;

// What the next character belongs to.
#[derive(Clone, Copy)]
pub enum State {
    BetweenPairs,
    // The pair's first digit.
    InsidePair(Digit),
    InComment,
}

// Takes a text one octet at a time.
#[derive(Drop)]
pub struct HexReader {
    pub(crate) state: State,
    // The place of the next character.
    pub(crate) position: Position,
}
