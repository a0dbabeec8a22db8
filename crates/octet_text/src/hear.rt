// What a character does in each state of the reader.
ghost use Rattle.std.specs.Prelude.{◌≡◌};
ghost use Rattle.octet_text.specs.Reading.{begun, heard};

use crate::digit::Digit;
use crate::reader::State;

// What a character that is not refused does.
#[derive(Clone, Copy)]
pub(crate) struct Turn {
    pub(crate) state: State,
    // The octet of the pair whose second digit it is.
    pub(crate) octet: Option<u8>,
}

// A character between pairs; None where it is refused.
// The white space from tab to carriage return has line feed, vertical tab and form feed between them.
fn begin(character: u8) -> Option<Turn>
    ensures { result ≡ begun character }
{
    let state = match character {
        b' ' | b'\t'..=b'\r' => State::BetweenPairs,
        b'#' => State::InComment,
        _ => State::InsidePair(Digit::read(character)?),
    };
    Some(Turn { state, octet: None })
}

impl State {
    // A character in this state; None where it is refused.
    pub(crate) fn hear(self, character: u8) -> Option<Turn>
        ensures { result ≡ heard self character }
    {
        match self {
            State::BetweenPairs => begin(character),
            State::InsidePair(first) => {
                let second = Digit::read(character)?;
                Some(Turn {
                    state: State::BetweenPairs,
                    octet: Some(first.octet(second)),
                })
            }
            State::InComment => {
                let state = if character == b'\n' {
                    State::BetweenPairs
                } else {
                    State::InComment
                };
                Some(Turn { state, octet: None })
            }
        }
    }
}
