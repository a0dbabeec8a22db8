// Why a call is refused, and the number under which that is told. A refused call changes nothing.
ghost use Rattle.std.specs.Prelude.{◌≡◌};
ghost use Rattle.line.specs.Refusals.{number_of};

use thiserror::Error;

#[derive(Clone, Copy, Debug, PartialEq, Eq, Error)]
#[error("refused by {}", self.number())]
pub enum Refusal {
    // enrolling
    NotNew = 1,
    WrongStationCount = 2,
    WrongStationNumber = 3,
    RepeatedNumber = 4,
    TooFewPages = 5,
    WrongEventBook = 6,
    WrongHalfHourBook = 7,
    // later calls
    NotEnrolled = 10,
    PagesMissing = 11,
    WrongBookLength = 12,
    ShortAnswerBuffer = 13,
    UnknownNumber = 14,
    WrongKind = 15,
}

impl Refusal {
    // The number under which the refusal is told.
    pub fn number(self) -> u8
        ensures { result ≡ number_of self }
    {
        self as u8
    }
}
