// The commands that a station knows.
ghost use Rattle.std.specs.Prelude.{◌≡◌};
ghost use Rattle.command.specs.Commands.{command_of, answer_code};

use crate::fault::Fault;

#[derive(Clone, Copy, Debug, PartialEq, Eq)]
pub enum Command {
    // 0C: CT ratio, limits, meter day and kinds of counting
    ReadLimits,
    // 0F: hold timers, no-pulse wait, combined ratio
    ReadTimers,
    // 16: present demand, predicted power and limit
    ReadPresent,
    // 18: events by rank
    ReadEvents,
    // 19: the contract number
    ReadContract,
    // 54: settings, events or half hours made as at first
    Reset,
    // 62: the half hours of half a day
    ReadHalfHours,
    // 6C: all settings and the clock, written and read
    WriteSettings,
}

// The command that two octets of a frame name.
impl TryFrom<[u8; 2]> for Command {
    type Error = Fault;

    ghost try_from_gives = { λ octets r. r ≡ command_of octets };

    fn try_from(octets: [u8; 2]) -> Result<Command, Fault> {
        match octets {
            [b'0', b'C'] => Ok(Command::ReadLimits),
            [b'0', b'F'] => Ok(Command::ReadTimers),
            [b'1', b'6'] => Ok(Command::ReadPresent),
            [b'1', b'8'] => Ok(Command::ReadEvents),
            [b'1', b'9'] => Ok(Command::ReadContract),
            [b'5', b'4'] => Ok(Command::Reset),
            [b'6', b'2'] => Ok(Command::ReadHalfHours),
            [b'6', b'C'] => Ok(Command::WriteSettings),
            _ => Err(Fault::UnknownCommand),
        }
    }
}

impl Command {
    // The octets of the answer's command: the request's with the first digit raised by 8.
    pub fn answer_code(self) -> [u8; 2]
        ensures { result ≡ answer_code self }
    {
        match self {
            Command::ReadLimits => *b"8C",
            Command::ReadTimers => *b"8F",
            Command::ReadPresent => *b"96",
            Command::ReadEvents => *b"98",
            Command::ReadContract => *b"99",
            Command::Reset => *b"D4",
            Command::ReadHalfHours => *b"E2",
            Command::WriteSettings => *b"EC",
        }
    }
}
