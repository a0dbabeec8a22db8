// What can be wrong with a command: the faults of an abnormal answer.
ghost use Rattle.std.specs.Prelude.{◌≡◌};
ghost use Rattle.command.specs.Faults.{number_of, layer_of, position_of};

use frame::fault::Layer;

// Positions count from 1 at ENQ; the data begin at position 8.
#[derive(Clone, Copy, Debug, PartialEq, Eq)]
pub enum Fault {
    UnknownCommand,
    WrongLength,
    // the octets of the field at the position are not allowed ones
    WrongOctets { position: u8 },
    // the value of the field at the position is not allowed
    WrongValue { position: u8 },
    NoSuchTime,
    WrongPoints,
    // caution 2 would be above limit 2
    TwoStagesOutOfOrder,
    // caution 3 would be above alert 3, or that above limit 3
    ThreeStagesOutOfOrder,
    // the command is known, and this box does not carry it out yet
    NotYetBuilt,
}

impl Fault {
    // The number under which the fault is told; what is not yet built has none.
    // Kept, this and the position: variants with a field have no discriminants to read, and 0 itself is what is told.
    pub fn number(self) -> u8
        ensures { result ≡ number_of self }
    {
        match self {
            Fault::UnknownCommand => 31,
            Fault::WrongLength => 32,
            Fault::WrongOctets { .. } => 33,
            Fault::WrongPoints => 34,
            Fault::WrongValue { .. } => 35,
            Fault::NoSuchTime => 36,
            Fault::TwoStagesOutOfOrder | Fault::ThreeStagesOutOfOrder => 37,
            Fault::NotYetBuilt => 0,
        }
    }

    // The position in the frame that the fault tells.
    pub fn position(self) -> u8
        ensures { result ≡ position_of self }
    {
        match self {
            Fault::NotYetBuilt => 0,
            Fault::UnknownCommand => 6,
            Fault::WrongLength | Fault::WrongPoints | Fault::NoSuchTime => 8,
            Fault::WrongOctets { position } | Fault::WrongValue { position } => position,
            Fault::TwoStagesOutOfOrder => 95,
            Fault::ThreeStagesOutOfOrder => 115,
        }
    }

    // The layer that finds the fault.
    pub fn layer(self) -> Layer
        ensures { result ≡ layer_of self }
    {
        Layer::Command
    }
}
