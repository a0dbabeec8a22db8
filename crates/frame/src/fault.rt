// What can be wrong with what is received, and the layer that finds it.
ghost use Rattle.std.specs.Prelude.{◌≡◌};
ghost use Rattle.frame.specs.Faults.{number_of, layer_of, position_of};

// Who finds a fault: the reception of octets, the frame as a whole, or the command in it.
#[derive(Clone, Copy, Debug, PartialEq, Eq)]
pub enum Layer {
    Reception,
    Frame,
    Command,
}

// The faults by which a frame is dropped in silence, each with the number under which it is told.
#[derive(Clone, Copy, Debug, PartialEq, Eq)]
pub enum Fault {
    DamagedOctet = 21,
    TooLong = 22,
    TooShort = 23,
    WrongChecksum = 24,
    UnknownStation = 25,
}

// A dropped frame has no position to tell.
// Kept: an Option is no plainer, since the 0 itself is what is told.
const NO_POSITION: u8 = 0;

impl Fault {
    // The number under which the fault is told.
    pub fn number(self) -> u8
        ensures { result ≡ number_of self }
    {
        self as u8
    }

    // The layer that finds the fault.
    pub fn layer(self) -> Layer
        ensures { result ≡ layer_of self }
    {
        match self {
            Fault::DamagedOctet | Fault::TooLong => Layer::Reception,
            Fault::TooShort | Fault::WrongChecksum | Fault::UnknownStation => Layer::Frame,
        }
    }

    // The position in the frame that the fault tells.
    pub fn position(self) -> u8
        ensures { result ≡ position_of self }
    {
        NO_POSITION
    }
}
