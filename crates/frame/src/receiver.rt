// The receiver of frames: octets between ENQ and CR are collected, and handed out as one frame.
ghost use Rattle.std.specs.Prelude.{◌≡◌, take};
ghost use Rattle.std.specs.Borrow.{sem};
ghost use Rattle.frame.specs.Reception.{idle, link_of, told_by, step};
ghost use Rattle.frame.specs.Handing.{RestsAt};
ghost use Rattle.frame.specs.Frames.{FramesComeThrough, FramesAreToldAtTheirEnd, DropsAreToldAtTheirOctet};

use crate::fault::Fault;
use crate::signal::{CR, ENQ, HIGHEST, Signal};
use arrayvec::ArrayVec;

// The most octets between ENQ and CR.
const LONGEST: usize = 251;

// Whether a frame is begun.
// Kept: an `Option` round the octets would take them away at the frame's end, and they are lent then.
#[derive(Clone, Copy, Debug, PartialEq, Eq)]
pub enum State {
    Idle,
    Collecting,
}

// The octets are those of the frame that is begun, and stay after its end until the next begins.
#[derive(Drop)]
pub struct Receiver {
    state: State,
    octets: ArrayVec<u8, LONGEST>,
}

impl Receiver {
    // A receiver with no frame begun.
    pub fn new() -> Receiver
        ensures starts { link_of result ≡ idle }
        ensures frames_come_through { FramesComeThrough }
        ensures frames_are_told { FramesAreToldAtTheirEnd }
        ensures drops_are_told { DropsAreToldAtTheirOctet }
    {
        Receiver {
            state: State::Idle,
            octets: ArrayVec::new(),
        }
    }

    // Takes one signal, and hands out the frame that it ends, if any, or tells the fault by which a frame is dropped.
    pub fn receive(&mut self, signal: Signal) -> Result<Option<&[u8]>, Fault>
        ensures* link { sem 𝓛 (RestsAt self.entry (step (link_of self.old) signal)) }
        ensures told { told_by result ≡ (step (link_of self.old) signal).told }
    {
        match (self.state, signal) {
            (_, Signal::Octet(ENQ)) => {
                self.octets.clear();
                self.state = State::Collecting;
                Ok(None)
            }
            (State::Idle, _) => Ok(None),
            (State::Collecting, Signal::Octet(CR)) => {
                self.state = State::Idle;
                Ok(Some(self.octets.as_slice()))
            }
            (State::Collecting, Signal::Octet(octet @ ..=HIGHEST)) => {
                if self.octets.is_full() {
                    self.state = State::Idle;
                    return Err(Fault::TooLong);
                }
                self.octets.push(octet);
                Ok(None)
            }
            (State::Collecting, _) => {
                self.state = State::Idle;
                Err(Fault::DamagedOctet)
            }
        }
    }

    // The first of the octets held, at most so many. When the loan of an ended frame is over, these are still its octets.
    pub fn frame(&self, length: usize) -> &[u8]
        ensures { result.now ≡ take length self.now.octets.items }
    {
        let octets = self.octets.as_slice();
        octets.get(..length).unwrap_or(octets)
    }
}
