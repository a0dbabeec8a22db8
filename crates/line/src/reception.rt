// What receiving one signal comes to.
use command::respond::Reply;
use frame::fault::Fault;

// Kept: three names, where a `Result<Option<Reply>, Fault>` would stand inside the `Result` of a call.
// Nothing yet; a frame dropped in silence, with its fault; or an answer at the front of the buffer, with its length and,
// where it is abnormal, its fault.
#[derive(Clone, Copy)]
pub enum Reception {
    Nothing,
    Dropped(Fault),
    // Kept: the buffer is the caller's; a slice of it here would leave it lent as long as this is held.
    Answered {
        length: usize,
        fault: Option<command::fault::Fault>,
    },
}

impl From<Result<Option<Reply>, Fault>> for Reception {
    ghost use Rattle.std.specs.Prelude.{◌≡◌};
    ghost use Rattle.line.specs.Receiving.{reception_of};

    ghost from_gives = { λ told r. r ≡ reception_of told };

    fn from(told: Result<Option<Reply>, Fault>) -> Reception {
        match told {
            Ok(None) => Reception::Nothing,
            Ok(Some(reply)) => Reception::Answered {
                length: reply.length,
                fault: reply.fault,
            },
            Err(fault) => Reception::Dropped(fault),
        }
    }
}
