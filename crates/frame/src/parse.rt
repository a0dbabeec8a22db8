// A frame taken apart.
ghost use Rattle.std.specs.Prelude.{◌≡◌};
ghost use Rattle.frame.specs.Requests.{opened, asked_of};

use crate::checksum::checksum;
use crate::digits;
use crate::fault::Fault;
use crate::request::Request;
use crate::station_number::StationNumber;

// What a frame's octets between ENQ and CR ask: the station's number, the command octets, the data, and the
// checksum of all these.
pub fn parse(frame: &[u8]) -> Result<Request<'_>, Fault>
    ensures { asked_of result ≡ opened frame.now }
{
    let [
        letter,
        hundreds,
        tens,
        ones,
        first,
        second,
        content @ ..,
        high,
        low,
    ] = frame
    else {
        return Err(Fault::TooShort);
    };
    // Nothing is summed where the last two octets are no digits, however long the frame is.
    let told = digits::octet(*high, *low).ok_or(Fault::WrongChecksum)?;
    if told != checksum(&frame[..frame.len() - 2]) {
        return Err(Fault::WrongChecksum);
    }
    let address = [*letter, *hundreds, *tens, *ones];
    Ok(Request {
        address,
        station: StationNumber::named_by(address),
        command: [*first, *second],
        content,
    })
}
