// What a frame asks: the parts between ENQ and the checksum.
use crate::station_number::StationNumber;

#[derive(Clone, Copy, Debug)]
pub struct Request<'a> {
    // the number as it was received, which the answer repeats
    pub address: [u8; 4],
    // the station that the address names, if it is a number
    pub station: Option<StationNumber>,
    pub command: [u8; 2],
    pub content: &'a [u8],
}
