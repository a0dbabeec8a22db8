// Stations by their numbers.
ghost use Rattle.std.specs.Prelude.{◌≡◌, ◌<◌, length, IfSome, IfOk};
ghost use Rattle.line.specs.Lines.{views_of};
ghost use Rattle.line.specs.Receiving.{place_in, place_of};

use command::station::Station;
use frame::fault::Fault;
use frame::station_number::StationNumber;

// The first place of a number in a table.
pub(crate) fn find(stations: &[Station], number: u16) -> Option<usize>
    ensures place { result ≡ place_in number (views_of stations.now) }
    ensures within { IfSome result (λ k. k < length stations.now) }
{
    stations
        .iter()
        .position(|station| station.number.value == number)
}

// The place of the station that an address names.
pub(crate) fn place_of(stations: &[Station], named: Option<StationNumber>) -> Result<usize, Fault>
    ensures place { result ≡ place_of named (views_of stations.now) }
    ensures within { IfOk result (λ k. k < length stations.now) }
{
    named
        .and_then(|number| find(stations, number.value))
        .ok_or(Fault::UnknownStation)
}
