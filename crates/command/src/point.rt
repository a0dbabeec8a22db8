// A point of an answer: what four octets show.
ghost use Rattle.std.specs.Prelude.{◌≡◌};
ghost use Rattle.command.specs.Points.{octets_of};

use frame::digits::four_digits;

// A number, or none where the monitor has nothing to show.
pub(crate) type Point = Option<u16>;

// Four digits, or four spaces.
pub(crate) fn point_octets(point: Point) -> [u8; 4]
    ensures { result ≡ octets_of point }
{
    point.map_or([b' '; 4], four_digits)
}
