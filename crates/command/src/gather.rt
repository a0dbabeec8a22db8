// Gathering the data of an answer.
ghost use Rattle.std.specs.Prelude.{◌≡◌, ◌*◌, ◌≤◌, map, length};
ghost use Rattle.command.specs.Gathered.{gathered};
ghost use Rattle.command.specs.Readings.{all_octets, sent_octet};

use crate::content::{Content, push_octets};
use crate::contract::sent_octet;
use crate::point::{Point, point_octets};

// The octets of points, one after another.
pub(crate) fn show_points(points: &[Point]) -> Content
    requires { 4 * length points.now ≤ 556 }
    ensures { gathered result ≡ all_octets points.now }
{
    let mut content = Content::new();
    for point in points {
        push_octets(&mut content, &point_octets(*point));
    }
    content
}

// The characters of cells, one after another.
pub(crate) fn show_text(cells: &[u16]) -> Content
    requires { length cells.now ≤ 556 }
    ensures { gathered result ≡ map sent_octet cells.now }
{
    let mut content = Content::new();
    for cell in cells {
        content.push(sent_octet(*cell));
    }
    content
}
