// The data of an answer, as they are gathered.
ghost use Rattle.std.specs.Prelude.{◌≡◌, ◌+◌, ◌≤◌, ◌++◌, length};
ghost use Rattle.arrayvec.specs.ArrayVec.{array_vec_len};
ghost use Rattle.command.specs.Gathered.{gathered};

use arrayvec::ArrayVec;

// The most octets of data that an answer has.
pub(crate) const MOST: usize = 556;

pub(crate) type Content = ArrayVec<u8, MOST>;

// Octets put behind those gathered so far.
// Kept: each push asks for its own room, since how much is left is known of the octets so far and not of a type.
pub(crate) fn push_octets(content: &mut Content, more: &[u8])
    requires { array_vec_len content.old + length more.now ≤ 556 }
    ensures { gathered content.new ≡ gathered content.old ++ more.now }
{
    let _ = content.try_extend_from_slice(more);
}
