// Answers, written to the front of a lent buffer.
ghost use Rattle.std.specs.Prelude.{◌≡◌, ℕ, ◌+◌, ◌≤◌, [], ◌∷◌, ◌++◌, length, take, drop, IfOk, Some};
ghost use Rattle.std.specs.List.{between};
ghost use Rattle.frame.specs.Checksum.{checksum_of};
ghost use Rattle.frame.specs.Digits.{two_digits};
ghost use Rattle.frame.specs.Answers.{body_of, answer_of, counted, fronted, answer_with, read_back};

use crate::checksum::checksum;
use crate::digits;
use crate::signal::{CR, ETX, STX};

// STX, the number, the command, ETX, the checksum and CR: what an answer has beside its data.
const AROUND: usize = 11;

// Copies `octets` into `buffer` from `start` on, and says where they end.
// Kept: a writer that held the buffer and its end is no plainer, since each method would owe that it keeps the loan.
#[tactic(auto, using(std::proofs::lemmas::Slice::overwrites))]
fn put(buffer: &mut [u8], start: usize, octets: &[u8]) -> usize
    requires { start + length octets.now ≤ length buffer.old }
    ensures end { result ≡ start + length octets.now }
    ensures front { take result buffer.new ≡ take start buffer.old ++ octets.now }
    ensures rest { (n : ℕ) → result ≤ n → drop n buffer.new ≡ drop n buffer.old }
{
    let end = start + octets.len();
    buffer[start..end].copy_from_slice(octets);
    end
}

// Writes the checksum of all octets from the second to `end`, and CR.
fn seal(buffer: &mut [u8], end: usize) -> usize
    requires end_in_bounds { end + 3 ≤ length buffer.old }
    requires le_end { 1 ≤ end }
    ensures end { result ≡ end + 3 }
    ensures front { take result buffer.new ≡ take end buffer.old ++ two_digits (checksum_of (between 1 end buffer.old)) ++ 13 ∷ [] }
    ensures rest { (n : ℕ) → result ≤ n → drop n buffer.new ≡ drop n buffer.old }
{
    let check = digits::two_digits(checksum(&buffer[1..end]));
    let check_end = put(buffer, end, &check);
    put(buffer, check_end, &[CR])
}

// The buffer is too short for the answer.
#[derive(Clone, Copy, Debug, PartialEq, Eq)]
pub struct NoRoom;

// What an answer says: the number of the station, the answer command and the data.
#[derive(Clone, Copy, Debug)]
pub struct Answer<'a> {
    pub address: [u8; 4],
    pub command: [u8; 2],
    pub content: &'a [u8],
}

impl Answer<'_> {
    // Writes the answer to the front of the buffer and tells its length; a buffer that is too short stays as it is.
    // Inlined, since as a call of its own it was a quarter slower.
    #[inline]
    pub fn write(&self, buffer: &mut [u8]) -> Result<usize, NoRoom>
        ensures length { result ≡ counted (length buffer.old) self.now.content.now }
        ensures wrote { buffer.new ≡ fronted self.now.address self.now.command self.now.content.now buffer.old }
        ensures reads_back { IfOk result (λ n. read_back (take n buffer.new) ≡ Some (answer_with self.now.address self.now.command self.now.content.now)) }
    {
        if buffer.len() < AROUND + self.content.len() {
            return Err(NoRoom);
        }
        Ok(self.write_whole(buffer))
    }

    // Writes the answer into a buffer that has room for it.
    fn write_whole(&self, buffer: &mut [u8]) -> usize
        requires { 11 + length self.now.content.now ≤ length buffer.old }
        ensures length { result ≡ 11 + length self.now.content.now }
        ensures wrote { buffer.new ≡ answer_of self.now.address self.now.command self.now.content.now ++ drop result buffer.old }
        ensures reads_back { read_back (take result buffer.new) ≡ Some (answer_with self.now.address self.now.command self.now.content.now) }
    {
        let end = self.write_body(buffer);
        seal(buffer, end)
    }

    // Writes STX and what is summed: the number, the command, the data and ETX.
    fn write_body(&self, buffer: &mut [u8]) -> usize
        requires { 11 + length self.now.content.now ≤ length buffer.old }
        ensures end { result ≡ 8 + length self.now.content.now }
        ensures front { take result buffer.new ≡ 2 ∷ body_of self.now.address self.now.command self.now.content.now }
        ensures rest { (n : ℕ) → result ≤ n → drop n buffer.new ≡ drop n buffer.old }
    {
        let stx_end = put(buffer, 0, &[STX]);
        let address_end = put(buffer, stx_end, &self.address);
        let command_end = put(buffer, address_end, &self.command);
        let content_end = put(buffer, command_end, self.content);
        put(buffer, content_end, &[ETX])
    }
}
