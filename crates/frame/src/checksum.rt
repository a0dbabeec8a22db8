// The checksum of frames and answers.
ghost use Rattle.std.specs.Prelude.{◌≡◌};
ghost use Rattle.frame.specs.Checksum.{checksum_of};

// The low eight bits of the sum of the octets.
#[tactic(auto, using(crate::proofs::Sums::low_by_fold))]
pub fn checksum(octets: &[u8]) -> u8
    ensures { result ≡ checksum_of octets.now }
{
    octets
        .iter()
        .fold(0, |sum: u8, octet| sum.wrapping_add(*octet))
}
