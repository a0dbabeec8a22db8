// Octets written for people.
ghost use Rattle.std.specs.Prelude.{◌≡◌, [], ◌∷◌, ◌++◌, IfOk, OnOk};
ghost use Rattle.octet_text.specs.Lines.{line_of, pairs_of, spaced};
ghost use Rattle.octet_text.specs.Promises.{LinesReadBack};

use frame::digits::two_digits;
use std::alloc::{AllocError, Global};

// A space and the two digits of an octet.
fn spaced_pair(octet: u8) -> [u8; 3]
    ensures { result ≡ spaced (octet ∷ []) }
{
    let [high, low] = two_digits(octet);
    [b' ', high, low]
}

// Adds the octets, each behind a space.
fn push_spaced(line: &mut Vec<u8>, octets: &[u8]) -> Result<(), AllocError>
    ensures { OnOk result (line.new.items ≡ line.old.items ++ spaced octets.now) }
{
    for octet in octets {
        line.extend_from_slice(&spaced_pair(*octet))?;
    }
    Ok(())
}

// Adds the octets, with one space between.
fn push_pairs(line: &mut Vec<u8>, octets: &[u8]) -> Result<(), AllocError>
    ensures { OnOk result (line.new.items ≡ line.old.items ++ pairs_of octets.now) }
{
    let [first, rest @ ..] = octets else {
        return Ok(());
    };
    line.extend_from_slice(&two_digits(*first))?;
    push_spaced(line, rest)
}

// The line of the octets: two capital digits each, one space between, and a newline.
#[tactic(auto, using(crate::proofs::Grammar::lines_read_back))]
pub fn octet_line(heap: Global, octets: &[u8]) -> Result<Vec<u8>, AllocError>
    ensures line { IfOk result (λ v. v.items ≡ line_of octets.now) }
    ensures lines_read_back { LinesReadBack }
{
    let mut line = Vec::new(heap);
    push_pairs(&mut line, octets)?;
    line.push(b'\n')?;
    Ok(line)
}
