// Whole text read.
ghost use Rattle.std.specs.Prelude.{◌≡◌, [], ◌∷◌};
ghost use Rattle.octet_text.specs.declared.text.ReadFault.TheVariants.{Text, Memory};
ghost use Rattle.octet_text.specs.Texts.{Answers};
ghost use Rattle.octet_text.specs.Promises.{ReadsHexadecimalText, CommentLinesDoNotMatter, FaultsStandWhereTold};
ghost use Rattle.octet_text.specs.Reading.{reading_of, progress, read_on, read_all};

use crate::fault::TextFault;
use crate::reader::HexReader;
use std::alloc::{AllocError, AllocFailed, Global};
use thiserror::Error;

// Why a text gives no octets: what is wrong with it, or want of memory.
#[derive(Clone, Copy, PartialEq, Eq, Debug, Error)]
pub enum ReadFault {
    #[error(transparent)]
    Text(TextFault),
    #[error("no memory")]
    Memory,
}

// Kept, this and the two below: tried `#[from]`; its `From` has no contract, and the exits of `?` in read_character and read_text do not close.
impl From<TextFault> for ReadFault {
    ghost from_gives = { λ f r. r ≡ Text f };

    fn from(fault: TextFault) -> ReadFault {
        ReadFault::Text(fault)
    }
}

impl From<AllocError> for ReadFault {
    ghost from_gives = { λ _ r. r ≡ Memory };

    fn from(_error: AllocError) -> ReadFault {
        ReadFault::Memory
    }
}

impl<T: Drop> From<AllocFailed<T>> for ReadFault {
    ghost from_gives = { λ _ r. r ≡ Memory };

    fn from(_refused: AllocFailed<T>) -> ReadFault {
        ReadFault::Memory
    }
}

// Takes one character, and adds the octet that it ends.
fn read_character(
    reader: &mut HexReader,
    octets: &mut Vec<u8>,
    character: u8,
) -> Result<(), ReadFault>
    ensures { Answers result (λ _. progress (reading_of reader.new) octets.new.items) (read_on (reading_of reader.old) octets.old.items (character ∷ [])) }
{
    if let Some(octet) = reader.read(character)? {
        octets.push(octet)?;
    }
    Ok(())
}

// Takes the characters one by one, up to the first that is refused.
#[tactic(auto, using(crate::proofs::Steps::reading))]
fn read_characters(
    reader: &mut HexReader,
    octets: &mut Vec<u8>,
    text: &[u8],
) -> Result<(), ReadFault>
    ensures { Answers result (λ _. progress (reading_of reader.new) octets.new.items) (read_on (reading_of reader.old) octets.old.items text.now) }
{
    for character in text {
        read_character(reader, octets, *character)?;
    }
    Ok(())
}

// The octets of a text, or its first fault.
#[tactic(auto, using(crate::proofs::Promises::whole_texts))]
pub fn read_text(heap: Global, text: &[u8]) -> Result<Vec<u8>, ReadFault>
    ensures value { Answers result (λ v. v.items) (read_all text.now) }
    ensures reads_hexadecimal_text { ReadsHexadecimalText }
    ensures comment_lines_do_not_matter { CommentLinesDoNotMatter }
    ensures faults_stand_where_told { FaultsStandWhereTold }
{
    let mut reader = HexReader::new();
    let mut octets = Vec::new(heap);
    read_characters(&mut reader, &mut octets, text)?;
    reader.finish()?;
    Ok(octets)
}
