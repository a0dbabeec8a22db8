// What the reader of hexadecimal text does.
ghost use Rattle.std.specs.Prelude.{◌≡◌, OnErr};
ghost use Rattle.std.specs.Result.{result_map_both};
ghost use Rattle.octet_text.specs.Reading.{start, reading_of, step, read_one, finished};
ghost use Rattle.octet_text.specs.Promises.{ReadsHexadecimalText, CommentLinesDoNotMatter, FaultsStandWhereTold};

use crate::fault::{TextFault, TextProblem};
use crate::position::Position;
use crate::reader::{HexReader, State};

impl HexReader {
    #[tactic(auto, using(crate::proofs::Promises::whole_texts))]
    pub fn new() -> HexReader
        ensures begins { reading_of result ≡ start }
        ensures reads_hexadecimal_text { ReadsHexadecimalText }
        ensures comment_lines_do_not_matter { CommentLinesDoNotMatter }
        ensures faults_stand_where_told { FaultsStandWhereTold }
    {
        HexReader {
            state: State::BetweenPairs,
            position: Position::first(),
        }
    }

    // Takes the next character of the text: the octet, where it is the second digit of a pair.
    // A reader that refuses a character is as before.
    pub fn read(&mut self, character: u8) -> Result<Option<u8>, TextFault>
        ensures value { result_map_both (step (reading_of self.new)) (λ f. f) result ≡ read_one (reading_of self.old) character }
        ensures unchanged { OnErr result (reading_of self.new ≡ reading_of self.old) }
    {
        let refusal = self.position.fault(TextProblem::NotADigit);
        let turn = self.state.hear(character).ok_or(refusal)?;
        self.state = turn.state;
        self.position = self.position.behind(character);
        Ok(turn.octet)
    }

    // The text ends here: refused inside a pair.
    pub fn finish(&self) -> Result<(), TextFault>
        ensures { result ≡ finished (reading_of self.now) }
    {
        match self.state {
            State::InsidePair(_) => Err(self.position.fault(TextProblem::HalfAPair)),
            State::BetweenPairs | State::InComment => Ok(()),
        }
    }
}
