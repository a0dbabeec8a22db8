// What each octet of standard input says.
ghost use Rattle.std.specs.Prelude.{◌≡◌, true};
ghost use Rattle.std.specs.Result.{result_map_both};
ghost use Rattle.octet_text.specs.Reading.{start, step};
ghost use Rattle.linebox.specs.Inputs.{is_hexadecimal, reading_in, taken, ended};

use octet_text::fault::TextFault;
use octet_text::reader::HexReader;

#[derive(Drop)]
pub(crate) enum Input {
    // received octets as they are
    Octets,
    // hexadecimal text
    Hexadecimal(HexReader),
}

impl Input {
    pub(crate) fn hexadecimal() -> Input
        ensures kind { is_hexadecimal result ≡ true }
        ensures begins { reading_in result ≡ start }
    {
        Input::Hexadecimal(HexReader::new())
    }

    // The received octet that one octet of the input brings, if any.
    pub(crate) fn take(&mut self, character: u8) -> Result<Option<u8>, TextFault>
        ensures kind { is_hexadecimal self.new ≡ is_hexadecimal self.old }
        ensures value { result_map_both (step (reading_in self.new)) (λ f. f) result ≡ taken (is_hexadecimal self.old) (reading_in self.old) character }
    {
        match self {
            Input::Octets => Ok(Some(character)),
            Input::Hexadecimal(reader) => reader.read(character),
        }
    }

    // Whether the input may end here.
    pub(crate) fn finish(&self) -> Result<(), TextFault>
        ensures { result ≡ ended (is_hexadecimal self.now) (reading_in self.now) }
    {
        match self {
            Input::Octets => Ok(()),
            Input::Hexadecimal(reader) => reader.finish(),
        }
    }
}
