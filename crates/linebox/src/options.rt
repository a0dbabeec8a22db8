// The words behind the program's name.
ghost use Rattle.std.specs.Prelude.{◌≡◌};
ghost use Rattle.linebox.specs.Words.{word_meant};

// Of several words the greatest counts.
#[derive(Clone, Copy, Debug, PartialEq, Eq, PartialOrd, Ord)]
pub(crate) enum Word {
    // the input is hexadecimal text
    Hex,
    // the help is asked for
    Help,
}

impl Word {
    // What a word asks for, if it is one of the program's.
    // Kept: a `TryFrom` would need an error type, and the word itself is what is told.
    pub(crate) fn read(word: &[u8]) -> Option<Word>
        ensures { result ≡ word_meant word.now }
    {
        match word {
            b"--hex" => Some(Word::Hex),
            b"--help" => Some(Word::Help),
            _ => None,
        }
    }
}
