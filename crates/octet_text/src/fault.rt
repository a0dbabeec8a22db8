// Why a text is refused.

use thiserror::Error;

#[derive(Clone, Copy, PartialEq, Eq, Debug, Error)]
pub enum TextProblem {
    // The character is no digit, where a digit has to stand.
    #[error("no hexadecimal digit")]
    NotADigit,
    // The text ends behind the first digit of a pair.
    #[error("the text ends inside a pair")]
    HalfAPair,
}

// The line and the column of the character that is wrong, or of the end of the text, both counted from 1.
// Kept: line and column by themselves, since a caller reads them, and the reader's own position is no business of his.
#[derive(Clone, Copy, PartialEq, Eq, Debug, Error)]
#[error("line {line}, column {column}: {problem}")]
pub struct TextFault {
    pub line: u64,
    pub column: u64,
    pub problem: TextProblem,
}
