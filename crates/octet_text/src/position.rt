// A place in a text.
ghost use Rattle.std.specs.Prelude.{◌≡◌};
ghost use Rattle.octet_text.specs.Positions.{first_position, position_behind, fault_at};

use crate::fault::{TextFault, TextProblem};

// The line and the column of a character, both counted from 1. They stop at the largest u64.
#[derive(Clone, Copy)]
pub struct Position {
    pub line: u64,
    pub column: u64,
}

impl Position {
    pub(crate) fn first() -> Position
        ensures { result ≡ first_position }
    {
        Position { line: 1, column: 1 }
    }

    // The place of what stands behind `character`.
    pub(crate) fn behind(self, character: u8) -> Position
        ensures { result ≡ position_behind self character }
    {
        if character == b'\n' {
            Position {
                line: self.line.saturating_add(1),
                column: 1,
            }
        } else {
            Position {
                column: self.column.saturating_add(1),
                ..self
            }
        }
    }

    pub(crate) fn fault(self, problem: TextProblem) -> TextFault
        ensures { result ≡ fault_at self problem }
    {
        TextFault {
            line: self.line,
            column: self.column,
            problem,
        }
    }
}
