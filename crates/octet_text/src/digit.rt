// Hexadecimal digits.
ghost use Rattle.std.specs.Prelude.{◌≡◌, ◌+◌, ◌*◌};
ghost use Rattle.octet_text.specs.Digits.{value_of};

use frame::digits;
use std::marker::Model;

// The value of a digit.
#[derive(Clone, Copy)]
pub struct Digit {
    value: u8,
}

impl Model for Digit {
    ghost use Rattle.std.specs.Prelude.{ℕ, ◌<◌};

    ghost Value = { ℕ };

    ghost view = { λ d. d.value };

    ghost invariant = { λ d. d.value < 16 };

    ghost inverse = { λ v. record { value = v } };
}

impl Digit {
    // A capital or a small letter, or a decimal digit.
    // Kept: a `TryFrom` would need an error type, and a character is no digit in one way only.
    pub(crate) fn read(character: u8) -> Option<Digit>
        ensures { result ≡ value_of character }
    {
        let value = digits::value(character.to_ascii_uppercase())?;
        Some(Digit { value })
    }

    // The octet that this digit and the one behind it write.
    pub(crate) fn octet(self, second: Digit) -> u8
        ensures { result ≡ self * 16 + second }
    {
        self.value * 16 + second.value
    }
}
