// Decimal digits.
ghost use Rattle.std.specs.Prelude.{◌≡◌, ◌<◌};
ghost use Rattle.command.specs.Decimals.{four_decimals};

use calendar::digits::two_digits as two_decimals;

// The four digits of a number below 10,000.
pub(crate) fn four_decimals(number: usize) -> [u8; 4]
    requires { number < 10000 }
    ensures { result ≡ four_decimals number }
{
    let [thousands, hundreds] = two_decimals((number / 100) as u8);
    let [tens, ones] = two_decimals((number % 100) as u8);
    [thousands, hundreds, tens, ones]
}
