// Capital hexadecimal digits.
ghost use Rattle.std.specs.Prelude.{◌≡◌, ◌<◌};
ghost use Rattle.frame.specs.Digits.{digit_of, value_of, octet_of, two_digits, four_digits};

// The digit of a value below 16.
// Kept: `char::from_digit` is no plainer, since it writes small letters and gives a char.
fn digit(value: u8) -> u8
    requires { value < 16 }
    ensures { result ≡ digit_of value }
{
    match value {
        0..=9 => b'0' + value,
        _ => b'A' + (value - 10),
    }
}

// The value of a digit, if the octet is one. Every digit of every frame is read here.
// Kept: `char::to_digit` is no plainer, since it reads small letters too, which are no digits on the line.
pub fn value(digit: u8) -> Option<u8>
    ensures { result ≡ value_of digit }
{
    match digit {
        b'0'..=b'9' => Some(digit - b'0'),
        b'A'..=b'F' => Some(digit - b'A' + 10),
        _ => None,
    }
}

// The number that two digits stand for, if both are digits.
pub fn octet(high: u8, low: u8) -> Option<u8>
    ensures { result ≡ octet_of high low }
{
    let high = value(high)?;
    let low = value(low)?;
    Some(high * 16 + low)
}

// The two digits of an octet.
pub fn two_digits(octet: u8) -> [u8; 2]
    ensures { result ≡ two_digits octet }
{
    [digit(octet / 16), digit(octet % 16)]
}

// The four digits of a number of 16 bits.
// Kept: four octets by name are plainer than two pairs flattened and made an array again.
pub fn four_digits(number: u16) -> [u8; 4]
    ensures { result ≡ four_digits number }
{
    let [high, low] = number.to_be_bytes().map(two_digits);
    [high[0], high[1], low[0], low[1]]
}
