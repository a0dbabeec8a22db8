// Why octets are not read as a time.

#[derive(Clone, Copy, PartialEq, Eq, Debug)]
pub enum TimeFault {
    // other than twelve decimal digits
    NotDigits,
    // the digits of no time in 2000 to 2099
    NoSuchTime,
}
