// A time as its twelve digits, YYMMDDhhmmss.
ghost use Rattle.std.specs.Prelude.{◌≡◌, slice_index};
ghost use Rattle.std.specs.Result.{result_map_both as mapped_both};
ghost use Rattle.calendar.specs.Moment.{moment_of};
ghost use Rattle.calendar.specs.Digits.{two_digits, digits_of, number_of, read_of, ReadsWhatWasWritten};

use crate::date_time::DateTime;
use crate::time_fault::TimeFault;

// The two decimal digits of a number below 100; the first of a larger one is no digit.
pub fn two_digits(number: u8) -> [u8; 2]
    ensures { result ≡ two_digits number }
{
    [b'0' + number / 10, b'0' + number % 10]
}

// The number that two decimal digits write.
#[tactic(auto, unfolding(crate::specs::Digits::number_of))]
fn number(digits: [u8; 2]) -> Result<u8, TimeFault>
    ensures { result ≡ number_of (slice_index digits 0) (slice_index digits 1) }
{
    let [tens, ones] = digits;
    if tens.is_ascii_digit() && ones.is_ascii_digit() {
        Ok((tens - b'0') * 10 + (ones - b'0'))
    } else {
        Err(TimeFault::NotDigits)
    }
}

impl DateTime {
    // YYMMDDhhmmss.
    // Kept: a `From` for `[u8; 12]` would not say that it is the time in decimal digits.
    #[tactic(auto, unfolding(crate::specs::Digits::digits_of))]
    pub fn digits(self) -> [u8; 12]
        ensures { result ≡ digits_of (moment_of self) }
    {
        // Kept: tried `.map(two_digits)`, `as_flattened` and `as_array`; what is returned did not close.
        let [year_tens, year_ones] = two_digits(self.year);
        let [month_tens, month_ones] = two_digits(self.month);
        let [day_tens, day_ones] = two_digits(self.day);
        let [hour_tens, hour_ones] = two_digits(self.hour);
        let [minute_tens, minute_ones] = two_digits(self.minute);
        let [second_tens, second_ones] = two_digits(self.second);
        [
            year_tens,
            year_ones,
            month_tens,
            month_ones,
            day_tens,
            day_ones,
            hour_tens,
            hour_ones,
            minute_tens,
            minute_ones,
            second_tens,
            second_ones,
        ]
    }

    // Whether all are digits is asked before whether there is such a time.
    // Kept: a `TryFrom<&[u8]>` in its place is no plainer: `read` goes with `digits`, and both clauses would stay.
    #[tactic(auto, using(crate::proofs::Octets::reading))]
    pub fn read(octets: &[u8]) -> Result<DateTime, TimeFault>
        ensures value { mapped_both moment_of (λ e. e) result ≡ read_of octets.now }
        ensures reads_what_was_written { ReadsWhatWasWritten }
    {
        let ([year, month, day, hour, minute, second], []) = octets.as_chunks() else {
            return Err(TimeFault::NotDigits);
        };
        DateTime::new(
            number(*year)?,
            number(*month)?,
            number(*day)?,
            number(*hour)?,
            number(*minute)?,
            number(*second)?,
        )
        .ok_or(TimeFault::NoSuchTime)
    }
}
