// How a date and time is made: only where it exists.
ghost use Rattle.std.specs.Prelude.{◌≡◌};
ghost use Rattle.std.specs.Option.{option_map};
ghost use Rattle.calendar.specs.Calendar.{days_of_month};
ghost use Rattle.calendar.specs.Moment.{moment, moment_of, first, is_date, is_time, existing};

use crate::date_time::DateTime;

pub(crate) fn days_of_month(year: u8, month: u8) -> u8
    ensures { result ≡ days_of_month year month }
{
    match month {
        2 => { if year % 4 == 0 { 29 } else { 28 } }
        4 | 6 | 9 | 11 => 30,
        _ => 31,
    }
}

fn is_date(year: u8, month: u8, day: u8) -> bool
    ensures { result ≡ is_date year month day }
{
    year < 100 && (1..=12).contains(&month) && (1..=days_of_month(year, month)).contains(&day)
}

fn is_time(hour: u8, minute: u8, second: u8) -> bool
    ensures { result ≡ is_time hour minute second }
{
    hour < 24 && minute < 60 && second < 60
}

impl DateTime {
    // Kept: six parameters, since the struct that they would stand in is this type, which holds only times that exist.
    // The time of these numbers, if there is one.
    #[tactic(auto, unfolding(crate::specs::Moment::exists))]
    pub fn new(year: u8, month: u8, day: u8, hour: u8, minute: u8, second: u8) -> Option<DateTime>
        ensures { option_map moment_of result ≡ existing (moment year month day hour minute second) }
    {
        if is_date(year, month, day) && is_time(hour, minute, second) {
            Some(DateTime {
                year,
                month,
                day,
                hour,
                minute,
                second,
            })
        } else {
            None
        }
    }

    // The first second of 2000.
    pub fn first() -> DateTime
        ensures { moment_of result ≡ first }
    {
        DateTime {
            year: 0,
            month: 1,
            day: 1,
            hour: 0,
            minute: 0,
            second: 0,
        }
    }
}
