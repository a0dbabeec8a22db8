// Half hours, which begin at 00 and at 30 minutes.
ghost use Rattle.std.specs.Prelude.{◌≡◌};
ghost use Rattle.std.specs.Option.{option_map};
ghost use Rattle.calendar.specs.Moment.{moment_of};
ghost use Rattle.calendar.specs.HalfHours.{half_of, half_hour_of, half_hour_on, next_half_hour, HalfHourRoundsDown, HalfHoursEndWithTheCentury};

use crate::date_time::DateTime;

fn half_of(minute: u8) -> u8
    ensures { result ≡ half_of minute }
{
    if minute < 30 { 0 } else { 30 }
}

const LAST_HALF_HOUR: DateTime = DateTime {
    year: 99,
    month: 12,
    day: 31,
    hour: 23,
    minute: 30,
    second: 0,
};

impl DateTime {
    fn half_hour_on(mut self) -> DateTime
        ensures { moment_of result ≡ half_hour_on (moment_of self) }
    {
        if self.minute < 30 {
            self.minute += 30;
            self
        } else {
            self.minute -= 30;
            self.one_hour_on()
        }
    }

    // The start of the half hour that contains this time.
    #[tactic(auto, using(crate::proofs::Promises::half_hour_rounds_down), unfolding(crate::specs::HalfHours::half_hour_of))]
    pub fn half_hour(mut self) -> DateTime
        ensures value { moment_of result ≡ half_hour_of (moment_of self) }
        ensures rounds_down { HalfHourRoundsDown }
    {
        self.minute = half_of(self.minute);
        self.second = 0;
        self
    }

    // The start of the half hour after that; there is none after 2099.
    #[tactic(auto, using(crate::proofs::Promises::half_hours_end_with_the_century), unfolding(crate::specs::HalfHours::next_half_hour, crate::specs::Moment::same_moment))]
    pub fn next_half_hour(self) -> Option<DateTime>
        ensures value { option_map moment_of result ≡ next_half_hour (moment_of self) }
        ensures ends { HalfHoursEndWithTheCentury }
    {
        let start = self.half_hour();
        if start == LAST_HALF_HOUR {
            None
        } else {
            Some(start.half_hour_on())
        }
    }
}
