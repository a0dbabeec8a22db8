// One second on, carry by carry.
ghost use Rattle.std.specs.Prelude.{◌≡◌};
ghost use Rattle.calendar.specs.Moment.{moment_of, EveryTimeExists};
ghost use Rattle.calendar.specs.Carry.{year_on, month_on, day_on, hour_on, minute_on, second_on};
ghost use Rattle.calendar.specs.Elapsed.{SecondsTellTimesApart};
ghost use Rattle.calendar.specs.Running.{SecondOnExists, SecondOnIsOneMore, SecondsOnAreAsManyMore, February29FollowsIn2000, March1FollowsIn2001, CenturyBeginsAnew};

use crate::date_time::DateTime;
use crate::making::days_of_month;

impl DateTime {
    fn one_year_on(mut self) -> DateTime
        ensures { moment_of result ≡ year_on (moment_of self) }
    {
        self.year = if self.year < 99 { self.year + 1 } else { 0 };
        self.month = 1;
        self.day = 1;
        self
    }

    fn one_month_on(mut self) -> DateTime
        ensures { moment_of result ≡ month_on (moment_of self) }
    {
        if self.month < 12 {
            self.month += 1;
            self.day = 1;
            self
        } else {
            self.one_year_on()
        }
    }

    fn one_day_on(mut self) -> DateTime
        ensures { moment_of result ≡ day_on (moment_of self) }
    {
        if self.day < days_of_month(self.year, self.month) {
            self.day += 1;
            self
        } else {
            self.one_month_on()
        }
    }

    // Kept: hours, minutes and seconds carry alike, but a function of all three would be given the field, its limit and the next.
    pub(crate) fn one_hour_on(mut self) -> DateTime
        ensures { moment_of result ≡ hour_on (moment_of self) }
    {
        if self.hour < 23 {
            self.hour += 1;
            self
        } else {
            self.hour = 0;
            self.one_day_on()
        }
    }

    fn one_minute_on(mut self) -> DateTime
        ensures { moment_of result ≡ minute_on (moment_of self) }
    {
        if self.minute < 59 {
            self.minute += 1;
            self
        } else {
            self.minute = 0;
            self.one_hour_on()
        }
    }

    // 2000 comes after 2099.
    #[tactic(auto, using(crate::proofs::Promises::running), unfolding(crate::specs::Carry::second_on))]
    pub fn one_second_on(mut self) -> DateTime
        ensures value { moment_of result ≡ second_on (moment_of self) }
        ensures time_exists { EveryTimeExists }
        ensures second_on_exists { SecondOnExists }
        ensures one_more { SecondOnIsOneMore }
        ensures as_many_more { SecondsOnAreAsManyMore }
        ensures tells_times_apart { SecondsTellTimesApart }
        ensures leap_day { February29FollowsIn2000 }
        ensures no_leap_day { March1FollowsIn2001 }
        ensures begins_anew { CenturyBeginsAnew }
    {
        if self.second < 59 {
            self.second += 1;
            self
        } else {
            self.second = 0;
            self.one_minute_on()
        }
    }
}
