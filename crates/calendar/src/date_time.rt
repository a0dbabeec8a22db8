// A date and time that exists, in the years 2000 to 2099.
ghost use Rattle.std.specs.Prelude.{◌<◌, ◌≤◌};
ghost use Rattle.calendar.specs.Calendar.{days_of_month};

#[derive(Clone, Copy, PartialEq, Eq, Debug)]
pub struct DateTime {
    pub(crate) year: u8,
    pub(crate) month: u8,
    pub(crate) day: u8,
    pub(crate) hour: u8,
    pub(crate) minute: u8,
    pub(crate) second: u8,
    ghost within_century: { year < 100 },
    ghost from_january: { 1 ≤ month },
    ghost to_december: { month ≤ 12 },
    ghost from_first: { 1 ≤ day },
    ghost to_last: { day ≤ days_of_month year month },
    ghost within_day: { hour < 24 },
    ghost within_hour: { minute < 60 },
    ghost within_minute: { second < 60 },
}
