// A half hour: when it began, and its demand.
use calendar::date_time::DateTime;

#[derive(Clone, Copy)]
pub struct HalfHour {
    pub start: DateTime,
    pub demand: u16,
}
