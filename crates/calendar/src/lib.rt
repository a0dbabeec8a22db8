// Dates and times of the years 2000 to 2099.

#![tactic(auto)]

mod comparing;
pub mod date_time;
pub mod digits;
mod half_hours;
mod making;
mod stepping;
#[cfg(test)]
mod tests;
pub mod time_fault;
