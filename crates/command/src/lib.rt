// One station: its settings, its clock and present values, its records, and the commands that it answers.
// It knows nothing of the line and of other stations.

#![tactic(auto)]

mod bulk_contract;
mod bulk_field;
mod bulk_merge;
mod bulk_show;
mod bulk_write;
mod compose;
mod content;
mod contract;
mod decimals;
pub mod event;
pub mod event_kind;
pub mod fault;
mod field;
mod gather;
pub mod half_hour;
mod half_hours;
mod history;
mod history_page;
mod holding;
pub mod known;
mod parts;
mod point;
mod points;
mod ratio;
mod reset;
pub mod respond;
pub mod setting;
pub mod settings;
mod stages;
pub mod station;
mod window;
