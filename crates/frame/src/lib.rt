// The frame layer of the line: octets become frames, frames are taken apart, answers are written.
// It knows nothing of settings, books, clocks or stations.

#![tactic(auto)]

pub mod answer;
pub mod checksum;
pub mod digits;
pub mod fault;
pub mod parse;
pub mod receiver;
pub mod request;
pub mod signal;
pub mod station_number;
