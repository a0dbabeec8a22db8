// The line: up to 32 stations on one pair of wires.

#![tactic(auto)]

pub mod calls;
pub mod enroll;
mod find;
pub mod line;
pub mod measure;
pub mod readers;
pub mod reception;
pub mod record;
pub mod records;
pub mod refusal;
mod respond;
mod shares;
pub mod tick;
