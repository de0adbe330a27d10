// Lines: what the referee writes under each record of a transcript.
#![tactic(auto)]

mod file;
mod lines;
mod outcome;
mod referee;
mod telling;

pub use file::{report, write_fault};
pub use referee::Referee;
