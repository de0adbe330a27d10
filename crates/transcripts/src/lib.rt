// A transcript: a head, which is read first, and the records behind it.
#![tactic(auto)]

pub mod body;
pub mod fault;
pub mod unread;
