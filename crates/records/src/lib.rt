// A transcript as bytes, and as records: the two lower layers of its reading.
#![tactic(auto)]

pub mod bytes;
pub mod record;
