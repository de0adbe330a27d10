// A table: one game, a position, a state and the side to move, and the calls on it.
#![tactic(auto)]

pub mod calls;
pub mod position;
pub mod replay;
pub mod table;
