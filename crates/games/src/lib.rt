// Coin-turning games: what a game is, and the four that ship.
#![tactic(auto)]

pub mod cells;
mod row;
mod row_game;
mod rule;
pub mod ruler;
pub mod rules;
pub mod take;
pub mod turtles;
pub mod twins;

pub use cells::Cells;
pub use ruler::Ruler;
pub use rules::Game;
pub use take::Take;
pub use turtles::Turtles;
pub use twins::Twins;
