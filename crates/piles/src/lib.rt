// Games made of games: mixtures and products, and the numbered piles of them.
#![tactic(auto)]

pub mod mix;
pub mod pile;
pub mod product;
pub mod worked;

pub use mix::Mix;
pub use pile::Pile;
pub use product::Product;
