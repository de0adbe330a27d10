// Checks `games` and `piles` against values that are found from their moves alone.
#![tactic(auto)]

pub mod findings;
mod limits;
mod nested;
mod numbered;
pub mod rests;
mod shipped;
mod trial;

use findings::Findings;
use games::{Ruler, Turtles, Twins};
use std::alloc::Global;
use tallies::Section;

// The shipped games, the numbered piles, and piles in piles.
// A list: a result that holds an array of titled findings is past what the check of borrows covers.
pub fn found(heap: Global) -> anyhow::Result<Vec<Findings>> {
    let found = [
        shipped::game("Twins", heap, Twins::new)?,
        shipped::game("Turtles", heap, Turtles::new)?,
        shipped::game("Ruler", heap, Ruler::new)?,
        shipped::take(heap)?,
        numbered::piles(heap)?,
        nested::piles(heap)?,
    ];
    Ok(found.to_vec(heap)?)
}

// The largest piles; the rows have the nim products of the numbers below 256. As a number: the name of a row is of `audit`, which uses this crate.
pub fn largest(rows: &[[u8; 256]]) -> [Section; 3] {
    [limits::cells(), limits::moves(), limits::corners(rows)]
}
