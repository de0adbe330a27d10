// Checks `tables` against the rules of play, and against a record that it keeps by itself.
#![tactic(auto)]

mod boards;
mod follow;
mod random;
mod record;
mod runs;
mod search;

use std::alloc::{AllocError, Global};
use tallies::Section;

// Three walks over boards, each with games that are no `Pile`: a closure is of one type of game, so one walk for all would take a trait with a generic method,
// and one for the piles alone would save the two arms of a match.
// A list: a result that holds an array of titled sections is past what the check of borrows covers.
pub fn sections(heap: Global) -> Result<Vec<Section>, AllocError> {
    let sections = [
        search::positions(heap)?,
        follow::followed(heap)?,
        runs::calls(heap)?,
    ];
    sections.to_vec(heap)
}
