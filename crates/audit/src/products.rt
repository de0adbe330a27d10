// Compares `nimbers` with the products that the rule gives.
ghost use Rattle.std.specs.Prelude.{◌≡◌, ℕ, ◌<◌, MatchOption, ◌≢◌, slice_index};

use crate::rule::{NUMBERS, Row};
use tallies::{Section, Tally};

// The end of the numbers that are tried.
const END: u32 = NUMBERS as u32;

// The same walk as in the limits of audit_games, over the values of a game: one function for both would take a closure, with a clause on it, for these five lines.
pub fn products(rows: &[Row]) -> Section {
    let mut tally = Tally::new();
    // A loop: counted as `Tally` says.
    for (a, row) in (0..END).zip(rows) {
        for (b, p) in (0..END).zip(row) {
            tally.count(nimbers::product(a, b) == u32::from(*p));
        }
    }
    Section {
        title: "products below 256 by the smallest-missing rule",
        tally,
    }
}

pub fn inverses(rows: &[Row]) -> Section {
    let mut tally = Tally::new();
    // A loop: counted as `Tally` says.
    for (a, row) in (0..END).zip(rows) {
        tally.count(nimbers::inverse(a) == place_of_one(row));
    }
    Section {
        title: "inverses below 256 by those products",
        tally,
    }
}

// The inverse of the row's number: 0 has none.
fn place_of_one(row: &Row) -> Option<u32>
    ensures { MatchOption result ((k : ℕ) → k < 256 → slice_index row.now k ≢ 1) (λ b. slice_index row.now b ≡ 1) }
{
    (0..END).find(|b| row[*b as usize] == 1)
}
