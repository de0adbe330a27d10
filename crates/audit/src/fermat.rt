// Products with the Fermat powers F, by Conway's theorem: F ⊗ F is F + F / 2, and F ⊗ x is the
// common product where x < F. The laws of a field alone would allow another value of F ⊗ F.
use crate::sample::Triple;
use nimbers::product;
use tallies::{Section, Tally};

const POWERS: [u32; 5] = [2, 4, 16, 256, 65536];

pub fn products(triples: &[Triple]) -> Section {
    let mut tally = Tally::new();
    // A loop: counted as `Tally` says.
    for power in POWERS {
        tally.count(product(power, power) == power | (power / 2));
        for t in triples.iter().filter(|t| t.a < power) {
            tally.count(Some(product(power, t.a)) == power.checked_mul(t.a));
        }
    }
    Section {
        title: "products with the Fermat powers 2, 4, 16, 256 and 65536",
        tally,
    }
}
