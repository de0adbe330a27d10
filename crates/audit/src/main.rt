// Checks `nimbers` against products that are found without it and against the laws of a field, and
// `games` and `piles` against values that are found from their moves alone, and `tables` against the
// rules of play.
#![tactic(auto)]

mod fermat;
mod field;
mod products;
mod rule;
mod sample;
mod tried;
mod worked;

use anyhow::ensure;
use tallies::print_all;

// Prints what was tried, and fails unless all agreed.
fn main(rt: HostRuntime) -> anyhow::Result<()> {
    let rows = rule::rows(rt.alloc())?;
    let triples = sample::triples(rt.alloc())?;
    let nimbers = [
        worked::sums(),
        products::products(&rows),
        products::inverses(&rows),
        fermat::products(&triples),
    ];
    let agreed = [
        print_all(&rt, &nimbers)?,
        print_all(&rt, &field::laws(&triples))?,
        print_all(&rt, &audit_games::found(rt.alloc())?)?,
        print_all(&rt, &audit_games::largest(&rows))?,
        print_all(&rt, &audit_play::sections(rt.alloc())?)?,
    ];
    ensure!(agreed.iter().all(|agreed| *agreed), "some did not agree");
    Ok(())
}
