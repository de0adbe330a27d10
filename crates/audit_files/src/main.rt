// Checks `reports` against a plain reading of its own, and prints what was tried.
#![tactic(auto)]

mod comparison;
mod damage;
mod edges;
mod known;
mod plain;
mod random;
mod steps;
mod whole;
mod writing;

use anyhow::ensure;
use tallies::print_all;

// Prints what was tried, and fails unless all agreed.
fn run(rt: &HostRuntime) -> anyhow::Result<()> {
    let heap = rt.alloc();
    let sections = [
        known::files(heap)?,
        whole::files(heap)?,
        damage::cut(heap)?,
        damage::damaged(heap)?,
        edges::files(heap)?,
        random::files(heap)?,
    ];
    ensure!(print_all(rt, &sections)?, "some did not agree");
    Ok(())
}

fn main(rt: HostRuntime) -> anyhow::Result<()> {
    run(&rt)
}
