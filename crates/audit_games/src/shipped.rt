// The games that ship, at every width that has cells and at some that have none.
ghost use Rattle.std.specs.Prelude.{◌≡◌, if◌then◌else◌, nat_le};

use crate::findings::Findings;
use crate::trial::{Choice, Trial};
use games::{Game, Take};
use std::alloc::Global;

// Sets of amounts for Take.
pub const SETS: [u32; 8] = [0, 1, 2, 3, 5, 0b1011, 0x8000_0001, u32::MAX];

// How many cells a row of that width has.
pub fn cells(width: u32) -> u32
    ensures { result ≡ (if nat_le width 64 then width else 0) }
{
    if width <= 64 { width } else { 0 }
}

// A game at every width.
pub fn game<G: Game + Drop, F: Fn(u32) -> G>(
    title: &'static str,
    heap: Global,
    made: F,
) -> anyhow::Result<Findings>
    requires { F.IsAlwaysCallable made }
{
    let mut trial = Trial::new(title, Choice::Lowest, heap);
    try_widths(&mut trial, made)?;
    Ok(trial.findings)
}

// Take with each of the sets.
pub fn take(heap: Global) -> anyhow::Result<Findings> {
    let mut trial = Trial::new("Take", Choice::Lowest, heap);
    for set in SETS {
        try_widths(&mut trial, |w| Take::new(w, set))?;
    }
    Ok(trial.findings)
}

fn try_widths<G: Game + Drop, F: Fn(u32) -> G>(trial: &mut Trial, made: F) -> anyhow::Result<()>
    requires { F.IsAlwaysCallable made }
{
    for w in (0..=65).chain([u32::MAX]) {
        trial.examine(&made(w), cells(w))?;
    }
    Ok(())
}
