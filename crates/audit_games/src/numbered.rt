// The numbered piles, at all pairs of a few widths.
use crate::findings::Findings;
use crate::shipped::{SETS, cells};
use crate::trial::{Choice, Trial};
use anyhow::Context;
use games::Game;
use piles::Pile;
use std::alloc::Global;

const WIDTHS: [u32; 8] = [0, 1, 2, 3, 4, 7, 12, 65];

pub fn piles(heap: Global) -> anyhow::Result<Findings> {
    let mut trial = Trial::new("numbered piles", Choice::Any, heap);
    for number in [0, 7, u32::MAX] {
        trial
            .findings
            .sizes
            .count(Pile::new(number, 4, 4, 1).is_none());
    }
    for w in WIDTHS {
        for h in WIDTHS {
            for number in 1..=6 {
                try_pile(&mut trial, number, w, h, 0b10110)?;
            }
            for set in SETS {
                try_pile(&mut trial, 4, w, h, set)?;
            }
        }
    }
    Ok(trial.findings)
}

// By its four numbers, as `Pile::new` takes them: a struct for two calls is no plainer.
fn try_pile(trial: &mut Trial, number: u32, w: u32, h: u32, set: u32) -> anyhow::Result<()> {
    let pile = Pile::new(number, w, h, set).context("a number from 1 to 6 has no pile")?;
    trial.examine(&pile, cells_of(number, cells(w), cells(h)))
}

// How many cells the pile of that number has, from those of its two rows. By number, since the numbers are tried too.
fn cells_of(number: u32, w: u32, h: u32) -> u32 {
    match number {
        5 => w.saturating_mul(w).saturating_add(h.saturating_mul(h)),
        6 => w.saturating_add(h).saturating_mul(4),
        _ => w.saturating_mul(h),
    }
}
