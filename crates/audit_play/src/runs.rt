// Runs of calls on tables, each compared with a record that is kept apart.
use crate::record::Record;
use crate::{boards, random};
use games::{Game, Turtles};
use std::alloc::{AllocError, Global};
use tables::calls::{Answer, Call, Refusal};
use tables::table::Table;
use tallies::{Generator, Section, Trial};

// Marsaglia's seed. Of its own, as that of the files: the stored output hangs on it.
const SEED: u32 = 2_463_534_242;

const RUNS: u32 = 10;

const CALLS: u32 = 200;

pub fn calls(heap: Global) -> Result<Section, AllocError> {
    let mut generator = Generator::new(SEED);
    let mut trial = Trial::new(heap);
    for pile in boards::large().into_iter().chain(boards::small()) {
        match pile {
            Some(pile) => try_runs(&mut trial, &mut generator, pile)?,
            None => trial.count(false),
        }
    }
    try_runs(&mut trial, &mut generator, Turtles::new(40))?;
    try_runs(&mut trial, &mut generator, boards::nested(6))?;
    Ok(trial.section("calls in random runs"))
}

fn try_runs<G: Game + Copy + Drop>(
    trial: &mut Trial,
    generator: &mut Generator,
    game: G,
) -> Result<(), AllocError> {
    let Some(mut record) = Record::new(trial.heap, &game)? else {
        trial.count(false);
        return Ok(());
    };
    for _ in 0..RUNS {
        record.clear();
        let mut table = Table::new(game);
        for _ in 0..CALLS {
            let call = random::call(generator, &record);
            trial.count(agrees(&mut table, &mut record, call));
        }
    }
    Ok(())
}

// Does a call on both.
fn agrees<G: Game>(table: &mut Table<G>, record: &mut Record<G>, call: Call) -> bool {
    let expected = record.reply(call);
    let reply = ask(table, call);
    record.fits(expected, reply) && record.matches(table)
}

// By the six methods, which are to be tried, and not by `call`.
fn ask<G: Game>(table: &mut Table<G>, call: Call) -> Result<Answer, Refusal> {
    match call {
        Call::Lay(c) => table.lay(c),
        Call::Begin => table.begin(),
        Call::Turn(m) => table.turn(m),
        Call::Weigh(m) => table.weigh(m),
        Call::Value => table.value(),
        Call::Advise => table.advise(),
    }
}
