// Calls that look random, and are the same in each run.
use crate::record::Record;
use games::Game;
use tables::calls::{Call, Move};
use tallies::Generator;

// Any of the calls, whatever the state.
pub fn call<G: Game>(numbers: &mut Generator, record: &Record<G>) -> Call {
    match numbers.step() % 32 {
        0 => Call::Begin,
        1..=2 => Call::Value,
        3..=5 => Call::Advise,
        6..=9 => Call::Weigh(place(numbers, record)),
        10..=18 => Call::Turn(place(numbers, record)),
        _ => Call::Lay(near(numbers, record.game.size())),
    }
}

// A move, mostly at a head.
fn place<G: Game>(numbers: &mut Generator, record: &Record<G>) -> Move {
    let near_cell = near(numbers, record.game.size());
    let cell = if numbers.step() % 4 > 0 {
        record.head_from(near_cell)
    } else {
        near_cell
    };
    let number = near(numbers, record.game.count(cell));
    Move { cell, number }
}

// Mostly one of the first numbers, up to end and one more; once in sixteen any number.
fn near(numbers: &mut Generator, end: u32) -> u32 {
    let x = numbers.step();
    if numbers.step() % 16 == 0 {
        x
    } else {
        x % end.saturating_add(2)
    }
}
