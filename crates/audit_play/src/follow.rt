// Games in which side 1 follows advice and side 2 tries every answer, to the end.
use crate::boards;
use crate::search::{Coins, Search, Turn, begun};
use games::{Game, Turtles};
use std::alloc::{AllocError, Global};
use tables::calls::{Answer, Side, State};
use tables::table::Table;
use tallies::{Section, Trial};

// More steps than any of the boards needs from one position: with an end, so that this stops whatever a table does.
const STEPS: u32 = 1_000_000;

pub fn followed(heap: Global) -> Result<Section, AllocError> {
    let mut trial = Trial::new(heap);
    for pile in boards::tiny() {
        match pile {
            Some(pile) => try_games(&mut trial, pile)?,
            None => trial.count(false),
        }
    }
    try_games(&mut trial, Turtles::new(5))?;
    try_games(&mut trial, boards::nested(1))?;
    Ok(trial.section("games in which advice was followed"))
}

// The games from every position that is won.
fn try_games<G: Game + Copy + Drop>(trial: &mut Trial, game: G) -> Result<(), AllocError> {
    let search = Search::new(trial.heap, &game)?;
    for heads in (0..search.count())
        .map(Coins)
        .filter(|heads| search.is_won(*heads))
    {
        let mut table = Table::new(game);
        match begun(&mut table, heads) {
            Ok(Answer::Begun(State::Playing)) => play(trial, &search, table)?,
            _ => trial.count(false),
        }
    }
    Ok(())
}

// Plays on from a table that waits for side 1. Every game that ends is counted, and so are those that do not.
fn play<G: Game + Copy + Drop>(
    trial: &mut Trial,
    search: &Search,
    table: Table<G>,
) -> Result<(), AllocError> {
    let mut waiting = Vec::new(trial.heap);
    waiting.push(table)?;
    for _ in 0..STEPS {
        let Some(mut table) = waiting.pop() else {
            return Ok(());
        };
        match follow(&mut table) {
            Some(State::Playing) => answer(trial, search, &table, &mut waiting)?,
            Some(_) => trial.count(won_by_first(&table)),
            None => trial.count(false),
        }
    }
    trial.count(false);
    Ok(())
}

// Makes the move that is advised, if there is one that may be made.
fn follow<G: Game>(table: &mut Table<G>) -> Option<State> {
    let Ok(Answer::Advice(Some(place))) = table.advise() else {
        return None;
    };
    match table.turn(place) {
        Ok(Answer::Turned(state)) => Some(state),
        _ => None,
    }
}

// Makes every move that side 2 has, each on a table of its own. There is one, since the table is playing.
fn answer<G: Game + Copy + Drop>(
    trial: &mut Trial,
    search: &Search,
    table: &Table<G>,
    waiting: &mut Vec<Table<G>>,
) -> Result<(), AllocError> {
    let turns: Vec<Turn> = search
        .turns
        .iter()
        .copied()
        .filter(|turn| table.heads(turn.place.cell))
        .collect(trial.heap)?;
    if turns.is_empty() {
        trial.count(false);
    }
    for turn in &turns {
        let mut next = *table;
        match next.turn(turn.place) {
            Ok(Answer::Turned(State::Playing)) => waiting.push(next)?,
            Ok(Answer::Turned(_)) => trial.count(won_by_first(&next)),
            _ => trial.count(false),
        }
    }
    Ok(())
}

// Whether the table is over and side 2 has no move.
fn won_by_first<G: Game>(table: &Table<G>) -> bool {
    table.state() == State::Over && table.side() == Side::Second
}
