// Which positions are won, found from the rules of play with no values, and compared with advice.
use crate::boards;
use games::{Game, Take, Turtles};
use std::alloc::{AllocError, Global};
use tables::calls::{Answer, Move, Refusal, State};
use tables::table::Table;
use tallies::{Section, Trial};

// Coins of a small game: bit c is 1 where the coin on c is meant.
#[derive(Clone, Copy, Debug, PartialEq, Eq)]
pub struct Coins(pub u32);

impl Coins {
    // The coin on c alone, or none where c is past the bits.
    fn one(c: u32) -> Coins {
        Coins(1u32.checked_shl(c).unwrap_or(0))
    }

    // Whether the coin on c is among them.
    fn has(self, c: u32) -> bool {
        self.0 & Coins::one(c).0 != 0
    }

    // With those coins turned.
    fn turned(self, coins: Coins) -> Coins {
        Coins(self.0 ^ coins.0)
    }
}

// A move, with the coins that it turns.
#[derive(Clone, Copy, Debug, PartialEq, Eq)]
pub struct Turn {
    pub place: Move,
    coins: Coins,
}

impl Turn {
    // Whether it may be made where those coins show heads.
    pub fn may(&self, heads: Coins) -> bool {
        heads.has(self.place.cell)
    }
}

// What the search found of a game.
#[derive(Drop)]
pub struct Search {
    pub turns: Vec<Turn>,
    won: Vec<bool>,
}

impl Search {
    pub fn new<G: Game>(heap: Global, game: &G) -> Result<Search, AllocError> {
        let mut search = Search {
            turns: turns(heap, game)?,
            won: Vec::new(heap),
        };
        // A loop: each is found from those before it.
        for heads in 0..1u32 << game.size().min(12) {
            let won = search.has_winning_turn(Coins(heads));
            search.won.push(won)?;
        }
        Ok(search)
    }

    // How many positions there are: the heads of each are those of a number below.
    pub fn count(&self) -> u32 {
        u32::try_from(self.won.len()).unwrap_or(u32::MAX)
    }

    // Whether a turn leads to a lost position. Each turn leads to a smaller number.
    fn has_winning_turn(&self, heads: Coins) -> bool {
        self.turns.iter().any(|turn| self.wins(turn, heads))
    }

    // Whether the turn may be made and leads to a lost position.
    fn wins(&self, turn: &Turn, heads: Coins) -> bool {
        turn.may(heads) && self.is_lost(heads.turned(turn.coins))
    }

    // Not the opposite of the next: past the last position there is neither.
    pub fn is_lost(&self, heads: Coins) -> bool {
        matches!(self.won.get(heads.0 as usize), Some(false))
    }

    pub fn is_won(&self, heads: Coins) -> bool {
        matches!(self.won.get(heads.0 as usize), Some(true))
    }

    fn can_move(&self, heads: Coins) -> bool {
        self.turns.iter().any(|turn| turn.may(heads))
    }

    // Whether the move may be made and leads to a lost position.
    fn wins_by(&self, heads: Coins, place: Move) -> bool {
        let mut turns = self.turns.iter();
        let turn = turns.find(|turn| turn.place == place);
        turn.is_some_and(|turn| self.wins(turn, heads))
    }

    // Whether a table with these heads begins as it should, and advises a winning move exactly where there is one.
    fn agrees<G: Game>(&self, table: &mut Table<G>, heads: Coins) -> bool {
        match begun(table, heads) {
            Ok(Answer::Begun(State::Over)) => !self.can_move(heads),
            Ok(Answer::Begun(State::Playing)) => self.can_move(heads) && self.advises(table, heads),
            _ => false,
        }
    }

    fn advises<G: Game>(&self, table: &mut Table<G>, heads: Coins) -> bool {
        match table.advise() {
            Ok(Answer::Advice(None)) => self.is_lost(heads),
            Ok(Answer::Advice(Some(place))) => self.is_won(heads) && self.wins_by(heads, place),
            _ => false,
        }
    }
}

// Lays the heads and begins.
pub fn begun<G: Game>(table: &mut Table<G>, heads: Coins) -> Result<Answer, Refusal> {
    for c in (0..32).filter(|c| heads.has(*c)) {
        table.lay(c)?;
    }
    table.begin()
}

// All moves of a game.
fn turns<G: Game>(heap: Global, game: &G) -> Result<Vec<Turn>, AllocError> {
    (0..game.size())
        .flat_map(|cell| (0..game.count(cell)).map(move |number| Move { cell, number }))
        .map(|place| Turn {
            place,
            coins: coins_of(game, place),
        })
        .collect(heap)
}

fn coins_of<G: Game>(game: &G, place: Move) -> Coins {
    let turned = (0..32).filter(|d| game.turns(place.cell, place.number, *d));
    turned.fold(Coins(0), |coins, d| coins.turned(Coins::one(d)))
}

pub fn positions(heap: Global) -> Result<Section, AllocError> {
    let mut trial = Trial::new(heap);
    for pile in boards::small() {
        match pile {
            Some(pile) => try_positions(&mut trial, pile)?,
            None => trial.count(false),
        }
    }
    try_positions(&mut trial, Turtles::new(9))?;
    try_positions(&mut trial, Take::new(12, 0b1101))?;
    try_positions(&mut trial, boards::nested(2))?;
    Ok(trial.section("positions by search of the rules of play"))
}

fn try_positions<G: Game + Copy + Drop>(trial: &mut Trial, game: G) -> Result<(), AllocError> {
    let search = Search::new(trial.heap, &game)?;
    for heads in (0..search.count()).map(Coins) {
        let mut table = Table::new(game);
        trial.count(search.agrees(&mut table, heads));
    }
    Ok(())
}
