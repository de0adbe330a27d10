// What a table should show and answer, kept apart from it.
use audit_games::rests::values;
use games::Game;
use std::alloc::{AllocError, Global};
use tables::calls::{Answer, Call, Move, Refusal, Side, State};
use tables::table::Table;

// The most cells of a board. The audit's own: a wrong number in `games` would otherwise not be found.
const MOST_CELLS: u32 = 4096;

// What a call should be answered. No `Option`: advice is no missing answer; any is right that `fits` finds so.
#[derive(Clone, Copy, Debug, PartialEq, Eq)]
pub enum Expected {
    Exactly(Answer),
    // A move that leaves the value 0, or none where the value is 0.
    Advice,
}

// A cell: its value, and whether its coin shows heads.
#[derive(Clone, Copy, Debug, PartialEq, Eq)]
struct Cell {
    value: u32,
    heads: bool,
}

// A game, with what its table should show.
#[derive(Drop)]
pub struct Record<'a, G> {
    pub game: &'a G,
    cells: Vec<Cell>,
    state: State,
    // Whether the number of turns that were made is odd. The parity, and not Side::other, which is what is tried.
    odd: bool,
}

impl<'a, G: Game> Record<'a, G> {
    // Of a new table, unless a cell has no value.
    pub fn new(heap: Global, game: &'a G) -> Result<Option<Record<'a, G>>, AllocError> {
        let Some(values) = values(game, game.size(), heap)? else {
            return Ok(None);
        };
        let cells = values
            .iter()
            .map(|value| Cell {
                value: *value,
                heads: false,
            })
            .collect(heap)?;
        Ok(Some(Record {
            game,
            cells,
            state: State::Setting,
            odd: false,
        }))
    }

    // As the record of a new table.
    pub fn clear(&mut self) {
        for cell in self.cells.iter_mut() {
            cell.heads = false;
        }
        self.state = State::Setting;
        self.odd = false;
    }

    fn heads(&self, c: u32) -> bool {
        self.cells.get(c as usize).is_some_and(|cell| cell.heads)
    }

    // The first head from c on, or c where there is none.
    pub fn head_from(&self, c: u32) -> u32 {
        (0..MOST_CELLS)
            .zip(&self.cells)
            .find(|(d, cell)| *d >= c && cell.heads)
            .map_or(c, |(d, _)| d)
    }

    // The nim sum of the values of the heads.
    fn worth(&self) -> u32 {
        self.cells
            .iter()
            .filter(|cell| cell.heads)
            .fold(0, |sum, cell| sum ^ cell.value)
    }

    // Turns the coins of a move.
    fn turn(&mut self, m: Move) {
        for (d, cell) in (0..self.game.size()).zip(self.cells.iter_mut()) {
            if self.game.turns(m.cell, m.number, d) {
                cell.heads = !cell.heads;
            }
        }
    }

    // The value that a move would leave.
    fn worth_after(&self, m: Move) -> u32 {
        (0..self.game.size())
            .zip(&self.cells)
            .filter(|(d, cell)| cell.heads != self.game.turns(m.cell, m.number, *d))
            .fold(0, |sum, (_, cell)| sum ^ cell.value)
    }

    // Goes on to playing, or over where no head has a move.
    fn settle(&mut self) -> State {
        let game = self.game;
        let can_move = (0..game.size())
            .zip(&self.cells)
            .any(|(c, cell)| cell.heads && game.count(c) > 0);
        self.state = if can_move {
            State::Playing
        } else {
            State::Over
        };
        self.state
    }

    fn lay(&mut self, c: u32) -> Result<Expected, Refusal> {
        let cell = self.cells.get_mut(c as usize).ok_or(Refusal::OffBoard)?;
        if cell.heads {
            return Err(Refusal::Heads);
        }
        cell.heads = true;
        Ok(Expected::Exactly(Answer::Laid))
    }

    // Whether a move may be made.
    fn allow(&self, m: Move) -> Result<(), Refusal> {
        let cell = self.cells.get(m.cell as usize).ok_or(Refusal::OffBoard)?;
        if !cell.heads {
            Err(Refusal::Tails)
        } else if m.number >= self.game.count(m.cell) {
            Err(Refusal::NoMove)
        } else {
            Ok(())
        }
    }

    fn make(&mut self, m: Move) -> Result<Expected, Refusal> {
        self.allow(m)?;
        self.turn(m);
        self.odd = !self.odd;
        Ok(Expected::Exactly(Answer::Turned(self.settle())))
    }

    fn weigh(&self, m: Move) -> Result<Expected, Refusal> {
        self.allow(m)?;
        Ok(Expected::Exactly(Answer::Worth(self.worth_after(m))))
    }

    // Does a call, and says what the table should answer.
    pub fn reply(&mut self, call: Call) -> Result<Expected, Refusal> {
        if self.cells.is_empty() {
            return Err(Refusal::NoCells);
        }
        match (call, self.state) {
            (Call::Lay(c), State::Setting) => self.lay(c),
            (Call::Begin, State::Setting) => { Ok(Expected::Exactly(Answer::Begun(self.settle()))) }
            (Call::Turn(m), State::Playing) => self.make(m),
            (Call::Weigh(m), State::Playing) => self.weigh(m),
            (Call::Value, _) => Ok(Expected::Exactly(Answer::Worth(self.worth()))),
            (Call::Advise, State::Playing) => Ok(Expected::Advice),
            _ => Err(Refusal::NotNow),
        }
    }

    // Whether the table answered as it should.
    pub fn fits(
        &self,
        expected: Result<Expected, Refusal>,
        reply: Result<Answer, Refusal>,
    ) -> bool {
        match (expected, reply) {
            (Err(expected), Err(refusal)) => {
                refusal == expected && refusal.number() == number_of(expected)
            }
            (Ok(Expected::Exactly(expected)), Ok(answer)) => answer == expected,
            (Ok(Expected::Advice), Ok(Answer::Advice(None))) => self.worth() == 0,
            (Ok(Expected::Advice), Ok(Answer::Advice(Some(m)))) => self.is_good(m),
            _ => false,
        }
    }

    // Whether the value is not 0, and the move may be made and leaves 0.
    fn is_good(&self, m: Move) -> bool {
        self.worth() != 0 && self.allow(m).is_ok() && self.worth_after(m) == 0
    }

    // Whether the table shows these coins, this state and this side.
    pub fn matches(&self, table: &Table<G>) -> bool {
        (0..200).all(|c| table.heads(c) == self.heads(c))
            && table.state() == self.state
            && (table.side() == Side::Second) == self.odd
    }
}

// The number that a refusal should have. Of its own: a wrong number in `tables` would otherwise not be found.
fn number_of(refusal: Refusal) -> u32 {
    match refusal {
        Refusal::NoCells => 1,
        Refusal::NotNow => 2,
        Refusal::OffBoard => 3,
        Refusal::Heads => 4,
        Refusal::Tails => 5,
        Refusal::NoMove => 6,
    }
}
