// Files of whole games: coins are laid, calls are refused, and the sides play to the end.
use crate::comparison::compare;
use crate::writing::{Board, Transcript};
use games::Game;
use piles::Pile;
use std::alloc::{AllocError, Global};
use tables::calls::{Answer, Move};
use tables::table::Table;
use tallies::{Section, Trial};

// Widths of boards; 0 and those above 64 leave a game with no cells. The last is 2 in its lower byte.
const WIDTHS: [u16; 8] = [0, 1, 2, 3, 4, 64, 65, 258];

// The amounts 1, 2, 9, 17 and 32: some in each byte.
const SET: u32 = 0x8001_0103;

// The most cells of a board. The audit's own: a wrong number in `games` would otherwise not be found.
const MOST_CELLS: u32 = 4096;

// Coins are laid among so many cells, from the first on.
const FIRST: u16 = 30;

// At most so many turns are made.
const TURNS: u32 = 30;

// A game on each pile of each size.
pub fn files(heap: Global) -> Result<Section, AllocError> {
    let mut trial = Trial::new(heap);
    // By their numbers, as a head names them.
    for pile in 1..7 {
        for w in WIDTHS {
            for h in WIDTHS {
                compare(&mut trial, &game(heap, Board::new(pile, w, h, SET))?)?;
            }
        }
    }
    Ok(trial.section("whole files"))
}

// The file of a game on a board.
pub fn game(heap: Global, board: Board) -> Result<Vec<u8>, AllocError> {
    let mut file = Transcript::new(heap);
    file.head(board)?;
    if let Some(pile) = board.pile() {
        let mut session = Session {
            file: &mut file,
            size: u16::try_from(pile.size()).unwrap_or(u16::MAX),
            table: Table::new(pile),
        };
        session.lay_coins()?;
        session.refusals()?;
        session.play()?;
        session.refusals()?;
    }
    file.end()?;
    Ok(file.bytes)
}

// A table, and the file in which its calls are written.
#[derive(Drop)]
struct Session<'a> {
    file: &'a mut Transcript,
    // The cells of the board.
    size: u16,
    table: Table<Pile>,
}

impl Session<'_> {
    // Lays two of three among the first coins, and the last one of a large board, and begins.
    fn lay_coins(&mut self) -> Result<(), AllocError> {
        self.refusals()?;
        for cell in (0..self.size.min(FIRST)).filter(|cell| cell % 3 != 1) {
            self.lay(cell)?;
        }
        if self.size > FIRST {
            self.lay(self.size - 1)?;
        }
        self.lay(0)?;
        self.file.begin()?;
        let _ = self.table.begin();
        Ok(())
    }

    // Lays a coin.
    fn lay(&mut self, cell: u16) -> Result<(), AllocError> {
        let _ = self.table.lay(u32::from(cell));
        self.file.lay(cell)
    }

    // Writes calls of which nearly all are refused, and remarks.
    fn refusals(&mut self) -> Result<(), AllocError> {
        let size = self.size;
        self.file.lay(size)?;
        self.file.lay(u16::MAX)?;
        self.file.turn(size, 0)?;
        self.file.turn(1, 0)?;
        self.file.turn(0, u32::MAX)?;
        self.file.turn(size.saturating_sub(1), 1 << 22)?;
        self.file.remark(b"")?;
        self.file.remark(b" ~ not so! ~ ")
    }

    // Plays by advice, and from a lost position by the first move that may be made.
    fn play(&mut self) -> Result<(), AllocError> {
        self.file.begin()?;
        for _ in 0..TURNS {
            let Some(m) = self.next() else {
                break;
            };
            self.file.advise()?;
            let cell = u16::try_from(m.cell).unwrap_or(u16::MAX);
            self.file.turn(cell, m.number)?;
            let _ = self.table.turn(m);
        }
        self.file.advise()
    }

    // The move to make, unless the table is over.
    fn next(&mut self) -> Option<Move> {
        if let Ok(Answer::Advice(Some(m))) = self.table.advise() {
            return Some(m);
        }
        (0..MOST_CELLS)
            .map(|cell| Move { cell, number: 0 })
            .find(|m| self.table.weigh(*m).is_ok())
    }
}
