// A position: 4,096 coins, each heads or tails.
ghost use Rattle.std.specs.Prelude.{◌≡◌, ◌+◌, ◌*◌, ◌<◌, ◌&&◌, if◌then◌else◌, nat_lt};
ghost use Rattle.games.specs.Cells.{held, only};
ghost use Rattle.games.specs.TakeValues.{any};
ghost use Rattle.play.specs.Play.{after, position_value, turned};
ghost use Rattle.tables.specs.Calls.{can_move};
ghost use Rattle.tables.specs.Coins.{all_tails, coins, one_held};

pub mod trial;

use crate::calls::Move;
use games::cells::words_of;
use games::{Cells, Game};

// Below this cell a move is turned cell by cell.
const LOW: u32 = 16;

// A coin shows heads where its cell is held.
#[derive(Clone, Copy, Debug, Default, PartialEq, Eq)]
pub struct Position {
    cells: Cells,
}

impl Position {
    // All coins show tails.
    pub fn new() -> Position
        ensures { coins result ≡ all_tails }
    {
        Position {
            cells: Cells::new(),
        }
    }

    // Whether the coin on c shows heads.
    pub fn heads(&self, c: u32) -> bool
        ensures { result ≡ coins self.now c }
    {
        self.cells.has(c)
    }

    // Whether a coin of word k shows heads: the 32 coins from 32 * k on.
    pub fn heads_in(&self, k: u32) -> bool
        ensures { result ≡ any 32 (λ j. coins self.now (32 * k + j)) }
    {
        self.cells.marks_in(k)
    }

    // Turns the coin on c; past the last coin there is none.
    pub fn flip(&mut self, c: u32)
        ensures { coins self.new ≡ turned (coins self.old) (only c) }
    {
        self.cells.toggle(c);
    }

    // Turns the coins on the cells of a set.
    pub fn toggle(&mut self, cells: &Cells)
        ensures { coins self.new ≡ turned (coins self.old) (held cells.now) }
    {
        self.cells.toggle_all(cells);
    }

    // The nim sum of the values of the heads.
    pub fn sum<G: Game>(&self, game: &G) -> u32
        ensures { result ≡ position_value (G.Game.rules game.now) (coins self.now) }
    {
        self.cells.sum(game)
    }

    // Turns the coins of a move.
    pub fn turn<G: Game>(&mut self, game: &G, m: Move)
        ensures { coins self.new ≡ after (G.Game.rules game.now) (coins self.old) m.cell m.number }
    {
        self.turn_and_sum(game, m);
    }

    // The same, and gives the nim sum of the values of the coins that were turned. At a low cell it is quicker to ask about each cell than to make a set.
    pub(crate) fn turn_and_sum<G: Game>(&mut self, game: &G, m: Move) -> u32
        ensures coins { coins self.new ≡ after (G.Game.rules game.now) (coins self.old) m.cell m.number }
        ensures value { result ≡ position_value (G.Game.rules game.now) ((G.Game.rules game.now).holds m.cell m.number) }
    {
        if m.cell < LOW {
            return self.turn_each(game, m);
        }
        let turned = game.turned(m.cell, m.number);
        self.toggle(&turned);
        turned.sum(game)
    }

    // The same, cell by cell.
    fn turn_each<G: Game>(&mut self, game: &G, m: Move) -> u32
        ensures coins { coins self.new ≡ after (G.Game.rules game.now) (coins self.old) m.cell m.number }
        ensures value { result ≡ position_value (G.Game.rules game.now) ((G.Game.rules game.now).holds m.cell m.number) }
    {
        let mut value = 0;
        let end = m.cell.saturating_add(1).min(game.size());
        for d in 0..end {
            value ^= self.turn_one(game, m, d);
        }
        value
    }

    // Turns the coin on d if the move holds it, and gives its value then.
    fn turn_one<G: Game>(&mut self, game: &G, m: Move, d: u32) -> u32
        ensures coins { coins self.new ≡ turned (coins self.old) (one_held ((G.Game.rules game.now).holds m.cell m.number) d) }
        ensures value { result ≡ (if (G.Game.rules game.now).holds m.cell m.number d then (G.Game.rules game.now).worth d else 0) }
    {
        if !game.turns(m.cell, m.number, d) {
            return 0;
        }
        self.flip(d);
        game.value(d)
    }

    // Whether some head has a move.
    pub fn can_move<G: Game>(&self, game: &G) -> bool
        ensures { result ≡ can_move (G.Game.rules game.now) (coins self.now) }
    {
        (0..words_of(game)).any(|k| self.can_move_in(game, k))
    }

    // Whether some head of word k has a move.
    fn can_move_in<G: Game>(&self, game: &G, k: u32) -> bool
        requires { k < 128 }
        ensures { result ≡ any 32 (λ j. coins self.now (32 * k + j) && nat_lt 0 ((G.Game.rules game.now).count (32 * k + j))) }
    {
        self.heads_in(k) && (32 * k..32 * k + 32).any(|c| self.heads(c) && game.count(c) > 0)
    }
}
