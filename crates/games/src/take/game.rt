// Take as a game.
ghost use Rattle.std.specs.Prelude.{◌≡◌};
ghost use Rattle.games.specs.Rows.{board};
ghost use Rattle.games.specs.Rules.{LowestReplies};
ghost use Rattle.games.specs.Take.{take_game, take_of, take_rule, ByAmounts};
ghost use Rattle.games.specs.Laws.TakeLaws.{take_keeps, take_low};

use super::amounts::AmountSet;
use super::{Take, TakeRule};
use crate::row::Row;
use crate::row_game::RowGame;
use crate::rule::Rule;

impl Take {
    // The game with the amounts of the set on a row of that width; no width above 64 has cells.
    pub fn new(width: u32, set: u32) -> Take
        ensures game { take_of result ≡ take_game (board width) set }
        ensures lowest { LowestReplies (take_of result) }
        ensures amounts { ByAmounts (board width) set (take_of result) }
    {
        let set = AmountSet::from_bits(set);
        let values = set.values();
        RowGame::of(TakeRule { set, values }, width)
    }
}

impl Rule for TakeRule {
    ghost rule = { λ r. take_rule r.set.bits };

    ghost low = { λ r. take_low r.set.bits r.set.fits };

    ghost keeps = { λ r. take_keeps r.set.bits };

    fn ceiling(&self, row: Row) -> u32 {
        if row.has(0) { self.set.len() } else { 0 }
    }

    fn count(&self, c: u32) -> u32 {
        self.set.up_to(c)
    }

    fn turns(&self, c: u32, i: u32, d: u32) -> bool {
        let s = c.saturating_sub(d);
        d == c || (self.set.contains(s) && self.set.smaller_than(s) == i)
    }

    fn value(&self, c: u32) -> u32 {
        self.values[c as usize]
    }

    fn reply(&self, c: u32, w: u32) -> u32 {
        let s = self.set.smallest_leading(&self.values, c, w).unwrap();
        self.set.smaller_than(s)
    }
}
