// A game on one row of cells.
ghost use Rattle.std.specs.Prelude.{◌≡◌, nat_lt};
ghost use Rattle.games.specs.Rows.{board, row_game_of};
ghost use Rattle.games.specs.Rules.{LowestReplies};
ghost use Rattle.games.specs.Laws.RowLaws.{lowest_replies, row_lawful, row_lowest};
ghost use Rattle.std.proofs.Common.{le_trans, lit≤};

use crate::cells::Cells;
use crate::row::Row;
use crate::rule::Rule;
use crate::rules::Game;

// The game by a rule on a row.
#[derive(Clone, Copy, Debug, PartialEq, Eq)]
pub struct RowGame<R> {
    row: Row,
    rule: R,
}

impl<R: Rule> RowGame<R> {
    // The game on a row of that width; no width above 64 has cells. Each game has a `new` of its own, whose clauses say what it is.
    pub(crate) fn of(rule: R, width: u32) -> RowGame<R>
        ensures size { result.row.size ≡ board width }
        ensures rule { result.rule ≡ rule }
        ensures lowest { LowestReplies (row_game_of (R.Rule.rule result.rule) result.row.size) }
    {
        RowGame {
            row: Row::new(width),
            rule,
        }
    }

    // Whether there is a move i at c.
    fn is_move(&self, c: u32, i: u32) -> bool
        ensures { result ≡ nat_lt i ((row_game_of (R.Rule.rule self.now.rule) self.now.row.size).count c) }
    {
        i < self.count(c)
    }
}

impl<R: Rule> Game for RowGame<R> {
    ghost rules = { λ g. row_game_of (R.Rule.rule g.rule) g.row.size };

    ghost lawful = { λ g. row_lawful (R.Rule.rule g.rule) g.row.size (R.Rule.keeps g.rule g.row.size g.row.few) (le_trans g.row.few (lit≤ tt)) (R.Rule.low g.rule g.row.size g.row.few) };

    ghost replies = { λ g. lowest_replies (row_game_of (R.Rule.rule g.rule) g.row.size) (row_lowest (R.Rule.rule g.rule) g.row.size (R.Rule.keeps g.rule g.row.size g.row.few)) };

    fn size(&self) -> u32 {
        self.row.size()
    }

    fn ceiling(&self) -> u32 {
        self.rule.ceiling(self.row)
    }

    // Count and value each by itself: one function would take a closure that the rule allows at cells of the row alone.
    fn count(&self, c: u32) -> u32 {
        if self.row.has(c) {
            self.rule.count(c)
        } else {
            0
        }
    }

    fn turns(&self, c: u32, i: u32, d: u32) -> bool {
        self.is_move(c, i) && self.rule.turns(c, i, d)
    }

    fn turned(&self, c: u32, i: u32) -> Cells {
        if self.is_move(c, i) {
            self.rule.turned(c, i)
        } else {
            Cells::new()
        }
    }

    fn value(&self, c: u32) -> u32 {
        if self.row.has(c) {
            self.rule.value(c)
        } else {
            0
        }
    }

    fn reply(&self, c: u32, w: u32) -> Option<u32> {
        (w < self.value(c)).then(|| self.rule.reply(c, w))
    }
}
