// Twins: a move turns two coins.
ghost use Rattle.std.specs.Prelude.{◌≡◌};
ghost use Rattle.games.specs.Rows.{board};
ghost use Rattle.games.specs.Rules.{LowestReplies};
ghost use Rattle.games.specs.Twins.{twins, twins_of, twins_rule};
ghost use Rattle.games.specs.Laws.TwinsLaws.{twins_keeps, twins_low};

use crate::row::Row;
use crate::row_game::RowGame;
use crate::rule::Rule;

// The rule of Twins.
#[derive(Clone, Copy, Debug, PartialEq, Eq)]
pub struct TwinsRule;

// Twins on a row.
pub type Twins = RowGame<TwinsRule>;

impl Twins {
    // The game on a row of that width; no width above 64 has cells.
    pub fn new(width: u32) -> Twins
        ensures game { twins_of result ≡ twins (board width) }
        ensures lowest { LowestReplies (twins_of result) }
    {
        RowGame::of(TwinsRule, width)
    }
}

impl Rule for TwinsRule {
    ghost rule = { λ _. twins_rule };

    ghost low = { λ _. twins_low };

    ghost keeps = { λ _. twins_keeps };

    fn ceiling(&self, row: Row) -> u32 {
        row.size().saturating_sub(1)
    }

    fn count(&self, c: u32) -> u32 {
        c
    }

    fn turns(&self, c: u32, i: u32, d: u32) -> bool {
        d == c || d == i
    }

    fn value(&self, c: u32) -> u32 {
        c
    }

    fn reply(&self, _c: u32, w: u32) -> u32 {
        w
    }
}
