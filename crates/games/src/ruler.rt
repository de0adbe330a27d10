// Ruler: a move turns a run of coins.
ghost use Rattle.std.specs.Prelude.{◌≡◌, ◌<◌, ◌≤◌};
ghost use Rattle.games.specs.Rows.{board, rest_by};
ghost use Rattle.games.specs.Ruler.{gray, mark, ruler, ruler_of, ruler_rule, PowerValues};
ghost use Rattle.games.specs.Rules.{LowestReplies};
ghost use Rattle.games.specs.Laws.RulerLaws.{ruler_keeps, ruler_low};

use crate::row::Row;
use crate::row_game::RowGame;
use crate::rule::Rule;

// The rule of Ruler.
#[derive(Clone, Copy, Debug, PartialEq, Eq)]
pub struct RulerRule;

// Ruler on a row.
pub type Ruler = RowGame<RulerRule>;

impl Ruler {
    // The game on a row of that width; no width above 64 has cells.
    pub fn new(width: u32) -> Ruler
        ensures game { ruler_of result ≡ ruler (board width) }
        ensures lowest { LowestReplies (ruler_of result) }
        ensures divides { PowerValues (ruler_of result) }
    {
        RowGame::of(RulerRule, width)
    }
}

// The largest power of two that divides c + 1; cells are plain numbers here too, as in `Rule`.
fn mark_at(c: u32) -> u32
    requires { c < 64 }
    ensures { result ≡ mark c }
{
    1 << (c + 1).trailing_zeros()
}

// The Gray code of n, to which the values of the cells below n add up.
fn gray_code(n: u32) -> u32
    ensures { result ≡ gray n }
{
    n ^ (n >> 1)
}

// The rest of move i at c.
fn rest_of(c: u32, i: u32) -> u32
    requires cell { c < 64 }
    requires numbered { i ≤ c }
    ensures { result ≡ rest_by ruler_rule c i }
{
    gray_code(c - i) ^ gray_code(c)
}

impl Rule for RulerRule {
    ghost rule = { λ _. ruler_rule };

    ghost low = { λ _. ruler_low };

    ghost keeps = { λ _. ruler_keeps };

    fn ceiling(&self, row: Row) -> u32 {
        row.size()
    }

    fn count(&self, c: u32) -> u32 {
        c + 1
    }

    fn turns(&self, c: u32, i: u32, d: u32) -> bool {
        (c - i..=c).contains(&d)
    }

    fn value(&self, c: u32) -> u32 {
        mark_at(c)
    }

    fn reply(&self, c: u32, w: u32) -> u32 {
        (0..c).find(|i| rest_of(c, *i) == w).unwrap_or(c)
    }
}
