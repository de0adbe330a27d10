// Turtles: a move turns one, two or three coins.
ghost use Rattle.std.specs.Prelude.{◌≡◌, ◌+◌, ◌<◌, ◌≤◌};
ghost use Rattle.games.specs.Rows.{board};
ghost use Rattle.games.specs.Rules.{LowestReplies};
ghost use Rattle.games.specs.Turtles.{besides, in_pair, is_odious, larger, pairs, turtles, turtles_of, turtles_rule, TopPower, TurnsThree};
ghost use Rattle.games.specs.Laws.TurtlesLaws.{turtles_keeps, turtles_low};

use crate::cells::Cells;
use crate::row::Row;
use crate::row_game::RowGame;
use crate::rule::Rule;

// The rule of Turtles.
#[derive(Clone, Copy, Debug, PartialEq, Eq)]
pub struct TurtlesRule;

// Turtles on a row.
pub type Turtles = RowGame<TurtlesRule>;

impl Turtles {
    // The game on a row of that width; no width above 64 has cells.
    pub fn new(width: u32) -> Turtles
        ensures game { turtles_of result ≡ turtles (board width) }
        ensures lowest { LowestReplies (turtles_of result) }
        ensures triples { TurnsThree (turtles_of result) }
    {
        RowGame::of(TurtlesRule, width)
    }
}

impl Rule for TurtlesRule {
    ghost rule = { λ _. turtles_rule };

    ghost low = { λ _. turtles_low };

    ghost keeps = { λ _. turtles_keeps };

    // The last cell has the most moves.
    fn ceiling(&self, row: Row) -> u32 {
        row.size().checked_sub(1).map_or(0, |last| self.count(last))
    }

    fn count(&self, c: u32) -> u32 {
        1 + c + pairs_below(c)
    }

    fn turns(&self, c: u32, i: u32, d: u32) -> bool {
        d == c || turns_besides(c, i, d)
    }

    fn turned(&self, c: u32, i: u32) -> Cells {
        let mut cells = Cells::new();
        cells.toggle(c);
        if i > c {
            let n = i - c - 1;
            let b = larger_of(n);
            cells.toggle(b);
            cells.toggle(n - pairs_below(b));
        } else if i > 0 {
            cells.toggle(i - 1);
        }
        cells
    }

    fn value(&self, c: u32) -> u32 {
        if has_odd_ones(2 * c) {
            2 * c
        } else {
            2 * c + 1
        }
    }

    fn reply(&self, c: u32, w: u32) -> u32 {
        if w == 0 {
            0
        } else if has_odd_ones(w) {
            w / 2 + 1
        } else {
            // The values of a and b add up to w, and that of b is the highest power of two in w.
            let b = top_power(w / 2);
            let a = w / 2 - b;
            c + 1 + pairs_below(b) + a
        }
    }
}

// How many pairs of numbers lie below n.
fn pairs_below(n: u32) -> u32
    requires { n ≤ 64 }
    ensures value { result ≡ pairs n }
    ensures few { result ≤ pairs 64 }
{
    n * n.saturating_sub(1) / 2
}

// The larger number of pair n; pairs are listed by the larger and then by the smaller. 63 is the last cell of the widest row: it is the answer where no smaller number is.
fn larger_of(n: u32) -> u32
    requires { n < pairs 64 }
    ensures value { result ≡ larger n }
    ensures below { result < 64 }
    ensures starts { pairs result ≤ n }
{
    (1..63).find(|b| n < pairs_below(b + 1)).unwrap_or(63)
}

// Whether d is one of the two numbers of pair n.
fn is_in_pair(n: u32, d: u32) -> bool
    requires { n < pairs 64 }
    ensures { result ≡ in_pair n d }
{
    let b = larger_of(n);
    d == b || d == n - pairs_below(b)
}

// Whether move i at c turns d besides c.
fn turns_besides(c: u32, i: u32, d: u32) -> bool
    requires { i ≤ c + pairs 64 }
    ensures { result ≡ besides c i d }
{
    if i == 0 {
        false
    } else if i <= c {
        d == i - 1
    } else {
        is_in_pair(i - c - 1, d)
    }
}

// Whether n has an odd number of ones in binary.
fn has_odd_ones(n: u32) -> bool
    ensures { result ≡ is_odious n }
{
    n.count_ones() % 2 == 1
}

// The highest power of two up to n.
fn top_power(n: u32) -> u32
    requires { 0 < n }
    ensures { TopPower n result }
{
    1 << n.ilog2()
}
