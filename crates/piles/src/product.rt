// A product: a board with a row for each cell of one game and a column for each cell of another.
ghost use Rattle.std.specs.Prelude.{◌≡◌, ◌<◌, ◌≤◌, MatchOption};
ghost use Rattle.nimber_field.specs.Nimber.{◌⊕◌, ◌⊗◌, inverse_of};
ghost use Rattle.piles.specs.Layers.{multiplies, partner, smallest_met, Nothing, Stands, TartanTheorem};
ghost use Rattle.piles.specs.Layers.{product as product_of};
ghost use Rattle.piles.specs.Laws.ProductLaws.{product_lawful, product_replies};

use games::rules::{MOST_CELLS, MOST_MOVES};
use games::{Cells, Game};

// The fields of a mixture, and another game: only the fields are the same.
#[derive(Clone, Copy, Debug, PartialEq, Eq, Drop)]
pub struct Product<A, B> {
    left: A,
    right: B,
}

// Where a cell of the product stands.
#[derive(Clone, Copy, Debug, PartialEq, Eq)]
struct Place {
    row: u32,
    column: u32,
}

impl<A: Game, B: Game> Product<A, B> {
    #[tactic(auto, using(crate::specs::Laws::ProductLaws::tartan_theorem))]
    pub fn new(left: A, right: B) -> Product<A, B>
        ensures game { product_of (A.Game.rules result.left) (B.Game.rules result.right) ≡ product_of (A.Game.rules left) (B.Game.rules right) }
        ensures tartan { TartanTheorem }
    {
        Product { left, right }
    }

    // Whether the cells and the moves are few enough for one game.
    fn fits(&self) -> bool
        ensures { result ≡ multiplies (A.Game.rules self.now.left) (B.Game.rules self.now.right) }
    {
        self.left.size() * self.right.size() <= MOST_CELLS
            && self.left.ceiling() as u64 * self.right.ceiling() as u64 <= MOST_MOVES as u64
    }

    // The row and the column of a cell on the board.
    fn place(&self, c: u32) -> Option<Place>
        ensures { MatchOption result (Nothing (product_of (A.Game.rules self.now.left) (B.Game.rules self.now.right)) c) (λ p. Stands (A.Game.rules self.now.left) (B.Game.rules self.now.right) c p.row p.column) }
    {
        let columns = self.right.size();
        if self.fits() && c < self.left.size() * columns {
            Some(Place {
                row: c / columns,
                column: c % columns,
            })
        } else {
            None
        }
    }
}

impl<A: Game, B: Game> Game for Product<A, B> {
    ghost rules = { λ p. product_of (A.Game.rules p.left) (B.Game.rules p.right) };

    ghost lawful = { λ p. product_lawful _ _ (A.Game.lawful p.left) (B.Game.lawful p.right) };

    ghost replies = { λ p.
        product_replies _ _ (A.Game.lawful p.left) (B.Game.lawful p.right) (A.Game.replies p.left)
        (B.Game.replies p.right) };

    // Size and ceiling each by itself: a function of both factors in place of two lines would be no shorter.
    fn size(&self) -> u32 {
        if self.fits() {
            self.left.size() * self.right.size()
        } else {
            0
        }
    }

    fn ceiling(&self) -> u32 {
        if self.fits() {
            self.left.ceiling() * self.right.ceiling()
        } else {
            0
        }
    }

    fn count(&self, c: u32) -> u32 {
        match self.place(c) {
            Some(p) => self.left.count(p.row) * self.right.count(p.column),
            None => 0,
        }
    }

    fn turns(&self, c: u32, i: u32, d: u32) -> bool {
        let Some(p) = self.place(c) else {
            return false;
        };
        let moves = self.right.count(p.column);
        if i >= self.left.count(p.row) * moves {
            return false;
        }
        let columns = self.right.size();
        self.left.turns(p.row, i / moves, d / columns)
            && self.right.turns(p.column, i % moves, d % columns)
    }

    // Begins as `turns` does: one function for both would give a place and three numbers, or none.
    fn turned(&self, c: u32, i: u32) -> Cells {
        let mut cells = Cells::new();
        let Some(p) = self.place(c) else {
            return cells;
        };
        let moves = self.right.count(p.column);
        if i >= self.left.count(p.row) * moves {
            return cells;
        }
        let rows = self.left.turned(p.row, i / moves);
        let row = self.right.turned(p.column, i % moves);
        let columns = self.right.size();
        // No row above the cell's is turned, and no column behind it.
        for r in 0..p.row + 1 {
            if rows.has(r) {
                cells.toggle_first(p.column / 32 + 1, &row, r * columns);
            }
        }
        cells
    }

    fn value(&self, c: u32) -> u32 {
        match self.place(c) {
            Some(p) => nimbers::product(self.left.value(p.row), self.right.value(p.column)),
            None => 0,
        }
    }

    #[tactic(auto, using(crate::specs::Laws::ProductLaws::reply_fits))]
    fn reply(&self, c: u32, w: u32) -> Option<u32> {
        let p = self.place(c)?;
        let met = met(self.left.value(p.row), self.right.value(p.column), w)?;
        let i = self.left.reply(p.row, met.left)?;
        let j = self.right.reply(p.column, met.right)?;
        Some(i * self.right.count(p.column) + j)
    }
}

// Numbers below a and b to which the parts have to come so that the product comes to w.
#[derive(Clone, Copy, Debug, PartialEq, Eq)]
struct Meeting {
    left: u32,
    right: u32,
}

// The pair with the smallest first number, where w is below the product of a and b.
fn met(a: u32, b: u32, w: u32) -> Option<Meeting>
    ensures { MatchOption result (a ⊗ b ≤ w) (λ m. (w < a ⊗ b) × (m.left ≡ smallest_met a b w) × (m.right ≡ partner a b w (smallest_met a b w))) }
{
    let v = nimbers::product(a, b);
    if w >= v {
        return None;
    }
    (0..a)
        .map(|left| Meeting {
            left,
            right: counterpart(a, b, v ^ w, left),
        })
        .find(|m| m.right < b)
}

// The number that b has to come to when a comes to left, for a product that is to change by gap; b itself where a stays.
fn counterpart(a: u32, b: u32, gap: u32, left: u32) -> u32
    ensures { result ≡ b ⊕ (gap ⊗ inverse_of (a ⊕ left)) }
{
    nimbers::inverse(a ^ left).map_or(b, |i| b ^ nimbers::product(gap, i))
}
