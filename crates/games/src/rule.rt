// What the games on a row of cells differ in.
ghost use Rattle.std.specs.Prelude.{◌≡◌, ℕ, ◌+◌, ◌<◌, ◌≤◌};
ghost use Rattle.games.specs.Cells.{held, held_below};
ghost use Rattle.games.specs.Rows.{LowestMove, RowLaws, RowRule};

use crate::cells::Cells;
use crate::row::Row;

// A rule, by what it gives at each cell of a row. Cells are plain numbers, as in the formulas of the games: `c + 1`, and not `c.number + 1`.
pub trait Rule {
    // What the rule is: its ceilings, counts, moves and values.
    ghost rule: { Self → RowRule };

    // No cell of the row has more moves than this.
    fn ceiling(&self, row: Row) -> u32
        ensures { result ≡ (rule self.now).ceiling row.size };

    // How many moves there are at c.
    fn count(&self, c: u32) -> u32
        requires { c < 64 }
        ensures { result ≡ (rule self.now).count c };

    // Whether move i at c turns the coin on d.
    fn turns(&self, c: u32, i: u32, d: u32) -> bool
        requires cell { c < 64 }
        requires numbered { i < (rule self.now).count c }
        ensures { result ≡ (rule self.now).turns c i d };

    // The cells that move i at c turns. A rule may find them more quickly than one by one.
    fn turned(&self, c: u32, i: u32) -> Cells
        requires cell { c < 64 }
        requires numbered { i < (rule self.now).count c }
        ensures { held result ≡ held_below (c + 1) ((rule self.now).turns c i) }
    {
        let mut cells = Cells::new();
        for d in 0..c + 1 {
            if self.turns(c, i, d) {
                cells.toggle(d);
            }
        }
        cells
    }

    // The value of a head on c.
    fn value(&self, c: u32) -> u32
        requires { c < 64 }
        ensures { result ≡ (rule self.now).value c };

    // The lowest move at c whose rest is w.
    fn reply(&self, c: u32, w: u32) -> u32
        requires cell { c < 64 }
        requires below { w < (rule self.now).value c }
        ensures { LowestMove (rule self.now) c w result };

    // Its ceilings are as low as a game's may be.
    ghost low: { (r : Self) (size : ℕ) → size ≤ 64 → (rule r).ceiling size ≤ 4194303 };

    // At the cells of a row it keeps what makes a game, and its values are the smallest missing rests.
    ghost keeps: { (r : Self) (size : ℕ) → size ≤ 64 → RowLaws (rule r) size };
}
