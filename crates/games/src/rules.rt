// A game is anything that takes six questions and keeps the laws.
ghost use Rattle.std.specs.Prelude.{◌≡◌};
ghost use Rattle.games.specs.Cells.{held};
ghost use Rattle.games.specs.Rules.{Rules, Lawful, Replies};

use crate::cells::Cells;

// The most cells that a game may have.
pub const MOST_CELLS: u32 = 4096;

// The highest ceiling that a game may have.
pub const MOST_MOVES: u32 = 4_194_303;

pub trait Game {
    // What the game is: its cells, ceiling, counts, moves, values and replies.
    ghost rules: { Self → Rules };

    // How many cells there are: they are numbered from 0.
    fn size(&self) -> u32
        ensures { result ≡ (rules self.now).cells };

    // No cell has more moves than this.
    fn ceiling(&self) -> u32
        ensures { result ≡ (rules self.now).ceiling };

    // How many moves there are at c: they are numbered from 0.
    fn count(&self, c: u32) -> u32
        ensures { result ≡ (rules self.now).count c };

    // Whether move i at c turns the coin on d.
    fn turns(&self, c: u32, i: u32, d: u32) -> bool
        ensures { result ≡ (rules self.now).holds c i d };

    // The cells that move i at c turns; none where there is no such move. A game may find them more quickly than one by one.
    fn turned(&self, c: u32, i: u32) -> Cells
        ensures { held result ≡ (rules self.now).holds c i }
    {
        let mut cells = Cells::new();
        for d in 0..c.saturating_add(1).min(self.size()) {
            if self.turns(c, i, d) {
                cells.toggle(d);
            }
        }
        cells
    }

    // The value of a head on c.
    fn value(&self, c: u32) -> u32
        ensures { result ≡ (rules self.now).worth c };

    // A move at c whose rest is w, where w is below the value of c.
    fn reply(&self, c: u32, w: u32) -> Option<u32>
        ensures { result ≡ (rules self.now).answer c w };

    // It is a game, and its values are the smallest missing rests.
    ghost lawful: { (g : Self) → Lawful (rules g) };

    // Its replies are moves with the rest that was asked for.
    ghost replies: { (g : Self) → Replies (rules g) };
}
