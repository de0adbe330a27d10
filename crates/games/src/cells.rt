// A set of cells.
ghost use Rattle.std.specs.Prelude.{◌≡◌, ◌+◌, ◌*◌, ◌<◌, ◌/◌, ◌&&◌, ◌==◌, ◌%◌, ◌≤◌, nat_lt};
ghost use Rattle.games.specs.Cells.{held, held_below, in_one, marked_from, marks, no_cells, only, raised};
ghost use Rattle.games.specs.Rules.{sum_held};
ghost use Rattle.games.specs.TakeValues.{any};

use crate::rules::{Game, MOST_CELLS};

// Cell c is bit c % 32 of word c / 32. Bits and no list: a game has no heap, and words without cells are passed over. 128 as a number: words are counted by `u32`,
// and a length is not.
#[derive(Clone, Copy, Debug, Default, PartialEq, Eq)]
pub struct Cells {
    words: [u32; 128],
}

impl Cells {
    // The set that holds no cell.
    pub fn new() -> Cells
        ensures { held result ≡ no_cells }
    {
        Cells::default()
    }

    // Whether the set holds c.
    pub fn has(&self, c: u32) -> bool
        ensures { result ≡ held self.now c }
    {
        c < MOST_CELLS && (self.words[(c / 32) as usize] >> (c % 32)) & 1 == 1
    }

    // Whether the set holds a cell of word k.
    pub fn marks_in(&self, k: u32) -> bool
        ensures { result ≡ any 32 (λ j. held self.now (32 * k + j)) }
    {
        k < 128 && self.words[k as usize] != 0
    }

    // Puts c in, or takes it out; past the last cell there is none.
    pub fn toggle(&mut self, c: u32)
        ensures { held self.new ≡ in_one (held self.old) (only c) }
    {
        self.toggle_word(c / 32, 1 << (c % 32));
    }

    // Toggles the cells of another set.
    pub fn toggle_all(&mut self, other: &Cells)
        ensures { held self.new ≡ in_one (held self.old) (held other.now) }
    {
        for k in 0..128u32 {
            self.toggle_word(k, other.words[k as usize]);
        }
    }

    // Toggles the cells of another set, each raised by n.
    pub fn toggle_raised(&mut self, other: &Cells, n: u32)
        ensures { held self.new ≡ in_one (held self.old) (raised n (held other.now)) }
    {
        self.toggle_first(128, other, n);
    }

    // Toggles the cells that another set has in its first words, each raised by n: a set that has none behind them costs no more steps than it has words.
    pub fn toggle_first(&mut self, words: u32, other: &Cells, n: u32)
        ensures { held self.new ≡ in_one (held self.old) (raised n (held_below (32 * words) (held other.now))) }
    {
        if n < MOST_CELLS {
            // No cell of a word behind these is raised to one that a set may hold.
            for (k, word) in (0..words.min(128 - n / 32)).zip(&other.words) {
                if *word != 0 {
                    self.toggle_marked(32 * k + n, *word);
                }
            }
        }
    }

    // Toggles the cells from n on that the bits of a word mark.
    fn toggle_marked(&mut self, n: u32, word: u32)
        requires { n < 8192 }
        ensures { held self.new ≡ in_one (held self.old) (marked_from n word) }
    {
        self.toggle_word(n / 32, word << (n % 32));
        self.toggle_word(n / 32 + 1, (u64::from(word) << (n % 32) >> 32) as u32);
    }

    // Toggles the cells of word k that the bits of another mark.
    fn toggle_word(&mut self, k: u32, word: u32)
        ensures { held self.new ≡ in_one (held self.old) (λ d. nat_lt k 128 && ((d / 32) == k && marks word (d % 32))) }
    {
        if k < 128 {
            self.words[k as usize] ^= word;
        }
    }

    // The nim sum of the values of the cells.
    pub fn sum<G: Game>(&self, game: &G) -> u32
        ensures { result ≡ sum_held (G.Game.rules game.now).cells (held self.now) (G.Game.rules game.now).worth }
    {
        (0..words_of(game))
            .filter(|k| self.words[*k as usize] != 0)
            .map(|k| self.sum_of_word(game, k))
            .fold(0, |sum, value| sum ^ value)
    }

    // The nim sum of the values of the cells of word k.
    fn sum_of_word<G: Game>(&self, game: &G, k: u32) -> u32
        requires { k < 128 }
        ensures { result ≡ sum_held 32 (λ j. held self.now (32 * k + j)) (λ j. (G.Game.rules game.now).worth (32 * k + j)) }
    {
        let word = self.words[k as usize];
        (32 * k..32 * k + 32)
            .filter(|c| (word >> (*c % 32)) & 1 == 1)
            .map(|c| game.value(c))
            .fold(0, |sum, value| sum ^ value)
    }
}

// How many words the cells of a game take.
pub fn words_of<G: Game>(game: &G) -> u32
    ensures all { (G.Game.rules game.now).cells ≤ 32 * result }
    ensures least { 32 * result < (G.Game.rules game.now).cells + 32 }
    ensures few { result ≤ 128 }
{
    game.size().div_ceil(32)
}
