// Piles of the largest sizes: past 4096 cells, or a ceiling of 4,194,303 moves, a pile has no cells.
ghost use Rattle.std.specs.Prelude.{◌≡◌, true};

use crate::trial::is_off_board;
use games::{Game, Ruler, Take, Turtles, Twins};
use piles::{Mix, Product};
use tallies::{Section, Tally};

// The most cells of a board. The audit's own, as the next are, since this is what is tried.
pub(crate) const MOST_CELLS: u32 = 4096;

// The widest row that has cells.
const WIDEST: u32 = 64;

// The most moves at a cell of the product of two such rows of Twins.
const CORNER_MOVES: u32 = 63 * 63;

// The most moves at a cell of the product of two such rows of Turtles.
const TRIPLE_MOVES: u32 = 2017 * 2017;

pub fn cells() -> Section {
    let mut tally = Tally::new();
    let corners = Product::new(Twins::new(WIDEST), Twins::new(WIDEST));
    tally.count(is_full(&corners, CORNER_MOVES));
    tally.count(is_full(&Mix::new(corners, Twins::new(0)), CORNER_MOVES));
    tally.count(is_full(&Product::new(Ruler::new(1), corners), CORNER_MOVES));
    tally.count(is_void(&Mix::new(corners, Twins::new(1))));
    tally.count(is_void(&Product::new(corners, Twins::new(2))));
    Section {
        title: "piles at the limit of cells",
        tally,
    }
}

pub fn moves() -> Section {
    let mut tally = Tally::new();
    let triples = Product::new(Turtles::new(WIDEST), Turtles::new(WIDEST));
    tally.count(is_full(&triples, TRIPLE_MOVES));
    tally.count(is_full(&Product::new(triples, Take::new(1, 1)), TRIPLE_MOVES));
    tally.count(is_void(&Product::new(triples, Take::new(1, 3))));
    let take = Take::new(1, u32::MAX);
    let takes = Product::new(Product::new(take, take), Product::new(take, take));
    tally.count(takes.ceiling() == 1 << 20);
    tally.count(Product::new(takes, Take::new(1, 7)).ceiling() == 3 << 20);
    tally.count(is_void(&Product::new(takes, Take::new(1, 15))));
    Section {
        title: "piles at the limit of moves",
        tally,
    }
}

// The value of a cell of Twins by Twins is the product of its row and its column.
pub fn corners(rows: &[[u8; 256]]) -> Section {
    let mut tally = Tally::new();
    let corners = Product::new(Twins::new(WIDEST), Twins::new(WIDEST));
    // A loop: counted as `Tally` says.
    for (a, row) in (0..WIDEST).zip(rows) {
        for (b, p) in (0..WIDEST).zip(row) {
            let c = a.wrapping_mul(WIDEST).wrapping_add(b);
            tally.count(corners.value(c) == u32::from(*p));
        }
    }
    Section {
        title: "values of 64 by 64 corners by the smallest-missing rule",
        tally,
    }
}

// Whether all cells that a pile may have are there.
fn is_full<G: Game>(game: &G, ceiling: u32) -> bool
    ensures size { result ≡ true → (G.Game.rules game.now).cells ≡ 4096 }
    ensures ceiling { result ≡ true → (G.Game.rules game.now).ceiling ≡ ceiling }
{
    game.size() == MOST_CELLS && game.ceiling() == ceiling && is_off_board(game, MOST_CELLS)
}

fn is_void<G: Game>(game: &G) -> bool
    ensures size { result ≡ true → (G.Game.rules game.now).cells ≡ 0 }
    ensures ceiling { result ≡ true → (G.Game.rules game.now).ceiling ≡ 0 }
{
    game.size() == 0
        && game.ceiling() == 0
        && is_off_board(game, 0)
        && is_off_board(game, MOST_CELLS - 1)
}
