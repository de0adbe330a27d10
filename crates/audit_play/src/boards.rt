// The games that are tried. Piles by their numbers: a variant of a product takes three calls where a number takes one.
use games::{Ruler, Take, Twins};
use piles::{Mix, Pile, Product};

// At most twelve cells: every position of these is searched.
pub fn small() -> [Option<Pile>; 10] {
    [
        Pile::new(1, 3, 4, 0),
        Pile::new(1, 4, 3, 0),
        Pile::new(2, 3, 4, 0),
        Pile::new(3, 4, 3, 0),
        Pile::new(3, 5, 2, 0),
        Pile::new(4, 3, 4, 0b101),
        Pile::new(5, 2, 2, 0),
        Pile::new(5, 3, 1, 0),
        Pile::new(6, 2, 1, 0),
        Pile::new(6, 1, 2, 0),
    ]
}

// At most nine cells: from these every game is played to its end.
pub fn tiny() -> [Option<Pile>; 6] {
    [
        Pile::new(1, 3, 3, 0),
        Pile::new(2, 3, 2, 0),
        Pile::new(3, 3, 2, 0),
        Pile::new(4, 2, 4, 0b11),
        Pile::new(5, 2, 2, 0),
        Pile::new(6, 1, 1, 0),
    ]
}

// Boards for runs of calls, some with coins past the first words; the last has no cells.
pub fn large() -> [Option<Pile>; 8] {
    [
        Pile::new(1, 8, 8, 0),
        Pile::new(2, 5, 13, 0),
        Pile::new(3, 6, 6, 0),
        Pile::new(3, 4, 3, 0),
        Pile::new(4, 7, 10, 0b1_0110),
        Pile::new(5, 6, 6, 0),
        Pile::new(6, 5, 4, 0),
        Pile::new(3, 64, 65, 0),
    ]
}

// A pile with no number: a mixture by a product.
pub type Nested = Product<Mix<Twins, Ruler>, Product<Twins, Take>>;

pub fn nested(columns: u32) -> Nested {
    let rows = Mix::new(Twins::new(2), Ruler::new(1));
    Product::new(rows, Product::new(Twins::new(2), Take::new(columns, 0b11)))
}
