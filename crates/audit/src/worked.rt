// The worked sums, by the libraries' own answers.
use crate::tried::tried;
use games::{Game, Ruler, Take, Turtles, Twins};
use nimbers::{inverse, product};
use piles::Product;
use piles::worked::{WorkedSum, worked_sums};
use tallies::Section;

pub fn sums() -> Section {
    tried("worked sums", &worked_sums(), |sum| agrees(*sum))
}

fn agrees(sum: WorkedSum) -> bool {
    match sum {
        WorkedSum::Product { a, b, is } => product(a, b) == is,
        WorkedSum::Inverse { a, is } => inverse(a) == Some(is),
        WorkedSum::Turtles { c, is } => Turtles::new(64).value(c) == is,
        WorkedSum::Ruler { c, is } => Ruler::new(64).value(c) == is,
        WorkedSum::Take { set, c, is } => Take::new(64, set).value(c) == is,
        WorkedSum::TurningCorners { x, y, is } => square_value(Twins::new(64), x, y) == is,
        WorkedSum::Rugs { x, y, is } => square_value(Ruler::new(64), x, y) == is,
        WorkedSum::TurtlesSquared {
            width,
            cells,
            ceiling,
        } => {
            let square = Product::new(Turtles::new(width), Turtles::new(width));
            square.size() == cells && square.ceiling() == ceiling
        }
    }
}

// The value at x and y of a game multiplied with itself.
fn square_value<G: Game + Copy>(game: G, x: u32, y: u32) -> u32 {
    let cell = x.wrapping_mul(game.size()).wrapping_add(y);
    Product::new(game, game).value(cell)
}
