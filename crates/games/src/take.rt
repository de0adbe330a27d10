// Take: a move turns a coin and one that lies below it by an amount of a set.
ghost use Rattle.std.specs.Prelude.{◌≡◌, ℕ, ◌<◌};
ghost use Rattle.games.specs.TakeValues.{value_in, take_value};

use crate::row_game::RowGame;
use amounts::AmountSet;

mod amounts;
mod game;
mod values;

// The rule of Take: the amounts, and the values that they give.
#[derive(Clone, Copy, Debug, PartialEq, Eq)]
pub struct TakeRule {
    set: AmountSet,
    // A row of its own: a game has no heap. 64 as a number, here and in its values: the width of a row is a `u32`, and a length is not.
    values: [u32; 64],
    ghost right: { (c : ℕ) → c < 64 → value_in values c ≡ take_value set.bits c },
}

// Take on a row.
pub type Take = RowGame<TakeRule>;
