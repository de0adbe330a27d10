// Level 2, whose products and inverses stand in tables.
ghost use Rattle.std.specs.Prelude.{◌≡◌, ℕ, ◌<◌};
ghost use Rattle.nimber_field.specs.Nimber.{decode};
ghost use Rattle.std.proofs.Common.{lit≤};
ghost use Rattle.nimber_field.proofs.Numbers.{decode_zero};
ghost use Rattle.nimber_field.proofs.Halves.{decode_half};

use crate::level::Level;
use crate::table::{INVERSES, PRODUCTS};

// A number below 16.
#[derive(Clone, Copy, Debug, PartialEq, Eq)]
pub struct Nibble {
    value: u8,
    ghost below: { value < 16 },
}

impl Level for Nibble {
    ghost level = { 2 };

    ghost element = { λ n. decode 2 n.value };

    const ZERO: Nibble = Nibble { value: 0 };

    ghost ZERO = { record { value = 0; below = lit≤ tt } };

    const HALF: Nibble = Nibble { value: 8 };

    ghost HALF = { record { value = 8; below = lit≤ tt } };

    ghost zero_law = { decode_zero 2 };

    ghost half_law = { decode_half 2 };

    fn split(n: u32) -> (Nibble, u32) {
        let value = (n & 15) as u8;
        (Nibble { value }, n >> 4)
    }

    fn join(self, above: u32) -> u32 {
        (above << 4) | self.value as u32
    }

    fn sum(self, other: Nibble) -> Nibble {
        Nibble {
            value: self.value ^ other.value,
        }
    }

    fn product(self, other: Nibble) -> Nibble {
        Nibble {
            value: PRODUCTS[self.value as usize][other.value as usize],
        }
    }

    fn inverse(self) -> Nibble {
        Nibble {
            value: INVERSES[self.value as usize],
        }
    }
}
