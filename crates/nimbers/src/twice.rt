// The level above another: its elements are pairs of halves.
ghost use Rattle.std.specs.Prelude.{◌≡◌, ℕ, suc};
ghost use Rattle.nimber_field.specs.Tower.{Tower, ops, norm};
ghost use Rattle.nimbers.specs.Laws.{half_above, zero_above};

use crate::level::Level;

// The element high F + low, where F is the first element that the halves lack.
#[derive(Clone, Copy, Debug, PartialEq, Eq)]
pub struct Twice<H> {
    high: H,
    low: H,
}

impl<H: Level> Twice<H> {
    // The product of an element with its conjugate, an element of the level of its halves.
    fn norm(self) -> H
        ensures { H.element result ≡ norm (Tower H.level) (ops H.level) (H.element self.high) (H.element self.low) }
    {
        let middle = self.low.product(self.high);
        let folded = self.high.product(self.high).product(H::HALF);
        self.low.product(self.low).sum(middle.sum(folded))
    }
}

#[tactic(auto, unfolding(nimber_field::specs::Tower::ops))]
impl<H: Level> Level for Twice<H> {
    ghost level = { suc H.level };

    ghost element = { λ x. (H.element x.high, H.element x.low) };

    const ZERO: Twice<H> = Twice {
        high: H::ZERO,
        low: H::ZERO,
    };

    ghost ZERO = { record { high = H.ZERO; low = H.ZERO } };

    const HALF: Twice<H> = Twice {
        high: H::HALF,
        low: H::ZERO,
    };

    ghost HALF = { record { high = H.HALF; low = H.ZERO } };

    ghost zero_law = { zero_above H.level _ H.zero_law };

    ghost half_law = { half_above H.level _ _ H.half_law H.zero_law };

    fn split(n: u32) -> (Twice<H>, u32) {
        let (low, above) = H::split(n);
        let (high, above) = H::split(above);
        (Twice { high, low }, above)
    }

    fn join(self, above: u32) -> u32 {
        self.low.join(self.high.join(above))
    }

    fn sum(self, other: Twice<H>) -> Twice<H> {
        Twice {
            high: self.high.sum(other.high),
            low: self.low.sum(other.low),
        }
    }

    fn product(self, other: Twice<H>) -> Twice<H> {
        let low = self.low.product(other.low);
        let high = self.high.product(other.high);
        let cross = self.high.sum(self.low).product(other.high.sum(other.low));
        let folded = high.product(H::HALF);
        Twice {
            high: cross.sum(low),
            low: low.sum(folded),
        }
    }

    fn inverse(self) -> Twice<H> {
        let n = self.norm().inverse();
        Twice {
            high: self.high.product(n),
            low: self.low.sum(self.high).product(n),
        }
    }
}
