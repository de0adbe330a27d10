// A level of the tower of fields: its elements, and how they are computed with.
ghost use Rattle.std.specs.Prelude.{◌≡◌, ℕ, ◌+◌, ◌*◌, ◌/◌, ◌%◌, ◌^◌};
ghost use Rattle.nimber_field.specs.Tower.{Tower, ops};
ghost use Rattle.nimber_field.specs.Nimber.{order, code, decode};

// A type of elements, each standing for one number of 2 ^ level bits.
pub trait Level: Copy {
    ghost level: { ℕ };

    ghost element: { Self → Tower level };

    // The element of 0.
    const ZERO: Self;

    ghost ZERO: { Self };

    // The element of half the order, by which a product of high halves is folded.
    const HALF: Self;

    ghost HALF: { Self };

    // The element that the lowest bits of n are written for, and the bits above them.
    fn split(n: u32) -> (Self, u32)
        ensures lowest { element result.0 ≡ decode level n }
        ensures above { result.1 ≡ n / order level };

    // The number that an element is written as, below the bits of another number.
    fn join(self, above: u32) -> u32
        ensures { result ≡ (above * order level + code level (element self)) % 2 ^ 32 };

    fn sum(self, other: Self) -> Self
        ensures { element result ≡ (ops level).add (element self) (element other) };

    fn product(self, other: Self) -> Self
        ensures { element result ≡ (ops level).mul (element self) (element other) };

    // The inverse; of zero it is zero.
    fn inverse(self) -> Self
        ensures { element result ≡ (ops level).inv (element self) };

    ghost zero_law: { element ZERO ≡ (ops level).nil };

    ghost half_law: { element HALF ≡ (ops level).half };
}
