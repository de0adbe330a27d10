// Nimbers of 32 bits: nim sum, nim product and inverse.
#![tactic(auto)]

ghost use Rattle.std.specs.Prelude.{◌≡◌, ◌^◌, ◌<◌, ◌≤◌, ◌≢◌, MatchOption};
ghost use Rattle.nimber_field.specs.Missing.{Missing};
ghost use Rattle.nimber_field.specs.Nimber.{order, inverse_of, Excluded, ◌⊕◌, ◌⊗◌};

mod level;
mod nibble;
mod table;
mod twice;

use level::Level;
use nibble::Nibble;
use twice::Twice;

// Elements that stand for numbers of 8, 16 and 32 bits.
type Byte = Twice<Nibble>;

type Short = Twice<Byte>;

type Nimber = Twice<Short>;

// The exclusive or of two numbers.
pub fn sum(a: u32, b: u32) -> u32
    ensures { result ≡ a ⊕ b }
{
    a ^ b
}

// Conway's product of two numbers, worked out at the lowest level that has both.
#[tactic(auto, using(crate::proofs::Sizes::product))]
pub fn product(a: u32, b: u32) -> u32
    ensures value { result ≡ a ⊗ b }
    ensures smallest { Missing (Excluded ◌⊗◌ a b) result }
{
    match a | b {
        0..16 => product_in::<Nibble>(a, b),
        16..256 => product_in::<Byte>(a, b),
        256..65_536 => product_in::<Short>(a, b),
        65_536.. => product_in::<Nimber>(a, b),
    }
}

// The product of two numbers below the order of a level.
fn product_in<L: Level>(a: u32, b: u32) -> u32
    requires level { L.level ≤ 5 }
    requires a { a < order L.level }
    requires b { b < order L.level }
    ensures { result ≡ a ⊗ b }
{
    let (a, _) = L::split(a);
    let (b, _) = L::split(b);
    a.product(b).join(0)
}

// The number whose product with a is 1, worked out at the lowest level that has a; zero has none.
#[tactic(auto, using(crate::proofs::Sizes::times_inverse))]
pub fn inverse(a: u32) -> Option<u32>
    ensures { MatchOption result (a ≡ 0) (λ i. (a ≢ 0) × (a ⊗ i ≡ 1) × (i ≡ inverse_of a)) }
{
    if a == 0 {
        return None;
    }
    Some(match a {
        0..16 => inverse_in::<Nibble>(a),
        16..256 => inverse_in::<Byte>(a),
        256..65_536 => inverse_in::<Short>(a),
        65_536.. => inverse_in::<Nimber>(a),
    })
}

// The inverse of a number below the order of a level.
fn inverse_in<L: Level>(a: u32) -> u32
    requires level { L.level ≤ 5 }
    requires a { a < order L.level }
    requires not_zero { a ≢ 0 }
    ensures { result ≡ inverse_of a }
{
    let (element, _) = L::split(a);
    element.inverse().join(0)
}

#[cfg(test)]
mod tests {
    use super::*;

    #[test]
    fn products_of_the_books(rt: HostRuntime) {
        assert_eq!(rt; product(2, 2), 3);
        assert_eq!(rt; product(15, 15), 9);
        assert_eq!(rt; product(16, 15), 240);
        assert_eq!(rt; product(256, 256), 384);
        assert_eq!(rt; product(65536, 65536), 98304);
        assert_eq!(rt; product(0, u32::MAX), 0);
    }

    #[test]
    fn inverses_of_the_books(rt: HostRuntime) {
        assert_eq!(rt; inverse(0), None);
        assert_eq!(rt; inverse(1), Some(1));
        assert_eq!(rt; inverse(4), Some(15));
        assert_eq!(rt; inverse(16), Some(170));
        assert_eq!(rt; inverse(256), Some(61166));
        assert_eq!(rt; inverse(65536), Some(2240120197));
    }
}
