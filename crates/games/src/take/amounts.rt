// The amounts by which a move of Take leads down.
ghost use Rattle.std.specs.Prelude.{◌≡◌, ◌^◌, ◌<◌, count_ones};
ghost use Rattle.games.specs.TakeValues.{amount, amounts_up_to, smaller};

// Bit j stands for the amount j + 1.
#[derive(Clone, Copy, Debug, PartialEq, Eq)]
pub(super) struct AmountSet {
    bits: u32,
    ghost fits: { bits < 2 ^ 32 },
}

impl AmountSet {
    pub(super) fn from_bits(bits: u32) -> AmountSet
        ensures { result.bits ≡ bits }
    {
        AmountSet { bits }
    }

    // How many amounts there are.
    pub(super) fn len(self) -> u32
        ensures { result ≡ count_ones self.bits }
    {
        self.bits.count_ones()
    }

    // Whether s is one of the amounts.
    pub(super) fn contains(self, s: u32) -> bool
        ensures { result ≡ amount self.bits s }
    {
        (1..=u32::BITS).contains(&s) && (self.bits >> (s - 1)) & 1 == 1
    }

    // How many amounts are at most n.
    pub(super) fn up_to(self, n: u32) -> u32
        ensures { result ≡ amounts_up_to self.bits n }
    {
        if n < u32::BITS {
            (self.bits & ((1 << n) - 1)).count_ones()
        } else {
            self.len()
        }
    }

    // How many amounts are smaller than s.
    pub(super) fn smaller_than(self, s: u32) -> u32
        ensures { result ≡ smaller self.bits s }
    {
        self.up_to(s.saturating_sub(1))
    }
}
