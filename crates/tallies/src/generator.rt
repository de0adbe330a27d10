// Numbers that look random, and are the same in each run.
ghost use Rattle.std.specs.Prelude.{◌≡◌};
ghost use Rattle.tallies.specs.Xorshift.{xorshift};

// Marsaglia's xorshift of 32 bits.
#[derive(Debug, PartialEq, Eq, Drop)]
pub struct Generator {
    state: u32,
}

impl Generator {
    pub fn new(seed: u32) -> Generator
        ensures { result.state ≡ seed }
    {
        Generator { state: seed }
    }

    // The next number.
    pub fn step(&mut self) -> u32
        ensures value { result ≡ xorshift self.old.state }
        ensures state { self.new.state ≡ result }
    {
        let mut x = self.state;
        x ^= x << 13;
        x ^= x >> 17;
        x ^= x << 5;
        self.state = x;
        x
    }
}
