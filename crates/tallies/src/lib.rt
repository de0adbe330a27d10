// Counts of comparisons, the lines that tell them, and numbers to try.
#![tactic(auto)]

ghost use Rattle.std.specs.Prelude.{◌≡◌, ◌+◌, ◌-◌, ◌^◌, min, if◌then◌else◌, ◌==◌};

mod generator;
mod section;
mod trial;

pub use generator::Generator;
pub use section::{Section, Tried, print_all};
use std::fmt;
pub use trial::Trial;

// How often two values agreed, and how often they did not. The counts stop at `u32::MAX`.
#[derive(Clone, Copy, Debug, Default, PartialEq, Eq)]
pub struct Tally {
    agreed: u32,
    differed: u32,
}

impl Tally {
    pub fn new() -> Tally
        ensures agreed { result.agreed ≡ 0 }
        ensures differed { result.differed ≡ 0 }
    {
        Tally::default()
    }

    // Counted in a `for`: to collect a tally could fail by want of memory here, and a fold would hand it on at each step.
    pub fn count(&mut self, same: bool)
        ensures agreed { self.new.agreed ≡ (if same then min (self.old.agreed + 1) (2 ^ 32 - 1) else self.old.agreed) }
        ensures differed { self.new.differed ≡ (if same then self.old.differed else min (self.old.differed + 1) (2 ^ 32 - 1)) }
    {
        if same {
            self.agreed = self.agreed.saturating_add(1);
        } else {
            self.differed = self.differed.saturating_add(1);
        }
    }

    pub fn all_agreed(&self) -> bool
        ensures { result ≡ (self.now.differed == 0) }
    {
        self.differed == 0
    }
}

impl fmt::Display for Tally {
    fn fmt<W: fmt::Write>(&self, f: &mut fmt::Formatter<W>) -> fmt::Result {
        let agreed = self.agreed;
        let tried = agreed.saturating_add(self.differed);
        write!(f, "{tried} tried, {agreed} agreed")
    }
}
