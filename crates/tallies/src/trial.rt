// What is counted of a trial, and the heap that it takes.
ghost use Rattle.std.specs.Prelude.{◌≡◌, ◌+◌, ◌-◌, ◌^◌, min, if◌then◌else◌};

use crate::{Section, Tally};
use std::alloc::Global;

#[derive(Clone, Copy, Debug, PartialEq, Eq)]
pub struct Trial {
    pub heap: Global,
    tally: Tally,
}

impl Trial {
    pub fn new(heap: Global) -> Trial
        ensures heap { result.heap ≡ heap }
        ensures agreed { result.tally.agreed ≡ 0 }
        ensures differed { result.tally.differed ≡ 0 }
    {
        Trial {
            heap,
            tally: Tally::new(),
        }
    }

    // Counts whether something was as it should be.
    pub fn count(&mut self, agreed: bool)
        ensures heap { self.new.heap ≡ self.old.heap }
        ensures agreed { self.new.tally.agreed ≡ (if agreed then min (self.old.tally.agreed + 1) (2 ^ 32 - 1) else self.old.tally.agreed) }
        ensures differed { self.new.tally.differed ≡ (if agreed then self.old.tally.differed else min (self.old.tally.differed + 1) (2 ^ 32 - 1)) }
    {
        self.tally.count(agreed);
    }

    // What was counted.
    pub fn section(self, title: &'static str) -> Section
        ensures title { result.title.now ≡ title.now }
        ensures tally { result.tally ≡ self.tally }
    {
        Section {
            title,
            tally: self.tally,
        }
    }
}
