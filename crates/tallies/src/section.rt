// What was compared, and the lines that tell it.
ghost use Rattle.std.specs.Prelude.{◌≡◌, Bool, ◌==◌, IfOk};
ghost use Rattle.std.specs.List.{list_all};

use crate::Tally;
use std::fmt;
use std::io::{self, Print};

// What was tried, told by its lines.
pub trait Tried: fmt::Display {
    ghost agrees: { Self → Bool };

    // Whether nothing differed.
    fn all_agreed(&self) -> bool
        ensures { result ≡ agrees self.now };
}

// What was compared, with its counts.
#[derive(Clone, Copy, Debug, PartialEq, Eq)]
pub struct Section {
    pub title: &'static str,
    pub tally: Tally,
}

impl fmt::Display for Section {
    fn fmt<W: fmt::Write>(&self, f: &mut fmt::Formatter<W>) -> fmt::Result {
        let title = self.title;
        let tally = self.tally;
        write!(f, "{title}: {tally}")
    }
}

impl Tried for Section {
    ghost agrees = { λ s. s.tally.differed == 0 };

    fn all_agreed(&self) -> bool {
        self.tally.all_agreed()
    }
}

// Prints the lines of each, and tells whether all agreed.
pub fn print_all<T: Tried>(rt: &impl Print, tried: &[T]) -> io::Result<bool>
    ensures { IfOk result (λ b. b ≡ list_all T.agrees tried.now) }
{
    for one in tried {
        println!(rt; "{one}")?;
    }
    Ok(tried.iter().all(|one| one.all_agreed()))
}
