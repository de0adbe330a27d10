// The values of Take, each found from those of the cells below.
ghost use Rattle.std.specs.Prelude.{◌≡◌, ℕ, ◌<◌};
ghost use Rattle.games.specs.TakeValues.{leads, SmallestLeading, value_in, take_value};

use super::amounts::AmountSet;

// Cells are plain numbers here too, as in `Rule`.
// The set and the values are no struct: in a `TakeRule` the values of all 64 cells are right, and here only those below c.
impl AmountSet {
    // The smallest amount that leads from c to a cell of value v.
    pub(super) fn smallest_leading(self, values: &[u32; 64], c: u32, v: u32) -> Option<u32>
        requires { c < 64 }
        ensures { SmallestLeading self.bits (value_in values.now) c v result }
    {
        // Half-open: what `find` gives of `1..=c` was tried and not proved.
        (1..c + 1).find(|s| self.contains(*s) && values[(c - *s) as usize] == v)
    }

    // Whether some amount leads from c to a cell of value v.
    fn leads_to(self, values: &[u32; 64], c: u32, v: u32) -> bool
        requires { c < 64 }
        ensures { result ≡ leads self.bits (value_in values.now) c v }
    {
        self.smallest_leading(values, c, v).is_some()
    }

    // The value of c, from the values of the cells below.
    fn value_at(self, values: &[u32; 64], c: u32) -> u32
        requires cell { c < 64 }
        requires known { (d : ℕ) → d < c → value_in values.now d ≡ take_value self.bits d }
        ensures { result ≡ take_value self.bits c }
    {
        (0..c).find(|v| !self.leads_to(values, c, *v)).unwrap_or(c)
    }

    // The values of all cells of the widest row.
    pub(super) fn values(self) -> [u32; 64]
        ensures { (c : ℕ) → c < 64 → value_in result c ≡ take_value self.bits c }
    {
        // A loop: each value is found from those before it.
        let mut values = [0; 64];
        for c in 0..64u32 {
            values[c as usize] = self.value_at(&values, c);
        }
        values
    }
}
