// A row of up to 64 cells.
ghost use Rattle.std.specs.Prelude.{◌≡◌, ◌≤◌, if◌then◌else◌, nat_le, nat_lt};

// The width of the widest row.
const WIDEST: u32 = 64;

#[derive(Clone, Copy, Debug, PartialEq, Eq)]
pub struct Row {
    size: u32,
    ghost few: { size ≤ 64 },
}

impl Row {
    // A row of that width, or of no cells where the width is above 64: by the rules that is a game with no cells, and no error.
    pub fn new(width: u32) -> Row
        ensures { result.size ≡ (if nat_le width 64 then width else 0) }
    {
        Row {
            size: if width <= WIDEST { width } else { 0 },
        }
    }

    pub fn size(&self) -> u32
        ensures { result ≡ self.now.size }
    {
        self.size
    }

    // Whether c is a cell of the row.
    pub fn has(&self, c: u32) -> bool
        ensures { result ≡ nat_lt c self.now.size }
    {
        c < self.size
    }
}
