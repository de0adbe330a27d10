// What may be asked of a table, and what it answers.
ghost use Rattle.std.specs.Prelude.{◌≡◌};
ghost use Rattle.tables.specs.Calls.{other_side, refusal_number, side_number};

// Coins are laid, then the sides play, until no head has a move.
#[derive(Clone, Copy, Debug, PartialEq, Eq)]
pub enum State {
    Setting,
    Playing,
    Over,
}

// The side to move.
#[derive(Clone, Copy, Debug, PartialEq, Eq)]
pub enum Side {
    First = 1,
    Second = 2,
}

impl Side {
    pub fn other(self) -> Side
        ensures { result ≡ other_side self }
    {
        match self {
            Side::First => Side::Second,
            Side::Second => Side::First,
        }
    }

    // 1 or 2.
    pub fn number(self) -> u32
        ensures { result ≡ side_number self }
    {
        self as u32
    }
}

// A move of a game: its cell and its number there.
#[derive(Clone, Copy, Debug, PartialEq, Eq)]
pub struct Move {
    pub cell: u32,
    pub number: u32,
}

#[derive(Clone, Copy, Debug, PartialEq, Eq)]
pub enum Call {
    // Puts heads on a cell.
    Lay(u32),
    // Ends the setting.
    Begin,
    // Makes a move.
    Turn(Move),
    // The value that a move would leave.
    Weigh(Move),
    // The value of the position.
    Value,
    // A winning move, where there is one.
    Advise,
}

#[derive(Clone, Copy, Debug, PartialEq, Eq)]
pub enum Answer {
    Laid,
    // The state that the table came to.
    Begun(State),
    Turned(State),
    Worth(u32),
    // None: the position is lost.
    Advice(Option<Move>),
}

#[derive(Clone, Copy, Debug, PartialEq, Eq)]
pub enum Refusal {
    NoCells = 1,
    NotNow = 2,
    OffBoard = 3,
    Heads = 4,
    Tails = 5,
    NoMove = 6,
}

impl Refusal {
    pub fn number(self) -> u32
        ensures { result ≡ refusal_number self }
    {
        self as u32
    }
}
