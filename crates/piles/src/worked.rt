// Worked sums: products, inverses, values and boards as the books have them.
ghost use Rattle.piles.specs.Worked.{all_claims, AllHold, TakesMultiplied};

#[derive(Clone, Copy, Debug, PartialEq, Eq)]
pub enum WorkedSum {
    // The nim product of a and b.
    Product {
        a: u32,
        b: u32,
        is: u32,
    },
    // The inverse of a.
    Inverse {
        a: u32,
        is: u32,
    },
    // The value of cell c in Turtles.
    Turtles {
        c: u32,
        is: u32,
    },
    // The value of cell c in Ruler.
    Ruler {
        c: u32,
        is: u32,
    },
    // The value of cell c in Take with this set.
    Take {
        set: u32,
        c: u32,
        is: u32,
    },
    // The value of the cell for x and y in Turning Corners.
    TurningCorners {
        x: u32,
        y: u32,
        is: u32,
    },
    // The value of the cell for x and y in Rugs.
    Rugs {
        x: u32,
        y: u32,
        is: u32,
    },
    // The board of Turtles multiplied with itself.
    TurtlesSquared {
        width: u32,
        cells: u32,
        ceiling: u32,
    },
}

// A list of sums, each of which holds by the definitions.
pub fn worked_sums() -> [WorkedSum; 13]
    ensures { AllHold (all_claims result) }
{
    [
        WorkedSum::Product { a: 2, b: 2, is: 3 },
        WorkedSum::Product { a: 4, b: 4, is: 6 },
        WorkedSum::Product { a: 5, b: 6, is: 8 },
        WorkedSum::Product {
            a: 15,
            b: 15,
            is: 9,
        },
        WorkedSum::Product {
            a: 16,
            b: 16,
            is: 24,
        },
        WorkedSum::Inverse { a: 4, is: 15 },
        WorkedSum::Inverse { a: 16, is: 170 },
        WorkedSum::Turtles { c: 3, is: 7 },
        WorkedSum::Ruler { c: 5, is: 2 },
        WorkedSum::Rugs { x: 1, y: 1, is: 3 },
        WorkedSum::TurningCorners { x: 5, y: 6, is: 8 },
        WorkedSum::Take {
            set: 3,
            c: 3,
            is: 0,
        },
        WorkedSum::TurtlesSquared {
            width: 64,
            cells: 4096,
            ceiling: 4_068_289,
        },
    ]
}

// How many cells a game has, and its ceiling.
#[derive(Clone, Copy, Debug, PartialEq, Eq)]
pub struct Board {
    pub cells: u32,
    pub ceiling: u32,
}

// Games of Take on one cell with all 32 amounts, multiplied: four of them keep the limits, and five pass the ceiling.
pub fn takes_multiplied() -> (Board, Board)
    ensures four { TakesMultiplied 3 result.0 }
    ensures five { TakesMultiplied 4 result.1 }
{
    let four = Board {
        cells: 1,
        ceiling: 1_048_576,
    };
    let five = Board {
        cells: 0,
        ceiling: 0,
    };
    (four, five)
}
