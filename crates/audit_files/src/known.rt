// Files and their lines, both written out by hand.
use crate::comparison::expect;
use crate::writing::{Board, Transcript};
use std::alloc::{AllocError, Global};
use tallies::{Section, Trial};

// A game of Rugs on two by two cells, a record to a line.
const RUGS: &[u8] = b"\x0A\0\x01\0\x02\0\x02\0\x02\0\0\0\0\0\
    \x02\0\x02\0\0\0\
    \x02\0\x02\0\x03\0\
    \0\0\x03\0\
    \0\0\x05\0\
    \x06\0\x04\0\x03\0\x03\0\0\0\
    \0\0\x05\0\
    \x06\0\x04\0\0\0\0\0\0\0\
    \x06\0\x04\0\x01\0\0\0\0\0\
    \x06\0\x04\0\x02\0\0\0\0\0\
    \0\0\x07\0";

// The lines of that game.
const RUGS_LINES: &[u8] = b"1 board 4\n\
    2 laid 0\n\
    3 laid 3\n\
    4 begun\n\
    5 play 3 3\n\
    6 turned 3 3 0\n\
    7 lost\n\
    8 no 5\n\
    9 turned 1 0 2\n\
    10 turned 2 0 0 over\n\
    11 end\n";

// The head of that game.
const HEAD: &[u8] = b"\x0A\0\x01\0\x02\0\x02\0\x02\0\0\0\0\0";

// A head that names no pile.
const NO_PILE: &[u8] = b"\x0A\0\x01\0\x07\0\x02\0\x02\0\0\0\0\0";

// A head of a pile with no cells.
const NO_CELLS: &[u8] = b"\x0A\0\x01\0\x02\0\0\0\x02\0\0\0\0\0";

// A file in two parts, and its lines.
#[derive(Clone, Copy, Debug, PartialEq, Eq)]
struct Case {
    front: &'static [u8],
    back: &'static [u8],
    lines: &'static [u8],
}

static CASES: [Case; 14] = [
    Case {
        front: b"",
        back: b"",
        lines: b"1 bad 17 at 0\n",
    },
    Case {
        front: b"",
        back: b"\0\0\x07",
        lines: b"1 bad 10 at 0\n",
    },
    Case {
        front: b"",
        back: b"\x01\0\x08\0",
        lines: b"1 bad 10 at 0\n",
    },
    Case {
        front: b"",
        back: b"\x01\0\x08\0\0",
        lines: b"1 bad 11 at 0\n",
    },
    Case {
        front: b"",
        back: b"\x01\0\x07\0\0",
        lines: b"1 bad 12 at 0\n",
    },
    Case {
        front: b"",
        back: b"\x01\0\x06\0\x1F",
        lines: b"1 bad 13 at 0\n",
    },
    Case {
        front: b"",
        back: NO_PILE,
        lines: b"1 bad 14 at 0\n",
    },
    Case {
        front: HEAD,
        back: b"",
        lines: b"1 board 4\n2 bad 17 at 14\n",
    },
    Case {
        front: HEAD,
        back: b"\0\0\x03",
        lines: b"1 board 4\n2 bad 10 at 14\n",
    },
    Case {
        front: HEAD,
        back: b"\x01\0\x06\0\x7F",
        lines: b"1 board 4\n2 bad 15 at 14\n",
    },
    Case {
        front: HEAD,
        back: NO_PILE,
        lines: b"1 board 4\n2 bad 13 at 14\n",
    },
    Case {
        front: HEAD,
        back: b"\0\0\x06\0\0\0\x07\0",
        lines: b"1 board 4\n2 said \n3 end\n",
    },
    Case {
        front: HEAD,
        back: b"\0\0\x03\0\0\0\x07\0\0",
        lines: b"1 board 4\n2 begun over\n3 end\n4 bad 18 at 22\n",
    },
    Case {
        front: NO_CELLS,
        back: b"\x02\0\x02\0\0\0\0\0\x07\0",
        lines: b"1 board 0\n2 no 1\n3 end\n",
    },
];

// The game again, by the builders of records.
pub fn rugs(heap: Global) -> Result<Vec<u8>, AllocError> {
    let mut file = Transcript::new(heap);
    file.head(Board::new(2, 2, 2, 0))?;
    file.lay(0)?;
    file.lay(3)?;
    file.begin()?;
    file.advise()?;
    file.turn(3, 3)?;
    file.advise()?;
    file.turn(0, 0)?;
    file.turn(1, 0)?;
    file.turn(2, 0)?;
    file.end()?;
    Ok(file.bytes)
}

// The builders and the cases.
pub fn files(heap: Global) -> Result<Section, AllocError> {
    let mut trial = Trial::new(heap);
    trial.count(rugs(heap)?.as_slice() == RUGS);
    expect(&mut trial, RUGS, RUGS_LINES)?;
    for case in &CASES {
        let mut file = Vec::new(heap);
        file.extend_from_slice(case.front)?;
        file.extend_from_slice(case.back)?;
        expect(&mut trial, &file, case.lines)?;
    }
    expect(&mut trial, &[0; 65_535], b"1 bad 11 at 0\n")?;
    expect(&mut trial, &[0; 65_536], b"1 bad 16 at 0\n")?;
    Ok(trial.section("files with lines written by hand"))
}
