// Writes transcripts record by record, sound or not.
use piles::Pile;
use std::alloc::{AllocError, Global};

// What a head says.
// Of its own: a head that `records` reads wrongly would otherwise not be found.
#[derive(Clone, Copy, Debug, PartialEq, Eq)]
pub struct Board {
    pub number: u16,
    pub w: u16,
    pub h: u16,
    pub set: u32,
}

impl Board {
    pub fn new(number: u16, w: u16, h: u16, set: u32) -> Board {
        Board { number, w, h, set }
    }

    // The pile of that number, if there is one.
    pub fn pile(self) -> Option<Pile> {
        let Board { number, w, h, set } = self;
        Pile::new(u32::from(number), u32::from(w), u32::from(h), set)
    }
}

// The kinds of records, by their numbers.
// Of its own: a wrong number of a kind in `records` would otherwise not be found.
#[derive(Clone, Copy, Debug, PartialEq, Eq)]
pub enum Kind {
    Head = 1,
    Lay = 2,
    Begin = 3,
    Turn = 4,
    Advise = 5,
    Remark = 6,
    End = 7,
}

// A file to which records are added.
#[derive(Drop)]
pub struct Transcript {
    pub bytes: Vec<u8>,
}

impl Transcript {
    pub fn new(heap: Global) -> Transcript {
        Transcript {
            bytes: Vec::new(heap),
        }
    }

    // A file of Rugs on two by two cells, which has begun with a coin on one of them.
    pub fn begun(heap: Global, cell: u16) -> Result<Transcript, AllocError> {
        let mut file = Transcript::new(heap);
        file.head(Board::new(2, 2, 2, 0))?;
        file.lay(cell)?;
        file.begin()?;
        Ok(file)
    }

    // A record of any length and kind, whatever its body.
    pub fn raw(&mut self, length: u16, kind: u16, body: &[u8]) -> Result<(), AllocError> {
        self.bytes.extend_from_slice(&length.to_le_bytes())?;
        self.bytes.extend_from_slice(&kind.to_le_bytes())?;
        self.bytes.extend_from_slice(body)
    }

    // A record of any kind, whose length is that of its body.
    pub fn record(&mut self, kind: u16, body: &[u8]) -> Result<(), AllocError> {
        self.raw(u16::try_from(body.len()).unwrap_or(u16::MAX), kind, body)
    }

    // The record that names the pile.
    pub fn head(&mut self, board: Board) -> Result<(), AllocError> {
        let [p, q] = board.number.to_le_bytes();
        let [w, v] = board.w.to_le_bytes();
        let [h, g] = board.h.to_le_bytes();
        let [a, b, c, d] = board.set.to_le_bytes();
        self.record(Kind::Head as u16, &[p, q, w, v, h, g, a, b, c, d])
    }

    // A lay of a coin.
    pub fn lay(&mut self, cell: u16) -> Result<(), AllocError> {
        self.record(Kind::Lay as u16, &cell.to_le_bytes())
    }

    // The end of the laying.
    pub fn begin(&mut self) -> Result<(), AllocError> {
        self.record(Kind::Begin as u16, &[])
    }

    // A move.
    pub fn turn(&mut self, cell: u16, number: u32) -> Result<(), AllocError> {
        let [c, d] = cell.to_le_bytes();
        let [i, j, k, l] = number.to_le_bytes();
        self.record(Kind::Turn as u16, &[c, d, i, j, k, l])
    }

    // A question for advice.
    pub fn advise(&mut self) -> Result<(), AllocError> {
        self.record(Kind::Advise as u16, &[])
    }

    // A remark, also one that is too long.
    pub fn remark(&mut self, text: &[u8]) -> Result<(), AllocError> {
        self.record(Kind::Remark as u16, text)
    }

    // The last record.
    pub fn end(&mut self) -> Result<(), AllocError> {
        self.record(Kind::End as u16, &[])
    }
}
