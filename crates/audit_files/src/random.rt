// Files of records in random order, and whole files with a random byte in one place; the same in each run.
use crate::comparison::compare;
use crate::whole;
use crate::writing::{Board, Transcript};
use std::alloc::{AllocError, Global};
use tallies::{Generator, Section, Trial};

// Marsaglia's seed. Of its own, as that of the runs: the stored output hangs on it.
const SEED: u32 = 2_463_534_242;

// Records and files at random.
#[derive(Drop)]
struct Random {
    numbers: Generator,
}

impl Random {
    // A number from 0 to end - 1.
    fn below(&mut self, end: u16) -> u16 {
        (self.numbers.step() % u32::from(end).max(1)) as u16
    }

    // Any byte.
    fn byte(&mut self) -> u8 {
        (self.below(256) & 255) as u8
    }

    // A small board, sometimes with no cells.
    fn board(&mut self) -> Board {
        let pile = self.below(6).saturating_add(1);
        Board::new(
            pile,
            self.below(6),
            self.below(6),
            u32::from(self.below(64)),
        )
    }

    // Adds a record, mostly a sound one.
    fn add(&mut self, file: &mut Transcript) -> Result<(), AllocError> {
        let cell = self.below(12);
        match self.below(64) {
            0 => file.head(self.board()),
            1 => file.raw(self.below(12), self.below(9), &[self.byte(), 0]),
            2 => file.end(),
            3..=5 => file.begin(),
            6..=11 => file.remark(&[32 + self.byte() % 96, 65, 32]),
            12..=18 => file.advise(),
            19..=39 => file.lay(cell),
            _ => file.turn(cell, u32::from(self.below(4))),
        }
    }

    // A row of records.
    fn records(&mut self, heap: Global) -> Result<Vec<u8>, AllocError> {
        let mut file = Transcript::new(heap);
        if self.below(8) > 0 {
            file.head(self.board())?;
        }
        for _ in 0..self.below(48) {
            self.add(&mut file)?;
        }
        if self.below(4) > 0 {
            file.end()?;
        }
        Ok(file.bytes)
    }

    // A whole file in which one byte was written over.
    fn damaged(&mut self, heap: Global) -> Result<Vec<u8>, AllocError> {
        let mut file = whole::game(heap, self.board())?;
        let size = u16::try_from(file.len()).unwrap_or(u16::MAX);
        let place = usize::from(self.below(size));
        let byte = self.byte();
        if let Some(at) = file.get_mut(place) {
            *at = byte;
        }
        Ok(file)
    }
}

// Five hundred files of either sort.
pub fn files(heap: Global) -> Result<Section, AllocError> {
    let mut trial = Trial::new(heap);
    let mut random = Random {
        numbers: Generator::new(SEED),
    };
    for _ in 0..500 {
        compare(&mut trial, &random.records(heap)?)?;
        compare(&mut trial, &random.damaged(heap)?)?;
    }
    Ok(trial.section("random files"))
}
