// Files that are cut, and files in which something is wrong.
use crate::comparison::compare;
use crate::writing::{Board, Kind, Transcript};
use crate::{known, whole};
use std::alloc::{AllocError, Global};
use tallies::{Section, Trial};

// All kinds, and some that are unknown: the last but one is 7 in its lower byte.
const KINDS: [u16; 11] = [0, 1, 2, 3, 4, 5, 6, 7, 8, 263, u16::MAX];

// Numbers of piles, most of them wrong ones.
const PILES: [u16; 8] = [0, 1, 6, 7, 8, 256, 257, u16::MAX];

// Lengths that fit a kind, with those beside them; the last is 2 in its lower byte.
const LENGTHS: [usize; 15] = [0, 1, 2, 3, 5, 6, 7, 9, 10, 11, 79, 80, 81, 255, 258];

// The longest of those.
const LONGEST: usize = 258;

// Bytes at the edges of text, among others.
const BYTES: [u8; 5] = [0, 31, 32, 126, 127];

// A whole file of each pile, up to each of its bytes.
pub fn cut(heap: Global) -> Result<Section, AllocError> {
    let mut trial = Trial::new(heap);
    // By their numbers, as a head names them.
    for pile in 1..7 {
        let file = whole::game(heap, Board::new(pile, 2, 2, 3))?;
        for size in 0..file.len() {
            compare(&mut trial, &file[..size])?;
        }
    }
    Ok(trial.section("files cut at every byte"))
}

// Records of every kind, as they may be and as they may not.
pub fn damaged(heap: Global) -> Result<Section, AllocError> {
    let mut trial = Trial::new(heap);
    for kind in KINDS {
        for length in LENGTHS {
            for byte in BYTES {
                let body = [byte; LONGEST];
                try_record(&mut trial, kind, &body[..length.min(LONGEST)])?;
            }
        }
    }
    for pile in PILES {
        let [low, high] = pile.to_le_bytes();
        let body = [low, high, 2, 0, 2, 0, 3, 0, 0, 0];
        try_record(&mut trial, Kind::Head as u16, &body)?;
    }
    for byte in 0..=255 {
        try_record(&mut trial, Kind::Remark as u16, &[byte, 32, 126])?;
        try_record(&mut trial, Kind::Remark as u16, &[32, 126, byte])?;
    }
    // Bytes after the end record: the same file again, up to each of its bytes.
    let mut file = known::rugs(heap)?;
    for byte in known::rugs(heap)? {
        file.push(byte)?;
        compare(&mut trial, &file)?;
    }
    Ok(trial.section("damaged files"))
}

// A record as the first one and after some others, each with an end and without, and the same one byte short.
fn try_record(trial: &mut Trial, kind: u16, body: &[u8]) -> Result<(), AllocError> {
    for mut file in [
        Transcript::new(trial.heap),
        Transcript::begun(trial.heap, 0)?,
    ] {
        file.record(kind, body)?;
        compare(trial, &file.bytes)?;
        let size = file.bytes.len();
        file.end()?;
        compare(trial, &file.bytes)?;
        file.bytes.truncate(size.saturating_sub(1));
        compare(trial, &file.bytes)?;
        file.end()?;
        compare(trial, &file.bytes)?;
    }
    Ok(())
}
