// Files at the edges of the size that a file may have.
use crate::comparison::compare;
use crate::writing::Transcript;
use std::alloc::{AllocError, Global};
use tallies::{Section, Trial};

// The longest remark.
const TEXT: [u8; 80] = [b'x'; 80];

// Whole files, with one byte more, and cut at their last bytes.
pub fn files(heap: Global) -> Result<Section, AllocError> {
    let mut trial = Trial::new(heap);
    for size in [65_534, 65_535, 65_536, 65_539] {
        for remark in [None, Some(&TEXT[..1]), Some(&TEXT[..76])] {
            let mut file = filled(heap, size, remark)?;
            compare(&mut trial, &file)?;
            file.push(0)?;
            compare(&mut trial, &file)?;
            for _ in 0..5 {
                let _ = file.pop();
                compare(&mut trial, &file)?;
            }
        }
    }
    Ok(trial.section("files at the edges of size"))
}

// A whole file of that size, filled with a remark again and again, or with advice where there is none.
fn filled(heap: Global, size: usize, remark: Option<&[u8]>) -> Result<Vec<u8>, AllocError> {
    let mut file = Transcript::begun(heap, 3)?;
    // The bytes in front of a last remark and the end, of which each has four of its own.
    let left = size.saturating_sub(file.bytes.len()).saturating_sub(8);
    let each = 4 + remark.map_or(0, |text| text.len());
    for _ in 0..left / each {
        match remark {
            Some(text) => file.remark(text)?,
            None => file.advise()?,
        }
    }
    file.remark(&TEXT[..(left % each).min(TEXT.len())])?;
    file.end()?;
    Ok(file.bytes)
}
