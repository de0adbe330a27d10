// The layer of bytes: where a record begins and ends.
ghost use Rattle.std.specs.Prelude.{◌≡◌, true, false, MatchOption};
ghost use Rattle.records.specs.Bytes.{as_framed, byte_fault_number, byte_fault_at, cut_short, frame_at, frame_of, framed, number_of, size_check};

use std::array;

// The most bytes that a file may have.
pub const MOST_BYTES: usize = 65_535;

// Where a record stands: its number, from 1, and the place of its first byte, from 0. Apart from the file, since faults keep it.
#[derive(Clone, Copy, Debug, PartialEq, Eq)]
pub struct At {
    pub number: usize,
    pub place: usize,
}

// Each holds where, as the faults above do: a kind of fault beside a place would take two types for each.
#[derive(Clone, Copy, Debug, PartialEq, Eq)]
pub enum ByteFault {
    // Fewer bytes are left than the record has.
    CutShort(At),
    // The file passes 65,535 bytes.
    TooLong(At),
}

impl ByteFault {
    // By a match: a variant that holds a place can have no number of its own.
    pub fn number(self) -> u32
        ensures { result ≡ byte_fault_number self }
    {
        match self {
            ByteFault::CutShort(_) => 10,
            ByteFault::TooLong(_) => 16,
        }
    }

    // The record that would have been read.
    pub fn at(self) -> At
        ensures { result ≡ byte_fault_at self }
    {
        match self {
            ByteFault::CutShort(at) | ByteFault::TooLong(at) => at,
        }
    }
}

// A record as bytes: the number of its kind, and its body.
#[derive(Clone, Copy, Debug, PartialEq, Eq)]
pub struct Frame<'a> {
    pub kind: u32,
    pub body: &'a [u8],
}

// Refuses a file of more than 65,535 bytes.
pub fn check_size(file: &[u8], at: At) -> Result<(), ByteFault>
    ensures { result ≡ size_check file.now at }
{
    if file.len() > MOST_BYTES {
        Err(ByteFault::TooLong(at))
    } else {
        Ok(())
    }
}

// The record that begins at a place, if the file holds all of it.
pub fn frame_at(file: &[u8], at: At) -> Result<Frame<'_>, ByteFault>
    ensures { as_framed result ≡ frame_at file.now at }
{
    frame_in(file, at.place).ok_or(ByteFault::CutShort(at))
}

// The same, or none where the record is cut short.
fn frame_in(file: &[u8], place: usize) -> Option<Frame<'_>>
    ensures { MatchOption result (cut_short file.now place ≡ true) (λ f. (cut_short file.now place ≡ false) × (framed f ≡ frame_of file.now place)) }
{
    let (length, rest) = file.get(place..)?.split_first_chunk::<2>()?;
    let (kind, rest) = rest.split_first_chunk::<2>()?;
    Some(Frame {
        kind: number(kind),
        body: rest.get(..number(length) as usize)?,
    })
}

// The number in at most four bytes, the low one first; those that are missing count as 0.
// Two bytes and four, the widths of all fields, have arms of their own, since each record is read through them.
pub(crate) fn number(bytes: &[u8]) -> u32
    ensures { result ≡ number_of bytes.now }
{
    match *bytes {
        [a, b] => u16::from_le_bytes([a, b]) as u32,
        [a, b, c, d] => u32::from_le_bytes([a, b, c, d]),
        _ => u32::from_le_bytes(array::from_fn(|i| bytes.get(i).copied().unwrap_or(0))),
    }
}
