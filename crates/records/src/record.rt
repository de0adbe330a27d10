// The layer of records: what kind of record stands at a place, and what it says.
ghost use Rattle.std.specs.Prelude.{◌≡◌, ◌+◌, ◌≤◌, true, length, IfOk, Some};
ghost use Rattle.piles.specs.Numbered.{pile_of};
ghost use Rattle.std.specs.Option.{option_map};
ghost use Rattle.records.specs.Records.{as_item, bad_byte, bad_text, board_of, call_of, file_check, fits_kind, item_of, item_from, item_size, kind_number, kind_or_unknown, record_at, record_fault_at, record_fault_number, text_check, unknown_kind_text};
ghost use Rattle.records.specs.declared.record.RecordFault.TheVariants.{Bytes};

use crate::bytes::{At, ByteFault, Frame, check_size, frame_at, number};
use piles::pile::Pile;
use std::error::Error;
use std::fmt;
use tables::calls::{Call, Move};

#[derive(Clone, Copy, Debug, PartialEq, Eq)]
pub enum RecordFault {
    // A fault of the bytes below.
    Bytes(ByteFault),
    UnknownKind(At),
    // The length of the body does not fit the kind.
    WrongLength(At),
    // A remark has a byte outside 32 to 126.
    BadText(At),
}

impl From<ByteFault> for RecordFault {
    ghost from_gives = { λ e r. r ≡ Bytes e };

    fn from(below: ByteFault) -> RecordFault {
        RecordFault::Bytes(below)
    }
}

impl RecordFault {
    // By a match: a variant that holds a place can have no number of its own.
    pub fn number(self) -> u32
        ensures { result ≡ record_fault_number self }
    {
        match self {
            RecordFault::Bytes(fault) => fault.number(),
            RecordFault::UnknownKind(_) => 11,
            RecordFault::WrongLength(_) => 12,
            RecordFault::BadText(_) => 15,
        }
    }

    // The record that would have been read.
    pub fn at(self) -> At
        ensures { result ≡ record_fault_at self }
    {
        match self {
            RecordFault::Bytes(fault) => fault.at(),
            RecordFault::UnknownKind(at)
            | RecordFault::WrongLength(at)
            | RecordFault::BadText(at) => at,
        }
    }
}

// Refuses a file of more than 65,535 bytes.
pub fn check_file(file: &[u8], at: At) -> Result<(), RecordFault>
    ensures { result ≡ file_check file.now at }
{
    check_size(file, at).map_err(RecordFault::from)
}

#[derive(Clone, Copy, Debug, PartialEq, Eq)]
pub enum Kind {
    Head = 1,
    Lay = 2,
    Begin = 3,
    Turn = 4,
    Advise = 5,
    Remark = 6,
    End = 7,
}

// A number that no kind of record has.
#[derive(Clone, Copy, Debug, PartialEq, Eq)]
pub struct UnknownKind(pub u32);

impl fmt::Display for UnknownKind {
    ghost output = { λ e. Some (unknown_kind_text e) };

    fn fmt<W: fmt::Write>(&self, f: &mut fmt::Formatter<W>) -> fmt::Result {
        write!(f, "no kind of record has the number {}", self.0)
    }
}

impl Error for UnknownKind {}

impl TryFrom<u32> for Kind {
    type Error = UnknownKind;

    ghost try_from_gives = { λ n r. r ≡ kind_or_unknown n };

    fn try_from(number: u32) -> Result<Kind, UnknownKind> {
        match number {
            1 => Ok(Kind::Head),
            2 => Ok(Kind::Lay),
            3 => Ok(Kind::Begin),
            4 => Ok(Kind::Turn),
            5 => Ok(Kind::Advise),
            6 => Ok(Kind::Remark),
            7 => Ok(Kind::End),
            _ => Err(UnknownKind(number)),
        }
    }
}

impl Kind {
    pub fn number(self) -> u32
        ensures { result ≡ kind_number self }
    {
        self as u32
    }

    // Whether a body of that length fits the kind. Lengths as numbers, one to a kind: each stands here alone.
    pub fn fits(self, len: usize) -> bool
        ensures { result ≡ fits_kind self len }
    {
        match self {
            Kind::Head => len == 10,
            Kind::Lay => len == 2,
            Kind::Turn => len == 6,
            Kind::Remark => len <= 80,
            Kind::Begin | Kind::Advise | Kind::End => len == 0,
        }
    }
}

// Which pile is played, with its two widths and its set of amounts.
#[derive(Clone, Copy, Debug, PartialEq, Eq)]
pub struct Head {
    pub pile: u32,
    pub w: u32,
    pub h: u32,
    pub set: u32,
}

impl Head {
    // The pile, if its number is one of the numbered piles.
    pub fn board(self) -> Option<Pile>
        ensures { option_map pile_of result ≡ board_of self }
    {
        Pile::new(self.pile, self.w, self.h, self.set)
    }
}

// A record; a remark is a part of the transcript.
#[derive(Clone, Copy, Debug, PartialEq, Eq)]
pub enum Record<'a> {
    Head(Head),
    Lay(u32),
    Begin,
    Turn(Move),
    Advise,
    Remark(&'a [u8]),
    End,
}

impl<'a> Record<'a> {
    // The record at a place; the text of a remark is not looked at. That it is `short` stands here and at the readers, and in no type: a remark that others make
    // may have any length.
    pub fn read(file: &'a [u8], at: At) -> Result<Record<'a>, RecordFault>
        ensures reads { as_item result ≡ record_at file.now at }
        ensures within { IfOk result (λ x. at.place + item_size (item_of x) ≤ length file.now) }
        ensures short { IfOk result (λ x. item_size (item_of x) ≤ 84) }
    {
        let Frame { kind, body } = frame_at(file, at)?;
        let kind = Kind::try_from(kind).map_err(|_| RecordFault::UnknownKind(at))?;
        if !kind.fits(body.len()) {
            return Err(RecordFault::WrongLength(at));
        }
        Ok(Record::from_body(kind, body))
    }

    // What a body of a fitting length says.
    fn from_body(kind: Kind, body: &'a [u8]) -> Record<'a>
        requires { fits_kind kind (length body.now) ≡ true }
        ensures item { item_of result ≡ item_from kind body.now }
        ensures short { item_size (item_of result) ≤ 84 }
    {
        match kind {
            Kind::Head => Record::Head(Head {
                pile: number(&body[..2]),
                w: number(&body[2..4]),
                h: number(&body[4..6]),
                set: number(&body[6..]),
            }),
            Kind::Lay => Record::Lay(number(body)),
            Kind::Begin => Record::Begin,
            Kind::Turn => Record::Turn(Move {
                cell: number(&body[..2]),
                number: number(&body[2..]),
            }),
            Kind::Advise => Record::Advise,
            Kind::Remark => Record::Remark(body),
            Kind::End => Record::End,
        }
    }

    // How many bytes the record takes.
    pub fn size(self) -> usize
        ensures { result ≡ item_size (item_of self.entry) }
    {
        match self {
            Record::Head(_) => 14,
            Record::Lay(_) => 6,
            Record::Turn(_) => 10,
            Record::Remark(text) => text.len() + 4,
            Record::Begin | Record::Advise | Record::End => 4,
        }
    }

    // What the record asks of the table.
    pub fn call(self) -> Option<Call>
        ensures { result ≡ call_of (item_of self.entry) }
    {
        match self {
            Record::Lay(cell) => Some(Call::Lay(cell)),
            Record::Begin => Some(Call::Begin),
            Record::Turn(m) => Some(Call::Turn(m)),
            Record::Advise => Some(Call::Advise),
            Record::Head(_) | Record::Remark(_) | Record::End => None,
        }
    }

    // Refuses a remark with a byte outside 32 to 126.
    pub fn check_text(self, at: At) -> Result<(), RecordFault>
        ensures { result ≡ text_check (item_of self.entry) at }
    {
        match self {
            Record::Remark(text) if has_bad_byte(text) => Err(RecordFault::BadText(at)),
            _ => Ok(()),
        }
    }
}

// Whether a text has a byte outside 32 to 126. Not inlined, since its loop is then shorter.
#[inline(never)]
fn has_bad_byte(text: &[u8]) -> bool
    ensures { result ≡ bad_text text.now }
{
    text.iter().any(|b| !(32..=126).contains(b))
}
