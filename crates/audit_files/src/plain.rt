// A plain reading of a transcript: from its bytes to the lines that it should give.
ghost use Rattle.std.specs.Prelude.{◌<◌, length, IfOk};

use crate::writing::Board;
use games::Game;
use piles::Pile;
use std::alloc::{AllocError, Global};
use tables::calls::{Answer, Move, Refusal, State};
use tables::table::Table;

// The most bytes that a file may have. Of its own, since this is what is tried.
const MOST: usize = 65_535;

// What may be wrong with a file, by its number in a line.
// Of its own: a wrong number of a fault in `transcripts` would otherwise not be found.
#[derive(Clone, Copy, Debug, PartialEq, Eq)]
enum Fault {
    CutShort = 10,
    UnknownKind = 11,
    WrongLength = 12,
    HeadMisplaced = 13,
    NoPile = 14,
    BadText = 15,
    TooLong = 16,
    NoEnd = 17,
    AfterEnd = 18,
}

// What a record says.
// Of its own: a record that `records` reads wrongly would otherwise not be found.
#[derive(Clone, Copy, Debug, PartialEq, Eq)]
enum Record<'a> {
    Head(Board),
    Lay(u16),
    Begin,
    Turn(Move),
    Advise,
    Remark(&'a [u8]),
    End,
}

impl<'a> Record<'a> {
    // The record of a kind and a body. By numbers, and not the kinds that the writer has: a wrong one there would otherwise not be found. 80 of its own, as they are.
    fn new(kind: u16, body: &'a [u8]) -> Result<Record<'a>, Fault> {
        match (kind, body) {
            (1, &[p, q, w, v, h, g, a, b, c, d]) => Ok(Record::Head(Board {
                number: u16::from_le_bytes([p, q]),
                w: u16::from_le_bytes([w, v]),
                h: u16::from_le_bytes([h, g]),
                set: u32::from_le_bytes([a, b, c, d]),
            })),
            (2, &[c, d]) => Ok(Record::Lay(u16::from_le_bytes([c, d]))),
            (3, []) => Ok(Record::Begin),
            (4, &[c, d, i, j, k, l]) => Ok(Record::Turn(Move {
                cell: u32::from(u16::from_le_bytes([c, d])),
                number: u32::from_le_bytes([i, j, k, l]),
            })),
            (5, []) => Ok(Record::Advise),
            (6, text) if text.len() <= 80 => Ok(Record::Remark(text)),
            (7, []) => Ok(Record::End),
            (1..=7, _) => Err(Fault::WrongLength),
            _ => Err(Fault::UnknownKind),
        }
    }
}

// A record, and what follows it.
#[derive(Clone, Copy, Debug, PartialEq, Eq)]
struct Taken<'a> {
    record: Record<'a>,
    rest: &'a [u8],
}

// Takes the first record.
fn take_record(bytes: &[u8]) -> Result<Taken<'_>, Fault>
    ensures { IfOk result (λ taken. length taken.rest.now < length bytes.now) }
{
    if bytes.is_empty() {
        return Err(Fault::NoEnd);
    }
    let [l, m, k, j, tail @ ..] = bytes else {
        return Err(Fault::CutShort);
    };
    let length = usize::from(u16::from_le_bytes([*l, *m]));
    let (body, rest) = tail.split_at_checked(length).ok_or(Fault::CutShort)?;
    let record = Record::new(u16::from_le_bytes([*k, *j]), body)?;
    Ok(Taken { record, rest })
}

// Takes the first record, where that is the head: its pile, and what follows it.
fn take_head(bytes: &[u8]) -> Result<(Pile, &[u8]), Fault> {
    let Taken { record, rest } = take_record(bytes)?;
    let Record::Head(board) = record else {
        return Err(Fault::HeadMisplaced);
    };
    let pile = board.pile().ok_or(Fault::NoPile)?;
    Ok((pile, rest))
}

// Takes the first record of those behind the head.
fn take_later(bytes: &[u8]) -> Result<Taken<'_>, Fault>
    ensures { IfOk result (λ taken. length taken.rest.now < length bytes.now) }
{
    let taken = take_record(bytes)?;
    match taken.record {
        Record::Head(_) => Err(Fault::HeadMisplaced),
        Record::Remark(text) if !text.iter().all(|byte| matches!(byte, 32..=126)) => {
            Err(Fault::BadText)
        }
        _ => Ok(taken),
    }
}

// Lines, each behind its number.
#[derive(Drop)]
struct Numbered {
    heap: Global,
    text: String,
    count: u32,
}

impl Numbered {
    // Adds a line.
    fn add(&mut self, words: &str) -> Result<(), AllocError> {
        self.count = self.count.saturating_add(1);
        let n = self.count;
        writeln!(self.text, "{n} {words}")
    }

    // Adds the line of a fault.
    fn add_fault(&mut self, fault: Fault, place: usize) -> Result<(), AllocError> {
        let number = fault as u32;
        self.add(&format!(in self.heap; "bad {number} at {place}")?)
    }
}

// The lines of a whole file.
pub fn lines(heap: Global, file: &[u8]) -> Result<String, AllocError> {
    let mut lines = Numbered {
        heap,
        text: String::new(heap),
        count: 0,
    };
    if file.len() > MOST {
        lines.add_fault(Fault::TooLong, 0)?;
        return Ok(lines.text);
    }
    match take_head(file) {
        Err(fault) => lines.add_fault(fault, 0)?,
        Ok((pile, rest)) => {
            let size = pile.size();
            lines.add(&format!(in heap; "board {size}")?)?;
            follow(&mut lines, &mut Table::new(pile), file, rest)?;
        }
    }
    Ok(lines.text)
}

// Adds the lines of the records behind the head.
fn follow(
    lines: &mut Numbered,
    table: &mut Table<Pile>,
    file: &[u8],
    mut rest: &[u8],
) -> Result<(), AllocError> {
    // A loop: it ends at a fault or behind the end record.
    loop {
        let taken = match take_later(rest) {
            Ok(taken) => taken,
            Err(fault) => return lines.add_fault(fault, file.len().saturating_sub(rest.len())),
        };
        lines.add(&words(lines.heap, table, taken.record)?)?;
        rest = taken.rest;
        if let Record::End = taken.record {
            break;
        }
    }
    if rest.is_empty() {
        Ok(())
    } else {
        lines.add_fault(Fault::AfterEnd, file.len().saturating_sub(rest.len()))
    }
}

// What the line of a sound record says after its number. The heap beside the table in these three: a struct of both, for words and its two parts, adds a type and spares one name.
fn words(heap: Global, table: &mut Table<Pile>, record: Record) -> Result<String, AllocError> {
    match answered(heap, table, record) {
        Ok(words) => words,
        Err(refusal) => {
            let number = refusal.number();
            format!(in heap; "no {number}")
        }
    }
}

// The words of a record that is no call, or of a call that is not refused.
fn answered(
    heap: Global,
    table: &mut Table<Pile>,
    record: Record,
) -> Result<Result<String, AllocError>, Refusal> {
    Ok(match record {
        Record::Lay(cell) => {
            table.lay(u32::from(cell))?;
            format!(in heap; "laid {cell}")
        }
        Record::Begin => match table.begin()? {
            Answer::Begun(State::Over) => format!(in heap; "begun over"),
            _ => format!(in heap; "begun"),
        },
        Record::Turn(m) => {
            table.turn(m)?;
            turned(heap, table, m)
        }
        Record::Advise => match table.advise()? {
            Answer::Advice(Some(Move { cell, number })) => {
                format!(in heap; "play {cell} {number}")
            }
            _ => format!(in heap; "lost"),
        },
        Record::Remark(text) => {
            let text = std::str::from_utf8(text).unwrap_or("");
            format!(in heap; "said {text}")
        }
        Record::Head(_) | Record::End => format!(in heap; "end"),
    })
}

// The words of a turn that was made.
fn turned(heap: Global, table: &mut Table<Pile>, m: Move) -> Result<String, AllocError> {
    let Move { cell, number } = m;
    let Ok(Answer::Worth(value)) = table.value() else {
        return format!(in heap; "turned");
    };
    match table.state() {
        State::Over => format!(in heap; "turned {cell} {number} {value} over"),
        _ => format!(in heap; "turned {cell} {number} {value}"),
    }
}
