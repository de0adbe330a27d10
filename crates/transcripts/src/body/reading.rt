// What a reader finds, record by record.
ghost use Rattle.std.specs.Prelude.{◌≡◌, ◌+◌, ◌≤◌, length, IfOk, IfSome, Some, Ok, Err};
ghost use Rattle.records.specs.Records.{item_of, item_size, record_at};
ghost use Rattle.transcripts.specs.Readings.{accepted, as_found, as_looked, at_of, found, reading, reading_after, start, Stuck};
ghost use Rattle.transcripts.specs.Readings.{lacks_pile as pileless};
ghost use Rattle.transcripts.specs.declared.fault.Fault.{Fault};

use super::Body;
use crate::fault::Fault;
use records::bytes::At;
use records::record::{Record, check_file};

impl<'a> Body<'a> {
    // A reader at the first record of a file.
    pub(crate) fn new(file: &'a [u8]) -> Body<'a>
        ensures { reading result ≡ start file.now }
    {
        Body {
            file,
            place: 0,
            read: 0,
            ended: false,
        }
    }

    // Where the next record stands.
    pub fn at(&self) -> At
        ensures { result ≡ at_of (reading self.now) }
    {
        At {
            number: self.read + 1,
            place: self.place,
        }
    }

    // The next record, or none behind the end record; a fault leaves the reader where it is.
    pub fn read(&mut self) -> Result<Option<Record<'a>>, Fault>
        ensures found { as_found result ≡ found (reading self.old) }
        ensures after { reading self.new ≡ reading_after (reading self.old) (as_found result) }
        ensures again { (e : Fault) → as_found result ≡ Err e → Stuck (reading self.new) e }
        ensures short { IfOk result (λ read. IfSome read (λ x. item_size (item_of x) ≤ 84)) }
    {
        self.advance()
    }

    // Reads the record at the reader's place. Apart from `read`, whose clause `again` is then shown once, and not at each return.
    fn advance(&mut self) -> Result<Option<Record<'a>>, Fault>
        ensures found { as_found result ≡ found (reading self.old) }
        ensures after { reading self.new ≡ reading_after (reading self.old) (as_found result) }
        ensures short { IfOk result (λ read. IfSome read (λ x. item_size (item_of x) ≤ 84)) }
    {
        let at = self.at();
        check_file(self.file, at)?;
        let at_end = self.place >= self.file.len();
        match (self.ended, at_end) {
            (true, true) => Ok(None),
            (true, false) => Err(Fault::AfterEnd(at)),
            (false, true) => Err(Fault::NoEnd(at)),
            (false, false) => {
                let record = self.look()?;
                self.pass(record);
                Ok(Some(record))
            }
        }
    }

    // The record at the reader's place, if it may stand there.
    fn look(&self) -> Result<Record<'a>, Fault>
        ensures looks { as_looked result ≡ accepted (reading self.now) (record_at self.now.file.now (at_of (reading self.now))) }
        ensures within { IfOk result (λ x. self.now.place + item_size (item_of x) ≤ length self.now.file.now) }
        ensures short { IfOk result (λ x. item_size (item_of x) ≤ 84) }
    {
        let at = self.at();
        let record = Record::read(self.file, at)?;
        let first = self.read == 0;
        if matches!(record, Record::Head(_)) != first {
            return Err(Fault::HeadMisplaced(at));
        }
        if lacks_pile(record) {
            return Err(Fault::NoPile(at));
        }
        record.check_text(at)?;
        Ok(record)
    }

    // Moves on behind a record.
    fn pass(&mut self, record: Record)
        requires { self.old.place + item_size (item_of «record») ≤ length self.old.file.now }
        ensures { reading self.new ≡ reading_after (reading self.old) (Ok (Some (item_of «record».entry))) }
    {
        self.place += record.size();
        self.read += 1;
        self.ended = matches!(record, Record::End);
    }
}

// Whether it is a head, and of a pile that is not numbered. Apart, so that a head alone pays for the room that a pile takes.
fn lacks_pile(record: Record) -> bool
    ensures { result ≡ pileless (item_of «record».entry) }
{
    match record {
        Record::Head(head) => head.board().is_none(),
        _ => false,
    }
}
