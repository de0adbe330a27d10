// A transcript whose head has not been read. It gives out no other record.
ghost use Rattle.std.specs.Prelude.{◌≡◌, Err};
ghost use Rattle.records.specs.Records.{item_of};
ghost use Rattle.transcripts.specs.Readings.{as_first, found, head_or, reading, start, Stuck};
ghost use Rattle.transcripts.specs.declared.fault.Fault.{Fault};

use crate::body::Body;
use crate::fault::Fault;
use records::bytes::At;
use records::record::{Head, Record};

#[derive(Debug, PartialEq, Eq, Drop)]
pub struct Unread<'a> {
    file: &'a [u8],
}

impl<'a> Unread<'a> {
    pub fn new(file: &'a [u8]) -> Unread<'a>
        ensures { result.file.now ≡ file.now }
    {
        Unread { file }
    }

    // The head, or why it is refused.
    pub fn check(&self) -> Result<Head, Fault>
        ensures { as_first result ≡ found (start self.now.file.now) }
    {
        let mut body = Body::new(self.file);
        let at = body.at();
        match body.read()? {
            Some(record) => head_in(record, at),
            None => Err(Fault::HeadMisplaced(at)),
        }
    }

    // The reader of the records, the head first. Behind a refused head it gives no record, and only that fault.
    pub fn into_body(self) -> Body<'a>
        ensures begins { reading result ≡ start self.entry.file.now }
        ensures refused { (e : Fault) → found (start self.entry.file.now) ≡ Err e → Stuck (reading result) e }
    {
        Body::new(self.file)
    }
}

// What a head says; another record is no head.
fn head_in(record: Record, at: At) -> Result<Head, Fault>
    ensures { result ≡ head_or at (item_of «record».entry) }
{
    match record {
        Record::Head(head) => Ok(head),
        _ => Err(Fault::HeadMisplaced(at)),
    }
}
