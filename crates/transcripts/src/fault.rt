// Why a transcript cannot be read on.
ghost use Rattle.std.specs.Prelude.{◌≡◌, true};
ghost use Rattle.transcripts.specs.Faults.{fault_at, fault_layer, fault_number, layer_share, is_among};
ghost use Rattle.transcripts.specs.declared.fault.Fault.TheVariants.{Records};

use records::bytes::At;
use records::record::RecordFault;

// The part of the reading that a fault comes from.
#[derive(Clone, Copy, Debug, PartialEq, Eq)]
pub enum Layer {
    Bytes,
    Records,
    Referee,
}

#[derive(Clone, Copy, Debug, PartialEq, Eq)]
pub enum Fault {
    // A fault of the records below.
    Records(RecordFault),
    // The head is not first, or comes again.
    HeadMisplaced(At),
    // The head's pile is not one of the numbered ones.
    NoPile(At),
    // The file stops before an end record.
    NoEnd(At),
    // Bytes follow the end record.
    AfterEnd(At),
    // The line buffer is below 128 bytes.
    SmallBuffer(At),
}

impl From<RecordFault> for Fault {
    ghost from_gives = { λ e r. r ≡ Records e };

    fn from(below: RecordFault) -> Fault {
        Fault::Records(below)
    }
}

impl Fault {
    // By a match: a variant that holds a place can have no number of its own.
    pub fn number(self) -> u32
        ensures { result ≡ fault_number self }
    {
        match self {
            Fault::Records(fault) => fault.number(),
            Fault::HeadMisplaced(_) => 13,
            Fault::NoPile(_) => 14,
            Fault::NoEnd(_) => 17,
            Fault::AfterEnd(_) => 18,
            Fault::SmallBuffer(_) => 19,
        }
    }

    pub fn layer(self) -> Layer
        ensures layer { result ≡ fault_layer self }
        ensures share { is_among (fault_number self) (layer_share result) ≡ true }
    {
        match self {
            Fault::Records(RecordFault::Bytes(_)) => Layer::Bytes,
            Fault::Records(_) => Layer::Records,
            _ => Layer::Referee,
        }
    }

    // The record that would have been read.
    pub fn at(self) -> At
        ensures { result ≡ fault_at self }
    {
        match self {
            Fault::Records(fault) => fault.at(),
            Fault::HeadMisplaced(at)
            | Fault::NoPile(at)
            | Fault::NoEnd(at)
            | Fault::AfterEnd(at)
            | Fault::SmallBuffer(at) => at,
        }
    }
}
