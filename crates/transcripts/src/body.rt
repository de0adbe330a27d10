// The reader of a transcript's records, the head first.
ghost use Rattle.std.specs.Prelude.{◌*◌, ◌≤◌};

mod reading;

// How far a transcript has been read.
#[derive(Debug, PartialEq, Eq, Drop)]
pub struct Body<'a> {
    file: &'a [u8],
    // A place, and not the rest of the file: faults name it.
    place: usize,
    read: usize,
    // A flag, since a reader behind the end record holds nothing more.
    ended: bool,
    ghost counted: { 4 * read ≤ place },
}
