// A referee: a transcript and the table on which it is played.
use piles::Pile;
use tables::table::Table;
use transcripts::body::Body;
use valued::Valued;

mod steps;

#[derive(Debug, PartialEq, Eq, Drop)]
pub struct Referee<'a> {
    body: Body<'a>,
    table: Table<Valued<Pile>>,
}
