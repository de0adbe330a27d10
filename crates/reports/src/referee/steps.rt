// Steps: a record is read, the table is called, and a line is written.
ghost use Rattle.std.specs.Prelude.{◌≡◌, ◌↔◌, [], length, IfOk, None, Ok, Err};
ghost use Rattle.piles.specs.Numbered.{pile_of};
ghost use Rattle.tables.specs.Runs.{Stands};
ghost use Rattle.transcripts.specs.Readings.{as_first, reading, start};
ghost use Rattle.reports.specs.Steps.{game_found, met, Stepped, Tells};
ghost use Rattle.transcripts.specs.declared.fault.Fault.{Fault};
ghost use Rattle.reports.specs.Steps.{game_of as file_game};

use super::Referee;
use crate::lines::is_small;
use crate::outcome::Told;
use crate::telling::tell;
use games::{Game, Twins};
use piles::pile::Pile;
use piles::product::Product;
use records::record::Head;
use std::alloc::{AllocError, Global};
use tables::table::Table;
use transcripts::fault::Fault;
use transcripts::unread::Unread;
use valued::Valued;

impl<'a> Referee<'a> {
    // A referee at the first record of a transcript, with a new table of the head's pile.
    pub fn new(heap: Global, transcript: Unread<'a>) -> Result<Referee<'a>, AllocError>
        ensures reading { IfOk result (λ x. reading x.body ≡ start transcript.entry.file.now) }
        ensures game { IfOk result (λ x. pile_of x.table.game.game ≡ file_game transcript.entry.file.now) }
        ensures run { IfOk result (λ x. Stands (file_game transcript.entry.file.now) [] x.table.kept) }
    {
        let game = Valued::new(heap, board(transcript.check()))?;
        Ok(Referee {
            body: transcript.into_body(),
            table: Table::new(game),
        })
    }

    // Reads a record, calls the table, writes a line into the buffer and gives its length, or 0 behind the end record, as `Read::read`
    // gives 0 at the end: no line is empty. A fault changes nothing, and is met again.
    pub fn step(&mut self, line: &mut [u8]) -> Result<usize, Fault>
        ensures game { self.new.table.game ≡ self.old.table.game }
        ensures does { Stepped (pile_of self.old.table.game.game) (reading self.old.body) (reading self.new.body) self.old.table.kept self.new.table.kept line.old line.new result }
        ensures again { (e : Fault) → result ≡ Err e → met (length line.new) (reading self.new.body) ≡ Err e }
        ensures end { (result ≡ Ok 0) ↔ (met (length line.old) (reading self.old.body) ≡ Ok None) }
    {
        if is_small(line) {
            return Err(Fault::SmallBuffer(self.body.at()));
        }
        let Some(told) = self.tell_next()? else {
            return Ok(0);
        };
        Ok(told.put(line))
    }

    // Reads a record, calls the table and gives the line of what came of it; there is none behind the end record.
    #[inline(always)]
    pub(crate) fn tell_next(&mut self) -> Result<Option<Told<'a>>, Fault>
        ensures game { self.new.table.game ≡ self.old.table.game }
        ensures does { Tells (pile_of self.old.table.game.game) (reading self.old.body) (reading self.new.body) self.old.table.kept self.new.table.kept result }
    {
        let at = self.body.at();
        let Some(record) = self.body.read()? else {
            return Ok(None);
        };
        let outcome = tell(&mut self.table, record);
        Ok(Some(Told::new(at.number, outcome)))
    }
}

// The pile of a head; behind a refused head the board has no cells.
fn board(head: Result<Head, Fault>) -> Pile
    ensures { pile_of result ≡ game_found (as_first head) }
{
    let no_cells = Pile::TurningCorners(Product::new(Twins::new(0), Twins::new(0)));
    head.ok().and_then(Head::board).unwrap_or(no_cells)
}
