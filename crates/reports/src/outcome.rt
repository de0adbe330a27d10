// What came of a record, and its line.
ghost use Rattle.std.specs.Prelude.{◌≡◌, ◌≤◌, [], false, length};
ghost use Rattle.reports.specs.Lines.{in_front, too_small};
ghost use Rattle.reports.specs.Outcomes.{line_of, over_mark as mark_of, text_length, told_of};

use crate::lines::Line;
use std::marker::Model;
use tables::calls::{Move, Refusal, State};

#[derive(Clone, Copy, Debug, PartialEq, Eq)]
pub(crate) enum Outcome<'a> {
    // The size of the board.
    Board(u32),
    // The cell.
    Laid(u32),
    // The state that the table came to.
    Begun(State),
    // The move, the value of the position afterwards, and the state that the table came to.
    Turned(Move, u32, State),
    // A winning move.
    Play(Move),
    Lost,
    Refused(Refusal),
    // The text of a remark.
    Said(&'a [u8]),
    End,
}

// What is told of a record: its number and what came of it. Contracts see it as the line.
#[derive(Drop)]
pub(crate) struct Told<'a> {
    number: usize,
    outcome: Outcome<'a>,
}

impl<'a> Model for Told<'a> {
    ghost use Rattle.std.specs.Prelude.{ℕ, ◌≤◌, List};
    ghost use Rattle.reports.specs.Outcomes.{line_of, text_length, told_of};

    ghost Value = { List ℕ };

    ghost view = { λ t. line_of t.number (told_of t.outcome) };

    ghost invariant = { λ t. text_length (told_of t.outcome) ≤ 80 };
}

impl<'a> Told<'a> {
    // What is told of the record with that number.
    pub(crate) fn new(number: usize, outcome: Outcome<'a>) -> Told<'a>
        requires { text_length (told_of outcome) ≤ 80 }
        ensures { result ≡ line_of number (told_of outcome.entry) }
    {
        Told { number, outcome }
    }

    // Writes the line into an empty one.
    #[inline(always)]
    pub(crate) fn write(&self, line: &mut Line)
        requires { line.old ≡ [] }
        ensures { line.new ≡ self.now }
    {
        let n = self.number;
        match self.outcome {
            Outcome::Board(size) => line.write(n, b" board", &[size], b""),
            Outcome::Laid(cell) => line.write(n, b" laid", &[cell], b""),
            Outcome::Begun(state) => line.write(n, b" begun", &[], over_mark(state)),
            Outcome::Turned(m, value, state) => {
                let numbers = [m.cell, m.number, value];
                line.write(n, b" turned", &numbers, over_mark(state))
            }
            Outcome::Play(m) => line.write(n, b" play", &[m.cell, m.number], b""),
            Outcome::Lost => line.write(n, b" lost", &[], b""),
            Outcome::Refused(refusal) => line.write(n, b" no", &[refusal.number()], b""),
            Outcome::Said(text) => line.write(n, b" said ", &[], text),
            Outcome::End => line.write(n, b" end", &[], b""),
        }
    }

    // Puts the line in front of a buffer, and gives its length.
    #[inline(always)]
    pub(crate) fn put(&self, buffer: &mut [u8]) -> usize
        requires { too_small (length buffer.old) ≡ false }
        ensures length { result ≡ length self.now }
        ensures buffer { buffer.new ≡ in_front self.now buffer.old }
    {
        let mut line = Line::new();
        self.write(&mut line);
        line.put(buffer)
    }
}

// What is added when the table is over.
fn over_mark(state: State) -> &'static [u8]
    ensures { result.now ≡ mark_of state }
{
    match state {
        State::Over => b" over",
        State::Setting | State::Playing => b"",
    }
}
