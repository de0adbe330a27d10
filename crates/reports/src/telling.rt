// What comes of a record at a table.
ghost use Rattle.std.specs.Prelude.{◌≡◌, ◌+◌, ◌≤◌, Ok};
ghost use Rattle.records.specs.Records.{call_of, item_of, item_size};
ghost use Rattle.std.specs.Option.{option_map};
ghost use Rattle.tables.specs.Calls.{reply_to};
ghost use Rattle.tables.specs.Coins.{coins};
ghost use Rattle.reports.specs.Outcomes.{text_length, told_of};
ghost use Rattle.reports.specs.Steps.{CallCarries, CallLeaves, reply_for, tell as told_by};

use crate::outcome::Outcome;
use games::Game;
use records::record::Record;
use tables::calls::Answer;
use tables::table::Table;

// Does the call of a record, if it has one, and says what came of the record.
#[inline(always)]
pub(crate) fn tell<'a, G: Game>(table: &mut Table<G>, record: Record<'a>) -> Outcome<'a>
    ensures game { table.new.game ≡ table.old.game }
    ensures told { told_of result ≡ told_by (G.Game.rules table.old.game) (coins table.new.kept.position) table.new.kept.state (reply_for (G.Game.rules table.old.game) (coins table.old.kept.position) table.old.kept.state (item_of «record».entry)) (item_of «record».entry) }
    ensures leaves { CallLeaves (G.Game.rules table.old.game) table.old.kept table.new.kept (call_of (item_of «record».entry)) }
    ensures short { text_length (told_of result) + 4 ≤ item_size (item_of «record».entry) }
    ensures run { CallCarries (G.Game.rules table.old.game) table.old.kept table.new.kept (call_of (item_of «record».entry)) }
{
    let Some(call) = record.call() else {
        return describe(table, record, None);
    };
    match table.call(call) {
        Ok(answer) => describe(table, record, Some(answer)),
        Err(refusal) => Outcome::Refused(refusal),
    }
}

// What to tell of a record, by the answer to its call and the table afterwards.
fn describe<'a, G: Game>(
    table: &Table<G>,
    record: Record<'a>,
    answer: Option<Answer>,
) -> Outcome<'a>
    ensures told { told_of result ≡ told_by (G.Game.rules table.now.game) (coins table.now.kept.position) table.now.kept.state (option_map Ok answer) (item_of «record».entry) }
    ensures short { text_length (told_of result) + 4 ≤ item_size (item_of «record».entry) }
{
    match record {
        Record::Head(_) => Outcome::Board(table.game().size()),
        Record::Lay(cell) => Outcome::Laid(cell),
        Record::Begin => Outcome::Begun(table.state()),
        Record::Turn(m) => Outcome::Turned(m, table.sum(), table.state()),
        Record::Advise => match answer {
            Some(Answer::Advice(Some(m))) => Outcome::Play(m),
            _ => Outcome::Lost,
        },
        Record::Remark(text) => Outcome::Said(text),
        Record::End => Outcome::End,
    }
}
