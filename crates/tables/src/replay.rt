// Runs of calls on a new table.
ghost use Rattle.std.specs.Prelude.{◌≡◌, length, IfOk, vec_len};
ghost use Rattle.tables.specs.Runs.{run_of, Promise};

use crate::calls::{Answer, Call, Refusal};
use crate::table::Table;
use games::Game;
use std::alloc::{AllocError, Global};

// Does the calls, in order, on a new table, and gives every reply.
pub fn replay<G: Game + Drop>(
    heap: Global,
    game: G,
    calls: &[Call],
) -> Result<Vec<Result<Answer, Refusal>>, AllocError>
    ensures { IfOk result (λ v. (vec_len v ≡ length calls.now) × Promise (G.Game.rules game) (run_of calls.now v.items)) }
{
    let mut table = Table::new(game);
    let mut replies = Vec::new(heap);
    // A loop: the same as a chain was tried, and that its replies are those of a run was not proved.
    for call in calls {
        replies.push(table.call(*call))?;
    }
    Ok(replies)
}
