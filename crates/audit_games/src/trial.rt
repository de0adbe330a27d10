// Tries games against the values that their moves alone give to their cells.
ghost use Rattle.std.specs.Prelude.{◌≡◌, ℕ, ◌<◌, ◌≤◌, true, false, length, IfSome, MatchOption, slice_index};
ghost use Rattle.audit_games.specs.Lists.{LacksBelow};

use crate::findings::Findings;
use crate::limits::MOST_CELLS;
use crate::rests::{lowest_move, rests, smallest_missing};
use anyhow::Context;
use games::Game;
use std::alloc::Global;
use tallies::Tally;

// Which of the moves with the same rest a reply may be.
#[derive(Clone, Copy, Debug, PartialEq, Eq)]
pub enum Choice {
    Lowest,
    Any,
}

// A trial of some games, with what it has found so far.
#[derive(Drop)]
pub struct Trial {
    choice: Choice,
    heap: Global,
    pub findings: Findings,
}

impl Trial {
    pub fn new(title: &'static str, choice: Choice, heap: Global) -> Trial {
        Trial {
            choice,
            heap,
            findings: Findings::new(title),
        }
    }

    // Tries every cell, move and reply of a game that is to have that many cells.
    pub fn examine<G: Game>(&mut self, game: &G, cells: u32) -> anyhow::Result<()> {
        let subject = Subject { game, cells };
        self.findings.sizes.count(subject.has_size());
        let mut values = Vec::new(self.heap);
        // A loop: each value is found from those before it, by the rests that the replies are tried on too.
        for c in 0..cells {
            let rests = rests(game, c, &values, self.heap)?;
            let value = smallest_missing(&rests).context("every number is a rest")?;
            values.push(value)?;
            self.findings.values.count(game.value(c) == value);
            self.findings.counts.count(subject.is_counted(c));
            subject.try_moves(c, &mut self.findings.moves);
            let expected = Expected {
                value,
                rests: &rests,
                choice: self.choice,
            };
            expected.try_replies(game, c, &mut self.findings.replies);
        }
        subject.try_off_board(&mut self.findings.off_board);
        Ok(())
    }
}

// A game that is tried, and how many cells it is to have.
#[derive(Drop)]
struct Subject<'a, G> {
    game: &'a G,
    cells: u32,
}

impl<G: Game> Subject<'_, G> {
    // Without cells there is no ceiling either.
    fn has_size(&self) -> bool
        ensures size { result ≡ true → (G.Game.rules self.now.game.now).cells ≡ self.now.cells }
        ensures ceiling { result ≡ true → self.now.cells ≡ 0 → (G.Game.rules self.now.game.now).ceiling ≡ 0 }
    {
        self.game.size() == self.cells && (self.cells > 0 || self.game.ceiling() == 0)
    }

    // Whether the count at c is within the ceiling, and no number from it up is a move's.
    fn is_counted(&self, c: u32) -> bool
        ensures { result ≡ true → (G.Game.rules self.now.game.now).count c ≤ (G.Game.rules self.now.game.now).ceiling }
    {
        let game = self.game;
        let count = game.count(c);
        let is_move = |d| game.turns(c, count, d) || game.turns(c, u32::MAX, d);
        count <= game.ceiling() && !(0..self.cells).any(is_move)
    }

    // Every move turns its own cell and none above it.
    fn try_moves(&self, c: u32, tally: &mut Tally) {
        // Loops here and below: counted as `Tally` says.
        for i in 0..self.game.count(c) {
            tally.count(self.game.turns(c, i, c) && !self.turns_above(c, i));
        }
    }

    // Whether move i at c turns a cell above c, on the board or past its end.
    fn turns_above(&self, c: u32, i: u32) -> bool
        ensures { result ≡ false → (d : ℕ) → c < d → d < self.now.cells → (G.Game.rules self.now.game.now).holds c i d ≡ false }
    {
        let game = self.game;
        let mut above = c.saturating_add(1)..self.cells.saturating_add(2);
        above.any(|d| game.turns(c, i, d)) || game.turns(c, i, u32::MAX)
    }

    fn try_off_board(&self, tally: &mut Tally) {
        for c in [
            self.cells,
            self.cells.saturating_add(1),
            MOST_CELLS,
            u32::MAX,
        ] {
            tally.count(is_off_board(self.game, c));
        }
    }
}

// What the replies at a cell have to fit.
#[derive(Clone, Copy, Debug, PartialEq, Eq)]
struct Expected<'a> {
    value: u32,
    rests: &'a [u32],
    choice: Choice,
}

impl Expected<'_> {
    // Tries the replies at c to every number up to two past the value and the largest rest.
    fn try_replies<G: Game>(&self, game: &G, c: u32, tally: &mut Tally) {
        let largest = self.rests.iter().copied().max().unwrap_or(0);
        for w in 0..largest.max(self.value).saturating_add(3) {
            tally.count(self.allows(w, game.reply(c, w)));
        }
    }

    // Whether that may be the reply to w: a move with the rest w below the value, and none from it up.
    fn allows(&self, w: u32, reply: Option<u32>) -> bool
        ensures right { result ≡ true → MatchOption reply (self.now.value ≤ w) (λ i. (w < self.now.value) × (i < length self.now.rests.now) × (slice_index self.now.rests.now i ≡ w)) }
        ensures lowest { result ≡ true → self.now.choice ≡ Choice.Lowest → IfSome reply (LacksBelow self.now.rests.now w) }
    {
        let Some(i) = reply else {
            return w >= self.value;
        };
        let has_rest = match self.choice {
            Choice::Lowest => lowest_move(self.rests, w) == Some(i as usize),
            Choice::Any => self.rests.get(i as usize) == Some(&w),
        };
        has_rest && w < self.value
    }
}

// Whether there is nothing at c.
pub fn is_off_board<G: Game>(game: &G, c: u32) -> bool
    ensures count { result ≡ true → (G.Game.rules game.now).count c ≡ 0 }
    ensures value { result ≡ true → (G.Game.rules game.now).worth c ≡ 0 }
{
    let is_met = |n| game.turns(c, n, c) || game.turns(c, 0, n) || game.reply(c, n).is_some();
    game.count(c) == 0 && game.value(c) == 0 && !(0..4).any(is_met)
}
