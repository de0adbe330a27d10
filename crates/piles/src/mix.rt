// A mixture: the cells of two games side by side.
ghost use Rattle.std.specs.Prelude.{◌≡◌, MatchOption, false};
ghost use Rattle.piles.specs.Layers.{mixes, mixture};
ghost use Rattle.piles.specs.Parts.{IsPart};
ghost use Rattle.piles.specs.Laws.MixLaws.{mixture_lawful, mixture_replies};

use games::rules::MOST_CELLS;
use games::{Cells, Game};

#[derive(Clone, Copy, Debug, PartialEq, Eq, Drop)]
pub struct Mix<A, B> {
    left: A,
    right: B,
}

// A cell of the mixture, by its number in the game that it belongs to.
#[derive(Clone, Copy, Debug, PartialEq, Eq)]
enum Part {
    Left(u32),
    Right(u32),
}

impl<A: Game, B: Game> Mix<A, B> {
    pub fn new(left: A, right: B) -> Mix<A, B>
        ensures { mixture (A.Game.rules result.left) (B.Game.rules result.right) ≡ mixture (A.Game.rules left) (B.Game.rules right) }
    {
        Mix { left, right }
    }

    // Whether the cells of both are few enough for one game.
    fn fits(&self) -> bool
        ensures { result ≡ mixes (A.Game.rules self.now.left) (B.Game.rules self.now.right) }
    {
        self.left.size() + self.right.size() <= MOST_CELLS
    }

    // The game that a cell belongs to; a mixture with too many cells has none.
    fn part(&self, c: u32) -> Option<Part>
        ensures { MatchOption result (mixes (A.Game.rules self.now.left) (B.Game.rules self.now.right) ≡ false) (λ p. IsPart (A.Game.rules self.now.left) (B.Game.rules self.now.right) c p) }
    {
        if !self.fits() {
            return None;
        }
        Some(
            c.checked_sub(self.left.size())
                .map_or(Part::Left(c), Part::Right),
        )
    }
}

impl<A: Game, B: Game> Game for Mix<A, B> {
    ghost rules = { λ m. mixture (A.Game.rules m.left) (B.Game.rules m.right) };

    ghost lawful = { λ m. mixture_lawful _ _ (A.Game.lawful m.left) (B.Game.lawful m.right) };

    ghost replies = { λ m. mixture_replies _ _ (A.Game.replies m.left) (B.Game.replies m.right) };

    fn size(&self) -> u32 {
        if self.fits() {
            self.left.size() + self.right.size()
        } else {
            0
        }
    }

    fn ceiling(&self) -> u32 {
        if self.fits() {
            self.left.ceiling().max(self.right.ceiling())
        } else {
            0
        }
    }

    // Count and value each by itself: one function would take two closures, one for each game.
    fn count(&self, c: u32) -> u32 {
        match self.part(c) {
            Some(Part::Left(c)) => self.left.count(c),
            Some(Part::Right(c)) => self.right.count(c),
            None => 0,
        }
    }

    fn turns(&self, c: u32, i: u32, d: u32) -> bool {
        match self.part(c) {
            Some(Part::Left(c)) => self.left.turns(c, i, d),
            Some(Part::Right(c)) => d
                .checked_sub(self.left.size())
                .is_some_and(|d| self.right.turns(c, i, d)),
            None => false,
        }
    }

    fn turned(&self, c: u32, i: u32) -> Cells {
        match self.part(c) {
            Some(Part::Left(c)) => self.left.turned(c, i),
            Some(Part::Right(c)) => {
                let mut cells = Cells::new();
                cells.toggle_first(c / 32 + 1, &self.right.turned(c, i), self.left.size());
                cells
            }
            None => Cells::new(),
        }
    }

    fn value(&self, c: u32) -> u32 {
        match self.part(c) {
            Some(Part::Left(c)) => self.left.value(c),
            Some(Part::Right(c)) => self.right.value(c),
            None => 0,
        }
    }

    fn reply(&self, c: u32, w: u32) -> Option<u32> {
        match self.part(c)? {
            Part::Left(c) => self.left.reply(c, w),
            Part::Right(c) => self.right.reply(c, w),
        }
    }
}
