// A game that keeps the values of its cells.
#![tactic(auto)]

ghost use Rattle.std.specs.Prelude.{◌≡◌, ℕ, IfOk, vec_len, slice_index};

use games::{Cells, Game};
use std::alloc::{AllocError, Global};

// A game and the values of its cells; off the board the value is 0.
#[derive(Debug, PartialEq, Eq, Drop)]
pub struct Valued<G: Game> {
    game: G,
    values: Vec<u32>,
    ghost whole: { vec_len values ≡ (G.Game.rules game).cells },
    ghost right: { (c : ℕ) → slice_index values.items c ≡ (G.Game.rules game).worth c },
}

// The values of all cells of a game.
pub fn values_of<G: Game>(heap: Global, game: &G) -> Result<Vec<u32>, AllocError>
    ensures whole { IfOk result (λ v. vec_len v ≡ (G.Game.rules game.now).cells) }
    ensures right { IfOk result (λ v. (c : ℕ) → slice_index v.items c ≡ (G.Game.rules game.now).worth c) }
{
    (0..game.size()).map(|c| game.value(c)).collect(heap)
}

impl<G: Game + Drop> Valued<G> {
    // The same game; the value of every cell is found once.
    pub fn new(heap: Global, game: G) -> Result<Valued<G>, AllocError>
        ensures { IfOk result (λ v. v.game ≡ game) }
    {
        let values = values_of(heap, &game)?;
        Ok(Valued { game, values })
    }
}

impl<G: Game> Game for Valued<G> {
    ghost rules = { λ v. G.Game.rules v.game };

    ghost lawful = { λ v. G.Game.lawful v.game };

    ghost replies = { λ v. G.Game.replies v.game };

    fn size(&self) -> u32 {
        self.values.len() as u32
    }

    fn ceiling(&self) -> u32 {
        self.game.ceiling()
    }

    fn count(&self, c: u32) -> u32 {
        self.game.count(c)
    }

    fn turns(&self, c: u32, i: u32, d: u32) -> bool {
        self.game.turns(c, i, d)
    }

    fn turned(&self, c: u32, i: u32) -> Cells {
        self.game.turned(c, i)
    }

    fn value(&self, c: u32) -> u32 {
        self.values.get(c as usize).copied().unwrap_or(0)
    }

    fn reply(&self, c: u32, w: u32) -> Option<u32> {
        self.game.reply(c, w)
    }
}

#[cfg(test)]
mod tests {
    use super::*;
    use games::Ruler;
    use std::test::Fail;

    #[test]
    fn a_row_keeps_its_values(rt: HostRuntime) -> Result<(), Fail> {
        let ruler = Valued::new(rt.alloc(), Ruler::new(6))?;
        assert_eq!(rt; ruler.size(), 6);
        assert_eq!(rt; ruler.count(5), 6);
        assert_eq!(rt; ruler.value(3), 4);
        assert_eq!(rt; ruler.value(5), 2);
        assert_eq!(rt; ruler.value(6), 0);
        Ok(())
    }
}
