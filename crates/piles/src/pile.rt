// The six numbered piles, as one game.
ghost use Rattle.std.specs.Prelude.{◌≡◌};
ghost use Rattle.piles.specs.Numbered.{numbered, pile_of};
ghost use Rattle.std.specs.Option.{option_map};
ghost use Rattle.piles.specs.Laws.PileLaws.{pile_lawful, pile_replies};

use crate::mix::Mix;
use crate::product::Product;
use games::{Cells, Game, Ruler, Take, Turtles, Twins};

#[derive(Clone, Copy, Debug, PartialEq, Eq)]
pub enum Pile {
    TurningCorners(Product<Twins, Twins>),
    Rugs(Product<Ruler, Ruler>),
    TurtlesByRuler(Product<Turtles, Ruler>),
    TwinsByTake(Product<Twins, Take>),
    CornersAndRugs(Mix<Product<Twins, Twins>, Product<Ruler, Ruler>>),
    MixedByTwins(Product<Mix<Turtles, Ruler>, Twins>),
}

impl Pile {
    // The pile of that number, from 1 to 6. Four numbers, as a head names them: a struct at each of the many calls is no plainer.
    #[tactic(auto, unfolding(crate::specs::Numbered::numbered))]
    pub fn new(number: u32, w: u32, h: u32, set: u32) -> Option<Pile>
        ensures { option_map pile_of result ≡ numbered number w h set }
    {
        match number {
            1 => Some(Pile::TurningCorners(Product::new(Twins::new(w), Twins::new(h)))),
            2 => Some(Pile::Rugs(Product::new(Ruler::new(w), Ruler::new(h)))),
            3 => Some(Pile::TurtlesByRuler(Product::new(Turtles::new(w), Ruler::new(h)))),
            4 => Some(Pile::TwinsByTake(Product::new(Twins::new(w), Take::new(h, set)))),
            5 => Some(Pile::CornersAndRugs(Mix::new(
                Product::new(Twins::new(w), Twins::new(w)),
                Product::new(Ruler::new(h), Ruler::new(h)),
            ))),
            6 => Some(Pile::MixedByTwins(Product::new(
                Mix::new(Turtles::new(w), Ruler::new(h)),
                Twins::new(4),
            ))),
            _ => None,
        }
    }
}

// Hands a question to the pile that is there. Tried as a method that takes a closure over `&dyn Game`: no contract can be stated of it.
macro_rules! hand_on {
    ($pile:expr, $p:ident => $question:expr) => {
        match $pile {
            Pile::TurningCorners($p) => $question,
            Pile::Rugs($p) => $question,
            Pile::TurtlesByRuler($p) => $question,
            Pile::TwinsByTake($p) => $question,
            Pile::CornersAndRugs($p) => $question,
            Pile::MixedByTwins($p) => $question,
        }
    };
}

impl Game for Pile {
    ghost rules = { pile_of };

    ghost lawful = { pile_lawful };

    ghost replies = { pile_replies };

    fn size(&self) -> u32 {
        hand_on!(self, p => p.size())
    }

    fn ceiling(&self) -> u32 {
        hand_on!(self, p => p.ceiling())
    }

    fn count(&self, c: u32) -> u32 {
        hand_on!(self, p => p.count(c))
    }

    fn turns(&self, c: u32, i: u32, d: u32) -> bool {
        hand_on!(self, p => p.turns(c, i, d))
    }

    fn turned(&self, c: u32, i: u32) -> Cells {
        hand_on!(self, p => p.turned(c, i))
    }

    fn value(&self, c: u32) -> u32 {
        hand_on!(self, p => p.value(c))
    }

    fn reply(&self, c: u32, w: u32) -> Option<u32> {
        hand_on!(self, p => p.reply(c, w))
    }
}
