// The rules of play: which positions are won.
#![tactic(auto)]

ghost use Rattle.play.specs.Play.{Decides};

// Whether the positions of a value are won, in any lawful game.
#[tactic(auto, using(crate::proofs::Theorem::decides))]
pub fn is_won(value: u32) -> bool
    ensures { Decides result value }
{
    value != 0
}
