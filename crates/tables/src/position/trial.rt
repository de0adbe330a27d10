// A trial: a position on which moves are tried, and which is put back whole when the trial ends.
ghost use Rattle.std.specs.Prelude.{◌≡◌};
ghost use Rattle.play.specs.Play.{after, position_value};
ghost use Rattle.tables.specs.Coins.{coins};

use super::Position;
use crate::calls::Move;
use games::Game;

pub struct Trial<'a> {
    position: &'a mut Position,
    saved: Position,
}

impl<'a> Trial<'a> {
    // A trial on a position, whose coins it keeps.
    pub fn new(position: &'a mut Position) -> Trial<'a>
        ensures lent { result.position.ghost_name ≡ position.entry.ghost_name }
        ensures starts { result.position.now ≡ position.old }
        ensures saved { result.saved ≡ position.old }
    {
        let saved = *position;
        Trial { position, saved }
    }

    // Makes a move on trial.
    pub fn turn<G: Game>(&mut self, game: &G, m: Move)
        ensures lent { self.new.position.ghost_name ≡ self.old.position.ghost_name }
        ensures saved { self.new.saved ≡ self.old.saved }
        ensures coins { coins self.new.position.now ≡ after (G.Game.rules game.now) (coins self.old.position.now) m.cell m.number }
    {
        self.position.turn(game, m);
    }

    // The value of the position on trial.
    pub fn sum<G: Game>(&self, game: &G) -> u32
        ensures { result ≡ position_value (G.Game.rules game.now) (coins self.now.position.now) }
    {
        self.position.sum(game)
    }
}

impl Drop for Trial<'_> {
    // Puts back every coin.
    fn drop(self)
        ensures { self.exit.0.now ≡ self.entry.saved }
    {
        *self.position = self.saved;
        let Trial {
            position: _,
            saved: _,
        } = self;
    }
}
