// A table: a game and what is kept of its play.
ghost use Rattle.std.specs.Prelude.{◌≡◌};
ghost use Rattle.play.specs.Play.{position_value};
ghost use Rattle.tables.specs.Coins.{coins};

use crate::calls::{Answer, Call, Move, Refusal, Side, State};
use crate::position::Position;
use crate::position::trial::Trial;
use games::Game;
use games::cells::words_of;
use std::alloc::AllocError;

// The coins, the state and the side to move.
#[derive(Clone, Copy, Debug, PartialEq, Eq)]
pub struct Record {
    position: Position,
    state: State,
    side: Side,
}

#[derive(Copy, Debug, PartialEq, Eq, Drop)]
pub struct Table<G: Game> {
    game: G,
    kept: Record,
    // The value of the position, kept and not found anew at each call.
    value: u32,
    ghost valued: { value ≡ position_value (G.Game.rules game) (coins kept.position) },
}

// By hand: the clone of a game may have other values, so that a derived clone would not show `valued`.
impl<G: Game + Clone> Clone for Table<G> {
    ghost is_clone = { λ t r. G.is_clone t.game r.game × (r.kept ≡ t.kept) };

    ghost is_infallible = { λ t. G.is_infallible t.game };

    fn clone(&self) -> Result<Self, AllocError> {
        let game = self.game.clone()?;
        let value = self.kept.position.sum(&game);
        Ok(Table {
            game,
            kept: self.kept,
            value,
        })
    }
}

impl<G: Game> Table<G> {
    // Here and not above: these definitions name the table, whose own field cites what stands above.
    ghost use Rattle.games.specs.TakeValues.{any};
    ghost use Rattle.std.specs.Prelude.{[], ◌+◌, ◌*◌, ◌<◌};
    ghost use Rattle.std.specs.Result.{result_err};
    ghost use Rattle.tables.specs.Calls.{allowed_reply, falls, in_state, play_state, reply_to, DoesAllowed, Follows, LowestOf};
    ghost use Rattle.tables.specs.Calls.{advice as advice_of, move_fault as fault_of};
    ghost use Rattle.tables.specs.Coins.{all_tails};
    ghost use Rattle.tables.specs.Runs.{Does, Stands};
    ghost use Rattle.tables.specs.declared.calls.Call.TheVariants.{Advise, Begin, Lay, Turn, Value, Weigh};
    ghost use Rattle.tables.specs.declared.calls.Side.TheVariants.{First};
    ghost use Rattle.tables.specs.declared.calls.State.TheVariants.{Setting};

    // A new table is setting, all coins show tails, and the first side is to move.
    pub fn new(game: G) -> Table<G>
        ensures game { result.game ≡ game }
        ensures coins { coins result.kept.position ≡ all_tails }
        ensures state { result.kept.state ≡ Setting }
        ensures side { result.kept.side ≡ First }
        ensures run { Stands (G.Game.rules game) [] result.kept }
    {
        Table {
            game,
            kept: Record {
                position: Position::new(),
                state: State::Setting,
                side: Side::First,
            },
            value: 0,
        }
    }

    pub fn game(&self) -> &G
        ensures { result.now ≡ self.now.game }
    {
        &self.game
    }

    pub fn state(&self) -> State
        ensures { result ≡ self.now.kept.state }
    {
        self.kept.state
    }

    // The side to move.
    pub fn side(&self) -> Side
        ensures { result ≡ self.now.kept.side }
    {
        self.kept.side
    }

    // Whether the coin on c shows heads.
    pub fn heads(&self, c: u32) -> bool
        ensures { result ≡ coins self.now.kept.position c }
    {
        self.kept.position.heads(c)
    }

    // The value of the position, in every state and on every board.
    pub fn sum(&self) -> u32
        ensures { result ≡ position_value (G.Game.rules self.now.game) (coins self.now.kept.position) }
    {
        self.value
    }

    // Any of the calls.
    pub fn call(&mut self, call: Call) -> Result<Answer, Refusal>
        ensures { Does G.Game.rules call result self.old self.new }
    {
        self.dispatch(call)
    }

    // What a call does depends on the state and the call together. Apart from `call`: of one function the clause on runs was tried and not proved.
    fn dispatch(&mut self, call: Call) -> Result<Answer, Refusal>
        ensures game { self.new.game ≡ self.old.game }
        ensures answer { result ≡ reply_to (G.Game.rules self.old.game) (coins self.old.kept.position) self.old.kept.state call }
        ensures after { Follows (G.Game.rules self.old.game) call result self.old.kept self.new.kept }
    {
        if self.game.size() == 0 {
            return Err(Refusal::NoCells);
        }
        match (self.kept.state, call) {
            (_, Call::Value) => Ok(Answer::Worth(self.sum())),
            (State::Setting, Call::Lay(c)) => self.lay_coin(c),
            (State::Setting, Call::Begin) => Ok(Answer::Begun(self.settle())),
            (State::Playing, Call::Turn(m)) => self.make_move(m),
            (State::Playing, Call::Weigh(m)) => self.try_move(m),
            (State::Playing, Call::Advise) => Ok(Answer::Advice(self.find_advice())),
            _ => Err(Refusal::NotNow),
        }
    }

    // Each call by its name, as a player makes it, beside `call` for those of a list or a file. The replies have one type, as those of a run have.

    // Puts heads on c, while the table is setting.
    pub fn lay(&mut self, c: u32) -> Result<Answer, Refusal>
        ensures { Does G.Game.rules (Lay c) result self.old self.new }
    {
        self.call(Call::Lay(c))
    }

    // Ends the setting: the table is playing, or over if no head has a move.
    pub fn begin(&mut self) -> Result<Answer, Refusal>
        ensures { Does G.Game.rules Begin result self.old self.new }
    {
        self.call(Call::Begin)
    }

    // Turns the coins of a move and passes the turn, while the table is playing.
    pub fn turn(&mut self, m: Move) -> Result<Answer, Refusal>
        ensures { Does G.Game.rules (Turn m) result self.old self.new }
    {
        self.call(Call::Turn(m))
    }

    // The value that the position would have after a move; nothing is changed.
    pub fn weigh(&mut self, m: Move) -> Result<Answer, Refusal>
        ensures { Does G.Game.rules (Weigh m) result self.old self.new }
    {
        self.call(Call::Weigh(m))
    }

    // The value of the position; nothing is changed.
    pub fn value(&mut self) -> Result<Answer, Refusal>
        ensures { Does G.Game.rules Value result self.old self.new }
    {
        self.call(Call::Value)
    }

    // A move that leaves the position lost, or none where it is lost; nothing is changed.
    pub fn advise(&mut self) -> Result<Answer, Refusal>
        ensures { Does G.Game.rules Advise result self.old self.new }
    {
        self.call(Call::Advise)
    }

    // Puts heads on c.
    fn lay_coin(&mut self, c: u32) -> Result<Answer, Refusal>
        ensures { DoesAllowed G.Game.rules (Lay c) result self.old self.new }
    {
        if c >= self.game.size() {
            return Err(Refusal::OffBoard);
        }
        if self.heads(c) {
            return Err(Refusal::Heads);
        }
        self.kept.position.flip(c);
        self.value ^= self.game.value(c);
        Ok(Answer::Laid)
    }

    // Makes a move and passes the turn.
    fn make_move(&mut self, m: Move) -> Result<Answer, Refusal>
        ensures { DoesAllowed G.Game.rules (Turn m) result self.old self.new }
    {
        self.check_move(m)?;
        self.value ^= self.kept.position.turn_and_sum(&self.game, m);
        self.kept.side = self.kept.side.other();
        Ok(Answer::Turned(self.settle()))
    }

    // The value that a move would leave, found on trial.
    fn try_move(&mut self, m: Move) -> Result<Answer, Refusal>
        ensures same { self.new ≡ self.old }
        ensures answer { result ≡ allowed_reply (G.Game.rules self.old.game) (coins self.old.kept.position) (Weigh m) }
    {
        self.check_move(m)?;
        let mut trial = Trial::new(&mut self.kept.position);
        trial.turn(&self.game, m);
        Ok(Answer::Worth(trial.sum(&self.game)))
    }

    // Refuses a move that cannot be made, and says why.
    fn check_move(&self, m: Move) -> Result<(), Refusal>
        ensures { result_err result ≡ fault_of (G.Game.rules self.now.game) (coins self.now.kept.position) m }
    {
        if m.cell >= self.game.size() {
            Err(Refusal::OffBoard)
        } else if !self.heads(m.cell) {
            Err(Refusal::Tails)
        } else if m.number >= self.game.count(m.cell) {
            Err(Refusal::NoMove)
        } else {
            Ok(())
        }
    }

    // Comes to playing, or to over where no head has a move, and says which.
    fn settle(&mut self) -> State
        ensures state { result ≡ play_state (G.Game.rules self.old.game) (coins self.old.kept.position) }
        ensures game { self.new.game ≡ self.old.game }
        ensures kept { self.new.kept ≡ in_state self.old.kept result }
    {
        let state = if self.kept.position.can_move(&self.game) {
            State::Playing
        } else {
            State::Over
        };
        self.kept.state = state;
        state
    }

    // A move that leaves the position lost, if there is one.
    fn find_advice(&self) -> Option<Move>
        ensures { result ≡ advice_of (G.Game.rules self.now.game) (coins self.now.kept.position) }
    {
        let v = self.sum();
        if v == 0 {
            return None;
        }
        let cell = self.lowest_head(v)?;
        let number = self.game.reply(cell, self.game.value(cell) ^ v)?;
        Some(Move { cell, number })
    }

    // The lowest head whose value falls when v is added.
    fn lowest_head(&self, v: u32) -> Option<u32>
        ensures { LowestOf (G.Game.rules self.now.game).cells (falls (G.Game.rules self.now.game) (coins self.now.kept.position) v) result }
    {
        let k = (0..words_of(&self.game)).find(|k| self.falls_in(*k, v))?;
        (32 * k..32 * k + 32).find(|c| self.falls(*c, v))
    }

    // Whether the value of some head of word k falls when v is added.
    fn falls_in(&self, k: u32, v: u32) -> bool
        requires { k < 128 }
        ensures { result ≡ any 32 (λ j. falls (G.Game.rules self.now.game) (coins self.now.kept.position) v (32 * k + j)) }
    {
        self.kept.position.heads_in(k) && (32 * k..32 * k + 32).any(|c| self.falls(c, v))
    }

    // Whether c shows heads and its value falls when v is added.
    fn falls(&self, c: u32, v: u32) -> bool
        ensures { result ≡ falls (G.Game.rules self.now.game) (coins self.now.kept.position) v c }
    {
        if !self.heads(c) {
            return false;
        }
        let value = self.game.value(c);
        value ^ v < value
    }
}
