// Games as they are played, from the first coin to the last.
#![tactic(auto)]

#[cfg(test)]
mod steps;

#[cfg(test)]
mod tests {
    use games::{Game, Twins};
    use piles::Pile;
    use std::test::Fail;
    use tables::calls::{Answer, Call, Move, Refusal, State};
    use tables::replay::replay;
    use tables::table::Table;

    fn at(cell: u32, number: u32) -> Move {
        Move { cell, number }
    }

    #[test]
    fn rugs_two_by_two(rt: HostRuntime) -> Result<(), Fail> {
        let Some(pile) = Pile::new(2, 2, 2, 0) else {
            return Err(Fail::new("no pile"));
        };
        let mut table = Table::new(pile);
        assert_eq!(rt; table.lay(0), Ok(Answer::Laid));
        assert_eq!(rt; table.lay(3), Ok(Answer::Laid));
        assert_eq!(rt; table.begin(), Ok(Answer::Begun(State::Playing)));
        assert_eq!(rt; table.value(), Ok(Answer::Worth(2)));
        let m = at(3, 3);
        assert_eq!(rt; table.advise(), Ok(Answer::Advice(Some(m))));
        assert_eq!(rt; table.weigh(m), Ok(Answer::Worth(0)));
        assert_eq!(rt; table.turn(m), Ok(Answer::Turned(State::Playing)));
        assert_eq!(rt; table.advise(), Ok(Answer::Advice(None)));
        assert_eq!(rt; table.turn(at(0, 0)), Err(Refusal::Tails));
        assert_eq!(rt; table.turn(at(1, 0)), Ok(Answer::Turned(State::Playing)));
        assert_eq!(rt; table.turn(at(2, 0)), Ok(Answer::Turned(State::Over)));
        assert_eq!(rt; table.side().number(), 2);
        Ok(())
    }

    #[test]
    fn a_head_with_no_move_ends_the_game(rt: HostRuntime) {
        let mut table = Table::new(Twins::new(4));
        assert_eq!(rt; table.lay(0), Ok(Answer::Laid));
        assert_eq!(rt; table.begin(), Ok(Answer::Begun(State::Over)));
        assert!(rt; table.heads(0));
        assert_eq!(rt; table.advise(), Err(Refusal::NotNow));
    }

    #[test]
    fn refusals_in_their_order(rt: HostRuntime) {
        let mut empty = Table::new(Twins::new(65));
        assert_eq!(rt; empty.turn(at(9, 9)), Err(Refusal::NoCells));
        let mut table = Table::new(Twins::new(4));
        assert_eq!(rt; table.turn(at(9, 9)), Err(Refusal::NotNow));
        assert_eq!(rt; table.lay(4), Err(Refusal::OffBoard));
        assert_eq!(rt; table.lay(3), Ok(Answer::Laid));
        assert_eq!(rt; table.lay(3), Err(Refusal::Heads));
        assert_eq!(rt; table.begin(), Ok(Answer::Begun(State::Playing)));
        assert_eq!(rt; table.turn(at(4, 9)), Err(Refusal::OffBoard));
        assert_eq!(rt; table.turn(at(2, 9)), Err(Refusal::Tails));
        assert_eq!(rt; table.weigh(at(3, 3)), Err(Refusal::NoMove));
    }

    #[test]
    fn a_run_gives_every_reply(rt: HostRuntime) -> Result<(), Fail> {
        let calls = [Call::Lay(2), Call::Begin, Call::Turn(at(2, 0)), Call::Value];
        let replies = replay(rt.alloc(), Twins::new(3), &calls)?;
        assert_eq!(rt; replies.len(), 4);
        Ok(())
    }
}
