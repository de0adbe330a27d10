// What was tried of some games, and the lines that tell it.
ghost use Rattle.std.specs.Prelude.{◌&&◌, ◌==◌};

use std::fmt;
use tallies::{Tally, Tried};

// Six names, and no list of sections: in a list each would be a place, and what is counted an index.
#[derive(Clone, Copy, Debug, Default, PartialEq, Eq)]
pub struct Findings {
    title: &'static str,
    pub sizes: Tally,
    pub values: Tally,
    pub counts: Tally,
    pub moves: Tally,
    pub replies: Tally,
    pub off_board: Tally,
}

impl Findings {
    pub fn new(title: &'static str) -> Findings {
        Findings {
            title,
            ..Findings::default()
        }
    }
}

impl Tried for Findings {
    ghost agrees = { λ f. (f.sizes.differed == 0) && (f.values.differed == 0) && (f.counts.differed == 0) && (f.moves.differed == 0) && (f.replies.differed == 0) && (f.off_board.differed == 0) };

    fn all_agreed(&self) -> bool {
        self.sizes.all_agreed()
            && self.values.all_agreed()
            && self.counts.all_agreed()
            && self.moves.all_agreed()
            && self.replies.all_agreed()
            && self.off_board.all_agreed()
    }
}

impl fmt::Display for Findings {
    fn fmt<W: fmt::Write>(&self, f: &mut fmt::Formatter<W>) -> fmt::Result {
        let title = self.title;
        let Findings {
            sizes,
            values,
            counts,
            moves,
            replies,
            off_board,
            ..
        } = *self;
        writeln!(f, "{title}, sizes: {sizes}")?;
        writeln!(f, "{title}, values of cells: {values}")?;
        writeln!(f, "{title}, counts of moves: {counts}")?;
        writeln!(f, "{title}, moves: {moves}")?;
        writeln!(f, "{title}, replies: {replies}")?;
        write!(f, "{title}, cells off the board: {off_board}")
    }
}
