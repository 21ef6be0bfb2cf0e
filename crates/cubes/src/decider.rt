// A decider means a number of inputs and a set of rows, and answers questions about them.
ghost use Rattle.std.specs.Prelude.{◌≡◌, ℕ, Bool};
ghost use Rattle.cubes.specs.Deciders.{Kept};
ghost use Rattle.cubes.specs.Questions.{Answered};

use crate::{Cube, Entry, Row};

// For a row of the cube that no barred entry holds, in the set if it is wanted, else outside it.
#[derive(Clone, Copy)]
pub struct Question<'a> {
    pub cube: Cube,
    pub wanted: bool,
    pub barred: &'a [Entry],
}

pub trait Decider {
    // How many inputs.
    ghost arity: { Self → ℕ };

    // Which rows are in the set.
    ghost rows: { Self → ℕ → Bool };

    fn inputs(&self) -> u32
        ensures { result ≡ arity self.now };

    // Such a row, or nothing where there is none.
    fn ask(&mut self, question: Question) -> Option<Row>
        ensures answer { Answered (arity self.old) (rows self.old) question.entry result }
        ensures kept { Kept arity rows self.old self.new };
}
