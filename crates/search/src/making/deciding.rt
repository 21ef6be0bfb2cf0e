// The search as a decider.
ghost use Rattle.std.specs.Prelude.{◌≡◌, false, length};
ghost use Rattle.cubes.specs.Deciders.{Kept};
ghost use Rattle.cubes.specs.Questions.{Answered};
ghost use Rattle.search.specs.Searches.{inputs_of, roomy, rows_of};

use crate::Search;
use crate::barring::{Barring, bars};
use crate::branch::Branch;
use crate::descent::descend;
use cubes::{Decider, Question, Row};

// The answer of a decider of no inputs and no rows: row 0 is all there is, outside its set.
fn outside_nothing(question: Question) -> Option<Row>
    ensures { Answered 0 (λ _. false) question.entry result }
{
    if question.wanted {
        return None;
    }
    let branch = Branch::of_cube(question.cube, 0)?;
    match bars(question.barred, branch) {
        Barring::Free => Some(0),
        Barring::Part(_) | Barring::Whole => None,
    }
}

impl<'a, 'b> Search<'a, 'b> {
    // Whether the value table has a place for each variable.
    fn is_roomy(&self) -> bool
        ensures { result ≡ roomy self.now }
    {
        self.circuit.places() <= self.values.len()
    }
}

impl<'a, 'b> Decider for Search<'a, 'b> {
    ghost arity = { inputs_of };

    ghost rows = { rows_of };

    fn inputs(&self) -> u32 {
        if self.is_roomy() {
            self.circuit.inputs()
        } else {
            0
        }
    }

    // Only the value table changes, and what it holds afterwards is free.
    fn ask(&mut self, question: Question) -> Option<Row>
        ensures answer { Answered (inputs_of self.old) (rows_of self.old) question.entry result }
        ensures kept { Kept inputs_of rows_of self.old self.new }
        ensures circuit_kept { self.new.circuit ≡ self.old.circuit }
    {
        if !self.is_roomy() {
            return outside_nothing(question);
        }
        let circuit = self.circuit;
        let branch = Branch::of_cube(question.cube, circuit.inputs())?;
        descend(&circuit, self.values, branch, question)
    }
}
