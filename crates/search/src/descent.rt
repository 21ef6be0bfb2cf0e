// The search itself: down from branch to branch, with one open input fewer each time.
ghost use Rattle.std.specs.Prelude.{length};
ghost use Rattle.circuit.specs.Netlists.{netlist};
ghost use Rattle.circuit.specs.Solutions.{solves};
ghost use Rattle.cubes.specs.Deciders.{Answer};
ghost use Rattle.search.specs.Branches.{Ready};

use crate::branch::Branch;
use crate::verdict::{Verdict, look};
use circuit::{Circuit, Ternary};
use cubes::{Question, Row};

// A row of the branch, which lies in the question's cube, that fits the question: first with one open input fixed to 0, then to 1.
// The circuit and the lent values are two arguments down to `output_on`: a struct of both would have to say in each method that it still
// holds the same two, in as many clauses.
pub fn descend(
    circuit: &Circuit,
    values: &mut [Ternary],
    branch: Branch,
    question: Question,
) -> Option<Row>
    requires { Ready (netlist circuit.now) branch.inputs (length values.old) }
    ensures { Answer branch.inputs (solves (netlist circuit.now)) branch.care branch.value question.entry.wanted question.entry.barred.now result }
{
    let suggested = match look(circuit, values, branch, question) {
        Verdict::Empty => return None,
        Verdict::Found(row) => return Some(row),
        Verdict::Split(place) => place,
    };
    let place = branch.open_place(suggested)?;
    if let Some(row) = descend(circuit, values, branch.half(place, false), question) {
        return Some(row);
    }
    descend(circuit, values, branch.half(place, true), question)
}
