// What one look at a branch decides.
ghost use Rattle.std.specs.Prelude.{length};
ghost use Rattle.circuit.specs.Netlists.{netlist};
ghost use Rattle.circuit.specs.Solutions.{solves};
ghost use Rattle.search.specs.Branches.{Decided, Ready};

use crate::barring::{Barring, bars};
use crate::branch::Branch;
use crate::choice::{behind_output, last_fixed};
use crate::signals::output_on;
use circuit::{Circuit, Ternary};
use cubes::{Question, Row};

// Three cases, so no Option or Result would be plainer.
#[derive(Clone, Copy)]
pub enum Verdict {
    // No row of it fits the question.
    Empty,
    // This row fits.
    Found(Row),
    // Not seen yet: fix an open input, best the one at this place.
    Split(u32),
}

// What is seen of a branch without going further down.
pub fn look(
    circuit: &Circuit,
    values: &mut [Ternary],
    branch: Branch,
    question: Question,
) -> Verdict
    requires { Ready (netlist circuit.now) branch.inputs (length values.old) }
    ensures { Decided branch.inputs (solves (netlist circuit.now)) branch.care branch.value question.entry.wanted question.entry.barred.now result }
{
    let barring = bars(question.barred, branch);
    if let Barring::Whole = barring {
        return Verdict::Empty;
    }
    let output = output_on(circuit, values, branch);
    if output.is_some_and(|bit| bit != question.wanted) {
        return Verdict::Empty;
    }
    if let Barring::Part(entry) = barring {
        return Verdict::Split(last_fixed(entry, branch));
    }
    if output.is_some() {
        return Verdict::Found(branch.value());
    }
    Verdict::Split(behind_output(circuit, values))
}
