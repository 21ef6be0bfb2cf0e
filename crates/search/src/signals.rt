// The circuit's three-valued output on a branch.
ghost use Rattle.std.specs.Prelude.{◌≡◌, length};
ghost use Rattle.circuit.specs.Netlists.{netlist};
ghost use Rattle.circuit.specs.Solutions.{solves};
ghost use Rattle.search.specs.Branches.{signal_of, told_at, Known, Ready};

use crate::branch::{Branch, all_fixed};
use circuit::{Assignment, Circuit, Ternary, Value, evaluate_on};

// Each input has its bit, or is unknown where the branch leaves it open.
impl Assignment<Ternary> for Branch {
    ghost gives = { λ b. signal_of b.inputs b.care b.value };

    fn input(self, place: u32) -> Ternary {
        if place < u32::BITS {
            // Past the branch's inputs each place is fixed, and to 0.
            told(self.care() | !all_fixed(self.inputs()), self.value(), place)
        } else {
            Ternary::Zero
        }
    }
}

// The same by the bits alone, where a place past those of a number stands for another, so that no shift needs a test.
fn told(care: u32, value: u32, place: u32) -> Ternary
    ensures { result ≡ told_at care value place }
{
    let place = place % u32::BITS;
    if (care >> place) % 2 == 0 {
        Ternary::Unknown
    } else if (value >> place) % 2 == 1 {
        Ternary::One
    } else {
        Ternary::Zero
    }
}

// The bit that the output has on each row of the branch, where three values suffice to see it. Not inlined, so that a search
// does not keep its part of the stack at every level.
#[inline(never)]
pub fn output_on(circuit: &Circuit, values: &mut [Ternary], branch: Branch) -> Option<bool>
    requires { Ready (netlist circuit.now) branch.inputs (length values.old) }
    ensures { Known branch.inputs branch.care branch.value (solves (netlist circuit.now)) result }
{
    // There is room, so nothing is refused.
    evaluate_on(circuit, branch, values).unwrap().look(0)
}
