// One row at a time, by the bit kind.
ghost use Rattle.std.specs.Prelude.{◌≡◌, length};
ghost use Rattle.circuit.specs.Kinds.{bit_ops};
ghost use Rattle.circuit.specs.Netlists.{netlist};
ghost use Rattle.circuit.specs.Solutions.{per_input, solves};
ghost use Rattle.circuit.specs.Answers.{with_room, after_with};
ghost use Rattle.circuit.specs.Lanes.{row_bit};

use crate::{Assignment, Bit, Circuit, bit_at, evaluate_on};
use faults::TableFault;

// A row, by its number.
#[derive(Clone, Copy)]
struct SingleRow(u32);

impl Assignment<Bit> for SingleRow {
    ghost gives = { λ r. row_bit r.0 };

    fn input(self, place: u32) -> Bit {
        Bit::new(bit_at(self.0, place))
    }
}

// Whether a row is a solution. Of a larger number only the inputs' bits count.
pub fn solution(circuit: &Circuit, row: u32, values: &mut [Bit]) -> Result<bool, TableFault>
    ensures value { result ≡ with_room (netlist circuit.now) (length values.old) (solves (netlist circuit.now) row) }
    ensures after { values.new ≡ after_with bit_ops (netlist circuit.now) (per_input (row_bit row) circuit.now.inputs) values.old }
{
    let output = evaluate_on(circuit, SingleRow(row), values)?;
    Ok(output.on())
}
