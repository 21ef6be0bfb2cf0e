// The table decider, made from a circuit in lent memory.
ghost use Rattle.std.specs.Prelude.{◌≡◌, ◌<◌, ◌≤◌, false, ◌&&◌, length, is_ok, if◌then◌else◌};
ghost use Rattle.circuit.specs.Netlists.{netlist};
ghost use Rattle.circuit.specs.Limits.{max_table_inputs};
ghost use Rattle.circuit.specs.Lanes.{words};
ghost use Rattle.circuit.specs.Solutions.{solves};
ghost use Rattle.table.specs.Tables.{table_answer, filled, rows_of, stands};

use crate::making::tabulate;
use crate::question::first;
use circuit::{Circuit, MAX_TABLE_INPUTS, Word};
use cubes::{Decider, Question, Row};
use faults::TableFault;

// Its number of inputs and the bits of its rows; 0 inputs, and so no rows, where its making was refused.
#[derive(Clone, Copy)]
pub struct Table<'a> {
    inputs: u32,
    bits: &'a [u32],
    ghost small: { inputs ≤ max_table_inputs },
    ghost room: { (0 < inputs → words inputs ≤ length bits.now) },
}

impl<'a> Table<'a> {
    // Makes the table of the circuit's solutions in `bits`. A refusal alters nothing; else what the value table holds afterwards is free.
    // By a rule of the project a decider whose making is refused is still there, with no inputs and no rows, so this is no
    // Result with it inside.
    pub fn make(
        circuit: &Circuit,
        bits: &'a mut [u32],
        values: &mut [Word],
    ) -> (Table<'a>, Result<(), TableFault>)
        ensures answer { result.1 ≡ table_answer (netlist circuit.now) (length bits.old) (length values.old) }
        ensures words { result.0.bits.now ≡ (if is_ok result.1 then filled circuit.now.inputs (solves (netlist circuit.now)) bits.old else bits.old) }
        ensures inputs { result.0.inputs ≡ (if is_ok result.1 then circuit.now.inputs else 0) }
        ensures rows { rows_of result.0.inputs result.0.bits.now ≡ (λ row. is_ok result.1 && solves (netlist circuit.now) row) }
        ensures values { is_ok result.1 ≡ false → values.new ≡ values.old }
    {
        match tabulate(circuit, bits, values) {
            Ok(()) => (Table::over(circuit, bits), Ok(())),
            Err(fault) => (Table { inputs: 0, bits }, Err(fault)),
        }
    }

    // The table of the rows that `bits` say, of as many inputs as the circuit has: its solutions, where `tabulate` wrote the
    // bits for it. It has no inputs, and so no rows, where the circuit has too many or the bits are too few.
    pub fn over(circuit: &Circuit, bits: &'a [u32]) -> Table<'a>
        ensures bits { result.bits.now ≡ bits.now }
        ensures inputs { result.inputs ≡ (if stands circuit.now.inputs (length bits.now) then circuit.now.inputs else 0) }
    {
        let inputs = circuit.inputs();
        if inputs > MAX_TABLE_INPUTS || (circuit.word_count() as usize) > bits.len() {
            return Table { inputs: 0, bits };
        }
        Table { inputs, bits }
    }
}

impl<'a> Decider for Table<'a> {
    ghost arity = { λ t. t.inputs };

    ghost rows = { λ t. rows_of t.inputs t.bits.now };

    fn inputs(&self) -> u32 {
        self.inputs
    }

    fn ask(&mut self, question: Question) -> Option<Row> {
        if self.inputs == 0 {
            first(0, &[0], question)
        } else {
            first(self.inputs, self.bits, question)
        }
    }
}
