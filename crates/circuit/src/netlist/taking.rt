// Taking up a circuit: which reading and gate table make one within the limits.
ghost use Rattle.std.specs.Prelude.{◌≡◌, ℕ, ◌+◌, ◌*◌, ◌/◌, ◌<◌, ◌≤◌, true, length, slice_index};
ghost use Rattle.circuit.specs.Limits.{max_inputs, max_gates};
ghost use Rattle.circuit.specs.Circuits.{ordered, taken_up};
ghost use Rattle.circuit.specs.Netlists.{netlist};

use crate::{Circuit, MAX_GATES, MAX_INPUTS, Reading};

impl<'a> Circuit<'a> {
    // The circuit of a reading and its gate table, or where they break the limits one input with output 0.
    pub fn take_up(reading: Reading, table: &'a [u32]) -> Circuit<'a>
        ensures { netlist result ≡ taken_up reading table.now }
    {
        let inputs = reading.inputs;
        let output = reading.output;
        let words = 2 * reading.gates as usize;
        if (1..=MAX_INPUTS).contains(&inputs)
            && reading.gates <= MAX_GATES
            && output <= 2 * (inputs + reading.gates) + 1
            && words <= table.len()
        {
            let gates = &table[..words];
            if in_order(inputs, gates) {
                return Circuit {
                    inputs,
                    output,
                    gates,
                };
            }
        }
        Circuit {
            inputs: 1,
            output: 0,
            gates: &[],
        }
    }
}

// Whether each operand is below its gate's own literal.
fn in_order(inputs: u32, gates: &[u32]) -> bool
    requires few { (inputs ≤ max_inputs) × (length gates.now ≤ 2 * max_gates) }
    ensures value { result ≡ ordered inputs 0 gates.now }
    ensures below { result ≡ true → (k : ℕ) → k < length gates.now → slice_index gates.now k < 2 * (inputs + 1 + k / 2) }
{
    gates.iter().enumerate().all(|(k, operand)| *operand < 2 * (inputs + 1 + (k / 2) as u32))
}
