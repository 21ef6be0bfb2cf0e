// Circuits over a lent gate table. Their limits are kept by the type, so that no later call checks them.
ghost use Rattle.std.specs.Prelude.{◌≡◌, ℕ, ◌+◌, ◌*◌, ◌/◌, ◌%◌, ◌<◌, ◌≤◌, length, slice_index};
ghost use Rattle.circuit.specs.Limits.{max_inputs, max_gates};
ghost use Rattle.circuit.specs.Lanes.{words};

use crate::LANE_PLACES;

pub mod room;
pub mod taking;

#[derive(Clone, Copy)]
pub struct Circuit<'a> {
    inputs: u32,
    output: u32,
    // Two words a gate, since the layout of the gate table is fixed.
    gates: &'a [u32],
    ghost ranged: { (1 ≤ inputs) × (inputs ≤ max_inputs) },
    ghost capped: { length gates.now ≤ 2 * max_gates },
    ghost paired: { length gates.now % 2 ≡ 0 },
    ghost below: { (k : ℕ) → k < length gates.now → slice_index gates.now k < 2 * (inputs + 1 + k / 2) },
    ghost reached: { output ≤ 2 * (inputs + length gates.now / 2) + 1 },
}

impl<'a> Circuit<'a> {
    pub fn inputs(&self) -> u32
        ensures { result ≡ self.now.inputs }
    {
        self.inputs
    }

    pub fn gate_count(&self) -> u32
        ensures { result ≡ length self.now.gates.now / 2 }
    {
        (self.gates.len() / 2) as u32
    }

    pub fn output(&self) -> u32
        ensures { result ≡ self.now.output }
    {
        self.output
    }

    // The gates' operands, two words a gate.
    pub fn gates(&self) -> &'a [u32]
        ensures { result.now ≡ self.now.gates.now }
    {
        self.gates
    }

    // How many words the rows fill, 32 to a word.
    pub fn word_count(&self) -> u32
        ensures { result ≡ words self.now.inputs }
    {
        1 << self.inputs.saturating_sub(LANE_PLACES)
    }
}
