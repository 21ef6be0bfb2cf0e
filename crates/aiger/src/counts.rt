// The counts of a circuit within the limits.
ghost use Rattle.std.specs.Prelude.{◌≡◌, ◌+◌, ◌≤◌};
ghost use Rattle.circuit.specs.Limits.{max_inputs, max_gates};

// The highest variable, and how many inputs and gates there are.
#[derive(Clone, Copy)]
pub struct Counts {
    pub highest: u32,
    pub inputs: u32,
    pub gates: u32,
    ghost few: { inputs ≤ max_inputs },
    ghost capped: { gates ≤ max_gates },
    ghost all: { highest ≡ inputs + gates },
}
