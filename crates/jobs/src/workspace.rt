// The memory that a job works in.
use circuit::{Ternary, Word};

// For a circuit that is read, and a decider of its solutions. Lent by the caller, with any content.
#[derive(Drop)]
pub struct Workspace<'a> {
    // Two words a gate.
    pub gate_table: &'a mut [u32],
    // For up to 16 inputs: a bit a row, and a place a variable.
    pub bits: &'a mut [u32],
    pub words: &'a mut [Word],
    // For more inputs: a place a variable.
    pub signals: &'a mut [Ternary],
}
