// Which open input to fix first. A good choice saves branches and none spoils an answer, so nothing is promised of it.
use crate::branch::Branch;
use circuit::{Circuit, Ternary};
use cubes::Entry;

// The last open input that the entry fixes.
pub fn last_fixed(entry: Entry, branch: Branch) -> u32 {
    (entry.care & !branch.care()).trailing_zeros()
}

// An input that keeps the output unknown: back from the output, from gate to gate, by unknown operands.
pub fn behind_output(circuit: &Circuit, values: &[Ternary]) -> u32 {
    let inputs = circuit.inputs();
    let mut variable = circuit.output() / 2;
    for _ in 0..circuit.gate_count() {
        if variable <= inputs {
            return inputs - variable;
        }
        variable = unknown_operand(circuit.gates(), values, variable - inputs - 1);
    }
    inputs.saturating_sub(variable)
}

// The variable of the gate's first operand where that is unknown, else of its second.
fn unknown_operand(gates: &[u32], values: &[Ternary], gate: u32) -> u32 {
    let (pairs, _) = gates.as_chunks::<2>();
    let Some([first, second]) = pairs.get(gate as usize) else {
        return 0;
    };
    match values.get((first / 2) as usize) {
        Some(Ternary::Unknown) => first / 2,
        _ => second / 2,
    }
}
