// One evaluator for values of every kind.
ghost use Rattle.std.specs.Prelude.{◌≡◌, ℕ, ◌+◌, ◌*◌, ◌/◌, ◌%◌, ◌<◌, ◌≤◌, ◌++◌, length, take, drop, IfOk, slice_index, slice_set};
ghost use Rattle.circuit.specs.Limits.{max_gates};
ghost use Rattle.circuit.specs.Circuits.{either, literal, grown};
ghost use Rattle.circuit.specs.Netlists.{netlist};
ghost use Rattle.circuit.specs.Answers.{evaluated, table_after, Consistent, input_values, Sound, Settles};

use crate::{Circuit, Value};
use faults::TableFault;

// The value, or its inverse where the literal is odd.
fn signed<V: Value>(value: V, of: u32) -> V
    ensures { result ≡ either V.ops value of }
{
    if of % 2 == 1 { value.not() } else { value }
}

// The value of a literal, where `values` has each variable's.
fn operand<V: Value>(values: &[V], of: u32) -> V
    requires { of / 2 < length values.now }
    ensures { result ≡ literal V.ops values.now of }
{
    signed(values[(of / 2) as usize], of)
}

// Writes the value of gate `k`, from 0, into the gates' part of the value table.
// A rule of the project: the gates' part, which begins inside the table, is lent on to be written.
fn store<V: Value>(part: &mut [V], k: usize, value: V)
    requires { k < length part.old }
    ensures { part.new ≡ slice_set part.old k value }
{
    part[k] = value;
}

// Writes the value of each gate, in the places from `first`. Its operands stand before it.
fn fill<V: Value>(gates: &[u32], first: usize, values: &mut [V])
    requires even { length gates.now % 2 ≡ 0 }
    requires few { length gates.now ≤ 2 * max_gates }
    requires room { first + length gates.now / 2 ≤ length values.old }
    requires below { (k : ℕ) → k < length gates.now → slice_index gates.now k < 2 * (first + k / 2) }
    ensures { values.new ≡ grown V.ops gates.now (take first values.old) ++ drop (first + length gates.now / 2) values.old }
{
    let (pairs, _) = gates.as_chunks::<2>();
    for (k, pair) in pairs.iter().enumerate() {
        let left = operand(values, pair[0]);
        let right = operand(values, pair[1]);
        store(&mut values[first..], k, left.and(right));
    }
}

// The output's value, where the caller has filled the inputs' places. Writes place 0 and the gates' places.
pub fn evaluate<V: Value>(circuit: &Circuit, values: &mut [V]) -> Result<V, TableFault>
    ensures value { result ≡ evaluated V.ops (netlist circuit.now) values.old }
    ensures after { values.new ≡ table_after V.ops (netlist circuit.now) values.old }
    ensures consistent { IfOk result (Consistent V.ops (netlist circuit.now) values.new) }
    ensures sound { IfOk result (Sound V.LANES V.may (netlist circuit.now) (input_values V.ops.falsity circuit.now.inputs values.old)) }
    ensures settled { IfOk result (Settles V.LANES V.may circuit.now.inputs (input_values V.ops.falsity circuit.now.inputs values.old)) }
{
    circuit.check_places(values.len())?;
    values[0] = V::falsity();
    fill(circuit.gates(), circuit.inputs() as usize + 1, values);
    Ok(operand(values, circuit.output()))
}
