// The table of a circuit's solutions, a word of 32 rows at a time.
ghost use Rattle.std.specs.Prelude.{◌≡◌, ◌<◌, ◌≤◌, true, false, length, is_ok, OnOk, if◌then◌else◌};
ghost use Rattle.circuit.specs.Netlists.{netlist};
ghost use Rattle.circuit.specs.Circuits.{highest};
ghost use Rattle.circuit.specs.Lanes.{words};
ghost use Rattle.circuit.specs.Solutions.{solves};
ghost use Rattle.table.specs.Tables.{table_answer, word_of, filled, rows_of, stands};

use circuit::{Circuit, MAX_TABLE_INPUTS, Word, solve_word, used_lanes};
use faults::TableFault;

// Whether a table of so many words and a value table of so many places suffice.
fn room(circuit: &Circuit, size: usize, places: usize) -> Result<(), TableFault>
    ensures { result ≡ table_answer (netlist circuit.now) size places }
{
    let inputs = circuit.inputs();
    if inputs > MAX_TABLE_INPUTS {
        return Err(TableFault::TooManyInputs(inputs));
    }
    let needed = circuit.word_count() as usize;
    if size < needed {
        return Err(TableFault::BitsShort(needed));
    }
    circuit.check_places(places)
}

// Word w of the table: the solutions among its rows, and 0 where a bit is no row.
fn table_word(circuit: &Circuit, w: u32, values: &mut [Word]) -> u32
    requires place { w < words circuit.now.inputs }
    requires values { highest (netlist circuit.now) < length values.old }
    ensures { result ≡ word_of circuit.now.inputs (solves (netlist circuit.now)) w }
{
    let word = solve_word(circuit, w, values).unwrap();
    word.bits() & used_lanes(circuit.inputs())
}

// Fills the words that the rows need.
fn fill(circuit: &Circuit, bits: &mut [u32], values: &mut [Word])
    requires words { words circuit.now.inputs ≤ length bits.old }
    requires values { highest (netlist circuit.now) < length values.old }
    ensures { bits.new ≡ filled circuit.now.inputs (solves (netlist circuit.now)) bits.old }
{
    let words = &mut bits[..circuit.word_count() as usize];
    for (w, word) in words.iter_mut().enumerate() {
        *word = table_word(circuit, w as u32, values);
    }
}

// Writes the table of the circuit's solutions into `bits`, which then mean just these rows. A refusal alters nothing; else
// what the value table holds afterwards is free.
pub fn tabulate(circuit: &Circuit, bits: &mut [u32], values: &mut [Word]) -> Result<(), TableFault>
    ensures answer { result ≡ table_answer (netlist circuit.now) (length bits.old) (length values.old) }
    ensures words { bits.new ≡ (if is_ok result then filled circuit.now.inputs (solves (netlist circuit.now)) bits.old else bits.old) }
    ensures values { is_ok result ≡ false → values.new ≡ values.old }
    ensures stands { OnOk result (stands circuit.now.inputs (length bits.new) ≡ true) }
    ensures rows { OnOk result (rows_of circuit.now.inputs bits.new ≡ solves (netlist circuit.now)) }
{
    room(circuit, bits.len(), values.len())?;
    fill(circuit, bits, values);
    Ok(())
}
