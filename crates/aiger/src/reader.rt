// The whole file.
ghost use Rattle.std.specs.Prelude.{◌≡◌, length};
ghost use Rattle.aiger.specs.Reads.{into_of, read_of};
ghost use Rattle.aiger.specs.Grammar.{Exactly};
ghost use Rattle.aiger.specs.Told.{Told};

use crate::file::File;
use crate::gates::gate_lines;
use crate::header::Header;
use crate::literals::{input_lines, output_line};
use crate::symbols::symbol_lines;
use circuit::Reading;
use faults::CircuitFault;

// Reads the file, and writes the gates over the front of the table.
fn read_into(bytes: &[u8], table: &mut [u32]) -> Result<Reading, CircuitFault>
    ensures { (table.new, result) ≡ into_of bytes.now table.old }
{
    let file = File::new(bytes)?;
    let (header, inputs_at) = file.located(Header::read(bytes))?;
    let counts = header.judge(table.len())?;
    let output_at = input_lines(file, inputs_at, counts)?;
    let (output, gates_at) = output_line(file, output_at, counts)?;
    let symbols_at = gate_lines(file, gates_at, counts, table)?;
    symbol_lines(file, symbols_at, counts)?;
    Ok(Reading {
        inputs: counts.inputs,
        gates: counts.gates,
        output,
    })
}

// Reads a circuit: its numbers, and two words a gate in the table, the larger operand first, with 0 in all further
// words. Where the file is refused the whole table is 0, and what is told is the first rule that the file breaks, or the first
// place at which a line has not the form of its kind.
pub fn read(file: &[u8], table: &mut [u32]) -> Result<Reading, CircuitFault>
    ensures value { (table.new, result) ≡ read_of file.now (length table.old) }
    ensures written { Exactly file.now (length table.old) table.new result }
    ensures told { Told file.now (length table.old) result }
{
    table.fill(0);
    let answer = read_into(file, table);
    if answer.is_err() {
        table.fill(0);
    }
    answer
}
