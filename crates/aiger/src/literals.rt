// The lines of one literal: the inputs and the output.
ghost use Rattle.std.specs.Prelude.{◌≡◌};
ghost use Rattle.aiger.specs.Lines.{inputs_at, output_at};

use crate::counts::Counts;
use crate::file::File;
use faults::{CircuitFault, Rule};
use text::number_line;

// The place after the input lines.
pub fn input_lines(file: File, start: usize, counts: Counts) -> Result<usize, CircuitFault>
    ensures { result ≡ inputs_at file.entry.bytes.now start 1 counts.inputs }
{
    let mut at = start;
    for k in 1..=counts.inputs {
        let (literal, end) = file.located(number_line(file.bytes, at))?;
        if literal != 2 * k {
            return Err(CircuitFault::Broken(Rule::InputLine, k + 1));
        }
        at = end;
    }
    Ok(at)
}

// The output's literal, and the place after its line.
pub fn output_line(file: File, at: usize, counts: Counts) -> Result<(u32, usize), CircuitFault>
    ensures { result ≡ output_at file.entry.bytes.now at counts.highest counts.inputs }
{
    let (literal, end) = file.located(number_line(file.bytes, at))?;
    if literal > 2 * counts.highest + 1 {
        return Err(CircuitFault::Broken(Rule::OutputLiteral, counts.inputs + 2));
    }
    Ok((literal, end))
}
