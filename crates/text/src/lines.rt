// The lines of numbers that a file has.
ghost use Rattle.std.specs.Prelude.{◌≡◌};
ghost use Rattle.text.specs.Lines.{item_at, numbers_at, header_at};

use crate::line_machine::{Due, LineMachine};
use crate::machine::run;
use faults::TextFault;

// The word `aag` and five numbers, at the start of the file.
pub fn header_line(file: &[u8]) -> Result<([u32; 5], usize), TextFault>
    ensures { result ≡ header_at file.now }
{
    run(file, LineMachine::new(Due::Word(0), 0))
}

// A line that is one number.
pub fn number_line(file: &[u8], at: usize) -> Result<(u32, usize), TextFault>
    ensures { result ≡ item_at file.now at 10 }
{
    let ([_, _, _, _, value], end) = run(file, LineMachine::new(Due::Number(4), at))?;
    Ok((value, end))
}

// A line of three numbers.
pub fn triple_line(file: &[u8], at: usize) -> Result<([u32; 3], usize), TextFault>
    ensures { result ≡ numbers_at file.now at 2 }
{
    let ([_, _, first, second, third], end) = run(file, LineMachine::new(Due::Number(2), at))?;
    Ok(([first, second, third], end))
}
