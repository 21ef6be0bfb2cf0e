// Line 1: the numbers of the circuit.
ghost use Rattle.std.specs.Prelude.{◌≡◌, ◌*◌, ◌≤◌, IfOk, OnOk, MatchResult};
ghost use Rattle.aiger.specs.Lines.{header_read, header_fits};

use crate::counts::Counts;
use circuit::{MAX_GATES, MAX_INPUTS};
use faults::{CircuitFault, Rule, TextFault};
use text::header_line;

// The highest variable, and how many inputs, latches, outputs and gates there are.
#[derive(Clone, Copy)]
pub struct Header {
    pub highest: u32,
    pub inputs: u32,
    pub latches: u32,
    pub outputs: u32,
    pub gates: u32,
}

impl Header {
    // The header of a file, and the place after its line.
    pub fn read(file: &[u8]) -> Result<(Header, usize), TextFault>
        ensures { result ≡ header_read file.now }
    {
        let ([highest, inputs, latches, outputs, gates], end) = header_line(file)?;
        Ok((
            Header {
                highest,
                inputs,
                latches,
                outputs,
                gates,
            },
            end,
        ))
    }

    // The counts, if the numbers keep the limits, with a gate table of so many words.
    pub fn judge(self, words: usize) -> Result<Counts, CircuitFault>
        ensures value { MatchResult result (λ _. header_fits self words ≡ Ok tt) (λ e. header_fits self words ≡ Err e) }
        ensures counts { IfOk result (λ c. (c.highest ≡ self.highest) × (c.inputs ≡ self.inputs) × (c.gates ≡ self.gates)) }
        ensures room { OnOk result (2 * self.gates ≤ words) }
    {
        if self.inputs < 1 || self.inputs > MAX_INPUTS {
            return Err(CircuitFault::Broken(Rule::InputCount, 1));
        }
        if self.latches != 0 {
            return Err(CircuitFault::Broken(Rule::LatchCount, 1));
        }
        if self.outputs != 1 {
            return Err(CircuitFault::Broken(Rule::OutputCount, 1));
        }
        if self.gates > MAX_GATES {
            return Err(CircuitFault::Broken(Rule::GateCount, 1));
        }
        if self.highest != self.inputs + self.latches + self.gates {
            return Err(CircuitFault::Broken(Rule::HighestVariable, 1));
        }
        if words < 2 * self.gates as usize {
            return Err(CircuitFault::Broken(Rule::GateTable, 1));
        }
        Ok(Counts {
            highest: self.highest,
            inputs: self.inputs,
            gates: self.gates,
        })
    }
}
