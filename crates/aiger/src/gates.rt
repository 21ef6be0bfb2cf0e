// The gate lines: a gate's own literal and its two operands.
ghost use Rattle.std.specs.Prelude.{◌≡◌, ◌*◌, ◌<◌, ◌≤◌, length};
ghost use Rattle.aiger.specs.Lines.{gate_at, gate_fits, words_of, gates_at};

use crate::counts::Counts;
use crate::file::File;
use faults::{CircuitFault, Rule, TextFault};
use text::triple_line;

#[derive(Clone, Copy)]
pub struct Gate {
    own: u32,
    left: u32,
    right: u32,
}

// The gate at a place, and the place after its line.
fn gate_line(file: &[u8], at: usize) -> Result<(Gate, usize), TextFault>
    ensures { result ≡ gate_at file.now at }
{
    let ([own, left, right], end) = triple_line(file, at)?;
    Ok((Gate { own, left, right }, end))
}

impl Gate {
    // Whether it may be gate `k`, from 0, of a circuit of these counts.
    fn judge(self, counts: Counts, k: u32) -> Result<(), CircuitFault>
        requires { k < counts.gates }
        ensures { result ≡ gate_fits self counts.inputs k }
    {
        let line = counts.inputs + 3 + k;
        if self.own != 2 * (counts.inputs + 1 + k) {
            return Err(CircuitFault::Broken(Rule::GateLiteral, line));
        }
        if self.left >= self.own || self.right >= self.own {
            return Err(CircuitFault::Broken(Rule::Operand, line));
        }
        Ok(())
    }

    // The gate's two words, the larger operand first.
    fn words(self) -> (u32, u32)
        ensures { result ≡ words_of self }
    {
        (self.left.max(self.right), self.left.min(self.right))
    }
}

// Reads the gate lines into the gate table, and gives the place after them.
pub fn gate_lines(
    file: File,
    start: usize,
    counts: Counts,
    table: &mut [u32],
) -> Result<usize, CircuitFault>
    requires { 2 * counts.gates ≤ length table.old }
    ensures { (table.new, result) ≡ gates_at file.entry.bytes.now counts.inputs 0 counts.gates start table.old }
{
    let mut at = start;
    // By index. Tried: `chunks_exact_mut(2)`, over which no invariant can name the table, so what was written is not known.
    for k in 0..counts.gates {
        let (gate, end) = file.located(gate_line(file.bytes, at))?;
        gate.judge(counts, k)?;
        let (larger, smaller) = gate.words();
        table[2 * k as usize] = larger;
        table[2 * k as usize + 1] = smaller;
        at = end;
    }
    Ok(at)
}
