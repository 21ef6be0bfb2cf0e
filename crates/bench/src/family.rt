// The timing family. Of n inputs, n - 1 divisible by 4, the last one chooses a half of the others:
// the output is 1 where some pair of neighbours in the chosen half has two ones.
ghost use Rattle.std.specs.Prelude.{◌≡◌, ◌+◌, ◌-◌, ◌/◌, ◌<◌, ◌≤◌, length};

use circuit::{Circuit, MAX_INPUTS, Reading};
use cubes::Entry;

// More than 30 inputs need.
const GATES: usize = 64;

// In arrays with a count, not in a `Vec`: a circuit of the family is there in any case, and can be copied.
#[derive(Clone, Copy)]
pub struct Family {
    inputs: u32,
    output: u32,
    // The operands of each gate, and how many gates there are.
    gates: [[u32; 2]; GATES],
    used: u32,
    ghost few: { inputs ≤ 30 },
    ghost room: { used ≤ 64 },
}

impl Family {
    pub fn new(inputs: u32) -> Family {
        let inputs = inputs.min(MAX_INPUTS);
        let mut family = Family {
            inputs,
            output: 0,
            gates: [[0; 2]; GATES],
            used: 0,
        };
        let pairs = family.pairs();
        let chooser = 2 * inputs;
        let first = family.half(1, pairs);
        let second = family.half(2 * pairs + 1, pairs);
        let chosen_first = family.and(first, chooser);
        let chosen_second = family.and(second, chooser ^ 1);
        family.output = family.or(chosen_first, chosen_second);
        family
    }

    pub fn circuit(&self) -> Circuit<'_> {
        let reading = Reading {
            inputs: self.inputs,
            gates: self.used,
            output: self.output,
        };
        Circuit::take_up(reading, self.gates.as_flattened())
    }

    // Puts the cubes of all pairs, with the half that each is in, into the first entries; none where there is no room.
    pub fn pair_cubes(&self, entries: &mut [Entry]) -> usize
        ensures { result ≤ length entries.old }
    {
        let inputs = self.inputs;
        let pairs = self.pairs();
        let count = 2 * pairs as usize;
        if entries.len() < count {
            return 0;
        }
        for k in 0..2 * pairs {
            entries[k as usize] = pair_cube(inputs, 2 * k + 1, k < pairs);
        }
        count
    }

    // How many pairs each half has.
    fn pairs(&self) -> u32
        ensures { result ≡ (self.now.inputs - 1) / 4 }
    {
        self.inputs.saturating_sub(1) / 4
    }

    // The disjunction of some pairs of neighbours, from a variable on.
    fn half(&mut self, variable: u32, pairs: u32) -> u32
        requires { (variable ≤ 30) × (pairs ≤ 8) }
    {
        let mut some = 0;
        for k in 0..pairs {
            let left = 2 * (variable + 2 * k);
            let pair = self.and(left, left + 2);
            some = self.or(some, pair);
        }
        some
    }

    fn or(&mut self, a: u32, b: u32) -> u32 {
        self.and(a ^ 1, b ^ 1) ^ 1
    }

    // One gate more, and its literal; false where there is no room for it.
    fn and(&mut self, a: u32, b: u32) -> u32 {
        let at = self.used as usize;
        if at >= GATES {
            return 0;
        }
        self.gates[at] = [a.max(b), a.min(b)];
        self.used += 1;
        2 * (self.inputs + self.used)
    }
}

// The cube of two neighbours that are ones, in the half that the last input chooses by this bit.
fn pair_cube(inputs: u32, variable: u32, bit: bool) -> Entry
    requires { (variable + 1 < inputs) × (inputs ≤ 30) }
{
    let pair = 3u32 << (inputs - variable - 1);
    Entry {
        care: pair | 1,
        value: pair | u32::from(bit),
    }
}
