// The memory that a job works in, as a program owns it.
ghost use Rattle.std.specs.Prelude.{◌≡◌, IfOk};
ghost use Rattle.jobs.specs.Lists.{room_of};
ghost use Rattle.jobs.specs.Sizes.{enough};
ghost use Rattle.shell.specs.Memories.{room_in, Blank, Lends};

use circuit::{Ternary, Word};
use jobs::{BIT_WORDS, GATE_WORDS, PLACES, Workspace};
use std::alloc::{AllocError, Global};

#[derive(Drop)]
pub struct Memory {
    gate_table: Vec<u32>,
    bits: Vec<u32>,
    words: Vec<Word>,
    signals: Vec<Ternary>,
}

impl Memory {
    // Enough for every circuit within the limits.
    pub fn new(heap: Global) -> Result<Memory, AllocError>
        ensures room { IfOk result (λ memory. room_in memory ≡ enough) }
        ensures blank { IfOk result Blank }
    {
        Ok(Memory {
            gate_table: vec![in heap; 0u32; GATE_WORDS]?,
            bits: vec![in heap; 0u32; BIT_WORDS]?,
            words: vec![in heap; Word::new(0); PLACES]?,
            signals: vec![in heap; Ternary::Zero; PLACES]?,
        })
    }

    pub fn lend(&mut self) -> Workspace<'_>
        ensures room { room_of result ≡ room_in self.old }
        ensures lent { Lends self.old result }
    {
        Workspace {
            gate_table: self.gate_table.as_mut_slice(),
            bits: self.bits.as_mut_slice(),
            words: self.words.as_mut_slice(),
            signals: self.signals.as_mut_slice(),
        }
    }
}
