// Lent memory that is written from the front.
ghost use Rattle.std.specs.Prelude.{◌≡◌, ◌≤◌, ◌∷◌, [], length, decimal, take};
ghost use Rattle.pla.specs.Writing.{Fits, Starts, Wrote};

#[derive(Drop)]
pub struct Writer<'a> {
    memory: &'a mut [u8],
    // Where the next byte goes.
    at: usize,
}

impl<'a> Writer<'a> {
    pub fn new(memory: &'a mut [u8]) -> Writer<'a>
        ensures { Starts memory.entry result }
    {
        Writer { memory, at: 0 }
    }

    pub fn write(&mut self, bytes: &[u8])
        requires { Fits self.old bytes.now }
        ensures { Wrote self.old bytes.now self.new }
    {
        let end = self.at + bytes.len();
        self.memory[self.at..end].copy_from_slice(bytes);
        self.at = end;
    }

    pub fn push(&mut self, byte: u8)
        requires { Fits self.old (byte ∷ []) }
        ensures { Wrote self.old (byte ∷ []) self.new }
    {
        self.memory[self.at] = byte;
        self.at += 1;
    }

    // In decimal. Tried: `write!`, but no contract of std says when it does not fail.
    #[tactic(auto, using(crate::proofs::Decimals::length_one, crate::proofs::Decimals::length_step))]
    pub fn write_number(&mut self, number: usize)
        requires { Fits self.old (decimal number) }
        ensures { Wrote self.old (decimal number) self.new }
    {
        if number >= 10 {
            self.write_number(number / 10);
        }
        self.push(b'0' + (number % 10) as u8);
    }

    pub fn into_written(self) -> &'a [u8]
        requires { self.at ≤ length self.memory.now }
        ensures { result.now ≡ take self.entry.at self.entry.memory.now }
    {
        let Writer { memory, at } = self;
        &memory[..at]
    }
}
